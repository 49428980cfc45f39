// The laws, each as the contract of a call that does nothing.
ghost use Rattle.cert_laws.specs.Laws.{LeafLaw, LeastBoundLaw, FoundMoreLaw, RepairLaw, FoundOneLaw, TableMoreLaw, NodeStaysLaw, TrueLaw, EndingOneLaw};
ghost use Rattle.cert_laws.specs.ItemLaws.{ItemMoreLaw, BoundLaw, CheckLaw, AcceptedLaw, CertLaw, EarnedLaw, BudgetLaw, FaultOneLaw, NoFaultLaw, FirstLaw, GrownLaw, TablesLaw};

/// Each feasible plan lies in the range of exactly one leaf.
pub fn leaf_law()
    ensures { LeafLaw }
{}

/// A number that is above no leaf's bound is above the cost of no feasible plan.
pub fn least_bound_law()
    ensures { LeastBoundLaw }
{}

/// With one node more the plan found is the better one of the plan found before and the node's own.
pub fn found_more_law()
    ensures { FoundMoreLaw }
{}

/// Each repair of a plan is one plan.
pub fn repair_law()
    ensures { RepairLaw }
{}

/// The plan found is one plan.
pub fn found_one_law()
    ensures { FoundOneLaw }
{}

/// A table that keeps the rules over the tables before it leaves the tables sound.
pub fn table_more_law()
    ensures { TableMoreLaw }
{}

/// Later tables leave a node as it is.
pub fn node_stays_law()
    ensures { NodeStaysLaw }
{}

/// The ending of a search is true of the network, where its tables are sound, its splits cut its leaves and its nodes
/// fit their ranges.
pub fn true_law()
    ensures { TrueLaw }
{}

/// A search has at most one ending.
pub fn ending_one_law()
    ensures { EndingOneLaw }
{}

/// An item on which no rule fails leaves what came sound.
pub fn item_more_law()
    ensures { ItemMoreLaw }
{}

/// Where no rule fails on any item, each node's bound is at most the cost of each feasible plan of its range.
pub fn bound_law()
    ensures { BoundLaw }
{}

/// Where no rule fails on any item, whoever wrote them, the verdict is true of the network.
pub fn check_law()
    ensures { CheckLaw }
{}

/// An accepted certificate has a verdict, which is true of the network.
pub fn accepted_law()
    ensures { AcceptedLaw }
{}

/// Where no rule fails on the items of a certificate, its verdict is true of the network.
pub fn cert_law()
    ensures { CertLaw }
{}

/// Where no rule fails on any item, each split is earned by the nodes before it.
pub fn earned_law()
    ensures { EarnedLaw }
{}

/// Where no rule fails on any item, there are no more nodes than the head allows.
pub fn budget_law()
    ensures { BudgetLaw }
{}

/// Items have at most one first fault.
pub fn fault_one_law()
    ensures { FaultOneLaw }
{}

/// Accepted items have no fault.
pub fn no_fault_law()
    ensures { NoFaultLaw }
{}

/// The items of a certificate of one node.
pub fn first_law()
    ensures { FirstLaw }
{}

/// With one split more come the split and its two nodes, behind the items that there were.
pub fn grown_law()
    ensures { GrownLaw }
{}

/// Tables that keep their rules one over another keep all rules.
pub fn tables_law()
    ensures { TablesLaw }
{}
