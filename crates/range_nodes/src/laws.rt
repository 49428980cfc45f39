// The laws, each as the contract of a call that does nothing.
ghost use Rattle.range_nodes.specs.Laws.{NoTablesLaw, NodeStaysLaw, BoundStaysLaw, NewTablesLaw, NodeRulesLaw, RelaxedAtLaw, FeasibleFoundLaw, ShortNodeLaw, StageBelowLaw, RootsLaw, TreeSolvesLaw};

/// A search begins with no tables.
pub fn no_tables_law()
    ensures { NoTablesLaw }
{}

/// A node stays one as tables come behind its own.
pub fn node_stays_law()
    ensures { NodeStaysLaw }
{}

/// A node's bound stays as tables come behind its own.
pub fn bound_stays_law()
    ensures { BoundStaysLaw }
{}

/// New tables keep the rules on tables.
pub fn new_tables_law()
    ensures { NewTablesLaw }
{}

/// A node that is next, and within the budget, keeps the rules on nodes.
pub fn node_rules_law()
    ensures { NodeRulesLaw }
{}

/// A node whose bound is below `INF` has a relaxed plan, by which it may be split.
pub fn relaxed_at_law()
    ensures { RelaxedAtLaw }
{}

/// A relaxed plan that meets all arcs is feasible.
pub fn feasible_found_law()
    ensures { FeasibleFoundLaw }
{}

/// A node has at most a root for each stage, and its plan two times for each.
pub fn short_node_law()
    ensures { ShortNodeLaw }
{}

/// Each stage's table stands at or below the roots.
pub fn stage_below_law()
    ensures { StageBelowLaw }
{}

/// A node's roots are those of the forest, by rising number of their stages.
pub fn roots_law()
    ensures { RootsLaw }
{}

/// Where no arc is dropped, the node of the whole range solves the network.
pub fn tree_solves_law()
    ensures { TreeSolvesLaw }
{}
