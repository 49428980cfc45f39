// The laws, each as the contract of a call that does nothing.
ghost use Rattle.arc_relax.specs.Laws.{EmptyLaw, FeasibleLaw, TreeLaw};
ghost use Rattle.arc_relax.specs.Counts.{StepLaw};

/// Where the least cost of a range is `INF`, no plan of the range meets the kept arcs.
pub fn empty_law()
    ensures { EmptyLaw }
{}

/// A feasible plan of a range meets the kept arcs, whichever these are.
pub fn feasible_law()
    ensures { FeasibleLaw }
{}

/// Where every arc joins a parent and its child, the least cost of the whole range is that of the network.
pub fn tree_law()
    ensures { TreeLaw }
{}

/// A range relaxed over an empty pool fills one table for each stage.
pub fn step_law()
    ensures { StepLaw }
{}
