// The laws, each as the contract of a call that does nothing.
ghost use Rattle.gsm_laws.specs.Laws.{BelowLaw, TracedLaw, FeasibleLaw, NodeLaw, TraceLaw, WholeLaw};

/// At or below a table stand the table and what is at or below its children.
pub fn below_law()
    ensures { BelowLaw }
{}

/// A table's value at the times of a plan is at most what the plan costs at and below the table.
pub fn traced_law()
    ensures { TracedLaw }
{}

/// A sound table's value at the times of a feasible plan within it and the tables below it is at most what the plan
/// costs at and below the table.
pub fn feasible_law()
    ensures { FeasibleLaw }
{}

/// A node's bound is at most what each feasible plan of its range costs.
pub fn node_law()
    ensures { NodeLaw }
{}

/// Each value of a tight table that is below `INF` is what some plan costs at and below the table.
pub fn trace_law()
    ensures { TraceLaw }
{}

/// The bound of a node with a table for each stage is the least that a plan within its tables costs.
pub fn whole_law()
    ensures { WholeLaw }
{}
