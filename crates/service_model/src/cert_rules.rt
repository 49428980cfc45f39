// The rules on certificates by their numbers, in their order, and the limits of a certificate's numbers.

/// K1: the line has too many bytes.
pub const LONG_LINE: u8 = 1;
/// K2: the line is no JSON.
pub const NOT_JSON: u8 = 2;
/// K3: the value is none of the five arrays, or a number is out of its range.
pub const SHAPE: u8 = 3;
/// K4: the first line is no head, or a later one is.
pub const HEAD: u8 = 4;
/// K5: the head's version is unknown.
pub const VERSION: u8 = 5;
/// K6: an end came before.
pub const AFTER_END: u8 = 6;
/// K7: a node comes where a split or an end is due, or the other way round.
pub const PLACE: u8 = 7;
/// K8: there is no end.
pub const NO_END: u8 = 8;
/// K9: the horizon or the number of stages is not the network's.
pub const NETWORK: u8 = 9;
/// K10: a table's stage, interval, floor or number of values is not of the network.
pub const TABLE: u8 = 10;
/// K11: a child is no earlier table.
pub const CHILD: u8 = 11;
/// K12: no arc joins a child and its parent, or it leads the other way.
pub const CHILD_ARC: u8 = 12;
/// K13: a value is above a local sum that it covers.
pub const LOCAL: u8 = 13;
/// K14: there are more nodes than the budget.
pub const BUDGET: u8 = 14;
/// K15: a root is no earlier table, or no Root table.
pub const ROOT: u8 = 15;
/// K16: a table at or below a root does not fit the node's range.
pub const FITS: u8 = 16;
/// K17: a stage stands twice at or below the roots.
pub const STAGE_TWICE: u8 = 17;
/// K18: a relaxed plan has not two times for each stage.
pub const RELAXED: u8 = 18;
/// K19: the split node is not the leaf of least bound.
pub const SPLIT_NODE: u8 = 19;
/// K20: that bound is `INF`, or not below the cost of the plan found.
pub const SPLIT_LATE: u8 = 20;
/// K21: the split node has no relaxed plan, or its plan does not fit or does not cost the bound.
pub const SPLIT_PLAN: u8 = 21;
/// K22: the split names no arc, or one that the relaxed plan meets.
pub const SPLIT_ARC: u8 = 22;
/// K23: the outcome or the bound is not that of the nodes.
pub const VERDICT: u8 = 23;
/// K24: the plan is not that of the ending.
pub const PLAN: u8 = 24;

/// The greatest number of a thing in a certificate.
pub const MAX_NUMBER: u32 = 4_294_967_295;

/// The largest budget of nodes.
pub const MAX_BUDGET: u32 = 10_000;
