// The laws, each as the contract of a call that does nothing.
ghost use Rattle.range_splits.specs.Laws.{SplitLaw, LeavesLaw, NextLaw, OpenLaw, BreakLaw, CutLaw, EndLaw};

/// The rules on a split hold where it names the next leaf, which is open, has a relaxed plan, and breaks the arc.
pub fn split_law()
    ensures { SplitLaw }
{}

/// Which leaves there are where one more is cut.
pub fn leaves_law()
    ensures { LeavesLaw }
{}

/// The first of the leaves is split next, and has the least bound.
pub fn next_law()
    ensures { NextLaw }
{}

/// The relaxed plan of an open node is not feasible.
pub fn open_law()
    ensures { OpenLaw }
{}

/// The arc that a node's relaxed plan breaks most is one that it breaks.
pub fn break_law()
    ensures { BreakLaw }
{}

/// An interval that is cut holds the time at which it is cut, and the next.
pub fn cut_law()
    ensures { CutLaw }
{}

/// The ending of a search keeps the rules on verdicts.
pub fn end_law()
    ensures { EndLaw }
{}
