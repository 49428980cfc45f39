// The laws, each as the contract of a call that does nothing.
ghost use Rattle.trial_rows.specs.Laws.{PassesLaw, ZeroPlanLaw, RowsLaw};

/// No rule on files and networks fails on the files of a trial network.
pub fn passes()
    ensures { PassesLaw }
{}

/// The network of the files of a trial network allows the plan whose times are all 0.
pub fn zero_plan()
    ensures { ZeroPlanLaw }
{}

/// The files of a trial network have few rows, and short ones.
pub fn few_rows()
    ensures { RowsLaw }
{}
