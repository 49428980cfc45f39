// How a run ends.
ghost use Rattle.std.specs.Prelude.{◌≡◌};

/// How a run of the program ends.
#[derive(Clone, Copy, Debug, PartialEq, Eq)]
pub enum Status {
    /// The answer is whole and good: for `solve`, a least plan was found.
    Done,
    /// No plan is feasible.
    Infeasible,
    /// The budget of ranges was spent before the search ended.
    Spent,
    /// A rule on the words fails.
    Words,
    /// A rule on the files fails.
    Refused,
    /// A file is longer than its limit.
    TooLong,
    /// A file could not be read.
    ReadFault,
    /// Something could not be written.
    WriteFault,
    /// Memory did not suffice.
    NoMemory,
    /// A certificate is not accepted.
    NotAccepted,
    /// A plan is not feasible.
    NotFeasible,
}

impl Status {
    ghost use Rattle.planner_top.specs.Statuses.{status_number};

    /// The number with which the program ends.
    pub fn number(&self) -> u8
        ensures { result ≡ status_number self.now }
    {
        match self {
            Status::Done => 0,
            Status::Infeasible => 2,
            Status::Spent => 3,
            Status::Words => 4,
            Status::Refused => 5,
            Status::TooLong => 6,
            Status::ReadFault => 7,
            Status::WriteFault => 8,
            Status::NoMemory => 9,
            Status::NotAccepted => 10,
            Status::NotFeasible => 11,
        }
    }
}
