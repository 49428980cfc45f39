// The text that is printed, and how a run ends that prints it.
ghost use Rattle.std.specs.Prelude.{◌≡◌};
ghost use Rattle.planner_top.specs.declared.answer.Unanswered.TheVariants as unanswered;

use command_words::FileWord;
use edit_reuse::Session;
use service_model::{Cert, NoMemory};
use stage_file::{Rows, Text};

/// How a run ends where memory sufficed and no call on the outside failed.
#[derive(Clone, Copy, Debug, PartialEq, Eq)]
pub enum Ending {
    Done,
    Infeasible,
    /// The budget of ranges ended first.
    Spent,
    Words,
    Refused,
    TooLong,
    /// A rule fails on the certificate that was checked.
    NotAccepted,
    /// The plan that was audited breaks a rule.
    NotFeasible,
}

/// An ending, with the text that is printed, and the certificate that shows the answer where a network was solved.
#[derive(Drop)]
pub struct Answer {
    pub ending: Ending,
    pub text: Text,
    pub cert: Option<Cert>,
}

/// What is given to the words: an answer, or the session that they ask for, with the rows of its script.
#[derive(Drop)]
pub enum Reply {
    Answer(Answer),
    Session(Session, Rows),
}

/// Why there is no answer.
#[derive(Clone, Copy, Debug, PartialEq, Eq)]
pub enum Unanswered {
    /// A fetch of the file failed.
    Fault(FileWord),
    NoMemory,
}

impl From<NoMemory> for Unanswered {
    ghost from_gives = { λ _ e. e ≡ unanswered.NoMemory };

    fn from(_: NoMemory) -> Self {
        Unanswered::NoMemory
    }
}
