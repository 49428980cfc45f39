//! The texts that the program prints, as lines that `csv` writes.
#![tactic(auto)]

mod answer;
mod audit;
mod check;
mod clusters;
mod explain;
mod fates;
mod names;
mod node;
mod notes;
mod outcome;
mod refusal;
mod report;
mod session;
#[cfg(test)]
mod tests;
#[cfg(test)]
mod tests_networks;
mod text;
mod trial;

pub use answer::answer_text;
pub use audit::audit_text;
pub use check::{not_accepted_text, valid_text};
pub use clusters::cluster_text;
pub use explain::explain_text;
pub use refusal::{read_fault_text, refused_text, too_long_text, words_text, write_fault_text};
pub use session::{
    edit_done_text, edit_fault_text, edit_refused_text, session_answer_text, session_end_text,
};
pub use trial::trial_text;
