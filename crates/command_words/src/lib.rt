//! The words of a command line: the commands with their keys, the rules on words, and what the words ask for.
#![tactic(auto)]

mod asked;
mod command;
mod file_word;
pub mod limits;
mod names;
mod request;
#[cfg(test)]
mod tests;
mod word_fault;
pub mod word_rules;
mod word_tests;
mod words;

pub use asked::{Request, TrialNumbers};
pub use command::{Command, further_file, reads_network};
pub use file_word::{FileWord, Naming};
pub use names::{answer_name, naming};
pub use request::{cert_name, request_of};
pub use word_fault::WordFault;
pub use words::Words;
