//! The top call: all that the program does, from its words to its status.
#![tactic(auto)]

mod answer;
mod answering;
mod audit;
mod check;
mod clustered;
mod filled;
mod refusal;
mod search;
mod solve;
mod status;
mod stop;
mod task;
#[cfg(test)]
mod tests;
#[cfg(test)]
mod tests_audit;
#[cfg(test)]
mod tests_check;
#[cfg(test)]
mod tests_failed;
#[cfg(test)]
mod tests_loops;
#[cfg(test)]
mod tests_session;
#[cfg(test)]
mod tests_told;
#[cfg(test)]
mod tests_trees;
mod top;

pub use command_words::Words;
pub use status::Status;
pub use top::run;
