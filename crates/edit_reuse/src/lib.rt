//! Sessions: the files of a network, edited and solved in turn.
#![tactic(auto)]

mod budget;
mod fault;
mod session;

pub use fault::SessionFault;
pub use session::Session;

#[cfg(test)]
mod tests;
