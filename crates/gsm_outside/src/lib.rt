//! What a program may reach outside itself: a shelf of files, and a sink for its output.
#![tactic(auto)]

mod calls;
mod failing;
mod fault;
mod kept;
mod real;
mod shelf;
mod sink;
mod sure;

pub use failing::{MemShelf, MemSink};
pub use fault::OutFault;
pub use real::{FileShelf, StdSink};
pub use shelf::Shelf;
pub use sink::Sink;
pub use sure::{SureShelf, SureSink};

#[cfg(test)]
mod fakes;
#[cfg(test)]
mod tests;
#[cfg(test)]
mod tests_failed;
