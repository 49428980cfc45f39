//! Tables of least costs over a network: one filled over those below it, and the plan that a root's value stands for.
#![tactic(auto)]

mod filled;
mod fills;
mod local;
mod places;
mod sums;
#[cfg(test)]
mod tests;
mod times;
mod traces;
mod values;
mod wanted;

pub use filled::Filled;
pub use fills::fill;
pub use traces::trace;
pub use wanted::{ChildList, Wanted};
