//! The splits of a search: the arc that a relaxed plan breaks most, the halves of a range, and how a search ends.
#![tactic(auto)]

mod broken;
mod cut;
mod ending;
mod laws;

pub use broken::broken_arc;
pub use cut::{cut_time, halves};
pub use ending::{ending_bound, ending_of};
pub use laws::{break_law, cut_law, end_law, leaves_law, next_law, open_law, split_law};

#[cfg(test)]
mod tests;
