//! Edits of a network's files: read from the rows of a script, and made on rows.
#![tactic(auto)]

mod copies;
mod edit;
mod edited;
mod fields;
mod names;
mod parts;
mod rows;
mod steps;
mod words;

pub use edit::{ApplyFault, Edit, EditFault, Step};
pub use edited::apply;
pub use rows::holds_record;
pub use steps::read_row;

#[cfg(test)]
mod tests;
