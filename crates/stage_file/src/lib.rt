//! Rows of comma-separated files, and the rules and records of stage, table, arc and plan files.
#![tactic(auto)]

mod arcs;
mod ends;
mod fault;
mod field;
mod header;
mod limits;
mod names;
mod place;
mod plans;
mod raw;
mod record;
mod rows;
pub mod rules;
mod stage_names;
mod stage_rules;
mod stages;
mod tables;

pub use arcs::{ArcRow, read_arcs};
pub use fault::{FileFault, FileKind, ReadFault};
pub use limits::{
    MAX_ENTRIES, MAX_EXCESS, MAX_FACTOR, MAX_NAME, MAX_QUANTITY, MAX_TABLES, MAX_UNIT,
};
pub use names::Names;
pub use plans::read_plan;
pub use raw::{Files, RawNet, raw_net};
pub use rows::{Row, Rows, Text, rows_of};
pub use stages::{Bound, StageRow, read_stages};
pub use tables::{TableRow, read_tables};

#[cfg(test)]
mod tests;
#[cfg(test)]
mod tests_arcs;
#[cfg(test)]
mod tests_numbers;
