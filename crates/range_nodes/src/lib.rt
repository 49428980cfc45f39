//! The nodes of a search: ranges relaxed over a forest, behind the tables that were there.
#![tactic(auto)]

mod laws;
mod made;
#[cfg(test)]
mod tests;

pub use laws::{
    bound_stays_law, feasible_found_law, new_tables_law, no_tables_law, node_rules_law,
    node_stays_law, relaxed_at_law, roots_law, short_node_law, stage_below_law, tree_solves_law,
};
pub use made::{Made, made_node};
