//! Laws over tables: what their values say of the plans of a network.
#![tactic(auto)]

mod laws;

pub use laws::{below_law, feasible_law, node_law, trace_law, traced_law, whole_law};
