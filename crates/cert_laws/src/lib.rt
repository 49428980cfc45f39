//! Laws over certificates: what one on which no rule fails says of the plans of a network.
#![tactic(auto)]

mod laws;

pub use laws::{
    accepted_law, bound_law, budget_law, cert_law, check_law, earned_law, ending_one_law,
    fault_one_law, first_law, found_more_law, found_one_law, grown_law, item_more_law, leaf_law,
    least_bound_law, no_fault_law, node_stays_law, repair_law, table_more_law, tables_law,
    true_law,
};
