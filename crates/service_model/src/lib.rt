//! The model of a supply network: stages, arcs, plans, what a plan costs, and the rules on both.
#![tactic(auto)]

mod arc_ends;
mod arc_rules;
mod breaks;
mod capped;
mod cert;
pub mod cert_rules;
mod collector;
mod copies;
mod cycle;
mod faults;
mod floors;
mod limits;
mod links;
mod list;
mod marks;
mod network;
mod order;
mod parts;
mod plan;
mod range;
mod ready;
mod stage;
mod stage_rules;
mod table;
mod taker;
#[cfg(test)]
mod tests;
#[cfg(test)]
mod tests_cert;
#[cfg(test)]
mod tests_numbers;
#[cfg(test)]
mod tests_orders;
#[cfg(test)]
mod tests_ranges;
mod waits;

pub use breaks::{Break, NOT_WAITED};
pub use capped::capped_add;
pub use cert::{Cert, Head, Item, Node, Outcome, Split, Verdict};
pub use collector::Collector;
pub use cycle::first_on_cycle;
pub use faults::{NetworkFault, NewFault};
pub use limits::{INF, MAX_ARCS, MAX_HORIZON, MAX_PLAN_COST, MAX_STAGES, MAX_TIME};
pub use list::{List, NoMemory};
pub use network::Network;
pub use order::{lowest_first, topological_order};
pub use plan::Plan;
pub use range::Range;
pub use stage::{Stage, SupplyArc};
pub use table::{Kind, Table};
pub use taker::{TakeStop, Taker};
