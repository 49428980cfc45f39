//! Carries out the script of a session: each row's step, its certificate and its line, in turn.
#![tactic(auto)]

mod carry;
pub mod edit_rules;
mod give;
mod halt;
#[cfg(test)]
mod tests;
mod told;

pub use carry::carry_out;
pub use halt::Halt;
