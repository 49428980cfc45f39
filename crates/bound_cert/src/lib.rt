//! The lines of certificates: written from items, and read back in whatever pieces the bytes come.
#![tactic(auto)]

mod fault;
mod feed;
mod fields;
mod items;
mod laws;
mod limits;
mod line;
mod read;
mod reader;
mod rest;
mod stream;
mod values;
mod write;

pub use fault::{CertFault, FeedStop};
pub use items::items_of;
pub use laws::{
    any_cut, cert_seen, end_in_order, items_back, kept_in_order, lines_back, read_in_order,
    reads_back, rules_agree, seen_law, short_law, whole_back,
};
pub use limits::{FORMAT, MAX_LINE};
pub use reader::CertReader;
pub use write::line_of;

#[cfg(test)]
mod tests;
