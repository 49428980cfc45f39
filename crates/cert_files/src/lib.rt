//! The certificate of a search as a file: its bytes, which the checker accepts, and how it is written.
#![tactic(auto)]

mod write;

pub use write::write_cert;
