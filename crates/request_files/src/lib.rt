//! The files of a request, read from a shelf.
#![tactic(auto)]

mod contents;
mod fetch;
mod files;
#[cfg(test)]
mod tests;
#[cfg(test)]
mod tests_failed;
mod unread;

pub use contents::Contents;
pub use files::{CERT_LIMIT, FILE_LIMIT, read_files};
pub use unread::Unread;
