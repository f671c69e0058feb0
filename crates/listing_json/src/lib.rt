//! The listing of a format string as JSON ([`list`]): a line for each piece, each fault and each
//! argument that is missing or unused.
#![tactic(auto)]

mod calls;
mod faults;
mod fields;
mod listing;
mod pieces;
mod report;

pub use listing::{Listing, list};
