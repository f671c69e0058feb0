//! Compares the placeholders of a format string with the arguments that are given to it: `check`
//! takes the pieces, and `read_and_check` reads an input first.
#![tactic(auto)]

mod checker;
mod indices;
pub mod laws;
mod names;
mod reading;
mod uses;

pub use checker::{Report, check, check_uses};
pub use reading::{CheckedReading, read_and_check};
pub use uses::{Uses, uses_of};
