//! A string literal as it stands in a program, read as a format string: [`Literal`] holds the
//! arguments that the calls of `rustc_parse_format` and of the crates above it take, and makes
//! these calls.
#![tactic(auto)]

mod validity;
mod values;

pub use values::Literal;
