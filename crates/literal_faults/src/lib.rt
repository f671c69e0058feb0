//! The reason why a text is no string literal of Rust, and its place, in the words of rustc
//! ([`literal_fault`]). In a file white space may be around the literal ([`file_fault`]).
#![tactic(auto)]

mod escapes;
mod fault;
pub mod laws;
mod margins;
mod stops;
mod words;

pub use fault::{FaultKind, LiteralFault, literal_fault};
pub use margins::{Snippet, file_fault, snippet_of};
