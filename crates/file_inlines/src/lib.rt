//! A Rust source file in which variables that were arguments of format macros are in the format
//! strings ([`package_inlines`]).
#![tactic(auto)]

mod calls;
mod edits;
mod file;
mod sources;
mod terms;

pub use calls::CallInlining;
pub use file::{FileInlines, inlines, package_inlines};
