//! A Rust source file with the suggestions of the compiler applied to the faults of its format
//! strings ([`fixes`]).
#![tactic(auto)]

mod all_faults;
mod fault_search;
mod literals;
mod mended;
mod outside;
mod round_edits;
mod rounds;

pub use rounds::{FileFixes, fixes, is_no_worse};
