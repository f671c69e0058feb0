//! Tests of what is read of a file: its tokens, trees, calls, own macros and faults.
#![tactic(auto)]

mod files;
mod own_macros;
mod tokens;
mod trees;
