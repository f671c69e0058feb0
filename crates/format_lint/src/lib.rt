//! The program `formatlint` as a function over any reader and writer (`run`), and the error message
//! and exit status for each of its results (`verdict`).
#![tactic(auto)]

mod faults;
mod findings;
mod outputs;
pub mod run;
pub mod task;
mod tokens;
pub mod verdict;
