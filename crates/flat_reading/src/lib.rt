//! Reads a whole input into records of integers, in buffers of the caller; the crate `dephungo`
//! exports it to C. If a buffer is too short, the length needed is still counted.
#![tactic(auto)]

mod end;
mod errors;
mod fields;
mod finders;
mod flat;
mod near;
pub mod read;
mod reading;
pub mod records;
mod specification;
mod state;
pub mod task;
mod texts;
mod walk;
