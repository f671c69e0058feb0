//! The difference of two texts as a unified diff ([`put_diff`]), which `patch -p0` and
//! `git apply -p0` take.
#![tactic(auto)]

mod hunks;
mod rows;

pub use hunks::put_diff;
