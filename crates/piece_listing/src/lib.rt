//! The program `formatread` as a function over any reader and writer (`run`), and the error message
//! and exit status for each of its results (`verdict`).
#![tactic(auto)]

mod arguments;
mod calls;
mod input;
mod listing;
pub mod literal;
mod numbers;
mod report_lines;
pub mod run;
mod task;
pub mod verdict;

pub use arguments::GivenArguments;
pub use listing::{put_piece, put_quoted};
pub use numbers::put_span;
pub use report_lines::{has_entries, report_for};
pub use task::{Task, task_of};
