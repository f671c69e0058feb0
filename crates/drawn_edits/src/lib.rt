//! Edits of a source as rustc draws them: the lines that they change, and the new ones.
#![tactic(auto)]

mod changes;
mod edit_rows;
mod edited;
pub mod laws;
mod suggestions;

pub use edited::{Edit, placed_edit};
pub use suggestions::{put_edits, put_help_word};
