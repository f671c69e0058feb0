//! The report on a Rust source file ([`Report`]), and a text with the edits that mend its faults
//! ([`mend_each`]).
#![tactic(auto)]

mod edited;
mod report;
mod suggestions;

pub use edited::{EditedText, mend_each};
pub use report::{CallReading, Edit, Finding, Help, Label, Note, Options, Report};
pub use suggestions::{LabelSuggestion, are_after, edits_of, is_applicable, suggestion_of};
