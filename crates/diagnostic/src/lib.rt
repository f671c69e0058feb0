//! What a check says of a source: a [`Diagnostic`] for each fault, over any kind of place.
#![tactic(auto)]

mod building;
mod ids;
mod parts;

pub use building::{push_help, push_primary, push_secondary};
pub use ids::Id;
pub use parts::{
    Applicability, Diagnostic, Edit, Label, Level, Note, NoteLevel, Suggestion, SuggestionStyle,
};
