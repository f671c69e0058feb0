//! Arguments of a call that are variables, moved into its format string ([`inline_arguments`]).
#![tactic(auto)]

mod call;
mod conditions;
mod edited;
mod edits;
mod inlining;
mod keywords;
mod meaning;
mod reading;
mod slots;
mod values;
mod variables;

pub use call::{Argument, Call, Edit, InlinedCall, Obstacle};
pub use edited::apply_edits;
pub use inlining::inline_arguments;
