//! The tokens of a format string, as an editor shows them in colours.
#![tactic(auto)]

mod culprits;
mod escapes;
mod kinds;
pub mod laws;
mod lexer;
mod parts;
mod places;
mod walk;

pub use kinds::{Kind, Label, Token};
pub use lexer::{place_labels, tokens};
pub use walk::label;
