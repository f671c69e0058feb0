//! The fault of a text that rustc shows ([`text_fault`]), and places and labels of messages.
#![tactic(auto)]

mod spots;
mod text;

pub use spots::{CallLabel, Spot};
pub use text::text_fault;
