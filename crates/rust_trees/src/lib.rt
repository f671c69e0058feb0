//! Token trees of Rust source text: the tokens of a file without white space and comments, and the
//! pairs of delimiters among them.
#![tactic(auto)]

mod balance;
pub mod laws;
mod leaves;
mod matching;
mod places;
mod sides;
mod source;

pub use balance::{Balance, BreakKind, FileBreak};
pub use leaves::{Token, Tokens};
pub use matching::DelimiterBreak;
pub use places::{Place, Places, place_after, place_at};
pub use sides::{Delimiter, Side, is_opening};
pub use source::Source;
