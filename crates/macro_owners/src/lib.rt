//! Whose macro a name is for certain: that of std or of a known crate, by the tokens of all files
//! of a package ([`Facts`]), without compiling. And the macros that a file defines by
//! `macro_rules!` and that hand their tokens on to a macro whose format string is known: which
//! argument of theirs is one ([`own_rows`]).
#![tactic(auto)]

mod arms;
mod certain;
mod context;
mod facts;
mod given;
mod indexed_words;
pub mod laws;
mod lefts;
mod names;
mod own;
mod rights;
mod words;

pub use certain::{certain_table, is_certain, likely_table};
pub use facts::Facts;
pub use given::{Given, given_names};
pub use own::own_rows;
pub use words::{is_mark, is_named};
