//! Paths of files, which are bytes, as text ([`path_text`], [`path_bytes`]), and calls of the
//! system by such a text ([`fs`]).
#![tactic(auto)]

mod arguments;
mod escapes;
pub mod fs;

pub use arguments::args;
pub use escapes::{is_plain, path_bytes, path_text, shown_path};
