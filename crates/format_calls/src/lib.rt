//! Calls of macros that take a format string, in Rust source text.
#![tactic(auto)]

mod assembly;
mod extents;
mod gap_texts;
mod listing;
mod marks;
mod modes;
mod part;
mod parts;
mod split;
mod strings;
mod table;

pub use assembly::{AsmPart, asm_part, template_count};
pub use extents::{Extent, extent_of};
pub use gap_texts::{Gaps, next_known_part};
pub use listing::{Call, calls};
pub use marks::{is_mark, is_mark_of, is_word, token_at, word};
pub use modes::{is_joint, is_text};
pub use part::Part;
pub use parts::next_part;
pub use split::{Argument, arguments, closing_token};
pub use strings::{Reason, format_string, is_text_leaf};
pub use table::{Row, Rule, Table, is_of_crates, is_standard};
