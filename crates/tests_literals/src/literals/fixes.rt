//! Fixes of string literals.

use format_literal::Literal;
use rustc_parse_format::ParseMode;
use std::alloc::{AllocError, Global};

/// A string literal as it stands in a program, with the edits that the faults of its placeholders
/// suggest. None if the text is no such literal, or if there is nothing to edit.
pub fn fixed_literal(alloc: Global, source: &str) -> Result<Option<String>, AllocError> {
    let Some(literal) = Literal::read(alloc, source, ParseMode::Format)? else {
        return Ok(None);
    };
    match literal.fix(alloc)? {
        Some(fixed) => Ok(Some(fixed.snippet)),
        None => Ok(None),
    }
}
