//! The format strings of a file.

use format_calls::{Table, arguments, calls, format_string};
use rust_trees::Source;
use std::alloc::{AllocError, Global};

/// The format strings of the macros of the standard library in a file of the edition 2021, as they
/// are written, in order.
pub fn format_strings(alloc: Global, text: &str) -> Result<Vec<&str>, AllocError> {
    let source = Source::new(alloc, text)?;
    let table = Table::standard(alloc)?;
    let mut strings = Vec::new(alloc);
    for call in &calls(alloc, &source, &table)? {
        let Some(list) = arguments(alloc, &source, call.close)? else {
            continue;
        };
        let Ok(index) = format_string(&source, call.rule, &list, true) else {
            continue;
        };
        if let Some(argument) = list.get(index) {
            if let Some(token) = source.tokens().get(argument.start) {
                strings.push(token.text)?;
            }
        }
    }
    Ok(strings)
}
