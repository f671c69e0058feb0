//! A literal with edits.

ghost use Rattle.std.specs.Prelude.{◌≡◌, IfOk, IfSome, IsNone, length, map, string_bytes};
ghost use Rattle.inlined_arguments.specs.Edits.{AreApart, MakeNoText, edited_text};
ghost use Rattle.inlined_arguments.specs.Views.{seen_edit};

use crate::call::Edit;
use std::alloc::{AllocError, Global};

/// Returns bytes with edits, or `None` if these are not one after the other in the bytes, or
/// overlap. Returns `Err` if an allocation fails.
fn edited_bytes(alloc: Global, bytes: &[u8], edits: &[Edit]) -> Result<Option<Vec<u8>>, AllocError>
    ensures some { IfOk result (λ o. IfSome o (λ v.
        AreApart 0 (map seen_edit edits.now) (length bytes.now)
        × (v.items ≡ edited_text 0 (map seen_edit edits.now) bytes.now))) }
    ensures none { IfOk result (λ o. IsNone o
        → AreApart 0 (map seen_edit edits.now) (length bytes.now) → ⊥) }
{
    let mut out = Vec::with_capacity(alloc, bytes.len())?;
    let mut at = 0;
    for edit in edits {
        if edit.span.start < at || edit.span.end < edit.span.start {
            return Ok(None);
        }
        if bytes.len() < edit.span.end {
            return Ok(None);
        }
        out.extend_from_slice(&bytes[at..edit.span.start])?;
        out.extend_from_slice(edit.text.as_bytes())?;
        at = edit.span.end;
    }
    out.extend_from_slice(&bytes[at..])?;
    Ok(Some(out))
}

/// Returns a literal with edits, or `None` if these are not one after the other in it, overlap or
/// cut a character. Returns `Err` if an allocation fails.
pub fn apply_edits(
    alloc: Global,
    literal: &str,
    edits: &[Edit],
) -> Result<Option<String>, AllocError>
    ensures some { IfOk result (λ o. IfSome o (λ s.
        AreApart 0 (map seen_edit edits.now) (length literal.now)
        × (string_bytes s ≡ edited_text 0 (map seen_edit edits.now) literal.now))) }
    ensures none { IfOk result (λ o. IsNone o
        → MakeNoText literal.now (map seen_edit edits.now)) }
{
    match edited_bytes(alloc, literal.as_bytes(), edits)? {
        Some(bytes) => Ok(String::from_utf8(bytes).ok()),
        None => Ok(None),
    }
}
