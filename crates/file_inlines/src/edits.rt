//! The edits that inline a call in its file.

ghost use Rattle.std.specs.Prelude.{◌≡◌, ◌↔◌, ◌++◌, IfOk, IsTrue, MatchOption, OnOk, chars, map};
ghost use Rattle.std.specs.Prelude.{option_map};
ghost use Rattle.std.specs.Prelude.{slice_get};
ghost use Rattle.std.specs.List.{filter_map};
ghost use Rattle.rust_trees.specs.Leaves.{leaf};
ghost use Rattle.asm_lint.specs.Literals.{without_crs};
ghost use Rattle.inlined_arguments.specs.Views.{seen_edit, seen_inlined};
ghost use Rattle.file_inlines.specs.CallInlines.{AreEdits, AreInToken, AreLiteralEdits};
ghost use Rattle.file_inlines.specs.CallInlines.{HasNoEdits, MakeLiteral, moved_edit, removal};

use crate::sources::removal_range;
use asm_lint::{dropped_crs, offset_in, without_crs};
use format_calls::Argument;
use inlined_arguments::{Edit, InlinedCall, apply_edits};
use rust_trees::Token;
use source_lint::argument_at;
use std::alloc::{AllocError, Global};

/// Returns the edits of a literal with lines that end with LF as edits of its token, which has
/// these CRs more. Returns `Err` if an allocation fails.
fn token_edits(alloc: Global, crs: &[usize], edits: &[Edit]) -> Result<Vec<Edit>, AllocError>
    ensures { IfOk result (λ v. AreInToken crs.now (map seen_edit edits.now)
        (map seen_edit v.items)) }
{
    let mut list = Vec::new(alloc);
    for edit in edits {
        list.push(Edit {
            span: offset_in(crs, edit.span.start)..offset_in(crs, edit.span.end),
            text: String::from_str(alloc, edit.text.as_str())?,
        })?;
    }
    Ok(list)
}

/// Returns edits that stand some bytes further on. Returns `Err` if an allocation fails.
fn move_edits(alloc: Global, edits: &[Edit], offset: usize) -> Result<Vec<Edit>, AllocError>
    ensures { IfOk result (λ v. map seen_edit v.items
        ≡ map (moved_edit offset) (map seen_edit edits.now)) }
{
    let mut list = Vec::new(alloc);
    for edit in edits {
        let start = offset.saturating_add(edit.span.start);
        let end = offset.saturating_add(edit.span.end);
        list.push(Edit {
            span: start..end,
            text: String::from_str(alloc, edit.text.as_str())?,
        })?;
    }
    Ok(list)
}

/// Adds the edits that remove the arguments of these indices, with their source. Returns `Err` if
/// an allocation fails.
fn push_removals(
    alloc: Global,
    edits: &mut Vec<Edit>,
    text: &str,
    tokens: &[Token<'_>],
    arguments: &[Argument],
    indices: &[usize],
) -> Result<(), AllocError>
    ensures { OnOk result (map seen_edit edits.new.items ≡ map seen_edit edits.old.items
        ++ filter_map (λ n. option_map (removal text.now (map leaf tokens.now))
        (slice_get arguments.now n)) indices.now) }
{
    for index in indices {
        if let Some(argument) = argument_at(arguments, *index) {
            edits.push(Edit {
                span: removal_range(text, tokens, &argument),
                text: String::new(alloc),
            })?;
        }
    }
    Ok(())
}

/// Returns whether a token, without the CR before each LF, is this literal. Returns `Err` if an
/// allocation fails.
fn is_literal(alloc: Global, token: &str, literal: &str) -> Result<bool, AllocError>
    ensures { IfOk result (λ b. IsTrue b ↔ (without_crs (chars token.now) ≡ chars literal.now)) }
{
    let text = without_crs(alloc, token)?;
    Ok(text.as_str() == literal)
}

/// Returns whether a token with these edits is the new literal, up to the CR before each LF.
/// Returns `Err` if an allocation fails.
fn make_literal(
    alloc: Global,
    literal: Token<'_>,
    inlining: &InlinedCall,
    edits: &[Edit],
) -> Result<bool, AllocError>
    ensures { IfOk result (λ b. IsTrue b
        ↔ MakeLiteral (leaf literal.entry) (seen_inlined inlining.now) (map seen_edit edits.now)) }
{
    match apply_edits(alloc, literal.text, edits)? {
        Some(new) => is_literal(alloc, new.as_str(), inlining.literal.as_str()),
        None => Ok(false),
    }
}

/// Returns the edits of the literal that a token is, as edits of its file, or `None` if the token
/// with them is not the new literal. Returns `Err` if an allocation fails.
fn literal_edits(
    alloc: Global,
    literal: Token<'_>,
    inlining: &InlinedCall,
) -> Result<Option<Vec<Edit>>, AllocError>
    ensures { IfOk result (λ o. MatchOption o
        (HasNoEdits (leaf literal.entry) (seen_inlined inlining.now))
        (λ v. AreLiteralEdits (leaf literal.entry) (seen_inlined inlining.now)
        (map seen_edit v.items))) }
{
    let crs = dropped_crs(alloc, literal.text)?;
    let inside_edits = token_edits(alloc, &crs, inlining.edits.as_slice())?;
    if !make_literal(alloc, literal, inlining, &inside_edits)? {
        return Ok(None);
    }
    Ok(Some(move_edits(alloc, &inside_edits, literal.start)?))
}

/// Returns the edits that inline a call, with this token as its literal and these arguments after
/// it, or `None` if the token with its edits is not the new literal. Returns `Err` if an allocation
/// fails.
pub(crate) fn edits_of(
    alloc: Global,
    text: &str,
    tokens: &[Token<'_>],
    literal: Token<'_>,
    arguments: &[Argument],
    inlining: &InlinedCall,
) -> Result<Option<Vec<Edit>>, AllocError>
    ensures { IfOk result (λ o. MatchOption o
        (HasNoEdits (leaf literal.entry) (seen_inlined inlining.now))
        (λ v. AreEdits text.now (map leaf tokens.now) (leaf literal.entry) arguments.now
        (seen_inlined inlining.now) (map seen_edit v.items))) }
{
    let Some(mut edits) = literal_edits(alloc, literal, inlining)? else {
        return Ok(None);
    };
    push_removals(
        alloc,
        &mut edits,
        text,
        tokens,
        arguments,
        inlining.removed_indices.as_slice(),
    )?;
    Ok(Some(edits))
}
