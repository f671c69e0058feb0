//! The string literals of a file, as rustc reads them: with lines that end with LF.

ghost use Rattle.std.specs.Prelude.{◌≡◌, ◌==◌, ◌&&◌, ◌+◌, ◌<◌, ◌≤◌, ◌^◌, ◌++◌, ℕ, IfOk, IfSome};
ghost use Rattle.std.specs.Prelude.{MatchOption, OnOk, Option, chars, length, string_bytes};
ghost use Rattle.rustc_parse_format.specs.Characters.{Text};
ghost use Rattle.rustc_parse_format.specs.Literal.{IsLiteral, newline};
ghost use Rattle.rustc_parse_format.specs.World.{hashes};
ghost use Rattle.rust_tokens.specs.Runs.{first_passes};
ghost use Rattle.rust_trees.specs.Places.{is_lf};
ghost use Rattle.asm_lint.specs.Literals.{AreBefore, IsRead, appends_newline, dropped_crs};
ghost use Rattle.asm_lint.specs.Literals.{without_crs};

use piece_listing::literal::{LiteralText, literal_text};
use rust_tokens::split_first;
use std::alloc::{AllocError, Global};

/// A string literal that stands for a text.
#[derive(Drop)]
pub struct Literal {
    /// The literal, with lines that end with LF.
    pub snippet: String,
    /// The text, with the newline that the macro appends.
    pub text: String,
    /// `None` for an ordinary literal, and the number of hashes of a raw one.
    pub style: Option<usize>,
}

/// Returns whether a text begins with LF.
fn begins_line(text: &str) -> bool
    ensures { result ≡ first_passes is_lf (chars text.now) }
{
    match split_first(text) {
        Some((c, _)) => c == '\n',
        None => false,
    }
}

/// Returns whether a character is a CR before an LF, where `rest` follows it.
fn is_dropped(c: char, rest: &str) -> bool
    ensures { result ≡ (c == 13 && first_passes is_lf (chars rest.now)) }
{
    c == '\r' && begins_line(rest)
}

/// Returns a text without the CR before each LF. Returns `Err` if an allocation fails.
pub fn without_crs(alloc: Global, text: &str) -> Result<String, AllocError>
    ensures { IfOk result (λ s. chars (string_bytes s) ≡ without_crs (chars text.now)) }
{
    if !text.contains('\r') {
        return Ok(String::from_str(alloc, text)?);
    }
    let mut lines = String::new(alloc);
    let mut rest = text;
    while let Some((c, more)) = split_first(rest) {
        if !is_dropped(c, more) {
            lines.push(c)?;
        }
        rest = more;
    }
    Ok(lines)
}

/// Returns whether a macro of this name appends a newline to its format string.
pub fn appends_newline(name: &[u8]) -> bool
    ensures { result ≡ appends_newline name.now }
{
    name == b"println".as_slice() || name == b"eprintln".as_slice() || name == b"writeln".as_slice()
}

/// Appends a newline to a text, or nothing. Returns `Err` if an allocation fails.
fn put_newline(text: &mut String, appended: bool) -> Result<(), AllocError>
    ensures text { OnOk result (chars (string_bytes text.new)
        ≡ chars (string_bytes text.old) ++ newline appended) }
    ensures short { OnOk result (length (string_bytes text.new)
        ≤ length (string_bytes text.old) + 1) }
{
    if appended {
        text.push('\n')?;
        return Ok(());
    }
    Ok(())
}

/// Reads the literal that a token is, and appends a newline to its text or not. Returns `None` if
/// it stands for no text, and `Err` if an allocation fails.
pub fn read_literal(
    alloc: Global,
    token: &str,
    appended_newline: bool,
) -> Result<Option<Literal>, AllocError>
    ensures read { IfOk result (λ o. MatchOption o
        ((style : Option ℕ) (t : Text) → IsLiteral style (without_crs (chars token.now)) t → ⊥)
        (λ l. IsRead (chars token.now) appended_newline l)) }
    ensures short { IfOk result (λ o. IfSome o (λ l.
        hashes l.style + length (string_bytes l.text) + 2 < 2 ^ 64)) }
{
    let snippet = without_crs(alloc, token)?;
    let Some(LiteralText { mut text, style }) = literal_text(alloc, snippet.as_str())? else {
        return Ok(None);
    };
    put_newline(&mut text, appended_newline)?;
    Ok(Some(Literal {
        snippet,
        text,
        style,
    }))
}

/// Returns the CRs of a token that its literal with lines that end with LF does not have, each as
/// the byte offset in that literal of the LF after it, in ascending order. Returns `Err` if an
/// allocation fails.
pub fn dropped_crs(alloc: Global, token: &str) -> Result<Vec<usize>, AllocError>
    ensures { IfOk result (λ v. v.items ≡ dropped_crs 0 (chars token.now)) }
{
    let mut offsets = Vec::new(alloc);
    if !token.contains('\r') {
        return Ok(offsets);
    }
    let mut rest = token;
    while let Some((c, more)) = split_first(rest) {
        if is_dropped(c, more) {
            let front_len = token.len().saturating_sub(rest.len());
            offsets.push(front_len.saturating_sub(offsets.len()))?;
        }
        rest = more;
    }
    Ok(offsets)
}

/// Returns the byte offset in a token of a byte offset in its literal with lines that end with LF,
/// which does not have these CRs: those before it count. The CRs are those of [`dropped_crs`].
pub fn offset_in(crs: &[usize], offset: usize) -> usize
    ensures { (n : ℕ) × AreBefore crs.now offset n
        × (offset + n < 2 ^ 64 → result ≡ offset + n) }
{
    let mut low = 0;
    let mut high = crs.len();
    while low < high {
        let middle = low + (high - low) / 2;
        if crs[middle] < offset {
            low = middle + 1;
        } else {
            high = middle;
        }
    }
    offset.saturating_add(low)
}
