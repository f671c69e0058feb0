//! The text of a file without the margins that may be around a literal.

ghost use Rattle.std.specs.Prelude.{◌+◌, ◌-◌, ℕ, List, IfSome, IsCharBoundary, chars, length};
ghost use Rattle.literal_faults.specs.Margins.{IsFaultIn, IsSnippet, IsUnmarked};

use crate::fault::{LiteralFault, literal_fault};
use rust_tokens::split_first;

/// The text of a file without its margins.
#[derive(Clone, Copy, Debug, Drop)]
pub struct Snippet<'a> {
    /// The file without the byte order mark at its start.
    pub source: &'a str,
    /// The text.
    pub text: &'a str,
    /// The byte offset in `source` at which the text starts.
    pub start: usize,
}

/// Returns the rest of a file after the byte order mark at its start, if it has one.
fn after_mark(file: &str) -> &str
    ensures { IsUnmarked file.now result.now }
{
    let Some((c, rest)) = split_first(file) else {
        return file;
    };
    if c == '\u{feff}' { rest } else { file }
}

/// Returns the text of a file without the byte order mark at its start and without the ASCII white
/// space before and after the rest: the literal, if the file has a string literal and nothing else.
/// Does not allocate.
pub fn snippet_of(file: &str) -> Snippet<'_>
    ensures { IsSnippet file.now result.source.now result.text.now result.start }
{
    let source = after_mark(file);
    let rest = source.trim_ascii_start();
    Snippet {
        source,
        text: rest.trim_ascii_end(),
        start: source.len() - rest.len(),
    }
}

/// Returns the reason why a file does not hold a string literal alone, with its place in the file,
/// or `None` if it does. A byte order mark at the start of the file and ASCII white space around
/// the literal are skipped ([`snippet_of`]). Does not allocate.
pub fn file_fault(file: &str) -> Option<LiteralFault>
    ensures fault { (source text : List ℕ) × (start : ℕ) × IsSnippet file.now source text start
        × IsFaultIn (chars text) (length file.now - length source + start) result }
    ensures boundary { IfSome result (λ f. IsCharBoundary file.now f.offset) }
{
    let snippet = snippet_of(file);
    let fault = literal_fault(snippet.text)?;
    Some(LiteralFault {
        kind: fault.kind,
        offset: file.len() - snippet.source.len() + snippet.start + fault.offset,
    })
}
