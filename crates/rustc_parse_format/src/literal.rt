//! String literals as they are written in a program: the characters that a content stands for with
//! their byte ranges, and whether a snippet is the source literal of an input. The content of a
//! literal is the text between its quotes.

ghost use Rattle.std.specs.Prelude.{◌≡◌, ◌↔◌, ◌++◌, ◌∷◌, ℕ, Bool, List, [], Some, None, IsTrue};
ghost use Rattle.std.specs.Prelude.{IfOk, IsOk, IfSome, IfNone, MatchOption, chars, map};
ghost use Rattle.std.specs.Prelude.{OnOk, option_map, length, string_bytes, true, replicate};
ghost use Rattle.rustc_parse_format.specs.Literal.{IsNoContent, IsOnlyContent, IsOrdinaryLiteral};
ghost use Rattle.rustc_parse_format.specs.Literal.{IsReadAs, content_value};
ghost use Rattle.rustc_parse_format.specs.Literal.{IsSource, newline, ordinary_frame, raw_closing};
ghost use Rattle.rustc_parse_format.specs.Literal.{raw_frame, raw_opening};
ghost use Rattle.rustc_parse_format.specs.LiteralReading.{IsSourceTo, IsTaken, SameEnds};
ghost use Rattle.rustc_parse_format.specs.LiteralReading.{content_characters};
ghost use Rattle.rustc_parse_format.specs.LiteralReading.{seen_characters, spelled_end};
ghost use Rattle.rustc_parse_format.specs.LiteralUnits.{LiteralUnit, at_most_one, is_plain};
ghost use Rattle.rustc_parse_format.specs.LiteralUnits.{meaning};
ghost use Rattle.rustc_parse_format.specs.LiteralUnits.{unit_at};
ghost use Rattle.rustc_parse_format.specs.Characters.{Text, rest_after, front};
ghost use Rattle.rustc_parse_format.specs.World.{later_place, literal_end, newline_places, world};

mod rest;
mod unit;

use crate::characters::Class;
pub(crate) use rest::{Rest, plain_width};
use std::alloc::{AllocError, Global};
use std::ops::Range;
use unit::byte_escape;
pub(crate) use unit::{is_newline_escape, read_unit};

/// The first unit of a content, a plain character or an escape, and the text after it.
#[derive(Drop)]
pub struct FirstUnit<'a> {
    /// The character that the unit stands for, or `None` for a string continuation, which stands
    /// for nothing.
    pub character: Option<char>,
    /// The rest of the content after the unit.
    pub rest: &'a str,
}

/// Returns the first unit of a content, or `None` if the text begins with no unit: it is empty or
/// begins with a quote, a CR or a wrong escape.
///
/// The rule is that of string literals in the Rust Reference. Does not allocate.
pub fn split_first_unit(content: &str) -> Option<FirstUnit<'_>>
    ensures { option_map (λ x. (at_most_one x.character, chars x.rest.now)) result
        ≡ meaning (unit_at (chars content.now)) }
{
    let mut rest = Rest::new(content);
    let character = read_unit(&mut rest)?;
    Some(FirstUnit {
        character,
        rest: rest.text(),
    })
}

/// A character that a content stands for.
#[derive(Drop)]
pub struct ContentCharacter {
    /// The byte range of the content that the character comes from.
    pub span: Range<usize>,
    /// The character.
    pub character: char,
}

/// Returns the characters that a content stands for, or `None` if the text is no content, as
/// `content_characters` computes them. Returns `Err` if an allocation fails.
fn read_characters(
    alloc: Global,
    content: &str,
) -> Result<Option<Vec<ContentCharacter>>, AllocError>
    ensures computed { IfOk result (λ o. option_map (λ v. seen_characters v.items) o
        ≡ content_characters 0 (chars content.now)) }
    ensures empty { chars content.now ≡ [] → IsOk result }
{
    let mut list = Vec::new(alloc);
    let mut rest = Rest::new(content);
    let total = rest.len();
    let mut at = 0;
    while !rest.is_empty() {
        let Some(value) = read_unit(&mut rest) else {
            return Ok(None);
        };
        let end = total - rest.len();
        if let Some(c) = value {
            list.push(ContentCharacter {
                span: at..end,
                character: c,
            })?;
        }
        at = end;
    }
    Ok(Some(list))
}

/// Returns the characters that the content of an ordinary string literal stands for, in order, or
/// `None` if the text is not the content of such a literal.
///
/// The rule is that of string literals in the Rust Reference. A string continuation, a backslash
/// before an LF with all HT, LF, CR and space after it, stands for nothing. The list is allocated
/// with `alloc`: returns `Err` if an allocation fails. For an empty content it always returns `Ok`.
pub fn read_content(
    alloc: Global,
    content: &str,
) -> Result<Option<Vec<ContentCharacter>>, AllocError>
    ensures found { IfOk result
        (λ o. IfSome o (λ v. IsReadAs (chars content.now) (seen_characters v.items))) }
    ensures none { IfOk result (λ o. IfNone o (IsNoContent (chars content.now))) }
    // In a source literal with this content each character has the place returned here, one byte
    // later for the opening quote, and an appended newline comes at the end.
    ensures places { IfOk result (λ o. IfSome o (λ v. (input : Text) (appended : Bool)
        → IsSource input None (ordinary_frame (chars content.now)) appended
        → (let w = world input None (Some (ordinary_frame (chars content.now))) appended in
        w.places ≡ map (λ x. later_place 1 x.0) (seen_characters v.items)
        ++ newline_places w.end appended))) }
    ensures empty { content.now ≡ [] → IsOk result }
{
    read_characters(alloc, content)
}

/// Appends the plain characters that come next to a text. Returns `Err` if an allocation fails.
#[inline(always)]
fn put_plain(text: &mut String, rest: &mut Rest<'_>) -> Result<(), AllocError>
    ensures text { OnOk result (chars (string_bytes text.new)
        ≡ chars (string_bytes text.old) ++ front is_plain rest.old) }
    ensures rest { rest.new ≡ rest_after is_plain rest.old }
    ensures empty { rest.old ≡ [] → IsOk result }
{
    let run = rest.take_run(Class::Plain);
    if !run.is_empty() {
        text.push_str(run)?;
    }
    Ok(())
}

/// Appends a character to a text. Returns `Err` if an allocation fails.
#[inline(always)]
fn put_char(text: &mut String, c: char) -> Result<(), AllocError>
    ensures { OnOk result (chars (string_bytes text.new) ≡ chars (string_bytes text.old)
        ++ c ∷ []) }
{
    text.push(c)?;
    Ok(())
}

/// The most bytes that a text gets room for before any of it is read.
const FIRST_ROOM: usize = 4096;

/// Gives back the room that a text does not need, if it needs less than half of it.
fn shrink(text: &mut String)
    ensures { string_bytes text.new ≡ string_bytes text.old }
{
    if text.len() < text.capacity() / 2 {
        text.shrink_to_fit();
    }
}

/// Returns the text that the content of an ordinary string literal stands for: the characters that
/// [`read_content`] returns, without their byte ranges. Returns `None` if the text is not the
/// content of such a literal.
///
/// The text is allocated with `alloc`: returns `Err` if an allocation fails. For an empty content
/// it always returns `Ok`.
pub fn content_text(alloc: Global, content: &str) -> Result<Option<String>, AllocError>
    ensures found { IfOk result (λ o. IfSome o (λ s. (us : List LiteralUnit)
        × IsOnlyContent (chars content.now) us × (content_value us ≡ chars (string_bytes s)))) }
    ensures none { IfOk result (λ o. IfNone o (IsNoContent (chars content.now))) }
    ensures empty { content.now ≡ [] → IsOk result }
{
    // no unit is shorter than its value; a longer content may be refused at its start
    let mut text = String::with_capacity(alloc, content.len().min(FIRST_ROOM))?;
    let mut rest = Rest::new(content);
    put_plain(&mut text, &mut rest)?;
    while !rest.is_empty() {
        let Some(value) = read_unit(&mut rest) else {
            return Ok(None);
        };
        if let Some(c) = value {
            put_char(&mut text, c)?;
        }
        put_plain(&mut text, &mut rest)?;
    }
    shrink(&mut text);
    Ok(Some(text))
}

/// Returns the text before the newline at its end, or `None` if the text does not end with one.
fn before_newline(text: &str) -> Option<&str>
    ensures { MatchOption result
        ((t : List ℕ) → t ++ newline true ≡ chars text.now → ⊥)
        (λ t. chars t.now ++ newline true ≡ chars text.now) }
{
    text.strip_suffix('\n')
}

/// Returns the input without the newline that a macro appended to it, or `None` if one was appended
/// and the input does not end with it.
fn strip_newline(input: &str, appended: bool) -> Option<&str>
    ensures { MatchOption result
        ((t : List ℕ) → t ++ newline appended ≡ chars input.now → ⊥)
        (λ t. chars t.now ++ newline appended ≡ chars input.now) }
{
    if appended {
        before_newline(input)
    } else {
        Some(input)
    }
}

/// Returns the text between the first and the last character, or `None` if these are not two
/// quotes. Does not check that the text is the content of a literal (`read_content` does). Does
/// not allocate.
pub fn quoted_content(snippet: &str) -> Option<&str>
    ensures { MatchOption result
        ((t : List ℕ) → chars snippet.now ≡ ordinary_frame t → ⊥)
        (λ t. chars snippet.now ≡ ordinary_frame (chars t.now)) }
{
    match snippet.strip_prefix('"') {
        Some(rest_after) => rest_after.strip_suffix('"'),
        None => None,
    }
}

/// Skips the `\x` escapes at the start of a content and, in a text, the characters that they stand
/// for, up to the first escape with which the text does not go on.
#[inline(always)]
fn skip_byte_escapes(rest: &mut Rest<'_>, expected: &mut Rest<'_>)
    ensures { SameEnds rest.old expected.old rest.new expected.new }
{
    while let Some((byte, rest_after)) = byte_escape(rest.text()) {
        if !expected.consume_ascii(byte) {
            return;
        }
        *rest = Rest::new(rest_after);
    }
}

/// Skips the `\x` escapes at the start of a content, with the characters of a text that they stand
/// for, and the plain characters with which both then go on.
#[inline(always)]
fn skip_alike(rest: &mut Rest<'_>, expected: &mut Rest<'_>)
    ensures { SameEnds rest.old expected.old rest.new expected.new }
{
    skip_byte_escapes(rest, expected);
    rest.skip_plain(expected);
}

/// Returns where the text ends that the content stands for, as a byte offset that counts the quote
/// before the content, or `None` if the content does not stand for the text.
#[tactic(auto, using(crate::proofs::Literals::Ends::end_steps))]
fn spelled_end(content: &str, text: &str) -> Option<usize>
    ensures { result ≡ spelled_end 1 1 (chars content.now) (chars text.now) }
{
    let total = content.len() + 1;
    let mut rest = Rest::new(content);
    let mut expected = Rest::new(text);
    rest.skip_plain(&mut expected);
    let mut end = total - rest.len();
    while !rest.is_empty() {
        let Some(value) = read_unit(&mut rest) else {
            return None;
        };
        if let Some(c) = value {
            if !expected.next_eq(c) {
                return None;
            }
            skip_alike(&mut rest, &mut expected);
            end = total - rest.len();
        }
    }
    if expected.is_empty() { Some(end) } else { None }
}

/// Returns the byte offset in an ordinary literal at which the text ends that it stands for, or
/// `None` if the snippet is no such literal.
fn ordinary_end(snippet: &str, text: &str) -> Option<usize>
    ensures { MatchOption result
        (IsOrdinaryLiteral (chars snippet.now) (chars text.now) → ⊥)
        (λ e. IsOrdinaryLiteral (chars snippet.now) (chars text.now)
        × (e ≡ literal_end None (chars snippet.now))) }
{
    match quoted_content(snippet) {
        Some(content) => spelled_end(content, text),
        None => None,
    }
}

/// Consumes this many hashes, and returns whether they were there.
fn consume_hashes(rest: &mut Rest<'_>, hashes: usize) -> bool
    ensures { IsTaken (replicate hashes 35) rest.old result rest.new }
{
    let mut countdown = hashes;
    while countdown > 0 {
        if !rest.next_eq('#') {
            return false;
        }
        countdown -= 1;
    }
    true
}

/// Consumes the opening of a raw literal, `r`, the hashes and a quote, and returns whether it was
/// there.
#[tactic(auto, using(crate::proofs::Literals::Prefixes::prefix_steps))]
fn consume_opening(rest: &mut Rest<'_>, hashes: usize) -> bool
    ensures { IsTaken (raw_opening hashes) rest.old result rest.new }
{
    if !rest.next_eq('r') {
        return false;
    }
    if !consume_hashes(rest, hashes) {
        return false;
    }
    rest.next_eq('"')
}

/// Consumes this text, and returns whether it was there.
fn consume_text(rest: &mut Rest<'_>, text: &str) -> bool
    ensures { IsTaken (chars text.now) rest.old result rest.new }
{
    let mut expected = Rest::new(text);
    while let Some(c) = expected.next() {
        if !rest.next_eq(c) {
            return false;
        }
    }
    true
}

/// Consumes the closing of a raw literal, a quote and the hashes, and returns whether it was there.
#[tactic(auto, using(crate::proofs::Literals::Prefixes::prefix_steps))]
fn consume_closing(rest: &mut Rest<'_>, hashes: usize) -> bool
    ensures { IsTaken (raw_closing hashes) rest.old result rest.new }
{
    rest.next_eq('"') && consume_hashes(rest, hashes)
}

/// Returns whether the snippet is a raw literal with this many hashes that stands for the text.
fn is_raw_literal(snippet: &str, hashes: usize, text: &str) -> bool
    ensures { IsTrue result ↔ (chars snippet.now ≡ raw_frame hashes (chars text.now)) }
{
    let mut rest = Rest::new(snippet);
    if !consume_opening(&mut rest, hashes) {
        return false;
    }
    if !consume_text(&mut rest, text) {
        return false;
    }
    consume_closing(&mut rest, hashes) && rest.is_empty()
}

/// Returns the byte offset in a raw literal at which the text ends that it stands for, or `None` if
/// the snippet is no such literal with this many hashes.
fn raw_end(snippet: &str, hashes: usize, text: &str) -> Option<usize>
    ensures { MatchOption result
        (chars snippet.now ≡ raw_frame hashes (chars text.now) → ⊥)
        (λ e. (chars snippet.now ≡ raw_frame hashes (chars text.now))
        × (e ≡ literal_end (Some hashes) (chars snippet.now))) }
{
    if is_raw_literal(snippet, hashes, text) {
        Some(snippet.len() - hashes - 1)
    } else {
        None
    }
}

/// Returns the byte offset at which the text of the source literal of the input ends, or `None` if
/// the snippet is not its source literal.
pub(crate) fn source_end(
    input: &str,
    style: Option<usize>,
    snippet: &str,
    appended_newline: bool,
) -> Option<usize>
    ensures { MatchOption result
        (IsSource (chars input.now) style (chars snippet.now) appended_newline → ⊥)
        (λ e. IsSourceTo (chars input.now) style (chars snippet.now) appended_newline e) }
{
    let text = strip_newline(input, appended_newline)?;
    match style {
        None => ordinary_end(snippet, text),
        Some(hashes) => raw_end(snippet, hashes, text),
    }
}

/// Returns whether the snippet is the source literal of the input: a string literal of this style
/// that stands for the input. The style is `None` for an ordinary literal, `Some(n)` for a raw one
/// with n hashes. With an appended newline, the input ends in a newline that the literal does not
/// have.
///
/// The rule is that of string literals in the Rust Reference, except that a raw literal may hold
/// any character. Does not allocate.
pub fn is_source_literal(
    input: &str,
    style: Option<usize>,
    snippet: &str,
    appended_newline: bool,
) -> bool
    ensures { IsTrue result
        ↔ IsSource (chars input.now) style (chars snippet.now) appended_newline }
{
    source_end(input, style, snippet, appended_newline).is_some()
}
