//! Texts with edits, line by line. Functions that return a `Result` return `Err` if an allocation
//! fails.

ghost use Rattle.std.specs.Prelude.{◌≡◌, ◌++◌, ◌-◌, ◌<◌, ◌==◌, ◌^◌, IfOk, OnOk, length, map};
ghost use Rattle.std.specs.Prelude.{[], ◌∷◌, IfSome, MatchOption, string_bytes};
ghost use Rattle.std.specs.List.{list_any, slice_split};
ghost use Rattle.drawn_edits.specs.EditedLines.{are_blank, rest_after, count_to_text, do_remove};
ghost use Rattle.drawn_edits.specs.EditedLines.{front};
ghost use Rattle.drawn_edits.specs.EditedLines.{have_no_text, is_added, new_lines, new_page};
ghost use Rattle.drawn_edits.specs.EditedLines.{old_lines};
ghost use Rattle.drawn_edits.specs.EditedLines.{parts, seen_line, seen_page, seen_part};
ghost use Rattle.drawn_edits.specs.EditedLines.{is_same_end};
ghost use Rattle.drawn_edits.specs.EditedLines.{text_of, with_line, with_parts, with_texts};
ghost use Rattle.drawn_edits.specs.EditedLines.{seen_edit};
ghost use Rattle.drawn_edits.specs.EditedLines.{edit_in_literal};
ghost use Rattle.drawn_lines.specs.Painting.{plain_text};
ghost use Rattle.drawn_lines.specs.Places.{is_line_feed, seen_picture};
ghost use Rattle.rustc_parse_format.specs.Views.{pair};

use drawn_lines::{Extent, Picture, Style, extent_of, offsets, rank, split_first, split_line};
use std::alloc::{AllocError, Global};
use std::mem;
use std::ops::Range;

/// An edit that is drawn with its lines.
#[derive(Clone, Copy)]
pub struct Edit<'a> {
    /// The new text.
    pub text: &'a str,
    /// Where the text is that it replaces.
    pub extent: Extent,
    /// The byte offset in the source at which that text begins.
    pub start: usize,
    /// The byte offset in the source at which it ends.
    pub end: usize,
}

/// Returns an edit with its place in the source.
pub fn placed_edit<'a>(picture: &Picture<'_>, text: &'a str, range: &Range<usize>) -> Edit<'a>
    requires { length picture.now.source.now < 2 ^ 59 }
    ensures value { seen_edit result ≡ edit_in_literal (seen_picture picture.now) text.now
        (pair range.now) }
    ensures small { result.extent.end.line < 2 ^ 59 }
    ensures small_start { result.extent.start.line < 2 ^ 59 }
{
    let (start, end) = offsets(picture, range);
    Edit {
        text,
        extent: extent_of(picture, range),
        start,
        end,
    }
}

/// A part of a line.
#[derive(Clone, Copy)]
pub struct Part<'a> {
    /// Whether it stays, is removed or is added.
    pub style: Style,
    /// Its text.
    pub text: &'a str,
}

/// A line.
#[derive(Drop)]
pub struct Line<'a> {
    /// Its parts, from left to right.
    pub parts: Vec<Part<'a>>,
}

/// Returns the first characters of a text, as many as end within `width` bytes, and what is after
/// them.
pub fn split_within(text: &str, width: usize) -> (&str, &str)
    ensures front { result.0.now ≡ front width text.now }
    ensures rest_after { result.1.now ≡ rest_after width text.now }
{
    let mut rest = text;
    let mut countdown = width;
    while let Some((c, tail)) = split_first(rest) {
        if countdown < c.len_utf8() {
            break;
        }
        countdown -= c.len_utf8();
        rest = tail;
    }
    text.split_at(text.len() - rest.len())
}

/// Returns the parts of a text at the byte offset `start` of the source, from its first line to the
/// end of the line in which the last edit ends.
pub fn parts_of<'a>(
    alloc: Global,
    start: usize,
    text: &'a str,
    edits: &[Edit<'a>],
) -> Result<Vec<Part<'a>>, AllocError>
    ensures { IfOk result (λ v. map seen_part v.items
        ≡ parts start (map seen_edit edits.now) text.now) }
{
    let mut list = Vec::new(alloc);
    let mut at = start;
    let mut rest = text;
    for edit in edits {
        let from = edit.start.max(at);
        let to = edit.end.max(from);
        let (front_text, rest_after) = split_within(rest, from - at);
        let (removed_text, rest_after) = split_within(rest_after, to - from);
        list.push(Part {
            style: Style::Plain,
            text: front_text,
        })?;
        list.push(Part {
            style: Style::Removal,
            text: removed_text,
        })?;
        list.push(Part {
            style: Style::Addition,
            text: edit.text,
        })?;
        rest = rest_after;
        at = to;
    }
    let (line, _) = split_line(rest);
    list.push(Part {
        style: Style::Plain,
        text: line,
    })?;
    Ok(list)
}

/// Adds a part of a line, and ends the line.
fn end_line<'a>(
    lines: &mut Vec<Line<'a>>,
    row: &mut Vec<Part<'a>>,
    part: Part<'a>,
) -> Result<(), AllocError>
    ensures { OnOk result (seen_page lines.new.items row.new.items
        ≡ with_line part.entry.style part.entry.text.now
        (seen_page lines.old.items row.old.items)) }
{
    let alloc = *row.allocator();
    row.push(part)?;
    let parts = mem::replace(row, Vec::new(alloc));
    lines.push(Line { parts })?;
    Ok(())
}

/// Returns the first line of a text and the text after it, or `None` if the text has one line.
#[tactic(auto, using(crate::proofs::EditLines::first_of_lines))]
fn split_feed(text: &str) -> Option<(&str, &str)>
    ensures lines { MatchOption result (slice_split is_line_feed text.now ≡ text.now ∷ [])
        (λ x. slice_split is_line_feed text.now
        ≡ x.0.now ∷ slice_split is_line_feed x.1.now) }
    ensures shorter { IfSome result (λ x. length x.1.now < length text.now) }
{
    text.split_once('\n')
}

/// Adds a text of a style after lines.
fn push_text<'a>(
    lines: &mut Vec<Line<'a>>,
    row: &mut Vec<Part<'a>>,
    style: Style,
    text: &'a str,
) -> Result<(), AllocError>
    ensures { OnOk result (seen_page lines.new.items row.new.items
        ≡ with_texts style (slice_split is_line_feed text.now)
        (seen_page lines.old.items row.old.items)) }
{
    let mut rest = text;
    while let Some((line, rest_after)) = split_feed(rest) {
        end_line(lines, row, Part { style, text: line })?;
        rest = rest_after;
    }
    row.push(Part { style, text: rest })?;
    Ok(())
}

/// Adds parts after lines, but for those of the style `style`.
fn push_parts<'a>(
    lines: &mut Vec<Line<'a>>,
    row: &mut Vec<Part<'a>>,
    style: Style,
    parts: &[Part<'a>],
) -> Result<(), AllocError>
    ensures { OnOk result (seen_page lines.new.items row.new.items
        ≡ with_parts style (map seen_part parts.now)
        (seen_page lines.old.items row.old.items)) }
{
    for part in parts {
        if rank(part.style) != rank(style) {
            push_text(lines, row, part.style, part.text)?;
        }
    }
    Ok(())
}

/// Returns whether parts have no text.
fn have_no_text(parts: &[Part<'_>]) -> bool
    ensures { result ≡ have_no_text (map seen_part parts.now) }
{
    for part in parts {
        if !part.text.is_empty() {
            return false;
        }
    }
    true
}

/// Returns how many of lines there are up to the last one with a text.
fn count_to_text(lines: &[Line<'_>]) -> usize
    ensures { result ≡ count_to_text 0 0 (map seen_line lines.now) }
{
    let mut count = 0;
    for (index, line) in lines.iter().enumerate() {
        if !have_no_text(&line.parts) {
            count = index + 1;
        }
    }
    count
}

/// Adds the lines of parts without what they remove. Leaves out what is after the last edit if the
/// text of that edit ends a line.
fn push_new_part<'a>(
    lines: &mut Vec<Line<'a>>,
    row: &mut Vec<Part<'a>>,
    parts: &[Part<'a>],
) -> Result<(), AllocError>
    requires no_lines { lines.now.items ≡ [] }
    requires no_row { row.now.items ≡ [] }
    ensures { OnOk result (seen_page lines.new.items row.new.items
        ≡ new_page (map seen_part parts.now)) }
{
    let (front, rest) = parts.split_at(parts.len().saturating_sub(1));
    push_parts(lines, row, Style::Removal, front)?;
    if have_no_text(row) && !lines.is_empty() {
        return Ok(());
    }
    push_parts(lines, row, Style::Removal, rest)?;
    Ok(())
}

/// Returns the new lines of parts, without those at their end that have no text.
#[tactic(auto, unfolding(crate::specs::EditedLines::new_lines))]
pub fn new_lines<'a>(alloc: Global, parts: &[Part<'a>]) -> Result<Vec<Line<'a>>, AllocError>
    ensures { IfOk result (λ v. map seen_line v.items ≡ new_lines (map seen_part parts.now)) }
{
    let mut lines = Vec::new(alloc);
    let mut row = Vec::new(alloc);
    push_new_part(&mut lines, &mut row, parts)?;
    lines.push(Line { parts: row })?;
    let count = count_to_text(&lines);
    lines.truncate(count);
    Ok(lines)
}

/// Returns the lines of parts without what they add.
#[tactic(auto, unfolding(crate::specs::EditedLines::old_lines))]
pub fn old_lines<'a>(alloc: Global, parts: &[Part<'a>]) -> Result<Vec<Line<'a>>, AllocError>
    ensures { IfOk result (λ v. map seen_line v.items ≡ old_lines (map seen_part parts.now)) }
{
    let mut lines = Vec::new(alloc);
    let mut row = Vec::new(alloc);
    push_parts(&mut lines, &mut row, Style::Addition, parts)?;
    lines.push(Line { parts: row })?;
    Ok(lines)
}

/// Returns whether parts are white space.
pub fn are_blank(parts: &[Part<'_>]) -> bool
    ensures { result ≡ are_blank (map seen_part parts.now) }
{
    for part in parts {
        if !part.text.trim().is_empty() {
            return false;
        }
    }
    true
}

/// Returns whether a part is an addition.
pub fn is_added(part: &Part<'_>) -> bool
    ensures { result ≡ is_added (seen_part part.now) }
{
    matches!(part.style, Style::Addition)
}

/// Returns whether one of parts is an addition.
pub fn have_addition(parts: &[Part<'_>]) -> bool
    ensures { result ≡ list_any is_added (map seen_part parts.now) }
{
    for part in parts {
        if is_added(part) {
            return true;
        }
    }
    false
}

/// Returns whether edits remove something that is no white space.
pub fn do_remove(parts: &[Part<'_>]) -> bool
    ensures { result ≡ do_remove (map seen_part parts.now) }
{
    for part in parts {
        if matches!(part.style, Style::Removal) && !part.text.trim().is_empty() {
            return true;
        }
    }
    false
}

/// Adds the text of parts.
fn put_text(out: &mut String, parts: &[Part<'_>]) -> Result<(), AllocError>
    ensures { OnOk result (string_bytes out.new ≡ string_bytes out.old
        ++ plain_text (map seen_part parts.now)) }
{
    for part in parts {
        out.push_str(part.text)?;
    }
    Ok(())
}

/// Returns the text of lines.
fn text_of(alloc: Global, lines: &[Line<'_>]) -> Result<String, AllocError>
    ensures { IfOk result (λ s. string_bytes s ≡ text_of (map seen_line lines.now)) }
{
    let mut text = String::new(alloc);
    for line in lines {
        put_text(&mut text, &line.parts)?;
    }
    Ok(text)
}

/// Returns whether the text of the last old line is that of the only new one.
pub fn is_same_end(alloc: Global, old: &[Line<'_>], new: &[Line<'_>]) -> Result<bool, AllocError>
    ensures { IfOk result (λ b. b
        ≡ is_same_end (map seen_line old.now) (map seen_line new.now)) }
{
    let [line, ..] = new else {
        return Ok(false);
    };
    let (_, last) = old.split_at(old.len().saturating_sub(1));
    let old_text = text_of(alloc, last)?;
    let mut new_text = String::new(alloc);
    put_text(&mut new_text, &line.parts)?;
    Ok(old_text.as_str() == new_text.as_str())
}
