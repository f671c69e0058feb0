//! The hunks of a diff.

ghost use Rattle.std.specs.Prelude.{◌≡◌, ◌<◌, ◌+◌, ◌^◌, ◌++◌, MatchOption, OnOk, List, ℕ, true};
ghost use Rattle.std.specs.Prelude.{decimal, length, string_bytes, take};
ghost use Rattle.unified_diff.specs.Diffs.{AreHunks, IsWholeDiff, are_shared, extent, head};
ghost use Rattle.unified_diff.specs.Diffs.{hunk_text, is_shared, line_end, new_count, old_count};
ghost use Rattle.unified_diff.specs.Diffs.{row_text, rows_text, sign};

use crate::rows::{Row, Side, front, rest_after, rows_of};
use itoa::Buffer;
use std::alloc::AllocError;

/// The number of lines that both texts have before and after a change.
const CONTEXT: usize = 3;

/// The lines that are not in a diff so far: the number of lines before them in each text.
#[derive(Clone, Copy, Drop)]
struct Numbers {
    old: usize,
    new: usize,
}

/// Returns how many of these rows are in the old text, and how many in the new one.
#[tactic(auto, unfolding(crate::specs::Diffs::old_count, crate::specs::Diffs::new_count))]
fn count(rows: &[Row<'_>]) -> Numbers
    ensures old { result.old ≡ old_count rows.now }
    ensures new { result.new ≡ new_count rows.now }
{
    let mut numbers = Numbers { old: 0, new: 0 };
    for row in rows {
        if row.side != Side::New {
            numbers.old += 1;
        }
        if row.side != Side::Old {
            numbers.new += 1;
        }
    }
    numbers
}

/// Returns whether a line is in both texts.
fn is_shared(side: Side) -> bool
    ensures { result ≡ is_shared side }
{
    matches!(side, Side::Both)
}

/// Returns how many rows are before the first one that is in one text alone, or `None` if all are
/// in both.
#[tactic(auto, using(crate::proofs::Counts::shared_front))]
fn first_change(rows: &[Row<'_>]) -> Option<usize>
    ensures { MatchOption result (are_shared rows.now ≡ true)
        (λ n. (n < length rows.now) × (are_shared (take n rows.now) ≡ true)) }
{
    for (index, row) in rows.iter().enumerate() {
        if !is_shared(row.side) {
            return Some(index);
        }
    }
    None
}

/// Returns how many of these rows, of which one of the first is a change, belong to one hunk.
fn hunk_len(rows: &[Row<'_>]) -> usize
    ensures { 0 < length rows.now → 0 < result }
{
    let mut count = 0usize;
    let mut change_end = 0usize;
    for row in rows {
        count = count.saturating_add(1);
        if !is_shared(row.side) {
            change_end = count;
        } else if count.saturating_sub(change_end) > 2 * CONTEXT {
            break;
        }
    }
    change_end.saturating_add(CONTEXT)
}

/// Appends a number in decimal digits. Returns `Err` if an allocation fails.
fn put_number(out: &mut String, number: usize) -> Result<(), AllocError>
    ensures { OnOk result (string_bytes out.new ≡ string_bytes out.old ++ decimal number) }
{
    out.push_str(Buffer::new().format(number))
}

/// Appends where the lines of a hunk are in a text: the number of the first line, and how many
/// there are. Without a line the number is that of the line before. Returns `Err` if an allocation
/// fails.
fn put_extent(out: &mut String, lines_before: usize, count: usize) -> Result<(), AllocError>
    requires { lines_before + count < 2 ^ 64 }
    ensures { OnOk result (string_bytes out.new
        ≡ string_bytes out.old ++ extent lines_before count) }
{
    let first = if count == 0 {
        lines_before
    } else {
        lines_before + 1
    };
    put_number(out, first)?;
    out.push_str(",")?;
    put_number(out, count)
}

/// Returns the first byte of a line of the diff.
fn sign(side: Side) -> &'static str
    ensures { result.now ≡ sign side }
{
    match side {
        Side::Both => " ",
        Side::Old => "-",
        Side::New => "+",
    }
}

/// Appends what follows a line without an LF, and nothing after one with it. Returns `Err` if an
/// allocation fails.
fn put_line_end(out: &mut String, line: &str) -> Result<(), AllocError>
    ensures { OnOk result (string_bytes out.new ≡ string_bytes out.old ++ line_end line.now) }
{
    if line.as_bytes().ends_with(b"\n") {
        return Ok(());
    }
    out.push_str("\n\\ No newline at end of file\n")
}

/// Appends a row. Returns `Err` if an allocation fails.
fn put_row(out: &mut String, row: &Row<'_>) -> Result<(), AllocError>
    ensures { OnOk result (string_bytes out.new ≡ string_bytes out.old ++ row_text row.now) }
{
    out.push_str(sign(row.side))?;
    out.push_str(row.line)?;
    put_line_end(out, row.line)
}

/// Appends rows. Returns `Err` if an allocation fails.
#[tactic(auto, unfolding(crate::specs::Diffs::rows_text))]
fn put_rows(out: &mut String, rows: &[Row<'_>]) -> Result<(), AllocError>
    ensures { OnOk result (string_bytes out.new ≡ string_bytes out.old ++ rows_text rows.now) }
{
    for row in rows {
        put_row(out, row)?;
    }
    Ok(())
}

/// Appends a hunk of rows, with these numbers of lines before it. Returns `Err` if an allocation
/// fails.
fn put_hunk(out: &mut String, numbers: Numbers, rows: &[Row<'_>]) -> Result<(), AllocError>
    requires old { numbers.old + old_count rows.now < 2 ^ 64 }
    requires new { numbers.new + new_count rows.now < 2 ^ 64 }
    ensures { OnOk result (string_bytes out.new
        ≡ string_bytes out.old ++ hunk_text numbers.old numbers.new rows.now) }
{
    let row_numbers = count(rows);
    out.push_str("@@ -")?;
    put_extent(out, numbers.old, row_numbers.old)?;
    out.push_str(" +")?;
    put_extent(out, numbers.new, row_numbers.new)?;
    out.push_str(" @@\n")?;
    put_rows(out, rows)
}

/// Returns the numbers of lines after rows.
#[tactic(auto, using(crate::proofs::Counts::counts_fit))]
fn numbers_after(numbers: Numbers, rows: &[Row<'_>]) -> Numbers
    requires old { numbers.old + old_count rows.now < 2 ^ 64 }
    requires new { numbers.new + new_count rows.now < 2 ^ 64 }
    ensures old { result.old ≡ numbers.old + old_count rows.now }
    ensures new { result.new ≡ numbers.new + new_count rows.now }
{
    let row_numbers = count(rows);
    Numbers {
        old: numbers.old + row_numbers.old,
        new: numbers.new + row_numbers.new,
    }
}

/// Appends all hunks of rows. Returns `Err` if an allocation fails.
fn put_hunks(out: &mut String, rows: &[Row<'_>]) -> Result<(), AllocError>
    ensures { OnOk result ((t : List ℕ) × (string_bytes out.new ≡ string_bytes out.old ++ t)
        × AreHunks rows.now t) }
{
    let mut rest = rows;
    let mut numbers = Numbers { old: 0, new: 0 };
    while let Some(change) = first_change(rest) {
        let gap = change.saturating_sub(CONTEXT);
        let others = rest_after(rest, gap);
        let length = hunk_len(others);
        let hunk = front(others, length);
        let start = numbers_after(numbers, front(rest, gap));
        put_hunk(out, start, hunk)?;
        numbers = numbers_after(start, hunk);
        rest = rest_after(others, length);
    }
    Ok(())
}

/// Returns whether a path is written in quotes.
fn wants_quotes(path: &str) -> bool {
    for c in path.chars() {
        if c == '"' || c == '\\' || c < ' ' || c == '\u{7f}' {
            return true;
        }
    }
    false
}

/// Appends a byte as an escape of C. Returns `Err` if an allocation fails.
fn put_octal(out: &mut String, byte: u32) -> Result<(), AllocError> {
    out.push('\\')?;
    put_number(out, (byte / 64) as usize)?;
    put_number(out, (byte / 8 % 8) as usize)?;
    put_number(out, (byte % 8) as usize)
}

/// Appends a character of a path in quotes. Returns `Err` if an allocation fails.
fn put_quoted(out: &mut String, c: char) -> Result<(), AllocError> {
    if c < ' ' || c == '\u{7f}' {
        return put_octal(out, c as u32);
    }
    if c == '"' || c == '\\' {
        out.push('\\')?;
    }
    out.push(c)
}

/// Appends the path of a text, in quotes with escapes of C if it is not UTF-8 or has a quote, a
/// backslash or a control character, and otherwise with a tab after it if it has a space. Returns
/// `Err` if an allocation fails.
fn put_path(out: &mut String, path: &str) -> Result<(), AllocError> {
    if !wants_quotes(path) {
        out.push_str(path)?;
        if path.contains(' ') {
            out.push('\t')?;
        }
        return Ok(());
    }
    out.push('"')?;
    // After NUL there are two digits in base 16 of a byte that is not UTF-8.
    let (mut digits, mut byte) = (0u32, 0u32);
    for c in path.chars() {
        if c == '\0' {
            digits = 2;
        } else if digits > 0 {
            digits -= 1;
            byte = byte % 16 * 16 + c.to_digit(16).unwrap_or(0);
            if digits == 0 {
                put_octal(out, byte)?;
            }
        } else {
            put_quoted(out, c)?;
        }
    }
    out.push('"')
}

/// Appends the first two lines of a diff of the file with this path. Returns `Err` if an allocation
/// fails.
fn put_head(out: &mut String, path: &str) -> Result<(), AllocError>
    ensures { OnOk result ((p : List ℕ)
        × (string_bytes out.new ≡ string_bytes out.old ++ head p)) }
{
    let mut name = String::new(*out.allocator());
    put_path(&mut name, path)?;
    out.push_str("--- ")?;
    out.push_str(name.as_str())?;
    out.push_str("\n+++ ")?;
    out.push_str(name.as_str())?;
    out.push_str("\n")?;
    Ok(())
}

/// Appends the difference of an old and a new text of the file with this path as a unified diff,
/// with three lines of context, and nothing if they are the same. A line ends at an LF. The time
/// grows with both lengths. Returns `Err` if an allocation fails, and a part of the diff may then
/// be appended.
pub fn put_diff(out: &mut String, path: &str, old: &str, new: &str) -> Result<(), AllocError>
    // Nothing is appended if the texts are the same. Otherwise the lines of the diff that begin
    // with a space or `-`, and those that it leaves out, make the old text, and those that begin
    // with a space or `+`, and those that it leaves out, the new one.
    ensures same { old.now ≡ new.now → OnOk result (string_bytes out.new ≡ string_bytes out.old) }
    ensures diff { (old.now ≡ new.now → ⊥) → OnOk result ((t : List ℕ)
        × (string_bytes out.new ≡ string_bytes out.old ++ t)
        × IsWholeDiff old.now new.now t) }
{
    if old == new {
        return Ok(());
    }
    let rows = rows_of(*out.allocator(), old, new)?;
    put_head(out, path)?;
    put_hunks(out, rows.as_slice())?;
    Ok(())
}
