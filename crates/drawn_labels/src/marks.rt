//! The rows under a line with several labels. A function whose name begins with `put_` appends to
//! `out` or writes into a row, and returns `Err` if an allocation fails.

ghost use Rattle.std.specs.Prelude.{◌≡◌, ◌++◌, IfOk, OnOk, map, string_bytes};
ghost use Rattle.drawn_labels.specs.Marks.{bars, hung_row, hung_rows, hung_texts, mark_rows};
ghost use Rattle.drawn_labels.specs.Marks.{put_cells_from, rows_below, rows_of, seen_hung};
ghost use Rattle.drawn_labels.specs.Marks.{side_texts};
ghost use Rattle.drawn_labels.specs.Marks.{sign_row, signs_of, with_bar, with_hung_text};
ghost use Rattle.drawn_labels.specs.Marks.{with_side_text, with_signs};
ghost use Rattle.drawn_labels.specs.Rows.{seen_mark, written_cells};
ghost use Rattle.drawn_labels.specs.Signs.{AddsRows};
ghost use Rattle.drawn_lines.specs.Lines.{row_under};

use crate::cells::{
    Cell, put_cell_at, put_run_at, put_spaced_text, put_text_from, put_written_cells, style_of,
    text_style,
};
use crate::hanging::{HungLabel, depth, has_text, hung_labels};
use crate::mark::Mark;
use crate::order::covered_first;
use drawn_lines::{Gutter, put_gutter};
use std::alloc::{AllocError, Global};

/// How many columns most rows have at most.
const ROOM: usize = 128;

/// Puts the text of a label that stands right of its signs into a row.
fn put_side_text(row: &mut Vec<Cell>, label: &HungLabel<'_>) -> Result<(), AllocError>
    ensures { OnOk result (row.new.items ≡ with_side_text (seen_hung label.now) row.old.items) }
{
    let mark = &label.mark;
    if has_text(mark) && label.depth == 0 {
        put_spaced_text(row, mark.end, text_style(mark), mark.text)?;
    }
    Ok(())
}

/// Puts the texts of labels that stand right of their signs into a row.
fn put_side_texts(row: &mut Vec<Cell>, labels: &[HungLabel<'_>]) -> Result<(), AllocError>
    ensures { OnOk result (row.new.items
        ≡ side_texts (map seen_hung labels.now) row.old.items) }
{
    for first in labels {
        put_side_text(row, first)?;
    }
    Ok(())
}

/// Puts the signs of a label into a row.
fn put_signs_of(row: &mut Vec<Cell>, mark: &Mark<'_>) -> Result<(), AllocError>
    ensures { OnOk result (row.new.items
        ≡ put_cells_from (seen_mark mark.now).start (signs_of (seen_mark mark.now)) row.old.items) }
{
    let style = style_of(mark);
    let character = mark.sign;
    let columns = mark.end.saturating_sub(mark.start);
    put_run_at(row, mark.start, columns, Cell { character, style })?;
    Ok(())
}

/// Puts the signs of labels into a row, each over those before it.
fn put_signs(row: &mut Vec<Cell>, marks: &[Mark<'_>]) -> Result<(), AllocError>
    ensures { OnOk result (row.new.items
        ≡ with_signs (map seen_mark marks.now) row.old.items) }
{
    for mark in marks {
        put_signs_of(row, mark)?;
    }
    Ok(())
}

/// Returns the row of signs of labels, with the texts right of them. Returns `Err` if an allocation
/// fails.
#[tactic(auto, unfolding(crate::specs::Marks::sign_row))]
fn sign_row(
    alloc: Global,
    marks: &[Mark<'_>],
    labels: &[HungLabel<'_>],
) -> Result<Vec<Cell>, AllocError>
    ensures { IfOk result (λ v. v.items
        ≡ sign_row (map seen_mark marks.now) (map seen_hung labels.now)) }
{
    let mut row = Vec::with_capacity(alloc, ROOM)?;
    put_side_texts(&mut row, labels)?;
    let covered_marks = covered_first(alloc, marks)?;
    put_signs(&mut row, &covered_marks)?;
    Ok(row)
}

/// Puts the bar of a label that hangs more than `n` rows down into a row.
fn put_bar(row: &mut Vec<Cell>, n: usize, label: &HungLabel<'_>) -> Result<(), AllocError>
    ensures { OnOk result (row.new.items ≡ with_bar n (seen_hung label.now) row.old.items) }
{
    if has_text(&label.mark) && n < label.depth {
        let style = style_of(&label.mark);
        let character = '|';
        put_cell_at(row, label.mark.start, Cell { character, style })?;
    }
    Ok(())
}

/// Puts the bars of labels into the row with `n` rows between it and the signs.
fn put_bars(row: &mut Vec<Cell>, n: usize, labels: &[HungLabel<'_>]) -> Result<(), AllocError>
    ensures { OnOk result (row.new.items ≡ bars n (map seen_hung labels.now) row.old.items) }
{
    for first in labels {
        put_bar(row, n, first)?;
    }
    Ok(())
}

/// Puts the text of a label that hangs `n` rows down into a row.
fn put_hung_text(row: &mut Vec<Cell>, n: usize, label: &HungLabel<'_>) -> Result<(), AllocError>
    ensures { OnOk result (row.new.items ≡ with_hung_text n (seen_hung label.now) row.old.items) }
{
    let mark = &label.mark;
    if has_text(mark) && label.depth > 0 && n == label.depth {
        put_text_from(row, mark.start, text_style(mark), mark.text)?;
    }
    Ok(())
}

/// Puts the texts of labels that hang `n` rows down into a row.
fn put_hung_texts(row: &mut Vec<Cell>, n: usize, labels: &[HungLabel<'_>]) -> Result<(), AllocError>
    ensures { OnOk result (row.new.items ≡ hung_texts n (map seen_hung labels.now) row.old.items) }
{
    for first in labels {
        put_hung_text(row, n, first)?;
    }
    Ok(())
}

/// Returns the row with `n` rows between it and the signs. Returns `Err` if an allocation fails.
fn hung_row(alloc: Global, n: usize, labels: &[HungLabel<'_>]) -> Result<Vec<Cell>, AllocError>
    ensures { IfOk result (λ v. v.items ≡ hung_row n (map seen_hung labels.now)) }
{
    let mut row = Vec::with_capacity(alloc, ROOM)?;
    put_bars(&mut row, n, labels)?;
    put_hung_texts(&mut row, n, labels)?;
    Ok(row)
}

/// Adds a row under a line.
fn put_row(out: &mut String, gutter: Gutter, row: &[Cell]) -> Result<(), AllocError>
    ensures { OnOk result (string_bytes out.new
        ≡ string_bytes out.old ++ row_under gutter (written_cells gutter.palette row.now)) }
{
    put_gutter(out, gutter)?;
    put_written_cells(out, gutter.palette, row)?;
    out.push_str("\n")?;
    Ok(())
}

/// Adds so many rows below the signs.
fn put_hung_rows(
    out: &mut String,
    gutter: Gutter,
    count: usize,
    labels: &[HungLabel<'_>],
) -> Result<(), AllocError>
    ensures { OnOk result (string_bytes out.new
        ≡ string_bytes out.old ++ hung_rows gutter count (map seen_hung labels.now)) }
{
    let alloc = *out.allocator();
    for row_number in 0..count {
        let row = hung_row(alloc, row_number, labels)?;
        put_row(out, gutter, &row)?;
    }
    Ok(())
}

/// Adds the rows below the signs, of labels that hang as far down as `max_depth`.
fn put_rows_below(
    out: &mut String,
    gutter: Gutter,
    max_depth: usize,
    labels: &[HungLabel<'_>],
) -> Result<(), AllocError>
    ensures { OnOk result (string_bytes out.new
        ≡ string_bytes out.old ++ rows_below gutter max_depth (map seen_hung labels.now)) }
{
    if max_depth == 0 {
        return Ok(());
    }
    put_hung_rows(out, gutter, max_depth, labels)?;
    let row = hung_row(*out.allocator(), max_depth, labels)?;
    put_row(out, gutter, &row)?;
    Ok(())
}

/// Adds the rows of hung labels.
#[tactic(auto, unfolding(crate::specs::Marks::rows_of))]
fn put_rows_of(
    out: &mut String,
    gutter: Gutter,
    marks: &[Mark<'_>],
    labels: &[HungLabel<'_>],
) -> Result<(), AllocError>
    ensures { OnOk result (string_bytes out.new ≡ string_bytes out.old
        ++ rows_of gutter (map seen_mark marks.now) (map seen_hung labels.now)) }
{
    let row = sign_row(*out.allocator(), marks, labels)?;
    put_row(out, gutter, &row)?;
    put_rows_below(out, gutter, depth(labels), labels)?;
    Ok(())
}

/// Adds the rows under a line, of labels in it from right to left.
#[tactic(auto, using(crate::proofs::SignLaws::adds_rows), unfolding(crate::specs::Marks::mark_rows),)]
pub fn put_mark_rows(out: &mut String, gutter: Gutter, marks: &[Mark<'_>]) -> Result<(), AllocError>
    ensures rows { OnOk result (string_bytes out.new ≡ string_bytes out.old
        ++ mark_rows gutter (map seen_mark marks.now)) }
    // Under the columns of the labels are their signs, and no sign is elsewhere.
    ensures signs { OnOk result (AddsRows gutter (map seen_mark marks.now)
        (string_bytes out.old) (string_bytes out.new)) }
{
    let labels = hung_labels(*out.allocator(), marks)?;
    put_rows_of(out, gutter, marks, &labels)?;
    Ok(())
}
