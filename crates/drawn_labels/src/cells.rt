//! A row as cells, into which texts are put over one another. A function whose name begins with
//! `put_` writes into a row or appends to `out`, and returns `Err` if an allocation fails.

ghost use Rattle.std.specs.Prelude.{◌≡◌, ◌++◌, ◌∷◌, ◌<◌, IfOk, List, OnOk, length, replicate};
ghost use Rattle.std.specs.Prelude.{string_bytes};
ghost use Rattle.drawn_labels.specs.Marks.{cells, put_cell_at, put_cells_from};
ghost use Rattle.drawn_lines.specs.Painting.{pieces_after};
ghost use Rattle.drawn_labels.specs.Rows.{cell_pieces, seen_mark, space, style_of, text_style};
ghost use Rattle.drawn_labels.specs.Rows.{written_cells};
ghost use Rattle.drawn_labels.specs.declared.cells.Cell.{Cell as CellValue};
ghost use Rattle.drawn_lines.specs.declared.paint.Style.TheVariants.{Plain};

use crate::mark::Mark;
use drawn_lines::{
    Palette, Style, glyph, glyph_count, has_colours, put_change, put_reset, split_first,
};
use std::alloc::AllocError;

/// A character in a row.
#[derive(Clone, Copy)]
pub struct Cell {
    pub character: char,
    pub style: Style,
}

/// Returns the style of the signs of a label, and of its bar.
pub fn style_of(mark: &Mark<'_>) -> Style
    ensures { result ≡ style_of (seen_mark mark.now) }
{
    if mark.sign == '^' {
        Style::Primary
    } else {
        Style::Secondary
    }
}

/// Returns the style of the text of a label.
pub fn text_style(mark: &Mark<'_>) -> Style
    ensures { result ≡ text_style (seen_mark mark.now) }
{
    if mark.sign == '^' {
        Style::PrimaryText
    } else {
        Style::SecondaryText
    }
}

/// Returns a space.
fn space() -> Cell
    ensures { result ≡ space }
{
    Cell {
        character: ' ',
        style: Style::Plain,
    }
}

/// Puts a cell into a column of a row.
#[tactic(auto, using(crate::proofs::MarkLemmas::cells_put))]
pub fn put_cell_at(row: &mut Vec<Cell>, column: usize, cell: Cell) -> Result<(), AllocError>
    ensures value { OnOk result (row.new.items ≡ put_cell_at column cell row.old.items) }
    ensures inside { OnOk result (column < length row.new.items) }
{
    while row.len() < column {
        row.push(space())?;
    }
    if column < row.len() {
        row[column] = cell;
    } else {
        row.push(cell)?;
    }
    Ok(())
}

/// Puts a cell into so many columns of a row. Returns the column after them.
pub fn put_run_at(
    row: &mut Vec<Cell>,
    start: usize,
    count: usize,
    cell: Cell,
) -> Result<usize, AllocError>
    ensures { IfOk result (λ n. (cs : List CellValue) → put_cells_from n cs row.new.items
        ≡ put_cells_from start (replicate count cell ++ cs) row.old.items) }
{
    let mut column = start;
    let mut countdown = count;
    while countdown > 0 {
        put_cell_at(row, column, cell)?;
        column += 1;
        countdown -= 1;
    }
    Ok(column)
}

/// Puts a space and then a text, as it is drawn, into a row from a column on.
pub fn put_spaced_text(
    row: &mut Vec<Cell>,
    start: usize,
    style: Style,
    text: &str,
) -> Result<(), AllocError>
    ensures { OnOk result (row.new.items
        ≡ put_cells_from start (space ∷ cells style text.now) row.old.items) }
{
    let column = put_run_at(row, start, 1, space())?;
    put_text_from(row, column, style, text)?;
    Ok(())
}

/// Puts a text, as it is drawn, into a row from a column on.
pub fn put_text_from(
    row: &mut Vec<Cell>,
    start: usize,
    style: Style,
    text: &str,
) -> Result<(), AllocError>
    ensures { OnOk result (row.new.items ≡ put_cells_from start
        (cells style text.now) row.old.items) }
{
    let mut column = start;
    let mut rest = text;
    while let Some((c, tail)) = split_first(rest) {
        let character = glyph(c);
        column = put_run_at(row, column, glyph_count(c), Cell { character, style })?;
        rest = tail;
    }
    Ok(())
}

/// Adds the characters of cells in their styles.
fn put_styled_cells(out: &mut String, palette: Palette, cells: &[Cell]) -> Result<(), AllocError>
    ensures { OnOk result (string_bytes out.new ≡ string_bytes out.old
        ++ pieces_after palette Plain (cell_pieces cells.now)) }
{
    let mut style = Style::Plain;
    for cell in cells {
        put_change(out, palette, style, cell.style)?;
        out.push(cell.character)?;
        style = cell.style;
    }
    put_reset(out, style)?;
    Ok(())
}

/// Adds the characters of cells, in their styles if there are colours.
pub fn put_written_cells(
    out: &mut String,
    palette: Palette,
    cells: &[Cell],
) -> Result<(), AllocError>
    ensures { OnOk result (string_bytes out.new
        ≡ string_bytes out.old ++ written_cells palette cells.now) }
{
    if has_colours(palette) {
        return Ok(put_styled_cells(out, palette, cells)?);
    }
    for cell in cells {
        out.push(cell.character)?;
    }
    Ok(())
}
