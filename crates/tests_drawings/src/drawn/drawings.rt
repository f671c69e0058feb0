//! The drawing of each row of the tables.

use super::asm_rows::asm_rows;
use super::coloured_rows::coloured_rows;
use super::cut_rows::cut_rows;
use super::line_rows::line_rows;
use super::row::Row;
use super::short_rows::short_rows;
use drawn_faults::{draw, put_drawing};
use drawn_lines::{Picture, WIDTH};
use fault_fixes::errors_of;
use rustc_parse_format::{ParseError, ParseMode};
use std::alloc::{AllocError, Global};
use std::process::Abort;
use std::test::Fail;

/// Texts, one after the other, with a text after each.
fn joined(alloc: Global, texts: &[&str], end: &str) -> Result<String, AllocError> {
    let mut all = String::new(alloc);
    for text in texts {
        all.push_str(text)?;
        all.push_str(end)?;
    }
    Ok(all)
}

/// The faults of a row.
fn errors_in(
    rt: &impl Abort,
    alloc: Global,
    mode: ParseMode,
    row: &Row,
) -> Result<Vec<ParseError>, AllocError> {
    let style = row.style.unwrap_or(0);
    assert!(rt; row.text.len() < 10000 && style < 10000);
    let snippet = String::from_str(alloc, row.literal)?;
    errors_of(
        alloc,
        row.text,
        row.style,
        Some(snippet),
        row.appended_newline,
        mode,
    )
}

/// The drawing of a fault of a row, and once more after that text.
fn drawn(
    alloc: Global,
    mode: ParseMode,
    width: usize,
    colours: bool,
    row: &Row,
    error: &ParseError,
) -> Result<String, AllocError> {
    let source = joined(alloc, &[row.text_before, row.literal, row.text_after], "")?;
    let picture = Picture {
        path: "a.rs",
        source: source.as_str(),
        line_start: row.line,
        literal_start: row.text_before.len(),
        width,
        colours,
    };
    let mut drawing = draw(alloc, mode, &picture, error)?;
    put_drawing(&mut drawing, mode, &picture, error)?;
    Ok(drawing)
}

/// A drawing is as the row says, with an empty line at its end, and stands there twice.
fn check_drawing(
    rt: &impl Abort,
    alloc: Global,
    row: &Row,
    drawing: &str,
) -> Result<(), AllocError> {
    let wanted = joined(alloc, row.lines, "\n")?;
    let wanted = joined(alloc, &[wanted.as_str(), wanted.as_str()], "\n")?;
    assert_eq!(rt; drawing, wanted.as_str());
    Ok(())
}

/// The row's first fault is drawn as it says.
fn check(
    rt: &impl Abort,
    alloc: Global,
    mode: ParseMode,
    width: usize,
    colours: bool,
    row: &Row,
) -> Result<(), AllocError> {
    let errors = errors_in(rt, alloc, mode, row)?;
    assert!(rt; !errors.is_empty(), "{}", row.literal);
    let drawing = drawn(alloc, mode, width, colours, row, &errors[0])?;
    check_drawing(rt, alloc, row, drawing.as_str())
}

#[test]
fn one_line(rt: HostRuntime) -> Result<(), Fail> {
    for row in short_rows() {
        check(&rt, rt.alloc(), ParseMode::Format, WIDTH, false, row)?;
    }
    Ok(())
}

#[test]
fn several_lines(rt: HostRuntime) -> Result<(), Fail> {
    for row in line_rows() {
        check(&rt, rt.alloc(), ParseMode::Format, WIDTH, false, row)?;
    }
    Ok(())
}

#[test]
fn cut_lines(rt: HostRuntime) -> Result<(), Fail> {
    for row in cut_rows() {
        check(&rt, rt.alloc(), ParseMode::Format, 40, false, row)?;
    }
    Ok(())
}

#[test]
fn assembly(rt: HostRuntime) -> Result<(), Fail> {
    for row in asm_rows() {
        check(&rt, rt.alloc(), ParseMode::InlineAsm, WIDTH, false, row)?;
    }
    Ok(())
}

#[test]
fn in_colours(rt: HostRuntime) -> Result<(), Fail> {
    for row in coloured_rows() {
        check(&rt, rt.alloc(), ParseMode::Format, WIDTH, true, row)?;
    }
    Ok(())
}
