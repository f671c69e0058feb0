//! The parts of messages under the titles of faults, beside those of rustc.

use super::missing_rows::MISSING;
use super::name_rows::NAMES;
use super::string_rows::STRINGS;
use super::tests::{arguments, plain};
use super::unused_rows::UNUSED;
use call_faults::{CallHelp, CallNote, call_faults};
use std::alloc::{AllocError, Global};
use std::test::Fail;
use text_faults::{CallLabel, Spot};

/// Where an argument is, in bytes from the start of the literal.
#[derive(Clone, Copy)]
struct Place {
    start: usize,
    /// The end of its name, or its start if it has none.
    name_end: usize,
    value: usize,
    end: usize,
}

/// Returns the places of the arguments of a list, which begins at `start`.
fn places(alloc: Global, start: usize, list: &str) -> Result<Vec<Place>, AllocError> {
    let mut places = Vec::new(alloc);
    let mut at = start;
    for argument in list.split(", ") {
        let (name_end, value) = match argument.split_once(" = ") {
            Some((name, _)) => (at + name.len(), at + name.len() + 3),
            None => (at, at),
        };
        let end = at + argument.len();
        places.push(Place {
            start: at,
            name_end,
            value,
            end,
        })?;
        at = end + 2;
    }
    Ok(places)
}

/// Returns the byte range of a place of a call, from the start of its literal.
fn range_of(literal: usize, places: &[Place], spot: Spot) -> (usize, usize) {
    let none = Place {
        start: 0,
        name_end: 0,
        value: 0,
        end: 0,
    };
    let at = |index: usize| *places.get(index).unwrap_or(&none);
    match spot {
        Spot::Argument(index) => (at(index).start, at(index).end),
        Spot::Name(index) => (at(index).start, at(index).name_end),
        Spot::Value(index) => (at(index).value, at(index).end),
        Spot::ValueUpToNext(index) => (at(index).value, at(index + 1).value),
        Spot::ValueEnd(index) => (at(index).end, at(index).end),
        Spot::Literal => (0, literal),
        Spot::LiteralEnd => (literal - 1, literal - 1),
        Spot::AfterLiteral => (literal, literal),
        Spot::Call => (0, 0),
        Spot::Bytes { start, end } => (start, end),
    }
}

/// Adds a place as a byte range, or as `call` if it is the whole call.
fn put_spot(
    out: &mut String,
    literal: usize,
    places: &[Place],
    spot: Spot,
) -> Result<(), AllocError> {
    if matches!(spot, Spot::Call) {
        out.push_str("call")?;
        return Ok(());
    }
    let (start, end) = range_of(literal, places, spot);
    write!(out, "{start}..{end}")?;
    Ok(())
}

/// Returns the line of a label: its sign, its range, and its text.
fn line_of(
    alloc: Global,
    literal: usize,
    places: &[Place],
    label: &CallLabel,
) -> Result<String, AllocError> {
    let mut line = String::new(alloc);
    line.push(if label.is_primary { '^' } else { '-' })?;
    put_spot(&mut line, literal, places, label.spot)?;
    line.push(' ')?;
    line.push_str(&label.text)?;
    line.push('\n')?;
    Ok(line)
}

/// Adds the lines of labels, sorted.
fn put_labels(
    out: &mut String,
    literal: usize,
    places: &[Place],
    labels: &[CallLabel],
) -> Result<(), AllocError> {
    let alloc = *out.allocator();
    let mut lines = Vec::new(alloc);
    for label in labels {
        lines.push(line_of(alloc, literal, places, label)?)?;
    }
    lines.sort()?;
    for line in &lines {
        out.push_str(line)?;
    }
    Ok(())
}

/// Adds a note, and the ranges that it shows.
fn put_note(
    out: &mut String,
    literal: usize,
    places: &[Place],
    note: &CallNote,
) -> Result<(), AllocError> {
    write!(out, "= {}", note.text)?;
    for spot in &note.spots {
        out.push(' ')?;
        put_spot(out, literal, places, *spot)?;
    }
    out.push('\n')?;
    Ok(())
}

/// Adds a help, and its edits. `source` is the call from its literal on.
fn put_help(
    out: &mut String,
    source: &str,
    literal: usize,
    places: &[Place],
    help: &CallHelp,
) -> Result<(), AllocError> {
    write!(out, "? {}", help.text)?;
    for edit in &help.edits {
        out.push(' ')?;
        put_spot(out, literal, places, edit.spot)?;
        let (start, end) = match edit.copied_spot {
            Some(spot) => range_of(literal, places, spot),
            None => (0, 0),
        };
        write!(out, " `{}{}{}`", edit.text, &source[start..end], edit.rest)?;
    }
    out.push('\n')?;
    Ok(())
}

/// Returns the parts of messages under the titles of a call.
fn output_of(alloc: Global, text: &str, list: &str) -> Result<String, AllocError> {
    let mut literal = String::from_str(alloc, "\"")?;
    literal.push_str(text)?;
    literal.push('"')?;
    let places = places(alloc, literal.len() + 2, list)?;
    let source = format!(in alloc; "{literal}, {list}")?;
    let given = arguments(alloc, list)?;
    let mut string = plain(text);
    string.snippet = Some(literal.as_str());
    let report = call_faults(alloc, string, &given)?;
    let mut out = String::new(alloc);
    for fault in &report.faults {
        let labels = report.labels(alloc, fault)?;
        put_labels(&mut out, literal.len(), &places, &labels)?;
        for note in &report.notes(alloc, fault)? {
            put_note(&mut out, literal.len(), &places, note)?;
        }
        if let Some(help) = &report.help(alloc, fault)? {
            put_help(&mut out, &source, literal.len(), &places, help)?;
        }
    }
    Ok(out)
}

#[test]
fn labels_notes_and_helps_are_those_of_rustc(rt: HostRuntime) -> Result<(), Fail> {
    let alloc = rt.alloc();
    for rows in [MISSING, UNUSED, NAMES, STRINGS] {
        for row in rows {
            let output = output_of(alloc, row.text, row.arguments)?;
            assert_eq!(&rt;
                output.as_str(),
                row.output,
                "{} {}",
                row.text,
                row.arguments
            );
        }
    }
    Ok(())
}

/// Every twelfth row, since each of their requests for memory is refused once.
#[test]
fn labels_out_of_memory_are_made_again(rt: HostRuntime) -> Result<(), Fail> {
    let alloc = rt.alloc();
    for rows in [MISSING, UNUSED, NAMES, STRINGS] {
        for (index, row) in rows.iter().enumerate() {
            if index % 12 != 0 {
                continue;
            }
            let output = match output_of(alloc, row.text, row.arguments) {
                Ok(output) => output,
                Err(_) => {
                    println!(rt; "refused")?;
                    output_of(alloc, row.text, row.arguments)?
                }
            };
            assert_eq!(&rt;
                output.as_str(),
                row.output,
                "{} {}",
                row.text,
                row.arguments
            );
        }
    }
    Ok(())
}
