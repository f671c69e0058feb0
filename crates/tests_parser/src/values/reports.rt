//! Reports on texts: worked cases, allocation failures, and many uses.

use placeholder_check::{CheckedReading, Report, Uses, check, check_uses, read_and_check};
use rustc_parse_format::{ParseMode, Piece, Reading, read_all};
use std::alloc::{AllocError, Global};
use std::io::Print;
use std::process::Abort;
use std::test::Fail;

/// A text, what is given for it, and the report.
#[derive(Clone, Copy)]
struct Row {
    input: &'static str,
    positional: usize,
    names: &'static [&'static str],
    missing_index: &'static [usize],
    missing_name: &'static [&'static str],
    unused_index: &'static [usize],
    unused_name: &'static [&'static str],
}

/// A star uses a number, and a width and a precision use names.
const COUNTS: Row = Row {
    input: "{:.*}{x:x$.y$}",
    positional: 1,
    names: &["y"],
    missing_index: &[1],
    missing_name: &["x"],
    unused_index: &[],
    unused_name: &[],
};

/// The first list of a report that is not the row's, if there is one.
fn differing(report: &Report<'_>, row: Row) -> &'static str {
    if report.missing_index.as_slice() != row.missing_index {
        "missing_index"
    } else if report.missing_name.as_slice() != row.missing_name {
        "missing_name"
    } else if report.unused_index.as_slice() != row.unused_index {
        "unused_index"
    } else if report.unused_name.as_slice() != row.unused_name {
        "unused_name"
    } else {
        ""
    }
}

/// The report is that of the row.
fn check_report(rt: &impl Abort, report: &Report<'_>, row: Row) {
    assert_eq!(rt; differing(report, row), "", "at {}", row.input);
}

/// The pieces of a text.
fn pieces_of(alloc: Global, input: &'static str) -> Result<Vec<Piece<'static>>, AllocError> {
    let read = read_all(alloc, input, None, None, false, ParseMode::Format)?;
    Ok(read.pieces)
}

/// The uses of pieces, added placeholder by placeholder.
fn added(alloc: Global, pieces: &[Piece<'static>]) -> Result<Uses<'static>, AllocError> {
    let mut uses = Uses::new(alloc);
    for piece in pieces {
        if let Piece::NextArgument(argument) = piece {
            uses.add(argument)?;
        }
    }
    Ok(uses)
}

/// The report of these pieces is that of the row, and so is that of their uses.
fn check_pieces(
    rt: &impl Abort,
    alloc: Global,
    pieces: &[Piece<'static>],
    row: Row,
) -> Result<(), AllocError> {
    let report = check(alloc, pieces, row.positional, row.names)?;
    check_report(rt, &report, row);
    let report = check_uses(alloc, &added(alloc, pieces)?, row.positional, row.names)?;
    check_report(rt, &report, row);
    Ok(())
}

/// The report of the pieces of a text is that of the row.
fn check_row(rt: &impl Abort, alloc: Global, row: Row) -> Result<(), AllocError> {
    let pieces = pieces_of(alloc, row.input)?;
    check_pieces(rt, alloc, pieces.as_slice(), row)
}

/// Each of these rows is so.
fn check_rows(rt: &impl Abort, alloc: Global, rows: &[Row]) -> Result<(), AllocError> {
    for row in rows {
        check_row(rt, alloc, *row)?;
    }
    Ok(())
}

const ON_NUMBERS: &[Row] = &[
    Row {
        input: "{2}{}{}{2}",
        positional: 2,
        names: &[],
        missing_index: &[2],
        missing_name: &[],
        unused_index: &[],
        unused_name: &[],
    },
    Row {
        input: "{65535}",
        positional: 0,
        names: &[],
        missing_index: &[65535],
        missing_name: &[],
        unused_index: &[],
        unused_name: &[],
    },
    Row {
        input: "{:1$}{q:0$}",
        positional: 3,
        names: &["q"],
        missing_index: &[],
        missing_name: &[],
        unused_index: &[2],
        unused_name: &[],
    },
    Row {
        input: "{7}{3}{5}{3}",
        positional: 4,
        names: &["a"],
        missing_index: &[5, 7],
        missing_name: &[],
        unused_index: &[0, 1, 2],
        unused_name: &["a"],
    },
];

#[test]
fn numbers_are_reported(rt: HostRuntime) -> Result<(), Fail> {
    check_rows(&rt, rt.alloc(), ON_NUMBERS)?;
    Ok(())
}

const ON_NAMES: &[Row] = &[
    COUNTS,
    Row {
        input: "",
        positional: 2,
        names: &["a", "b", "a"],
        missing_index: &[],
        missing_name: &[],
        unused_index: &[0, 1],
        unused_name: &["a", "b"],
    },
    Row {
        input: "{foo.}{}",
        positional: 1,
        names: &[],
        missing_index: &[1],
        missing_name: &["foo"],
        unused_index: &[0],
        unused_name: &[],
    },
    Row {
        input: "{z:b$}{a}{z}{c:.a$}",
        positional: 0,
        names: &["y", "c", "x", "y"],
        missing_index: &[],
        missing_name: &["z", "b", "a"],
        unused_index: &[],
        unused_name: &["y", "x"],
    },
];

#[test]
fn names_are_reported(rt: HostRuntime) -> Result<(), Fail> {
    check_rows(&rt, rt.alloc(), ON_NAMES)?;
    Ok(())
}

/// The reading of a row.
fn read_row(alloc: Global, row: Row) -> Result<CheckedReading<'static>, AllocError> {
    read_and_check(
        alloc,
        row.input,
        None,
        None,
        false,
        ParseMode::Format,
        row.positional,
        row.names,
    )
}

/// The reading of the row: two pieces, no error, and the report.
fn check_read(rt: &impl Abort, read: &CheckedReading<'_>, row: Row) {
    assert!(rt; read.pieces.len() == 2);
    assert!(rt; read.parser.errors().is_empty());
    check_report(rt, &read.report, row);
}

#[test]
fn reads_and_checks(rt: HostRuntime) -> Result<(), Fail> {
    let read = read_row(rt.alloc(), COUNTS)?;
    check_read(&rt, &read, COUNTS);
    Ok(())
}

/// Whether the report on a text is refused where so many arguments are given by position.
fn is_refused(alloc: Global, input: &'static str, positional: usize) -> Result<bool, AllocError> {
    let pieces = pieces_of(alloc, input)?;
    Ok(check(alloc, pieces.as_slice(), positional, &[]).is_err())
}

/// No memory holds so many numbers, so they are refused at once.
#[test]
fn greatest_positional_is_refused(rt: HostRuntime) -> Result<(), Fail> {
    assert!(rt; is_refused(rt.alloc(), "{}", usize::MAX)?);
    assert!(rt; is_refused(rt.alloc(), "{}", usize::MAX / 8)?);
    Ok(())
}

/// The pieces of a text, read once more where that is refused memory.
fn pieces_again(
    rt: &(impl Abort + Print),
    alloc: Global,
    input: &'static str,
) -> Result<Vec<Piece<'static>>, Fail> {
    if let Ok(pieces) = pieces_of(alloc, input) {
        return Ok(pieces);
    }
    println!(rt; "refused")?;
    Ok(pieces_of(alloc, input)?)
}

/// The report of a row, made once more where it is refused memory.
fn report_again(
    rt: &(impl Abort + Print),
    alloc: Global,
    pieces: &[Piece<'static>],
    row: Row,
) -> Result<Report<'static>, Fail> {
    if let Ok(report) = check(alloc, pieces, row.positional, row.names) {
        return Ok(report);
    }
    println!(rt; "refused")?;
    Ok(check(alloc, pieces, row.positional, row.names)?)
}

#[test]
fn check_out_of_memory_is_called_again(rt: HostRuntime) -> Result<(), Fail> {
    let pieces = pieces_again(&rt, rt.alloc(), COUNTS.input)?;
    let report = report_again(&rt, rt.alloc(), &pieces, COUNTS)?;
    check_report(&rt, &report, COUNTS);
    Ok(())
}
