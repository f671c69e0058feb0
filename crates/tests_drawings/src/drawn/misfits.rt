//! Spans that do not fit the source are drawn where they are cut.

use drawn_faults::draw;
use drawn_lines::{Picture, WIDTH};
use rustc_parse_format::{ParseError, ParseMode, Suggestion};
use std::alloc::{AllocError, Global};
use std::ops::Range;
use std::process::Abort;
use std::test::Fail;

/// An error with this span, and labels of one letter.
pub fn error_at(
    alloc: Global,
    span: Range<usize>,
    second: Range<usize>,
) -> Result<ParseError, AllocError> {
    Ok(ParseError {
        description: String::from_str(alloc, "d")?,
        note: None,
        label: String::from_str(alloc, "l")?,
        span,
        secondary_label: Some((String::from_str(alloc, "s")?, second)),
        suggestion: Suggestion::None,
    })
}

/// The two labels are drawn in the source `日a`, which begins the literal.
fn check(
    rt: &impl Abort,
    alloc: Global,
    span: Range<usize>,
    second: Range<usize>,
    wanted: &str,
) -> Result<(), AllocError> {
    let picture = Picture {
        path: "a.rs",
        source: "日a",
        line_start: 7,
        literal_start: 0,
        width: WIDTH,
        colours: false,
    };
    let error = error_at(alloc, span, second)?;
    let drawing = draw(alloc, ParseMode::Format, &picture, &error)?;
    assert_eq!(rt; drawing.as_str(), wanted);
    Ok(())
}

#[test]
fn misfits(rt: HostRuntime) -> Result<(), Fail> {
    // the end of the source, and the start of a character
    let text = "error: invalid format string: d\n --> a.rs:7:3\n  |\n\
        7 | 日a\n  | -  ^ l in format string\n  | |\n  | s\n\n";
    check(&rt, rt.alloc(), 9..usize::MAX, 1..2, text)?;
    // a range that ends before it begins is empty
    let text = "error: invalid format string: d\n --> a.rs:7:2\n  |\n\
        7 | 日a\n  | --^ l in format string\n  | |\n  | s\n\n";
    check(&rt, rt.alloc(), 3..0, 0..3, text)?;
    Ok(())
}
