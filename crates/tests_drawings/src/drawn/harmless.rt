//! Characters that a terminal obeys are drawn as others, wherever they stand.

use drawn_faults::draw;
use drawn_lines::{Picture, WIDTH, put_glyphs};
use rustc_parse_format::{ParseError, ParseMode, Suggestion};
use std::alloc::{AllocError, Global};
use std::test::Fail;

/// An error with such a character in each of its texts.
fn obeyed_error(alloc: Global) -> Result<ParseError, AllocError> {
    let text = String::from_str(alloc, "\u{200f}x")?;
    Ok(ParseError {
        description: String::from_str(alloc, "d\u{1b}[31m")?,
        note: Some(String::from_str(alloc, "n\u{202e}")?),
        label: String::from_str(alloc, "\u{9b}l")?,
        span: 8..9,
        secondary_label: Some((String::from_str(alloc, "\u{7f}s")?, 9..10)),
        suggestion: Suggestion::ReorderFormatParameter(8..9, text),
    })
}

#[test]
fn in_a_drawing(rt: HostRuntime) -> Result<(), Fail> {
    let error = obeyed_error(rt.alloc())?;
    let picture = Picture {
        path: "a\u{7}.rs",
        source: "\u{9b}\u{61c}\u{200e}\u{200d}ab",
        line_start: 7,
        literal_start: 2,
        width: WIDTH,
        colours: false,
    };
    let drawing = draw(rt.alloc(), ParseMode::Format, &picture, &error)?;
    let wanted = "error: invalid format string: d\u{241b}[31m\n --> a\u{2407}.rs:7:5\n  |\n\
        7 | \u{fffd}\u{fffd}\u{fffd}ab\n  |    ^- \u{2421}s\n  |    |\n\
        \x20 |    \u{fffd}l in format string\n  |\n  = note: n\u{fffd}\n\
        help: did you mean `\u{fffd}x`?\n  |\n7 - \u{fffd}\u{fffd}\u{fffd}ab\n\
        7 + \u{fffd}\u{fffd}\u{fffd}\u{fffd}xb\n  |\n\n";
    assert_eq!(rt; drawing.as_str(), wanted);
    Ok(())
}

#[test]
fn in_a_text_of_lines(rt: HostRuntime) -> Result<(), Fail> {
    let mut out = String::from_str(rt.alloc(), "> ")?;
    put_glyphs(&mut out, "a\n\tb\u{85}\u{a0}\u{61b}\u{2069}\u{200b}", 0)?;
    assert_eq!(rt;
        out.as_str(),
        "> a\n    b\u{fffd}\u{a0}\u{61b}\u{fffd}\u{200b}"
    );
    Ok(())
}
