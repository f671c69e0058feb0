//! A drawing for which an allocation fails is made again.
//!
//! The test passes whether or not an allocation fails. If a call returns an allocation failure, it
//! prints a line `refused`. `.ci/refusals` runs it with its first allocation failing, then with its
//! second, and so on.

use super::misfits::error_at;
use drawn_faults::{Diagnostic, Level, SourceHelp, draw, draw_labels};
use drawn_lines::{Picture, WIDTH};
use fault_fixes::Edit;
use rustc_parse_format::{ParseError, ParseMode};
use std::alloc::Global;
use std::io::Print;
use std::process::Abort;
use std::test::Fail;

const PICTURE: Picture<'static> = Picture {
    path: "a.rs",
    source: "日a",
    line_start: 7,
    literal_start: 0,
    width: WIDTH,
    colours: false,
};

/// The error that is drawn, made once more where an allocation fails.
fn error_again(rt: &(impl Abort + Print), alloc: Global) -> Result<ParseError, Fail> {
    if let Ok(error) = error_at(alloc, 0..3, 3..4) {
        return Ok(error);
    }
    println!(rt; "refused")?;
    Ok(error_at(alloc, 0..3, 3..4)?)
}

/// Its drawing, made once more where an allocation fails.
fn drawing_again(
    rt: &(impl Abort + Print),
    alloc: Global,
    error: &ParseError,
) -> Result<String, Fail> {
    if let Ok(drawing) = draw(alloc, ParseMode::Format, &PICTURE, error) {
        return Ok(drawing);
    }
    println!(rt; "refused")?;
    Ok(draw(alloc, ParseMode::Format, &PICTURE, error)?)
}

#[test]
fn drawing_out_of_memory_is_made_again(rt: HostRuntime) -> Result<(), Fail> {
    let error = error_again(&rt, rt.alloc())?;
    let drawing = drawing_again(&rt, rt.alloc(), &error)?;
    let wanted = "error: invalid format string: d\n --> a.rs:7:1\n  |\n\
        7 | 日a\n  | ^^- s\n  | |\n  | l in format string\n\n";
    assert!(rt; drawing.as_str() == wanted);
    Ok(())
}

/// A drawing of a help, made once more where an allocation fails.
fn help_again(
    rt: &(impl Abort + Print),
    alloc: Global,
    picture: &Picture<'_>,
    diagnostic: &Diagnostic<'_>,
) -> Result<String, Fail> {
    if let Ok(drawing) = draw_labels(alloc, picture, diagnostic) {
        return Ok(drawing);
    }
    println!(rt; "refused")?;
    Ok(draw_labels(alloc, picture, diagnostic)?)
}

#[test]
fn help_out_of_memory_is_made_again(rt: HostRuntime) -> Result<(), Fail> {
    let picture = Picture {
        path: "a.rs",
        source: "fn f() { let _ = format!(\"{a.b}\n\"); }\n",
        line_start: 1,
        literal_start: 0,
        width: WIDTH,
        colours: false,
    };
    let edits = [
        Edit {
            span: 27..30,
            text: "0",
        },
        Edit {
            span: 33..33,
            text: ", a.b",
        },
    ];
    let helps = [SourceHelp {
        text: "h",
        edits: &edits,
    }];
    let diagnostic = Diagnostic {
        level: Level::Error,
        title: "t",
        labels: &[],
        notes: &[],
        helps: &helps,
    };
    let drawing = help_again(&rt, rt.alloc(), &picture, &diagnostic)?;
    let wanted = "\n  |\n1 ~ fn f() { let _ = format!(\"{0}\n2 ~ \", a.b); }\n  |\n\n";
    assert!(rt; drawing.as_str().ends_with(wanted));
    Ok(())
}
