//! Drawings of several labels, against those of rustc 1.95.

use drawn_faults::{Diagnostic, Level, SourceHelp, SourceLabel, SourceNote, draw_labels};
use drawn_lines::{Picture, WIDTH};
use fault_fixes::Edit;
use std::alloc::{AllocError, Global};
use std::test::Fail;

/// Draws a diagnostic in a source.
fn drawn(alloc: Global, source: &str, diagnostic: &Diagnostic<'_>) -> Result<String, AllocError> {
    let picture = Picture {
        path: "t.rs",
        source,
        line_start: 1,
        literal_start: 0,
        width: WIDTH,
        colours: false,
    };
    draw_labels(alloc, &picture, diagnostic)
}

#[test]
fn precisions_that_take_arguments(rt: HostRuntime) -> Result<(), Fail> {
    let source = "#![allow(unused)]\n\
        fn main() {\n\
        \x20let (a, b, c, d, w) = (1, 2, 3, 4, 5);\n\
        \x20   let _ = format!(\"{:.*} {}\", w, a);\n\
        }\n";
    let labels = [
        SourceLabel {
            span: 102..103,
            is_primary: false,
            text: "",
        },
        SourceLabel {
            span: 105..106,
            is_primary: false,
            text: "",
        },
        SourceLabel {
            span: 93..95,
            is_primary: false,
            text: "this precision flag adds an extra required argument at position 0, which is why there are 3 arguments expected",
        },
        SourceLabel {
            span: 91..96,
            is_primary: true,
            text: "",
        },
        SourceLabel {
            span: 97..99,
            is_primary: true,
            text: "",
        },
    ];
    let notes = [
        SourceNote {
            text: "positional arguments are zero-based",
            spans: &[],
        },
        SourceNote {
            text: "for information about formatting flags, visit https://doc.rust-lang.org/std/fmt/index.html",
            spans: &[],
        },
    ];
    let diagnostic = Diagnostic {
        level: Level::Error,
        title: "3 positional arguments in format string, but there are 2 arguments",
        labels: &labels,
        notes: &notes,
        helps: &[],
    };
    let text = drawn(rt.alloc(), source, &diagnostic)?;
    let expected = "error: 3 positional arguments in format string, but there are 2 arguments\n\
        \x20--> t.rs:4:22\n\
        \x20 |\n\
        4 |     let _ = format!(\"{:.*} {}\", w, a);\n\
        \x20 |                      ^^--^ ^^   -  -\n\
        \x20 |                        |\n\
        \x20 |                        this precision flag adds an extra required argument at position 0, which is why there are 3 arguments expected\n\
        \x20 |\n\
        \x20 = note: positional arguments are zero-based\n\
        \x20 = note: for information about formatting flags, visit https://doc.rust-lang.org/std/fmt/index.html\n\
        \n";
    assert_eq!(rt; text.as_str(), expected);
    Ok(())
}

#[test]
fn texts_that_hang(rt: HostRuntime) -> Result<(), Fail> {
    let source = "#![allow(unused)]\n\
        fn main() {\n\
        \x20let (a, b, c, d, w) = (1, 2, 3, 4, 5);\n\
        \x20   let _ = format!(\"x {}\", a, b, c);\n\
        }\n";
    let labels = [
        SourceLabel {
            span: 90..96,
            is_primary: false,
            text: "multiple missing formatting specifiers",
        },
        SourceLabel {
            span: 101..102,
            is_primary: true,
            text: "argument never used",
        },
        SourceLabel {
            span: 104..105,
            is_primary: true,
            text: "argument never used",
        },
    ];
    let notes = [SourceNote {
        text: "consider adding 2 format specifiers",
        spans: &[],
    }];
    let diagnostic = Diagnostic {
        level: Level::Error,
        title: "multiple unused formatting arguments",
        labels: &labels,
        notes: &notes,
        helps: &[],
    };
    let text = drawn(rt.alloc(), source, &diagnostic)?;
    let expected = "error: multiple unused formatting arguments\n\
        \x20--> t.rs:4:32\n\
        \x20 |\n\
        4 |     let _ = format!(\"x {}\", a, b, c);\n\
        \x20 |                     ------     ^  ^ argument never used\n\
        \x20 |                     |          |\n\
        \x20 |                     |          argument never used\n\
        \x20 |                     multiple missing formatting specifiers\n\
        \x20 |\n\
        \x20 = note: consider adding 2 format specifiers\n\
        \n";
    assert_eq!(rt; text.as_str(), expected);
    Ok(())
}

#[test]
fn lines_in_between(rt: HostRuntime) -> Result<(), Fail> {
    let source = "#![allow(unused)]\n\
        fn main() {\n\
        \x20let (a, b, c, d, w) = (1, 2, 3, 4, 5);\n\
        \x20   let _ = format!(\"x\",\n\
        \x20 a,\n\
        \n\
        \x20 b,\n\
        \n\
        \n\
        \x20 c);\n\
        }\n";
    let labels = [
        SourceLabel {
            span: 90..93,
            is_primary: false,
            text: "multiple missing formatting specifiers",
        },
        SourceLabel {
            span: 97..98,
            is_primary: true,
            text: "argument never used",
        },
        SourceLabel {
            span: 103..104,
            is_primary: true,
            text: "argument never used",
        },
        SourceLabel {
            span: 110..111,
            is_primary: true,
            text: "argument never used",
        },
    ];
    let edits = [Edit {
        span: 92..92,
        text: "{}{}{}",
    }];
    let helps = [SourceHelp {
        text: "format specifiers use curly braces, consider adding 3 format specifiers",
        edits: &edits,
    }];
    let diagnostic = Diagnostic {
        level: Level::Error,
        title: "multiple unused formatting arguments",
        labels: &labels,
        notes: &[],
        helps: &helps,
    };
    let text = drawn(rt.alloc(), source, &diagnostic)?;
    let expected = "error: multiple unused formatting arguments\n\
        \x20 --> t.rs:5:3\n\
        \x20  |\n\
        \x204 |     let _ = format!(\"x\",\n\
        \x20  |                     --- multiple missing formatting specifiers\n\
        \x205 |   a,\n\
        \x20  |   ^ argument never used\n\
        \x206 |\n\
        \x207 |   b,\n\
        \x20  |   ^ argument never used\n\
        ...\n\
        10 |   c);\n\
        \x20  |   ^ argument never used\n\
        \x20  |\n\
        help: format specifiers use curly braces, consider adding 3 format specifiers\n\
        \x20  |\n\
        \x204 |     let _ = format!(\"x{}{}{}\",\n\
        \x20  |                       ++++++\n\
        \n";
    assert_eq!(rt; text.as_str(), expected);
    Ok(())
}

#[test]
fn a_note_with_its_own_drawing(rt: HostRuntime) -> Result<(), Fail> {
    let source = "#![allow(unused)]\n\
        fn main() {\n\
        \x20let (a, b, c, d, w) = (1, 2, 3, 4, 5);\n\
        \x20   let _ = format!(\"{a} {b}\", a, b);\n\
        }\n";
    let labels = [
        SourceLabel {
            span: 101..102,
            is_primary: true,
            text: "",
        },
        SourceLabel {
            span: 104..105,
            is_primary: true,
            text: "",
        },
    ];
    let spans = [92..93, 96..97];
    let notes = [SourceNote {
        text: "the formatting specifiers are referencing the bindings already",
        spans: &spans,
    }];
    let edits = [
        Edit {
            span: 101..104,
            text: "",
        },
        Edit {
            span: 104..105,
            text: "",
        },
    ];
    let helps = [SourceHelp {
        text: "this can be removed",
        edits: &edits,
    }];
    let diagnostic = Diagnostic {
        level: Level::Error,
        title: "redundant arguments",
        labels: &labels,
        notes: &notes,
        helps: &helps,
    };
    let text = drawn(rt.alloc(), source, &diagnostic)?;
    let expected = "error: redundant arguments\n\
        \x20--> t.rs:4:32\n\
        \x20 |\n\
        4 |     let _ = format!(\"{a} {b}\", a, b);\n\
        \x20 |                                ^  ^\n\
        \x20 |\n\
        note: the formatting specifiers are referencing the bindings already\n\
        \x20--> t.rs:4:23\n\
        \x20 |\n\
        4 |     let _ = format!(\"{a} {b}\", a, b);\n\
        \x20 |                       ^   ^\n\
        help: this can be removed\n\
        \x20 |\n\
        4 -     let _ = format!(\"{a} {b}\", a, b);\n\
        4 +     let _ = format!(\"{a} {b}\", );\n\
        \x20 |\n\
        \n";
    assert_eq!(rt; text.as_str(), expected);
    Ok(())
}

#[test]
fn a_note_of_several_lines(rt: HostRuntime) -> Result<(), Fail> {
    let source = "#![allow(unused)]\n\
        fn main() {\n\
        \x20let (a, b, c, d, w) = (1, 2, 3, 4, 5);\n\
        \x20   let _ = format!(\"\\t{:q}\", a);\n\
        }\n";
    let labels = [SourceLabel {
        span: 95..96,
        is_primary: true,
        text: "",
    }];
    let notes = [SourceNote {
        text: "the only appropriate formatting traits are:\n\
                - ``, which uses the `Display` trait\n\
                - `?`, which uses the `Debug` trait\n\
                - `e`, which uses the `LowerExp` trait\n\
                - `E`, which uses the `UpperExp` trait\n\
                - `o`, which uses the `Octal` trait\n\
                - `p`, which uses the `Pointer` trait\n\
                - `b`, which uses the `Binary` trait\n\
                - `x`, which uses the `LowerHex` trait\n\
                - `X`, which uses the `UpperHex` trait",
        spans: &[],
    }];
    let diagnostic = Diagnostic {
        level: Level::Error,
        title: "unknown format trait `q`",
        labels: &labels,
        notes: &notes,
        helps: &[],
    };
    let text = drawn(rt.alloc(), source, &diagnostic)?;
    let expected = "error: unknown format trait `q`\n\
        \x20--> t.rs:4:26\n\
        \x20 |\n\
        4 |     let _ = format!(\"\\t{:q}\", a);\n\
        \x20 |                          ^\n\
        \x20 |\n\
        \x20 = note: the only appropriate formatting traits are:\n\
        \x20         - ``, which uses the `Display` trait\n\
        \x20         - `?`, which uses the `Debug` trait\n\
        \x20         - `e`, which uses the `LowerExp` trait\n\
        \x20         - `E`, which uses the `UpperExp` trait\n\
        \x20         - `o`, which uses the `Octal` trait\n\
        \x20         - `p`, which uses the `Pointer` trait\n\
        \x20         - `b`, which uses the `Binary` trait\n\
        \x20         - `x`, which uses the `LowerHex` trait\n\
        \x20         - `X`, which uses the `UpperHex` trait\n\
        \n";
    assert_eq!(rt; text.as_str(), expected);
    Ok(())
}

#[test]
fn labels_of_one_place(rt: HostRuntime) -> Result<(), Fail> {
    let source = "#![allow(unused)]\n\
        fn main() {\n\
        \x20let (a, b, c, d, w) = (1, 2, 3, 4, 5);\n\
        \x20   let _ = format!(\"{a?}\");\n\
        }\n";
    let labels = [
        SourceLabel {
            span: 93..94,
            is_primary: true,
            text: "expected `:` before `?` to format with `Debug` in format string",
        },
        SourceLabel {
            span: 93..94,
            is_primary: true,
            text: "help: add a colon before the format specifier: `:?`",
        },
    ];
    let notes = [SourceNote {
        text: "to print `{`, you can escape it using `{{`",
        spans: &[],
    }];
    let diagnostic = Diagnostic {
        level: Level::Error,
        title: "invalid format string: expected `}`, found `?`",
        labels: &labels,
        notes: &notes,
        helps: &[],
    };
    let text = drawn(rt.alloc(), source, &diagnostic)?;
    let expected = "error: invalid format string: expected `}`, found `?`\n\
        \x20--> t.rs:4:24\n\
        \x20 |\n\
        4 |     let _ = format!(\"{a?}\");\n\
        \x20 |                        ^\n\
        \x20 |                        |\n\
        \x20 |                        expected `:` before `?` to format with `Debug` in format string\n\
        \x20 |                        help: add a colon before the format specifier: `:?`\n\
        \x20 |\n\
        \x20 = note: to print `{`, you can escape it using `{{`\n\
        \n";
    assert_eq!(rt; text.as_str(), expected);
    Ok(())
}

/// A label over several lines that has no text.
#[test]
fn a_label_of_two_lines_without_a_text(rt: HostRuntime) -> Result<(), Fail> {
    let source = "fn main() {\n\
        \x20   println!(\"a {\n\
        \x20   }\");\n\
        }\n";
    let labels = [SourceLabel {
        span: 28..35,
        is_primary: true,
        text: "",
    }];
    let diagnostic = Diagnostic {
        level: Level::Error,
        title: "1 positional argument in format string, but no arguments were given",
        labels: &labels,
        notes: &[],
        helps: &[],
    };
    let text = drawn(rt.alloc(), source, &diagnostic)?;
    let expected = "error: 1 positional argument in format string, but no arguments were given\n\
        \x20--> t.rs:2:17\n\
        \x20 |\n\
        2 |       println!(\"a {\n\
        \x20 |  _________________^\n\
        3 | |     }\");\n\
        \x20 | |_____^\n\
        \n";
    assert_eq!(rt; text.as_str(), expected);
    Ok(())
}
