//! Lines that are cut to 40 columns. The lines of the drawings are those of rustc 1.95.

use super::row::Row;

/// Cut at the end, where the text of the label fits.
const CUT_AT_THE_END: Row = Row {
    line: 1,
    text_before: "fn f() { println!(",
    literal: "\"{a b} and more of this line than fits\"",
    text_after: "); }",
    style: None,
    text: "{a b} and more of this line than fits",
    appended_newline: true,
    lines: &[
        "error: invalid format string: expected `}`, found `b`",
        " --> a.rs:1:23",
        "  |",
        "1 | ... println!(\"{a b} and more of t...",
        "  |               -  ^ expected `}` in format string",
        "  |               |",
        "  |               because of this opening brace",
        "  |",
        "  = note: if you intended to print `{`, you can escape it using `{{`",
    ],
};

/// Cut at both ends, around the labels.
const CUT_AT_BOTH_ENDS: Row = Row {
    line: 1,
    text_before: "fn f() { println!(",
    literal: "\"a line that begins with so much text {a b} and goes on\"",
    text_after: "); }",
    style: None,
    text: "a line that begins with so much text {a b} and goes on",
    appended_newline: true,
    lines: &[
        "error: invalid format string: expected `}`, found `b`",
        " --> a.rs:1:60",
        "  |",
        "1 | ... much text {a b} and goes on\"); }",
        "  |               -  ^ expected `}` in format string",
        "  |               |",
        "  |               because of this opening brace",
        "  |",
        "  = note: if you intended to print `{`, you can escape it using `{{`",
    ],
};

/// Cut at the start, with room for the text at the right.
const CUT_AT_THE_START: Row = Row {
    line: 1,
    text_before: "fn f() { println!(",
    literal: "\"a line that begins with so much text }\"",
    text_after: "); }",
    style: None,
    text: "a line that begins with so much text }",
    appended_newline: true,
    lines: &[
        "error: invalid format string: unmatched `}` found",
        " --> a.rs:1:57",
        "  |",
        "1 | ... much text }\"); }",
        "  |               ^ unmatched `}` in format string",
        "  |",
        "  = note: if you intended to print `}`, you can escape it using `}}`",
    ],
};

/// An indent is cut first.
const CUT_AT_THE_INDENT: Row = Row {
    line: 1,
    text_before: "fn f() {\n                                    println!(",
    literal: "\"a } b\"",
    text_after: ", 1, 2, 3); }",
    style: None,
    text: "a } b",
    appended_newline: true,
    lines: &[
        "error: invalid format string: unmatched `}` found",
        " --> a.rs:2:49",
        "  |",
        "2 | ...rintln!(\"a } b\", 1, 2, 3); }",
        "  |               ^ unmatched `}` in format string",
        "  |",
        "  = note: if you intended to print `}`, you can escape it using `}}`",
    ],
};

/// Dots over characters of two columns: a space stays at their right, or a column is left out.
const CUT_WIDE: Row = Row {
    line: 1,
    text_before: "fn f() { println!(",
    literal: "\"x漢字漢字漢字漢字漢字漢字漢字漢字 } 漢字漢字漢字漢字漢字漢字漢字\"",
    text_after: "); }",
    style: None,
    text: "x漢字漢字漢字漢字漢字漢字漢字漢字 } 漢字漢字漢字漢字漢字漢字漢字",
    appended_newline: true,
    lines: &[
        "error: invalid format string: unmatched `}` found",
        " --> a.rs:1:38",
        "  |",
        "1 | ... 漢字漢字 } 漢字漢字漢字漢字...",
        "  |              ^ unmatched `}` in format string",
        "  |",
        "  = note: if you intended to print `}`, you can escape it using `}}`",
    ],
};

/// A tab is four columns, of which some may be cut.
const CUT_TABS: Row = Row {
    line: 1,
    text_before: "fn f() {\n\tprintln!(",
    literal: "\"a\t\t\t\t\tb } c\t\t\t\t\td\"",
    text_after: "); }",
    style: None,
    text: "a\t\t\t\t\tb } c\t\t\t\t\td",
    appended_newline: true,
    lines: &[
        "error: invalid format string: unmatched `}` found",
        " --> a.rs:2:20",
        "  |",
        "2 | ...         b } c                ...",
        "  |               ^ unmatched `}` in format string",
        "  |",
        "  = note: if you intended to print `}`, you can escape it using `}}`",
    ],
};

/// Labels that do not fit are shown whole.
const LONG_LABEL: Row = Row {
    line: 1,
    text_before: "fn f() { println!(",
    literal: "\"before {aaaaaaaaaaaaaaaaaaaaaaaaaaaaaaaaaaaaaaaaa!} after that\"",
    text_after: "); }",
    style: None,
    text: "before {aaaaaaaaaaaaaaaaaaaaaaaaaaaaaaaaaaaaaaaaa!} after that",
    appended_newline: true,
    lines: &[
        "error: invalid format string: expected `}`, found `!`",
        " --> a.rs:1:69",
        "  |",
        "1 | ...re {aaaaaaaaaaaaaaaaaaaaaaaaaaaaaaaaaaaaaaaaa!} a...",
        "  |       - because of this opening brace           ^ expected `}` in format string",
        "  |",
        "  = note: if you intended to print `{`, you can escape it using `{{`",
    ],
};

/// A label over several lines, beside its bar.
const CUT_LINES: Row = Row {
    line: 1,
    text_before: "fn f() { println!(",
    literal: "\"{a\n.b} and text that does not fit into it\"",
    text_after: "); }",
    style: None,
    text: "{a\n.b} and text that does not fit into it",
    appended_newline: true,
    lines: &[
        "error: invalid format string: field access isn't supported",
        " --> a.rs:1:21",
        "  |",
        "1 |   fn f() { println!(\"{a",
        "  |  _____________________^",
        "2 | | .b} and text that does not fit ...",
        "  | |__^ not supported in format string",
        "  |",
        "  = note: consider moving this expression to a local variable and then using the local here instead",
    ],
};

/// The rows.
const CUT_ROWS: &[Row] = &[
    CUT_AT_THE_END,
    CUT_AT_BOTH_ENDS,
    CUT_AT_THE_START,
    CUT_AT_THE_INDENT,
    CUT_WIDE,
    CUT_TABS,
    LONG_LABEL,
    CUT_LINES,
];

/// All rows. Nothing else names the table, since what names it is checked with all of its text.
pub fn cut_rows() -> &'static [Row] {
    CUT_ROWS
}
