//! Templates of assembly: the labels and texts of each fault. The lines are those of rustc 1.95.

use super::row::Row;

/// One label.
const UNMATCHED: Row = Row {
    line: 1,
    text_before: "fn f() { unsafe { core::arch::asm!(",
    literal: "\"nop }\"",
    text_after: "); } }",
    style: None,
    text: "nop }",
    appended_newline: false,
    lines: &[
        "error: invalid asm template string: unmatched `}` found",
        " --> a.rs:1:41",
        "  |",
        "1 | fn f() { unsafe { core::arch::asm!(\"nop }\"); } }",
        "  |                                         ^ unmatched `}` in asm template string",
        "  |",
        "  = note: if you intended to print `}`, you can escape it using `}}`",
    ],
};

/// A brace that is not closed.
const OPEN: Row = Row {
    line: 1,
    text_before: "fn f() { unsafe { core::arch::asm!(",
    literal: "\"nop {\"",
    text_after: "); } }",
    style: None,
    text: "nop {",
    appended_newline: false,
    lines: &[
        "error: invalid asm template string: expected `}` but string was terminated",
        " --> a.rs:1:42",
        "  |",
        "1 | fn f() { unsafe { core::arch::asm!(\"nop {\"); } }",
        "  |                                         -^ expected `}` in asm template string",
        "  |                                         |",
        "  |                                         because of this opening brace",
        "  |",
        "  = note: if you intended to print `{`, you can escape it using `{{`",
    ],
};

/// Another character in its place.
const FOUND: Row = Row {
    line: 1,
    text_before: "fn f() { unsafe { core::arch::asm!(",
    literal: "\"{a!}\"",
    text_after: "); } }",
    style: None,
    text: "{a!}",
    appended_newline: false,
    lines: &[
        "error: invalid asm template string: expected `}`, found `!`",
        " --> a.rs:1:39",
        "  |",
        "1 | fn f() { unsafe { core::arch::asm!(\"{a!}\"); } }",
        "  |                                     - ^ expected `}` in asm template string",
        "  |                                     |",
        "  |                                     because of this opening brace",
        "  |",
        "  = note: if you intended to print `{`, you can escape it using `{{`",
    ],
};

/// No flag has a fault of its own after the type `?`.
const FLAG: Row = Row {
    line: 1,
    text_before: "fn f() { unsafe { core::arch::asm!(",
    literal: "\"{a:?x}\"",
    text_after: "); } }",
    style: None,
    text: "{a:?x}",
    appended_newline: false,
    lines: &[
        "error: invalid asm template string: expected `}`, found `?`",
        " --> a.rs:1:40",
        "  |",
        "1 | fn f() { unsafe { core::arch::asm!(\"{a:?x}\"); } }",
        "  |                                     -  ^ expected `}` in asm template string",
        "  |                                     |",
        "  |                                     because of this opening brace",
        "  |",
        "  = note: if you intended to print `{`, you can escape it using `{{`",
    ],
};

/// The word `_`.
const UNDERSCORE: Row = Row {
    line: 1,
    text_before: "fn f() { unsafe { core::arch::asm!(",
    literal: "\"{_}\"",
    text_after: "); } }",
    style: None,
    text: "{_}",
    appended_newline: false,
    lines: &[
        "error: invalid asm template string: invalid argument name `_`",
        " --> a.rs:1:38",
        "  |",
        "1 | fn f() { unsafe { core::arch::asm!(\"{_}\"); } }",
        "  |                                      ^ invalid argument name in asm template string",
        "  |",
        "  = note: argument name cannot be a single underscore",
    ],
};

/// A number without a note.
const LARGE: Row = Row {
    line: 1,
    text_before: "fn f() { unsafe { core::arch::asm!(",
    literal: "\"mov {0}, {99999}\"",
    text_after: "); } }",
    style: None,
    text: "mov {0}, {99999}",
    appended_newline: false,
    lines: &[
        "error: invalid asm template string: integer `99999` does not fit into the type `u16` whose range is `0..=65535`",
        " --> a.rs:1:47",
        "  |",
        "1 | fn f() { unsafe { core::arch::asm!(\"mov {0}, {99999}\"); } }",
        "  |                                               ^^^^^^ integer out of range for `u16` in asm template string",
    ],
};

/// A raw identifier, for which nothing is suggested.
const RAW: Row = Row {
    line: 1,
    text_before: "fn f() { unsafe { core::arch::asm!(",
    literal: "\"{r#a}\"",
    text_after: "); } }",
    style: None,
    text: "{r#a}",
    appended_newline: false,
    lines: &[
        "error: invalid asm template string: raw identifiers are not supported",
        " --> a.rs:1:38",
        "  |",
        "1 | fn f() { unsafe { core::arch::asm!(\"{r#a}\"); } }",
        "  |                                      ^^^ raw identifier used here in asm template string",
        "  |",
        "  = note: identifiers in format strings can be keywords and don't need to be prefixed with `r#`",
    ],
};

/// A missing colon, for which nothing is suggested.
const COLON: Row = Row {
    line: 1,
    text_before: "fn f() { unsafe { core::arch::asm!(",
    literal: "\"{a?}\"",
    text_after: "); } }",
    style: None,
    text: "{a?}",
    appended_newline: false,
    lines: &[
        "error: invalid asm template string: expected `}`, found `?`",
        " --> a.rs:1:39",
        "  |",
        "1 | fn f() { unsafe { core::arch::asm!(\"{a?}\"); } }",
        "  |                                       ^ expected `:` before `?` to format with `Debug` in asm template string",
        "  |",
        "  = note: to print `{`, you can escape it using `{{`",
    ],
};

/// A type in front of its colon.
const LATE: Row = Row {
    line: 1,
    text_before: "fn f() { unsafe { core::arch::asm!(",
    literal: "\"{?:a}\"",
    text_after: "); } }",
    style: None,
    text: "{?:a}",
    appended_newline: false,
    lines: &[
        "error: invalid asm template string: expected format parameter to occur after `:`",
        " --> a.rs:1:38",
        "  |",
        "1 | fn f() { unsafe { core::arch::asm!(\"{?:a}\"); } }",
        "  |                                      ^ expected `?` to occur after `:` in asm template string",
        "  |",
        "  = note: `?` comes after `:`, try `a:?` instead",
    ],
};

/// An alignment without a colon.
const ALIGNMENT: Row = Row {
    line: 1,
    text_before: "fn f() { unsafe { core::arch::asm!(",
    literal: "\"{a>}\"",
    text_after: "); } }",
    style: None,
    text: "{a>}",
    appended_newline: false,
    lines: &[
        "error: invalid asm template string: expected alignment specifier after `:` in format string; example: `{:>?}`",
        " --> a.rs:1:39",
        "  |",
        "1 | fn f() { unsafe { core::arch::asm!(\"{a>}\"); } }",
        "  |                                       ^ expected `>` to occur after `:` in asm template string",
    ],
};

/// Grouping.
const GROUPING: Row = Row {
    line: 1,
    text_before: "fn f() { unsafe { core::arch::asm!(",
    literal: "\"{a,}\"",
    text_after: "); } }",
    style: None,
    text: "{a,}",
    appended_newline: false,
    lines: &[
        "error: invalid asm template string: python's numeric grouping `,` is not supported in rust format strings",
        " --> a.rs:1:39",
        "  |",
        "1 | fn f() { unsafe { core::arch::asm!(\"{a,}\"); } }",
        "  |                                     - ^ expected `}` in asm template string",
        "  |                                     |",
        "  |                                     because of this opening brace",
        "  |",
        "  = note: to print `{`, you can escape it using `{{`",
    ],
};

/// The sign `=`.
const DEBUG: Row = Row {
    line: 1,
    text_before: "fn f() { unsafe { core::arch::asm!(",
    literal: "\"{a=}\"",
    text_after: "); } }",
    style: None,
    text: "{a=}",
    appended_newline: false,
    lines: &[
        "error: invalid asm template string: python's f-string debug `=` is not supported in rust, use `dbg(x)` instead",
        " --> a.rs:1:39",
        "  |",
        "1 | fn f() { unsafe { core::arch::asm!(\"{a=}\"); } }",
        "  |                                     - ^ expected `}` in asm template string",
        "  |                                     |",
        "  |                                     because of this opening brace",
        "  |",
        "  = note: to print `{`, you can escape it using `{{`",
    ],
};

/// A field, for which nothing is suggested.
const FIELD: Row = Row {
    line: 1,
    text_before: "fn f() { unsafe { core::arch::asm!(",
    literal: "\"{a.b}\"",
    text_after: "); } }",
    style: None,
    text: "{a.b}",
    appended_newline: false,
    lines: &[
        "error: invalid asm template string: field access isn't supported",
        " --> a.rs:1:38",
        "  |",
        "1 | fn f() { unsafe { core::arch::asm!(\"{a.b}\"); } }",
        "  |                                      ^^^ not supported in asm template string",
        "  |",
        "  = note: consider moving this expression to a local variable and then using the local here instead",
    ],
};

/// The same with a number.
const INDEX: Row = Row {
    line: 1,
    text_before: "fn f() { unsafe { core::arch::asm!(",
    literal: "\"{a.0}\"",
    text_after: "); } }",
    style: None,
    text: "{a.0}",
    appended_newline: false,
    lines: &[
        "error: invalid asm template string: tuple index access isn't supported",
        " --> a.rs:1:38",
        "  |",
        "1 | fn f() { unsafe { core::arch::asm!(\"{a.0}\"); } }",
        "  |                                      ^^^ not supported in asm template string",
        "  |",
        "  = note: consider moving this expression to a local variable and then using the local here instead",
    ],
};

/// A raw literal of two lines.
const LINES: Row = Row {
    line: 1,
    text_before: "fn f() { unsafe { core::arch::asm!(",
    literal: "r#\"nop\n  {a!}\"#",
    text_after: "); } }",
    style: Some(1),
    text: "nop\n  {a!}",
    appended_newline: false,
    lines: &[
        "error: invalid asm template string: expected `}`, found `!`",
        " --> a.rs:2:5",
        "  |",
        "2 |   {a!}\"#); } }",
        "  |   - ^ expected `}` in asm template string",
        "  |   |",
        "  |   because of this opening brace",
        "  |",
        "  = note: if you intended to print `{`, you can escape it using `{{`",
    ],
};

const ASM_ROWS: &[Row] = &[
    UNMATCHED, OPEN, FOUND, FLAG, UNDERSCORE, LARGE, RAW, COLON, LATE, ALIGNMENT, GROUPING, DEBUG,
    FIELD, INDEX, LINES,
];

/// All rows.
pub fn asm_rows() -> &'static [Row] {
    ASM_ROWS
}
