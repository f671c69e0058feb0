//! Literals of one line: the labels and texts of each fault. The lines
//! are those of rustc 1.95.

use super::row::Row;

/// One label, of one column.
const UNMATCHED: Row = Row {
    line: 1,
    text_before: "fn f() { format!(",
    literal: "\"}\"",
    text_after: "); }",
    style: None,
    text: "}",
    appended_newline: false,
    lines: &[
        "error: invalid format string: unmatched `}` found",
        " --> a.rs:1:19",
        "  |",
        "1 | fn f() { format!(\"}\"); }",
        "  |                   ^ unmatched `}` in format string",
        "  |",
        "  = note: if you intended to print `}`, you can escape it using `}}`",
    ],
};

/// A label after the text, and a second one: their texts hang.
const AT_THE_END: Row = Row {
    line: 1,
    text_before: "fn f() { format!(",
    literal: "\"{a\"",
    text_after: "); }",
    style: None,
    text: "{a",
    appended_newline: false,
    lines: &[
        "error: invalid format string: expected `}` but string was terminated",
        " --> a.rs:1:21",
        "  |",
        "1 | fn f() { format!(\"{a\"); }",
        "  |                   - ^ expected `}` in format string",
        "  |                   |",
        "  |                   because of this opening brace",
        "  |",
        "  = note: if you intended to print `{`, you can escape it using `{{`",
    ],
};

/// A second label with no room for its text.
const FOUND: Row = Row {
    line: 1,
    text_before: "fn f() { format!(",
    literal: "\"{a!}\"",
    text_after: "); }",
    style: None,
    text: "{a!}",
    appended_newline: false,
    lines: &[
        "error: invalid format string: expected `}`, found `!`",
        " --> a.rs:1:21",
        "  |",
        "1 | fn f() { format!(\"{a!}\"); }",
        "  |                   - ^ expected `}` in format string",
        "  |                   |",
        "  |                   because of this opening brace",
        "  |",
        "  = note: if you intended to print `{`, you can escape it using `{{`",
    ],
};

/// As much room as the text of the second label needs.
const ROOM: Row = Row {
    line: 1,
    text_before: "fn f() { format!(",
    literal: "\"{a                              !}\"",
    text_after: "); }",
    style: None,
    text: "{a                              !}",
    appended_newline: false,
    lines: &[
        "error: invalid format string: expected `}`, found `!`",
        " --> a.rs:1:51",
        "  |",
        "1 | fn f() { format!(\"{a                              !}\"); }",
        "  |                   - because of this opening brace ^ expected `}` in format string",
        "  |",
        "  = note: if you intended to print `{`, you can escape it using `{{`",
    ],
};

/// One column less: the text hangs.
const NO_ROOM: Row = Row {
    line: 1,
    text_before: "fn f() { format!(",
    literal: "\"{a                             !}\"",
    text_after: "); }",
    style: None,
    text: "{a                             !}",
    appended_newline: false,
    lines: &[
        "error: invalid format string: expected `}`, found `!`",
        " --> a.rs:1:50",
        "  |",
        "1 | fn f() { format!(\"{a                             !}\"); }",
        "  |                   -                              ^ expected `}` in format string",
        "  |                   |",
        "  |                   because of this opening brace",
        "  |",
        "  = note: if you intended to print `{`, you can escape it using `{{`",
    ],
};

/// Two labels that begin together: the signs of the shorter one cover the other.
const RAW_IDENTIFIER: Row = Row {
    line: 1,
    text_before: "fn f() { format!(",
    literal: "\"{r#type}\"",
    text_after: "); }",
    style: None,
    text: "{r#type}",
    appended_newline: false,
    lines: &[
        "error: invalid format string: raw identifiers are not supported",
        " --> a.rs:1:20",
        "  |",
        "1 | fn f() { format!(\"{r#type}\"); }",
        "  |                    --^^^^",
        "  |                    |",
        "  |                    raw identifier used here in format string",
        "  |                    help: remove the `r#`",
        "  |",
        "  = note: identifiers in format strings can be keywords and don't need to be prefixed with `r#`",
    ],
};

/// Two labels of one range.
const MISSING_COLON: Row = Row {
    line: 1,
    text_before: "fn f() { format!(",
    literal: "\"{a?}\"",
    text_after: "); }",
    style: None,
    text: "{a?}",
    appended_newline: false,
    lines: &[
        "error: invalid format string: expected `}`, found `?`",
        " --> a.rs:1:21",
        "  |",
        "1 | fn f() { format!(\"{a?}\"); }",
        "  |                     ^",
        "  |                     |",
        "  |                     expected `:` before `?` to format with `Debug` in format string",
        "  |                     help: add a colon before the format specifier: `:?`",
        "  |",
        "  = note: to print `{`, you can escape it using `{{`",
    ],
};

/// A suggestion with its old and its new line.
const LATE_FLAG: Row = Row {
    line: 1,
    text_before: "fn f() { format!(",
    literal: "\"{a:?#}\"",
    text_after: "); }",
    style: None,
    text: "{a:?#}",
    appended_newline: false,
    lines: &[
        "error: invalid format string: expected `}`, found `#`",
        " --> a.rs:1:23",
        "  |",
        "1 | fn f() { format!(\"{a:?#}\"); }",
        "  |                       ^ expected `'}'` in format string",
        "  |",
        "help: did you mean `#?`?",
        "  |",
        "1 - fn f() { format!(\"{a:?#}\"); }",
        "1 + fn f() { format!(\"{a:#?}\"); }",
        "  |",
    ],
};

/// The same over two lines.
const LATE_FLAG_BROKEN: Row = Row {
    line: 1,
    text_before: "fn f() {\n    format!(",
    literal: "\"{a:?\\\n    #}\"",
    text_after: ");\n}",
    style: None,
    text: "{a:?#}",
    appended_newline: false,
    lines: &[
        "error: invalid format string: expected `}`, found `#`",
        " --> a.rs:3:5",
        "  |",
        "3 |     #}\");",
        "  |     ^ expected `'}'` in format string",
        "  |",
        "help: did you mean `#?`?",
        "  |",
        "2 -     format!(\"{a:?\\",
        "3 -     #}\");",
        "2 +     format!(\"{a:#?}\");",
        "  |",
    ],
};

/// A note, and no second label.
const UNDERSCORE: Row = Row {
    line: 1,
    text_before: "fn f() { format!(",
    literal: "\"{_}\"",
    text_after: "); }",
    style: None,
    text: "{_}",
    appended_newline: false,
    lines: &[
        "error: invalid format string: invalid argument name `_`",
        " --> a.rs:1:20",
        "  |",
        "1 | fn f() { format!(\"{_}\"); }",
        "  |                    ^ invalid argument name in format string",
        "  |",
        "  = note: argument name cannot be a single underscore",
    ],
};

/// No note.
const TOO_LARGE: Row = Row {
    line: 1,
    text_before: "fn f() { format!(",
    literal: "\"{65536}\"",
    text_after: "); }",
    style: None,
    text: "{65536}",
    appended_newline: false,
    lines: &[
        "error: invalid format string: integer `65536` does not fit into the type `u16` whose range is `0..=65535`",
        " --> a.rs:1:20",
        "  |",
        "1 | fn f() { format!(\"{65536}\"); }",
        "  |                    ^^^^^^ integer out of range for `u16` in format string",
    ],
};

/// A fill that is a closing brace.
const FILL: Row = Row {
    line: 1,
    text_before: "fn f() { format!(",
    literal: "\"{:}>\"",
    text_after: "); }",
    style: None,
    text: "{:}>",
    appended_newline: false,
    lines: &[
        "error: invalid format string: expected `}` but string was terminated",
        " --> a.rs:1:23",
        "  |",
        "1 | fn f() { format!(\"{:}>\"); }",
        "  |                     - ^ expected `}` in format string",
        "  |                     |",
        "  |                     this is not interpreted as a formatting closing brace",
        "  |",
        "  = note: the character `}` is interpreted as a fill character because of the `:` that precedes it",
    ],
};

/// A type in front of its colon.
const LATE_DEBUG: Row = Row {
    line: 1,
    text_before: "fn f() { format!(",
    literal: "\"{?:a}\"",
    text_after: "); }",
    style: None,
    text: "{?:a}",
    appended_newline: false,
    lines: &[
        "error: invalid format string: expected format parameter to occur after `:`",
        " --> a.rs:1:20",
        "  |",
        "1 | fn f() { format!(\"{?:a}\"); }",
        "  |                    ^ expected `?` to occur after `:` in format string",
        "  |",
        "  = note: `?` comes after `:`, try `a:?` instead",
    ],
};

/// An alignment without a colon.
const LATE_ALIGNMENT: Row = Row {
    line: 1,
    text_before: "fn f() { format!(",
    literal: "\"{a<5}\"",
    text_after: "); }",
    style: None,
    text: "{a<5}",
    appended_newline: false,
    lines: &[
        "error: invalid format string: expected alignment specifier after `:` in format string; example: `{:>?}`",
        " --> a.rs:1:21",
        "  |",
        "1 | fn f() { format!(\"{a<5}\"); }",
        "  |                     ^ expected `<` to occur after `:` in format string",
    ],
};

/// Two labels in columns that touch.
const GROUPING: Row = Row {
    line: 1,
    text_before: "fn f() { format!(",
    literal: "\"{,}\"",
    text_after: "); }",
    style: None,
    text: "{,}",
    appended_newline: false,
    lines: &[
        "error: invalid format string: python's numeric grouping `,` is not supported in rust format strings",
        " --> a.rs:1:20",
        "  |",
        "1 | fn f() { format!(\"{,}\"); }",
        "  |                   -^ expected `}` in format string",
        "  |                   |",
        "  |                   because of this opening brace",
        "  |",
        "  = note: to print `{`, you can escape it using `{{`",
    ],
};

/// A suggestion for which the call is needed.
const DEBUG_PRINT: Row = Row {
    line: 1,
    text_before: "fn f() { format!(",
    literal: "\"{a=}\"",
    text_after: "); }",
    style: None,
    text: "{a=}",
    appended_newline: false,
    lines: &[
        "error: invalid format string: python's f-string debug `=` is not supported in rust, use `dbg(x)` instead",
        " --> a.rs:1:21",
        "  |",
        "1 | fn f() { format!(\"{a=}\"); }",
        "  |                   - ^ expected `}` in format string",
        "  |                   |",
        "  |                   because of this opening brace",
        "  |",
        "  = note: to print `{`, you can escape it using `{{`",
    ],
};

/// A label of several columns, and a suggestion for which the call is needed.
const FIELD: Row = Row {
    line: 1,
    text_before: "fn f() { format!(",
    literal: "\"{a.b}\"",
    text_after: "); }",
    style: None,
    text: "{a.b}",
    appended_newline: false,
    lines: &[
        "error: invalid format string: field access isn't supported",
        " --> a.rs:1:20",
        "  |",
        "1 | fn f() { format!(\"{a.b}\"); }",
        "  |                    ^^^ not supported in format string",
        "  |",
        "  = note: consider moving this expression to a local variable and then using the local here instead",
    ],
};

/// A raw literal.
const RAW_LITERAL: Row = Row {
    line: 1,
    text_before: "fn f() { format!(",
    literal: "r#\"}\"#",
    text_after: "); }",
    style: Some(1),
    text: "}",
    appended_newline: false,
    lines: &[
        "error: invalid format string: unmatched `}` found",
        " --> a.rs:1:21",
        "  |",
        "1 | fn f() { format!(r#\"}\"#); }",
        "  |                     ^ unmatched `}` in format string",
        "  |",
        "  = note: if you intended to print `}`, you can escape it using `}}`",
    ],
};

/// A character that is written as an escape.
const ESCAPED: Row = Row {
    line: 1,
    text_before: "fn f() { format!(",
    literal: "\"a\\x7d\"",
    text_after: "); }",
    style: None,
    text: "a}",
    appended_newline: false,
    lines: &[
        "error: invalid format string: unmatched `}` found",
        " --> a.rs:1:20",
        "  |",
        "1 | fn f() { format!(\"a\\x7d\"); }",
        "  |                    ^^^^ unmatched `}` in format string",
        "  |",
        "  = note: if you intended to print `}`, you can escape it using `}}`",
    ],
};

const SHORT_ROWS: &[Row] = &[
    UNMATCHED,
    AT_THE_END,
    FOUND,
    ROOM,
    NO_ROOM,
    RAW_IDENTIFIER,
    MISSING_COLON,
    LATE_FLAG,
    LATE_FLAG_BROKEN,
    UNDERSCORE,
    TOO_LARGE,
    FILL,
    LATE_DEBUG,
    LATE_ALIGNMENT,
    GROUPING,
    DEBUG_PRINT,
    FIELD,
    RAW_LITERAL,
    ESCAPED,
];

/// All rows. Nothing else names the table, since what names it is checked with all of its text.
pub fn short_rows() -> &'static [Row] {
    SHORT_ROWS
}
