//! Literals of several lines, or with characters that are drawn in another way. The lines
//! are those of rustc 1.95.

use super::row::Row;

/// Numbers of lines stand at the right.
const NUMBERS: Row = Row {
    line: 9,
    text_before: "fn f() { format!(",
    literal: "\"{a\n!\"",
    text_after: "); }",
    style: None,
    text: "{a\n!",
    appended_newline: false,
    lines: &[
        "error: invalid format string: expected `}`, found `!`",
        "  --> a.rs:10:1",
        "   |",
        " 9 | fn f() { format!(\"{a",
        "   |                   - because of this opening brace",
        "10 | !\"); }",
        "   | ^ expected `}` in format string",
        "   |",
        "   = note: if you intended to print `{`, you can escape it using `{{`",
    ],
};

/// The same with three digits, and a line between that is drawn.
const THREE_DIGITS: Row = Row {
    line: 98,
    text_before: "fn f() { format!(",
    literal: "\"{a\n\n!\"",
    text_after: "); }",
    style: None,
    text: "{a\n\n!",
    appended_newline: false,
    lines: &[
        "error: invalid format string: expected `}`, found `!`",
        "   --> a.rs:100:1",
        "    |",
        " 98 | fn f() { format!(\"{a",
        "    |                   - because of this opening brace",
        " 99 |",
        "100 | !\"); }",
        "    | ^ expected `}` in format string",
        "    |",
        "    = note: if you intended to print `{`, you can escape it using `{{`",
    ],
};

/// Lines between that are not drawn.
const DOTS: Row = Row {
    line: 1,
    text_before: "fn f() { format!(",
    literal: "\"{a\n\n\n !\"",
    text_after: "); }",
    style: None,
    text: "{a\n\n\n !",
    appended_newline: false,
    lines: &[
        "error: invalid format string: expected `}`, found `!`",
        " --> a.rs:4:2",
        "  |",
        "1 | fn f() { format!(\"{a",
        "  |                   - because of this opening brace",
        "...",
        "4 |  !\"); }",
        "  |  ^ expected `}` in format string",
        "  |",
        "  = note: if you intended to print `{`, you can escape it using `{{`",
    ],
};

/// A deep indent is cut.
const DEEP: Row = Row {
    line: 1,
    text_before: "fn f() {\n    format!(",
    literal: "\"\n                            }\"",
    text_after: "); }",
    style: None,
    text: "\n                            }",
    appended_newline: false,
    lines: &[
        "error: invalid format string: unmatched `}` found",
        " --> a.rs:3:29",
        "  |",
        "3 | ...                   }\"); }",
        "  |                       ^ unmatched `}` in format string",
        "  |",
        "  = note: if you intended to print `}`, you can escape it using `}}`",
    ],
};

/// A lesser one is not.
const NOT_DEEP: Row = Row {
    line: 1,
    text_before: "fn f() {\n    format!(",
    literal: "\"\n                          }\"",
    text_after: "); }",
    style: None,
    text: "\n                          }",
    appended_newline: false,
    lines: &[
        "error: invalid format string: unmatched `}` found",
        " --> a.rs:3:27",
        "  |",
        "3 |                           }\"); }",
        "  |                           ^ unmatched `}` in format string",
        "  |",
        "  = note: if you intended to print `}`, you can escape it using `}}`",
    ],
};

/// The least indent of both lines with labels decides.
const LESS_DEEP: Row = Row {
    line: 1,
    text_before: "fn f() { format!(",
    literal: "\"\n                              {a\n  !\"",
    text_after: "); }",
    style: None,
    text: "\n                              {a\n  !",
    appended_newline: false,
    lines: &[
        "error: invalid format string: expected `}`, found `!`",
        " --> a.rs:3:3",
        "  |",
        "2 |                               {a",
        "  |                               - because of this opening brace",
        "3 |   !\"); }",
        "  |   ^ expected `}` in format string",
        "  |",
        "  = note: if you intended to print `{`, you can escape it using `{{`",
    ],
};

/// A blank line has no indent, whatever is below it.
const DEEP_BLANK: Row = Row {
    line: 1,
    text_before: "fn f() { format!(",
    literal: "\"\n                              {65536\n\n  }\"",
    text_after: "); }",
    style: None,
    text: "\n                              {65536\n\n  }",
    appended_newline: false,
    lines: &[
        "error: invalid format string: integer `65536` does not fit into the type `u16` whose range is `0..=65535`",
        " --> a.rs:2:32",
        "  |",
        "2 |   ...                   {65536",
        "  |  ________________________^",
        "3 | | ...",
        "  | |_^ integer out of range for `u16` in format string",
    ],
};

/// A tab is four columns of an indent.
const DEEP_TABS: Row = Row {
    line: 1,
    text_before: "fn f() { format!(",
    literal: "\"\n\t\t\t\t\t\t\t{a\n\n\t\t\t\t\t\t\t\t!\"",
    text_after: "); }",
    style: None,
    text: "\n\t\t\t\t\t\t\t{a\n\n\t\t\t\t\t\t\t\t!",
    appended_newline: false,
    lines: &[
        "error: invalid format string: expected `}`, found `!`",
        " --> a.rs:4:9",
        "  |",
        "2 | ...                   {a",
        "  |                       - because of this opening brace",
        "3 | ...",
        "4 | ...                       !\"); }",
        "  |                           ^ expected `}` in format string",
        "  |",
        "  = note: if you intended to print `{`, you can escape it using `{{`",
    ],
};

/// A label over two lines.
const LONG: Row = Row {
    line: 1,
    text_before: "fn f() { format!(",
    literal: "\"{a\n.b}\"",
    text_after: "); }",
    style: None,
    text: "{a\n.b}",
    appended_newline: false,
    lines: &[
        "error: invalid format string: field access isn't supported",
        " --> a.rs:1:20",
        "  |",
        "1 |   fn f() { format!(\"{a",
        "  |  ____________________^",
        "2 | | .b}\"); }",
        "  | |__^ not supported in format string",
        "  |",
        "  = note: consider moving this expression to a local variable and then using the local here instead",
    ],
};

/// A label that begins with the text of its line.
const LONG_SLASH: Row = Row {
    line: 1,
    text_before: "fn f() { format!(",
    literal: "\"{\\\n  a\n  .b}\"",
    text_after: "); }",
    style: None,
    text: "{a\n  .b}",
    appended_newline: false,
    lines: &[
        "error: invalid format string: field access isn't supported",
        " --> a.rs:2:3",
        "  |",
        "2 | /   a",
        "3 | |   .b}\"); }",
        "  | |____^ not supported in format string",
        "  |",
        "  = note: consider moving this expression to a local variable and then using the local here instead",
    ],
};

/// Of a long label three lines after the first one, and the one before the last one.
const LONG_DOTS: Row = Row {
    line: 1,
    text_before: "fn f() { format!(",
    literal: "\"{a\n\\x20\n\\x20\\x20\n\\x20\\x0a\n\\x20\n\\x20\n\\x20\\x09\n.b}\"",
    text_after: "); }",
    style: None,
    text: "{a\n \n  \n \n\n \n \n \t\n.b}",
    appended_newline: false,
    lines: &[
        "error: invalid format string: field access isn't supported",
        " --> a.rs:1:20",
        "  |",
        "1 |   fn f() { format!(\"{a",
        "  |  ____________________^",
        "2 | | \\x20",
        "3 | | \\x20\\x20",
        "4 | | \\x20\\x0a",
        "... |",
        "7 | | \\x20\\x09",
        "8 | | .b}\"); }",
        "  | |__^ not supported in format string",
        "  |",
        "  = note: consider moving this expression to a local variable and then using the local here instead",
    ],
};

/// Blank lines at the end of these are left out.
const LONG_BARE: Row = Row {
    line: 1,
    text_before: "fn f() { format!(",
    literal: "\"{a\n\\x20\n\n\n\n\n\n  .b}\"",
    text_after: "); }",
    style: None,
    text: "{a\n \n\n\n\n\n\n  .b}",
    appended_newline: false,
    lines: &[
        "error: invalid format string: field access isn't supported",
        " --> a.rs:1:20",
        "  |",
        "1 |   fn f() { format!(\"{a",
        "  |  ____________________^",
        "2 | | \\x20",
        "... |",
        "8 | |   .b}\"); }",
        "  | |____^ not supported in format string",
        "  |",
        "  = note: consider moving this expression to a local variable and then using the local here instead",
    ],
};

/// A line alone between is drawn.
const LONG_GAP: Row = Row {
    line: 1,
    text_before: "fn f() { format!(",
    literal: "\"{a\n\\x20\n\\x20\n\n .b}\"",
    text_after: "); }",
    style: None,
    text: "{a\n \n \n\n .b}",
    appended_newline: false,
    lines: &[
        "error: invalid format string: field access isn't supported",
        " --> a.rs:1:20",
        "  |",
        "1 |   fn f() { format!(\"{a",
        "  |  ____________________^",
        "2 | | \\x20",
        "3 | | \\x20",
        "4 | |",
        "5 | |  .b}\"); }",
        "  | |___^ not supported in format string",
        "  |",
        "  = note: consider moving this expression to a local variable and then using the local here instead",
    ],
};

/// Characters of two columns.
const WIDE: Row = Row {
    line: 1,
    text_before: "fn f() { format!(",
    literal: "\"日本{名!}\"",
    text_after: "); }",
    style: None,
    text: "日本{名!}",
    appended_newline: false,
    lines: &[
        "error: invalid format string: expected `}`, found `!`",
        " --> a.rs:1:23",
        "  |",
        "1 | fn f() { format!(\"日本{名!}\"); }",
        "  |                       -  ^ expected `}` in format string",
        "  |                       |",
        "  |                       because of this opening brace",
        "  |",
        "  = note: if you intended to print `{`, you can escape it using `{{`",
    ],
};

/// A joiner is left out.
const JOINED: Row = Row {
    line: 1,
    text_before: "fn f() { format!(",
    literal: "\"👩\u{200d}🔧}\"",
    text_after: "); }",
    style: None,
    text: "👩\u{200d}🔧}",
    appended_newline: false,
    lines: &[
        "error: invalid format string: unmatched `}` found",
        " --> a.rs:1:22",
        "  |",
        "1 | fn f() { format!(\"👩🔧}\"); }",
        "  |                       ^ unmatched `}` in format string",
        "  |",
        "  = note: if you intended to print `}`, you can escape it using `}}`",
    ],
};

/// Characters of no column.
const MARKS: Row = Row {
    line: 1,
    text_before: "fn f() { format!(",
    literal: "\"e\u{301}\u{200b}}\"",
    text_after: "); }",
    style: None,
    text: "e\u{301}\u{200b}}",
    appended_newline: false,
    lines: &[
        "error: invalid format string: unmatched `}` found",
        " --> a.rs:1:22",
        "  |",
        "1 | fn f() { format!(\"e\u{301}\u{200b}}\"); }",
        "  |                    ^ unmatched `}` in format string",
        "  |",
        "  = note: if you intended to print `}`, you can escape it using `}}`",
    ],
};

/// Pictures of control characters.
const CONTROL: Row = Row {
    line: 1,
    text_before: "fn f() { format!(",
    literal: "\"\u{1}\u{1b}\u{7f}}\"",
    text_after: "); }",
    style: None,
    text: "\u{1}\u{1b}\u{7f}}",
    appended_newline: false,
    lines: &[
        "error: invalid format string: unmatched `}` found",
        " --> a.rs:1:22",
        "  |",
        "1 | fn f() { format!(\"␁␛␡}\"); }",
        "  |                      ^ unmatched `}` in format string",
        "  |",
        "  = note: if you intended to print `}`, you can escape it using `}}`",
    ],
};

/// Characters that change the direction of text.
const DIRECTION: Row = Row {
    line: 1,
    text_before: "fn f() { format!(",
    literal: "\"\u{202e}\u{2066}}\"",
    text_after: "); }",
    style: None,
    text: "\u{202e}\u{2066}}",
    appended_newline: false,
    lines: &[
        "error: invalid format string: unmatched `}` found",
        " --> a.rs:1:21",
        "  |",
        "1 | fn f() { format!(\"��}\"); }",
        "  |                     ^ unmatched `}` in format string",
        "  |",
        "  = note: if you intended to print `}`, you can escape it using `}}`",
    ],
};

/// A tab is four spaces, wherever it stands.
const TABS: Row = Row {
    line: 1,
    text_before: "fn f() { format!(",
    literal: "\"a\tb\t}\"",
    text_after: "); }",
    style: None,
    text: "a\tb\t}",
    appended_newline: false,
    lines: &[
        "error: invalid format string: unmatched `}` found",
        " --> a.rs:1:23",
        "  |",
        "1 | fn f() { format!(\"a    b    }\"); }",
        "  |                             ^ unmatched `}` in format string",
        "  |",
        "  = note: if you intended to print `}`, you can escape it using `}}`",
    ],
};

/// The end of a text that gets a newline.
const NEWLINE: Row = Row {
    line: 1,
    text_before: "fn f() { println!(",
    literal: "\"{a\"",
    text_after: "); }",
    style: None,
    text: "{a\n",
    appended_newline: true,
    lines: &[
        "error: invalid format string: expected `}` but string was terminated",
        " --> a.rs:1:22",
        "  |",
        "1 | fn f() { println!(\"{a\"); }",
        "  |                    - ^ expected `}` in format string",
        "  |                    |",
        "  |                    because of this opening brace",
        "  |",
        "  = note: if you intended to print `{`, you can escape it using `{{`",
    ],
};

const LINE_ROWS: &[Row] = &[
    NUMBERS,
    THREE_DIGITS,
    DOTS,
    DEEP,
    NOT_DEEP,
    LESS_DEEP,
    DEEP_BLANK,
    DEEP_TABS,
    LONG,
    LONG_SLASH,
    LONG_DOTS,
    LONG_BARE,
    LONG_GAP,
    WIDE,
    JOINED,
    MARKS,
    CONTROL,
    DIRECTION,
    TABS,
    NEWLINE,
];

/// All rows. Nothing else names the table, since what names it is checked with all of its text.
pub fn line_rows() -> &'static [Row] {
    LINE_ROWS
}
