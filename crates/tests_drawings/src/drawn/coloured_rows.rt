//! Literals with colours: a row for each kind of drawing. The lines are those of rustc 1.95.

use super::row::Row;

/// One label.
const UNMATCHED: Row = Row {
    line: 1,
    text_before: "fn f() { format!(",
    literal: "\"}\"",
    text_after: "); }",
    style: None,
    text: "}",
    appended_newline: false,
    lines: &[
        "\u{1b}[1m\u{1b}[91merror\u{1b}[0m\u{1b}[1m: invalid format string: unmatched `}` found\u{1b}[0m",
        " \u{1b}[1m\u{1b}[94m--> \u{1b}[0ma.rs:1:19",
        "  \u{1b}[1m\u{1b}[94m|\u{1b}[0m",
        "\u{1b}[1m\u{1b}[94m1\u{1b}[0m \u{1b}[1m\u{1b}[94m|\u{1b}[0m fn f() { format!(\"}\"); }",
        "  \u{1b}[1m\u{1b}[94m|\u{1b}[0m                   \u{1b}[1m\u{1b}[91m^\u{1b}[0m \u{1b}[1m\u{1b}[91munmatched `}` in format string\u{1b}[0m",
        "  \u{1b}[1m\u{1b}[94m|\u{1b}[0m",
        "  \u{1b}[1m\u{1b}[94m= \u{1b}[0m\u{1b}[1mnote\u{1b}[0m: if you intended to print `}`, you can escape it using `}}`",
    ],
};

/// Two labels, the text of one of which hangs.
const AT_THE_END: Row = Row {
    line: 1,
    text_before: "fn f() { format!(",
    literal: "\"{a\"",
    text_after: "); }",
    style: None,
    text: "{a",
    appended_newline: false,
    lines: &[
        "\u{1b}[1m\u{1b}[91merror\u{1b}[0m\u{1b}[1m: invalid format string: expected `}` but string was terminated\u{1b}[0m",
        " \u{1b}[1m\u{1b}[94m--> \u{1b}[0ma.rs:1:21",
        "  \u{1b}[1m\u{1b}[94m|\u{1b}[0m",
        "\u{1b}[1m\u{1b}[94m1\u{1b}[0m \u{1b}[1m\u{1b}[94m|\u{1b}[0m fn f() { format!(\"{a\"); }",
        "  \u{1b}[1m\u{1b}[94m|\u{1b}[0m                   \u{1b}[1m\u{1b}[94m-\u{1b}[0m \u{1b}[1m\u{1b}[91m^\u{1b}[0m \u{1b}[1m\u{1b}[91mexpected `}` in format string\u{1b}[0m",
        "  \u{1b}[1m\u{1b}[94m|\u{1b}[0m                   \u{1b}[1m\u{1b}[94m|\u{1b}[0m",
        "  \u{1b}[1m\u{1b}[94m|\u{1b}[0m                   \u{1b}[1m\u{1b}[94mbecause of this opening brace\u{1b}[0m",
        "  \u{1b}[1m\u{1b}[94m|\u{1b}[0m",
        "  \u{1b}[1m\u{1b}[94m= \u{1b}[0m\u{1b}[1mnote\u{1b}[0m: if you intended to print `{`, you can escape it using `{{`",
    ],
};

/// Two labels with other signs between them.
const FAR: Row = Row {
    line: 9,
    text_before: "fn f() { format!(",
    literal: "\"{:x?y}\"",
    text_after: "); }",
    style: None,
    text: "{:x?y}",
    appended_newline: false,
    lines: &[
        "\u{1b}[1m\u{1b}[91merror\u{1b}[0m\u{1b}[1m: invalid format string: expected `}`, found `y`\u{1b}[0m",
        " \u{1b}[1m\u{1b}[94m--> \u{1b}[0ma.rs:9:23",
        "  \u{1b}[1m\u{1b}[94m|\u{1b}[0m",
        "\u{1b}[1m\u{1b}[94m9\u{1b}[0m \u{1b}[1m\u{1b}[94m|\u{1b}[0m fn f() { format!(\"{:x?y}\"); }",
        "  \u{1b}[1m\u{1b}[94m|\u{1b}[0m                   \u{1b}[1m\u{1b}[94m-\u{1b}[0m   \u{1b}[1m\u{1b}[91m^\u{1b}[0m \u{1b}[1m\u{1b}[91mexpected `}` in format string\u{1b}[0m",
        "  \u{1b}[1m\u{1b}[94m|\u{1b}[0m                   \u{1b}[1m\u{1b}[94m|\u{1b}[0m",
        "  \u{1b}[1m\u{1b}[94m|\u{1b}[0m                   \u{1b}[1m\u{1b}[94mbecause of this opening brace\u{1b}[0m",
        "  \u{1b}[1m\u{1b}[94m|\u{1b}[0m",
        "  \u{1b}[1m\u{1b}[94m= \u{1b}[0m\u{1b}[1mnote\u{1b}[0m: if you intended to print `{`, you can escape it using `{{`",
    ],
};

/// Two labels that hang from one column, of which one is primary.
const RAW_IDENT: Row = Row {
    line: 1,
    text_before: "fn f() { format!(",
    literal: "\"{r#a}\"",
    text_after: "); }",
    style: None,
    text: "{r#a}",
    appended_newline: false,
    lines: &[
        "\u{1b}[1m\u{1b}[91merror\u{1b}[0m\u{1b}[1m: invalid format string: raw identifiers are not supported\u{1b}[0m",
        " \u{1b}[1m\u{1b}[94m--> \u{1b}[0ma.rs:1:20",
        "  \u{1b}[1m\u{1b}[94m|\u{1b}[0m",
        "\u{1b}[1m\u{1b}[94m1\u{1b}[0m \u{1b}[1m\u{1b}[94m|\u{1b}[0m fn f() { format!(\"{r#a}\"); }",
        "  \u{1b}[1m\u{1b}[94m|\u{1b}[0m                    \u{1b}[1m\u{1b}[94m--\u{1b}[0m\u{1b}[1m\u{1b}[91m^\u{1b}[0m",
        "  \u{1b}[1m\u{1b}[94m|\u{1b}[0m                    \u{1b}[1m\u{1b}[94m|\u{1b}[0m",
        "  \u{1b}[1m\u{1b}[94m|\u{1b}[0m                    \u{1b}[1m\u{1b}[91mraw identifier used here in format string\u{1b}[0m",
        "  \u{1b}[1m\u{1b}[94m|\u{1b}[0m                    \u{1b}[1m\u{1b}[94mhelp: remove the `r#`\u{1b}[0m",
        "  \u{1b}[1m\u{1b}[94m|\u{1b}[0m",
        "  \u{1b}[1m\u{1b}[94m= \u{1b}[0m\u{1b}[1mnote\u{1b}[0m: identifiers in format strings can be keywords and don't need to be prefixed with `r#`",
    ],
};

/// The same with more after it.
const RAW_WORD: Row = Row {
    line: 10,
    text_before: "fn f() { println!(",
    literal: "\"x {r#abc:?} y\"",
    text_after: ", 1); }",
    style: None,
    text: "x {r#abc:?} y",
    appended_newline: true,
    lines: &[
        "\u{1b}[1m\u{1b}[91merror\u{1b}[0m\u{1b}[1m: invalid format string: raw identifiers are not supported\u{1b}[0m",
        "  \u{1b}[1m\u{1b}[94m--> \u{1b}[0ma.rs:10:23",
        "   \u{1b}[1m\u{1b}[94m|\u{1b}[0m",
        "\u{1b}[1m\u{1b}[94m10\u{1b}[0m \u{1b}[1m\u{1b}[94m|\u{1b}[0m fn f() { println!(\"x {r#abc:?} y\", 1); }",
        "   \u{1b}[1m\u{1b}[94m|\u{1b}[0m                       \u{1b}[1m\u{1b}[94m--\u{1b}[0m\u{1b}[1m\u{1b}[91m^^^\u{1b}[0m",
        "   \u{1b}[1m\u{1b}[94m|\u{1b}[0m                       \u{1b}[1m\u{1b}[94m|\u{1b}[0m",
        "   \u{1b}[1m\u{1b}[94m|\u{1b}[0m                       \u{1b}[1m\u{1b}[91mraw identifier used here in format string\u{1b}[0m",
        "   \u{1b}[1m\u{1b}[94m|\u{1b}[0m                       \u{1b}[1m\u{1b}[94mhelp: remove the `r#`\u{1b}[0m",
        "   \u{1b}[1m\u{1b}[94m|\u{1b}[0m",
        "   \u{1b}[1m\u{1b}[94m= \u{1b}[0m\u{1b}[1mnote\u{1b}[0m: identifiers in format strings can be keywords and don't need to be prefixed with `r#`",
    ],
};

/// Two primary labels that hang from one column.
const NO_COLON: Row = Row {
    line: 1,
    text_before: "fn f() { format!(",
    literal: "\"{a?}\"",
    text_after: "); }",
    style: None,
    text: "{a?}",
    appended_newline: false,
    lines: &[
        "\u{1b}[1m\u{1b}[91merror\u{1b}[0m\u{1b}[1m: invalid format string: expected `}`, found `?`\u{1b}[0m",
        " \u{1b}[1m\u{1b}[94m--> \u{1b}[0ma.rs:1:21",
        "  \u{1b}[1m\u{1b}[94m|\u{1b}[0m",
        "\u{1b}[1m\u{1b}[94m1\u{1b}[0m \u{1b}[1m\u{1b}[94m|\u{1b}[0m fn f() { format!(\"{a?}\"); }",
        "  \u{1b}[1m\u{1b}[94m|\u{1b}[0m                     \u{1b}[1m\u{1b}[91m^\u{1b}[0m",
        "  \u{1b}[1m\u{1b}[94m|\u{1b}[0m                     \u{1b}[1m\u{1b}[91m|\u{1b}[0m",
        "  \u{1b}[1m\u{1b}[94m|\u{1b}[0m                     \u{1b}[1m\u{1b}[91mexpected `:` before `?` to format with `Debug` in format string\u{1b}[0m",
        "  \u{1b}[1m\u{1b}[94m|\u{1b}[0m                     \u{1b}[1m\u{1b}[91mhelp: add a colon before the format specifier: `:?`\u{1b}[0m",
        "  \u{1b}[1m\u{1b}[94m|\u{1b}[0m",
        "  \u{1b}[1m\u{1b}[94m= \u{1b}[0m\u{1b}[1mnote\u{1b}[0m: to print `{`, you can escape it using `{{`",
    ],
};

/// A label over several lines.
const LONG: Row = Row {
    line: 1,
    text_before: "fn f() { format!(",
    literal: "\"{foo\n  .bar}\"",
    text_after: ", 1); }",
    style: None,
    text: "{foo\n  .bar}",
    appended_newline: false,
    lines: &[
        "\u{1b}[1m\u{1b}[91merror\u{1b}[0m\u{1b}[1m: invalid format string: field access isn't supported\u{1b}[0m",
        " \u{1b}[1m\u{1b}[94m--> \u{1b}[0ma.rs:1:20",
        "  \u{1b}[1m\u{1b}[94m|\u{1b}[0m",
        "\u{1b}[1m\u{1b}[94m1\u{1b}[0m \u{1b}[1m\u{1b}[94m|\u{1b}[0m   fn f() { format!(\"{foo",
        "  \u{1b}[1m\u{1b}[94m|\u{1b}[0m \u{1b}[1m\u{1b}[91m ____________________^\u{1b}[0m",
        "\u{1b}[1m\u{1b}[94m2\u{1b}[0m \u{1b}[1m\u{1b}[94m|\u{1b}[0m \u{1b}[1m\u{1b}[91m|\u{1b}[0m   .bar}\", 1); }",
        "  \u{1b}[1m\u{1b}[94m|\u{1b}[0m \u{1b}[1m\u{1b}[91m|______^\u{1b}[0m \u{1b}[1m\u{1b}[91mnot supported in format string\u{1b}[0m",
        "  \u{1b}[1m\u{1b}[94m|\u{1b}[0m",
        "  \u{1b}[1m\u{1b}[94m= \u{1b}[0m\u{1b}[1mnote\u{1b}[0m: consider moving this expression to a local variable and then using the local here instead",
    ],
};

/// One that begins with the text of its line.
const LONG_INDENT: Row = Row {
    line: 1,
    text_before: "fn f() { format!(",
    literal: "\"{\n  foo\n  .bar}\"",
    text_after: "); }",
    style: None,
    text: "{\n  foo\n  .bar}",
    appended_newline: false,
    lines: &[
        "\u{1b}[1m\u{1b}[91merror\u{1b}[0m\u{1b}[1m: invalid format string: expected `}`, found `f`\u{1b}[0m",
        " \u{1b}[1m\u{1b}[94m--> \u{1b}[0ma.rs:2:3",
        "  \u{1b}[1m\u{1b}[94m|\u{1b}[0m",
        "\u{1b}[1m\u{1b}[94m1\u{1b}[0m \u{1b}[1m\u{1b}[94m|\u{1b}[0m fn f() { format!(\"{",
        "  \u{1b}[1m\u{1b}[94m|\u{1b}[0m                   \u{1b}[1m\u{1b}[94m-\u{1b}[0m \u{1b}[1m\u{1b}[94mbecause of this opening brace\u{1b}[0m",
        "\u{1b}[1m\u{1b}[94m2\u{1b}[0m \u{1b}[1m\u{1b}[94m|\u{1b}[0m   foo",
        "  \u{1b}[1m\u{1b}[94m|\u{1b}[0m   \u{1b}[1m\u{1b}[91m^\u{1b}[0m \u{1b}[1m\u{1b}[91mexpected `}` in format string\u{1b}[0m",
        "  \u{1b}[1m\u{1b}[94m|\u{1b}[0m",
        "  \u{1b}[1m\u{1b}[94m= \u{1b}[0m\u{1b}[1mnote\u{1b}[0m: if you intended to print `{`, you can escape it using `{{`",
    ],
};

/// One with dots between its lines.
const LONG_DOTS: Row = Row {
    line: 7,
    text_before: "fn f() { format!(",
    literal: "\"{foo\n\n\n\n\n\n\n  .bar}\"",
    text_after: "); }",
    style: None,
    text: "{foo\n\n\n\n\n\n\n  .bar}",
    appended_newline: false,
    lines: &[
        "\u{1b}[1m\u{1b}[91merror\u{1b}[0m\u{1b}[1m: invalid format string: field access isn't supported\u{1b}[0m",
        "  \u{1b}[1m\u{1b}[94m--> \u{1b}[0ma.rs:7:20",
        "   \u{1b}[1m\u{1b}[94m|\u{1b}[0m",
        "\u{1b}[1m\u{1b}[94m 7\u{1b}[0m \u{1b}[1m\u{1b}[94m|\u{1b}[0m   fn f() { format!(\"{foo",
        "   \u{1b}[1m\u{1b}[94m|\u{1b}[0m \u{1b}[1m\u{1b}[91m ____________________^\u{1b}[0m",
        "\u{1b}[1m\u{1b}[94m...\u{1b}[0m  \u{1b}[1m\u{1b}[91m|\u{1b}[0m",
        "\u{1b}[1m\u{1b}[94m14\u{1b}[0m \u{1b}[1m\u{1b}[94m|\u{1b}[0m \u{1b}[1m\u{1b}[91m|\u{1b}[0m   .bar}\"); }",
        "   \u{1b}[1m\u{1b}[94m|\u{1b}[0m \u{1b}[1m\u{1b}[91m|______^\u{1b}[0m \u{1b}[1m\u{1b}[91mnot supported in format string\u{1b}[0m",
        "   \u{1b}[1m\u{1b}[94m|\u{1b}[0m",
        "   \u{1b}[1m\u{1b}[94m= \u{1b}[0m\u{1b}[1mnote\u{1b}[0m: consider moving this expression to a local variable and then using the local here instead",
    ],
};

/// One in lines that are cut.
const LONG_CUT: Row = Row {
    line: 1,
    text_before: "fn f() {\n                                format!(",
    literal: "\"{foo\n                                .bar}\"",
    text_after: ");\n}",
    style: None,
    text: "{foo\n                                .bar}",
    appended_newline: false,
    lines: &[
        "\u{1b}[1m\u{1b}[91merror\u{1b}[0m\u{1b}[1m: invalid format string: field access isn't supported\u{1b}[0m",
        " \u{1b}[1m\u{1b}[94m--> \u{1b}[0ma.rs:2:43",
        "  \u{1b}[1m\u{1b}[94m|\u{1b}[0m",
        "\u{1b}[1m\u{1b}[94m2\u{1b}[0m \u{1b}[1m\u{1b}[94m|\u{1b}[0m   \u{1b}[1m\u{1b}[94m...\u{1b}[0m                   format!(\"{foo",
        "  \u{1b}[1m\u{1b}[94m|\u{1b}[0m \u{1b}[1m\u{1b}[91m _________________________________^\u{1b}[0m",
        "\u{1b}[1m\u{1b}[94m3\u{1b}[0m \u{1b}[1m\u{1b}[94m|\u{1b}[0m \u{1b}[1m\u{1b}[91m|\u{1b}[0m \u{1b}[1m\u{1b}[94m...\u{1b}[0m                   .bar}\");",
        "  \u{1b}[1m\u{1b}[94m|\u{1b}[0m \u{1b}[1m\u{1b}[91m|__________________________^\u{1b}[0m \u{1b}[1m\u{1b}[91mnot supported in format string\u{1b}[0m",
        "  \u{1b}[1m\u{1b}[94m|\u{1b}[0m",
        "  \u{1b}[1m\u{1b}[94m= \u{1b}[0m\u{1b}[1mnote\u{1b}[0m: consider moving this expression to a local variable and then using the local here instead",
    ],
};

/// A note of one label.
const NO_NAME: Row = Row {
    line: 3,
    text_before: "fn f() { format!(",
    literal: "\"{?:#x}\"",
    text_after: "); }",
    style: None,
    text: "{?:#x}",
    appended_newline: false,
    lines: &[
        "\u{1b}[1m\u{1b}[91merror\u{1b}[0m\u{1b}[1m: invalid format string: expected format parameter to occur after `:`\u{1b}[0m",
        " \u{1b}[1m\u{1b}[94m--> \u{1b}[0ma.rs:3:20",
        "  \u{1b}[1m\u{1b}[94m|\u{1b}[0m",
        "\u{1b}[1m\u{1b}[94m3\u{1b}[0m \u{1b}[1m\u{1b}[94m|\u{1b}[0m fn f() { format!(\"{?:#x}\"); }",
        "  \u{1b}[1m\u{1b}[94m|\u{1b}[0m                    \u{1b}[1m\u{1b}[91m^\u{1b}[0m \u{1b}[1m\u{1b}[91mexpected `?` to occur after `:` in format string\u{1b}[0m",
        "  \u{1b}[1m\u{1b}[94m|\u{1b}[0m",
        "  \u{1b}[1m\u{1b}[94m= \u{1b}[0m\u{1b}[1mnote\u{1b}[0m: `?` comes after `:`, try `:?` instead",
    ],
};

/// A help with a removed and an added part.
const FLAG: Row = Row {
    line: 1,
    text_before: "fn f() { format!(",
    literal: "\"{:?#}\"",
    text_after: "); }",
    style: None,
    text: "{:?#}",
    appended_newline: false,
    lines: &[
        "\u{1b}[1m\u{1b}[91merror\u{1b}[0m\u{1b}[1m: invalid format string: expected `}`, found `#`\u{1b}[0m",
        " \u{1b}[1m\u{1b}[94m--> \u{1b}[0ma.rs:1:22",
        "  \u{1b}[1m\u{1b}[94m|\u{1b}[0m",
        "\u{1b}[1m\u{1b}[94m1\u{1b}[0m \u{1b}[1m\u{1b}[94m|\u{1b}[0m fn f() { format!(\"{:?#}\"); }",
        "  \u{1b}[1m\u{1b}[94m|\u{1b}[0m                      \u{1b}[1m\u{1b}[91m^\u{1b}[0m \u{1b}[1m\u{1b}[91mexpected `'}'` in format string\u{1b}[0m",
        "  \u{1b}[1m\u{1b}[94m|\u{1b}[0m",
        "\u{1b}[1m\u{1b}[96mhelp\u{1b}[0m: did you mean `#?`?",
        "  \u{1b}[1m\u{1b}[94m|\u{1b}[0m",
        "\u{1b}[1m\u{1b}[94m1\u{1b}[0m \u{1b}[91m- \u{1b}[0mfn f() { format!(\"{:\u{1b}[91m?#\u{1b}[0m}\"); }",
        "\u{1b}[1m\u{1b}[94m1\u{1b}[0m \u{1b}[92m+ \u{1b}[0mfn f() { format!(\"{:\u{1b}[92m#?\u{1b}[0m}\"); }",
        "  \u{1b}[1m\u{1b}[94m|\u{1b}[0m",
    ],
};

/// The same in a raw literal.
const FLAG_X: Row = Row {
    line: 99,
    text_before: "fn f() { println!(",
    literal: "r#\"{a:#?x} b\"#",
    text_after: ", 1); }",
    style: Some(1),
    text: "{a:#?x} b",
    appended_newline: true,
    lines: &[
        "\u{1b}[1m\u{1b}[91merror\u{1b}[0m\u{1b}[1m: invalid format string: expected `}`, found `x`\u{1b}[0m",
        "  \u{1b}[1m\u{1b}[94m--> \u{1b}[0ma.rs:99:27",
        "   \u{1b}[1m\u{1b}[94m|\u{1b}[0m",
        "\u{1b}[1m\u{1b}[94m99\u{1b}[0m \u{1b}[1m\u{1b}[94m|\u{1b}[0m fn f() { println!(r#\"{a:#?x} b\"#, 1); }",
        "   \u{1b}[1m\u{1b}[94m|\u{1b}[0m                           \u{1b}[1m\u{1b}[91m^\u{1b}[0m \u{1b}[1m\u{1b}[91mexpected `'}'` in format string\u{1b}[0m",
        "   \u{1b}[1m\u{1b}[94m|\u{1b}[0m",
        "\u{1b}[1m\u{1b}[96mhelp\u{1b}[0m: did you mean `x?`?",
        "   \u{1b}[1m\u{1b}[94m|\u{1b}[0m",
        "\u{1b}[1m\u{1b}[94m99\u{1b}[0m \u{1b}[91m- \u{1b}[0mfn f() { println!(r#\"{a:#\u{1b}[91m?x\u{1b}[0m} b\"#, 1); }",
        "\u{1b}[1m\u{1b}[94m99\u{1b}[0m \u{1b}[92m+ \u{1b}[0mfn f() { println!(r#\"{a:#\u{1b}[92mx?\u{1b}[0m} b\"#, 1); }",
        "   \u{1b}[1m\u{1b}[94m|\u{1b}[0m",
    ],
};

/// A label at the start of a line, below another line.
const LINE_START: Row = Row {
    line: 1,
    text_before: "fn f() { format!(",
    literal: "\"{a:\n?# } b\"",
    text_after: "); }",
    style: None,
    text: "{a:\n?# } b",
    appended_newline: false,
    lines: &[
        "\u{1b}[1m\u{1b}[91merror\u{1b}[0m\u{1b}[1m: invalid format string: expected `}`, found `?`\u{1b}[0m",
        " \u{1b}[1m\u{1b}[94m--> \u{1b}[0ma.rs:2:1",
        "  \u{1b}[1m\u{1b}[94m|\u{1b}[0m",
        "\u{1b}[1m\u{1b}[94m1\u{1b}[0m \u{1b}[1m\u{1b}[94m|\u{1b}[0m fn f() { format!(\"{a:",
        "  \u{1b}[1m\u{1b}[94m|\u{1b}[0m                   \u{1b}[1m\u{1b}[94m-\u{1b}[0m \u{1b}[1m\u{1b}[94mbecause of this opening brace\u{1b}[0m",
        "\u{1b}[1m\u{1b}[94m2\u{1b}[0m \u{1b}[1m\u{1b}[94m|\u{1b}[0m ?# } b\"); }",
        "  \u{1b}[1m\u{1b}[94m|\u{1b}[0m \u{1b}[1m\u{1b}[91m^\u{1b}[0m \u{1b}[1m\u{1b}[91mexpected `}` in format string\u{1b}[0m",
        "  \u{1b}[1m\u{1b}[94m|\u{1b}[0m",
        "  \u{1b}[1m\u{1b}[94m= \u{1b}[0m\u{1b}[1mnote\u{1b}[0m: if you intended to print `{`, you can escape it using `{{`",
    ],
};

/// The removed part is in two lines.
const FLAG_LINES: Row = Row {
    line: 1,
    text_before: "fn f() { format!(",
    literal: "\"{a:?\\\n      #}\"",
    text_after: "); }",
    style: None,
    text: "{a:?#}",
    appended_newline: false,
    lines: &[
        "\u{1b}[1m\u{1b}[91merror\u{1b}[0m\u{1b}[1m: invalid format string: expected `}`, found `#`\u{1b}[0m",
        " \u{1b}[1m\u{1b}[94m--> \u{1b}[0ma.rs:2:7",
        "  \u{1b}[1m\u{1b}[94m|\u{1b}[0m",
        "\u{1b}[1m\u{1b}[94m2\u{1b}[0m \u{1b}[1m\u{1b}[94m|\u{1b}[0m       #}\"); }",
        "  \u{1b}[1m\u{1b}[94m|\u{1b}[0m       \u{1b}[1m\u{1b}[91m^\u{1b}[0m \u{1b}[1m\u{1b}[91mexpected `'}'` in format string\u{1b}[0m",
        "  \u{1b}[1m\u{1b}[94m|\u{1b}[0m",
        "\u{1b}[1m\u{1b}[96mhelp\u{1b}[0m: did you mean `#?`?",
        "  \u{1b}[1m\u{1b}[94m|\u{1b}[0m",
        "\u{1b}[1m\u{1b}[94m1\u{1b}[0m \u{1b}[91m- \u{1b}[0mfn f() { format!(\"{a:\u{1b}[91m?\\\u{1b}[0m",
        "\u{1b}[1m\u{1b}[94m2\u{1b}[0m \u{1b}[91m-       #\u{1b}[0m}\"); }",
        "\u{1b}[1m\u{1b}[94m1\u{1b}[0m \u{1b}[92m+ \u{1b}[0mfn f() { format!(\"{a:\u{1b}[92m#?\u{1b}[0m}\"); }",
        "  \u{1b}[1m\u{1b}[94m|\u{1b}[0m",
    ],
};

/// Labels in two lines.
const NEXT_LINE: Row = Row {
    line: 1,
    text_before: "fn f() { format!(",
    literal: "\"{a\n  b}\"",
    text_after: "); }",
    style: None,
    text: "{a\n  b}",
    appended_newline: false,
    lines: &[
        "\u{1b}[1m\u{1b}[91merror\u{1b}[0m\u{1b}[1m: invalid format string: expected `}`, found `b`\u{1b}[0m",
        " \u{1b}[1m\u{1b}[94m--> \u{1b}[0ma.rs:2:3",
        "  \u{1b}[1m\u{1b}[94m|\u{1b}[0m",
        "\u{1b}[1m\u{1b}[94m1\u{1b}[0m \u{1b}[1m\u{1b}[94m|\u{1b}[0m fn f() { format!(\"{a",
        "  \u{1b}[1m\u{1b}[94m|\u{1b}[0m                   \u{1b}[1m\u{1b}[94m-\u{1b}[0m \u{1b}[1m\u{1b}[94mbecause of this opening brace\u{1b}[0m",
        "\u{1b}[1m\u{1b}[94m2\u{1b}[0m \u{1b}[1m\u{1b}[94m|\u{1b}[0m   b}\"); }",
        "  \u{1b}[1m\u{1b}[94m|\u{1b}[0m   \u{1b}[1m\u{1b}[91m^\u{1b}[0m \u{1b}[1m\u{1b}[91mexpected `}` in format string\u{1b}[0m",
        "  \u{1b}[1m\u{1b}[94m|\u{1b}[0m",
        "  \u{1b}[1m\u{1b}[94m= \u{1b}[0m\u{1b}[1mnote\u{1b}[0m: if you intended to print `{`, you can escape it using `{{`",
    ],
};

/// A line between two with labels.
const IN_BETWEEN: Row = Row {
    line: 1,
    text_before: "fn f() { format!(",
    literal: "\"{a\n\n  b}\"",
    text_after: "); }",
    style: None,
    text: "{a\n\n  b}",
    appended_newline: false,
    lines: &[
        "\u{1b}[1m\u{1b}[91merror\u{1b}[0m\u{1b}[1m: invalid format string: expected `}`, found `b`\u{1b}[0m",
        " \u{1b}[1m\u{1b}[94m--> \u{1b}[0ma.rs:3:3",
        "  \u{1b}[1m\u{1b}[94m|\u{1b}[0m",
        "\u{1b}[1m\u{1b}[94m1\u{1b}[0m \u{1b}[1m\u{1b}[94m|\u{1b}[0m fn f() { format!(\"{a",
        "  \u{1b}[1m\u{1b}[94m|\u{1b}[0m                   \u{1b}[1m\u{1b}[94m-\u{1b}[0m \u{1b}[1m\u{1b}[94mbecause of this opening brace\u{1b}[0m",
        "\u{1b}[1m\u{1b}[94m2\u{1b}[0m \u{1b}[1m\u{1b}[94m|\u{1b}[0m",
        "\u{1b}[1m\u{1b}[94m3\u{1b}[0m \u{1b}[1m\u{1b}[94m|\u{1b}[0m   b}\"); }",
        "  \u{1b}[1m\u{1b}[94m|\u{1b}[0m   \u{1b}[1m\u{1b}[91m^\u{1b}[0m \u{1b}[1m\u{1b}[91mexpected `}` in format string\u{1b}[0m",
        "  \u{1b}[1m\u{1b}[94m|\u{1b}[0m",
        "  \u{1b}[1m\u{1b}[94m= \u{1b}[0m\u{1b}[1mnote\u{1b}[0m: if you intended to print `{`, you can escape it using `{{`",
    ],
};

/// Dots between two lines with labels.
const DOTS: Row = Row {
    line: 8,
    text_before: "fn f() { format!(",
    literal: "\"{a\n\n\n\n  b}\"",
    text_after: "); }",
    style: None,
    text: "{a\n\n\n\n  b}",
    appended_newline: false,
    lines: &[
        "\u{1b}[1m\u{1b}[91merror\u{1b}[0m\u{1b}[1m: invalid format string: expected `}`, found `b`\u{1b}[0m",
        "  \u{1b}[1m\u{1b}[94m--> \u{1b}[0ma.rs:12:3",
        "   \u{1b}[1m\u{1b}[94m|\u{1b}[0m",
        "\u{1b}[1m\u{1b}[94m 8\u{1b}[0m \u{1b}[1m\u{1b}[94m|\u{1b}[0m fn f() { format!(\"{a",
        "   \u{1b}[1m\u{1b}[94m|\u{1b}[0m                   \u{1b}[1m\u{1b}[94m-\u{1b}[0m \u{1b}[1m\u{1b}[94mbecause of this opening brace\u{1b}[0m",
        "\u{1b}[1m\u{1b}[94m...\u{1b}[0m",
        "\u{1b}[1m\u{1b}[94m12\u{1b}[0m \u{1b}[1m\u{1b}[94m|\u{1b}[0m   b}\"); }",
        "   \u{1b}[1m\u{1b}[94m|\u{1b}[0m   \u{1b}[1m\u{1b}[91m^\u{1b}[0m \u{1b}[1m\u{1b}[91mexpected `}` in format string\u{1b}[0m",
        "   \u{1b}[1m\u{1b}[94m|\u{1b}[0m",
        "   \u{1b}[1m\u{1b}[94m= \u{1b}[0m\u{1b}[1mnote\u{1b}[0m: if you intended to print `{`, you can escape it using `{{`",
    ],
};

/// A line that is cut.
const CUT: Row = Row {
    line: 1,
    text_before: "fn f() {\n                                format!(",
    literal: "\"{a b}\"",
    text_after: ");\n}",
    style: None,
    text: "{a b}",
    appended_newline: false,
    lines: &[
        "\u{1b}[1m\u{1b}[91merror\u{1b}[0m\u{1b}[1m: invalid format string: expected `}`, found `b`\u{1b}[0m",
        " \u{1b}[1m\u{1b}[94m--> \u{1b}[0ma.rs:2:45",
        "  \u{1b}[1m\u{1b}[94m|\u{1b}[0m",
        "\u{1b}[1m\u{1b}[94m2\u{1b}[0m \u{1b}[1m\u{1b}[94m|\u{1b}[0m \u{1b}[1m\u{1b}[94m...\u{1b}[0m                   format!(\"{a b}\");",
        "  \u{1b}[1m\u{1b}[94m|\u{1b}[0m                                \u{1b}[1m\u{1b}[94m-\u{1b}[0m  \u{1b}[1m\u{1b}[91m^\u{1b}[0m \u{1b}[1m\u{1b}[91mexpected `}` in format string\u{1b}[0m",
        "  \u{1b}[1m\u{1b}[94m|\u{1b}[0m                                \u{1b}[1m\u{1b}[94m|\u{1b}[0m",
        "  \u{1b}[1m\u{1b}[94m|\u{1b}[0m                                \u{1b}[1m\u{1b}[94mbecause of this opening brace\u{1b}[0m",
        "  \u{1b}[1m\u{1b}[94m|\u{1b}[0m",
        "  \u{1b}[1m\u{1b}[94m= \u{1b}[0m\u{1b}[1mnote\u{1b}[0m: if you intended to print `{`, you can escape it using `{{`",
    ],
};

/// Labels after wide characters.
const WIDE: Row = Row {
    line: 1,
    text_before: "fn f() { format!(",
    literal: "\"日本 {a!}\"",
    text_after: "); }",
    style: None,
    text: "日本 {a!}",
    appended_newline: false,
    lines: &[
        "\u{1b}[1m\u{1b}[91merror\u{1b}[0m\u{1b}[1m: invalid format string: expected `}`, found `!`\u{1b}[0m",
        " \u{1b}[1m\u{1b}[94m--> \u{1b}[0ma.rs:1:24",
        "  \u{1b}[1m\u{1b}[94m|\u{1b}[0m",
        "\u{1b}[1m\u{1b}[94m1\u{1b}[0m \u{1b}[1m\u{1b}[94m|\u{1b}[0m fn f() { format!(\"日本 {a!}\"); }",
        "  \u{1b}[1m\u{1b}[94m|\u{1b}[0m                        \u{1b}[1m\u{1b}[94m-\u{1b}[0m \u{1b}[1m\u{1b}[91m^\u{1b}[0m \u{1b}[1m\u{1b}[91mexpected `}` in format string\u{1b}[0m",
        "  \u{1b}[1m\u{1b}[94m|\u{1b}[0m                        \u{1b}[1m\u{1b}[94m|\u{1b}[0m",
        "  \u{1b}[1m\u{1b}[94m|\u{1b}[0m                        \u{1b}[1m\u{1b}[94mbecause of this opening brace\u{1b}[0m",
        "  \u{1b}[1m\u{1b}[94m|\u{1b}[0m",
        "  \u{1b}[1m\u{1b}[94m= \u{1b}[0m\u{1b}[1mnote\u{1b}[0m: if you intended to print `{`, you can escape it using `{{`",
    ],
};

/// All rows. Nothing else names the table, since what names it is checked with all of its text.
pub fn coloured_rows() -> &'static [Row] {
    &[
        UNMATCHED,
        AT_THE_END,
        FAR,
        RAW_IDENT,
        RAW_WORD,
        NO_COLON,
        LONG,
        LONG_INDENT,
        LONG_DOTS,
        LONG_CUT,
        NO_NAME,
        FLAG,
        FLAG_X,
        LINE_START,
        FLAG_LINES,
        NEXT_LINE,
        IN_BETWEEN,
        DOTS,
        CUT,
        WIDE,
    ]
}
