//! The table of what is read: an input with its source, and what reading it up to the first call
//! without a piece returns.

use rustc_parse_format::ParseMode;

/// An input, where it comes from, and all that reading it gives.
///
/// The lines are those of the pieces, then those of what the parser shows at the end: whether the
/// snippet is the source literal, the next number, the errors, the places of arguments and the
/// lines (`listing` writes them).
#[derive(Clone, Copy)]
pub struct Row {
    pub mode: ParseMode,
    pub style: Option<usize>,
    pub snippet: Option<&'static str>,
    pub input: &'static str,
    pub lines: &'static str,
}

/// A star takes a number, so the second of its three placeholders takes two.
pub const STAR: Row = Row {
    mode: ParseMode::Format,
    style: None,
    snippet: None,
    input: "{}{:.*}{}",
    lines: "arg implicit 0 2..2\n\
        arg implicit 2 4..4 precision=star:1@5..7\n\
        arg implicit 3 9..9\n\
        source no\n\
        curarg 4\n",
};

/// Text of a source literal that ends no line takes no memory, whatever it is written as.
pub const ESCAPE: Row = Row {
    mode: ParseMode::Format,
    style: None,
    snippet: Some("\"\\u{1F600}{}\""),
    input: "😀{}",
    lines: "lit \"😀\"\n\
        arg implicit 0 11..11\n\
        source yes\n\
        curarg 1\n\
        place 10..12\n\
        line 1..12\n",
};

const ROWS: &[Row] = &[
    Row {
        mode: ParseMode::Format,
        style: None,
        snippet: None,
        input: "{{a}}b{{{}",
        lines: "lit \"{a\"\n\
            lit \"}b\"\n\
            lit \"{\"\n\
            arg implicit 0 10..10\n\
            source no\n\
            curarg 1\n",
    },
    STAR,
    ESCAPE,
    Row {
        mode: ParseMode::Format,
        style: None,
        snippet: None,
        input: "{foo:?#}",
        lines: "arg name foo 2..5 ty=\"?\"\n\
            lit \"#\"\n\
            source no\n\
            curarg 0\n\
            fault 7..8 expected `}`, found `#`\n\
            label expected `'}'`\n\
            suggest reorder 6..8 #?\n\
            fault 7..7 expected `}`, found `#`\n\
            note if you intended to print `{`, you can escape it using `{{`\n\
            label expected `}`\n\
            second 1..2 because of this opening brace\n\
            fault 8..9 unmatched `}` found\n\
            note if you intended to print `}`, you can escape it using `}}`\n\
            label unmatched `}`\n",
    },
    Row {
        mode: ParseMode::Format,
        style: None,
        snippet: None,
        input: "{foo:?#a",
        lines: "arg name foo 2..5 ty=\"?\"\n\
            lit \"#a\"\n\
            source no\n\
            curarg 0\n\
            fault 7..8 expected `}`, found `#`\n\
            label expected `'}'`\n\
            suggest reorder 6..8 #?\n\
            fault 7..7 expected `}`, found `#`\n\
            note if you intended to print `{`, you can escape it using `{{`\n\
            label expected `}`\n\
            second 1..2 because of this opening brace\n",
    },
    Row {
        mode: ParseMode::Format,
        style: None,
        snippet: None,
        input: "{foo.r#bar}",
        lines: "arg name foo 2..5\n\
            source no\n\
            curarg 0\n\
            fault 2..11 field access isn't supported\n\
            note consider moving this expression to a local variable and then using the local here instead\n\
            label not supported\n\
            suggest positional\n\
            fault 6..11 raw identifiers are not supported\n\
            note identifiers in format strings can be keywords and don't need to be prefixed with `r#`\n\
            label raw identifier used here\n\
            suggest raw 6..8\n\
            fault 5..5 expected `}`, found `.`\n\
            note if you intended to print `{`, you can escape it using `{{`\n\
            label expected `}`\n\
            second 1..2 because of this opening brace\n",
    },
    // Each call finds one fault and closes a placeholder, and the first ends a line. The fault of
    // the second comes in front.
    Row {
        mode: ParseMode::Diagnostic,
        style: None,
        snippet: Some("\"{_:x\\ny}{r#a}\""),
        input: "{_:x\ny}{r#a}",
        lines: "arg name _ 2..3 ty=\"x\\ny\"@3..8\n\
            arg name a 10..13\n\
            source yes\n\
            curarg 0\n\
            fault 10..13 raw identifiers are not supported\n\
            note identifiers in format strings can be keywords and don't need to be prefixed with `r#`\n\
            label raw identifier used here\n\
            suggest raw 10..12\n\
            fault 2..3 invalid argument name `_`\n\
            note argument name cannot be a single underscore\n\
            label invalid argument name\n\
            place 1..9\n\
            place 9..14\n\
            line 1..5\n\
            line 7..14\n",
    },
    Row {
        mode: ParseMode::DiagnosticNamed,
        style: None,
        snippet: None,
        input: "{foo.0}",
        lines: "arg name foo 2..5\n\
            source no\n\
            curarg 0\n\
            fault 2..7 tuple index access isn't supported\n\
            note consider moving this expression to a local variable and then using the local here instead\n\
            label not supported\n\
            suggest positional\n\
            fault 5..5 expected `}`, found `.`\n\
            note if you intended to print `{`, you can escape it using `{{`\n\
            label expected `}`\n\
            second 1..2 because of this opening brace\n\
            fault 6..7 expected a named argument\n\
            note only named arguments are allowed here\n\
            label expected a name\n",
    },
    Row {
        mode: ParseMode::Format,
        style: None,
        snippet: Some("\"{foo\\\n  }\""),
        input: "{foo}",
        lines: "arg name foo 2..9\n\
            source yes\n\
            curarg 0\n\
            place 1..10\n\
            line 1..10\n",
    },
    Row {
        mode: ParseMode::Diagnostic,
        style: None,
        snippet: Some("\"{a:x\\ny}\""),
        input: "{a:x\ny}",
        lines: "arg name a 2..3 ty=\"x\\ny\"@3..8\n\
            source yes\n\
            curarg 0\n\
            place 1..9\n\
            line 1..5\n\
            line 7..9\n",
    },
    // Three lines with a placeholder in each, escapes and a continuation.
    Row {
        mode: ParseMode::Format,
        style: None,
        snippet: Some("\"{a}\\n  \\x7bb}x\\\n  \\n{:>5}\""),
        input: "{a}\n  {b}x\n{:>5}",
        lines: "arg name a 2..3\n\
            lit \"\\n  \"\n\
            arg name b 12..13\n\
            lit \"x\\n\"\n\
            arg implicit 0 22..22 align=right width=is:5@24..25\n\
            source yes\n\
            curarg 1\n\
            place 1..4\n\
            place 8..14\n\
            place 21..26\n\
            line 1..4\n\
            line 8..19\n\
            line 21..26\n",
    },
    Row {
        mode: ParseMode::Format,
        style: Some(1),
        snippet: Some("r#\"{a}\"#"),
        input: "{a}",
        lines: "arg name a 4..5\n\
            source yes\n\
            curarg 0\n\
            place 3..6\n\
            line 3..6\n",
    },
];

/// All rows. Nothing else names the table, since what names it is checked with all of its text.
pub fn rows() -> &'static [Row] {
    ROWS
}
