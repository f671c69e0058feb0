//! The output for an input.

use format_lint::run::run;
use format_lint::task::{OutputKind, Task};
use format_lint::verdict::verdict;
use piece_listing::verdict::RunFault;
use rustc_parse_format::ParseMode;
use std::alloc::Global;
use std::process::Abort;
use std::test::Fail;

/// A task, an input, its output and error output, and how many mistakes are left.
#[derive(Clone, Copy)]
pub struct Row {
    pub mode: ParseMode,
    pub is_literal: bool,
    pub output_kind: OutputKind,
    pub colours: bool,
    pub input: &'static [u8],
    pub output: &'static str,
    pub error_output: &'static str,
    pub report: usize,
}

impl Row {
    /// Returns the task.
    pub fn task(&self) -> Task<'static> {
        Task {
            mode: self.mode,
            is_literal: self.is_literal,
            path: "a",
            output_kind: self.output_kind,
            width: 140,
            colours: self.colours,
        }
    }
}

/// All faults of a text.
const ALL: Task<'static> = Task {
    mode: ParseMode::Format,
    is_literal: false,
    path: "a",
    output_kind: OutputKind::All,
    width: 140,
    colours: false,
};

/// This is shown of a row.
fn check(rt: &impl Abort, alloc: Global, row: &Row) -> Result<(), Fail> {
    let mut reader = row.input;
    let mut written = Vec::new(alloc);
    let mut drawn = Vec::new(alloc);
    let answer = run(alloc, &mut reader, &mut written, &mut drawn, row.task());
    assert_eq!(rt; answer, Ok(row.report));
    assert_eq!(rt; written.as_slice(), row.output.as_bytes());
    assert_eq!(rt; drawn.as_slice(), row.error_output.as_bytes());
    Ok(())
}

/// Each kind but those that come with a fault, and those of other modes.
const LISTED: Row = Row {
    mode: ParseMode::Format,
    is_literal: true,
    output_kind: OutputKind::Tokens,
    colours: false,
    input: b"\"hi {a :*>+#01$.*x? }{{b\"\n",
    output: "quote 0..1 \"\\\"\"\n\
        text 1..4 \"hi \"\n\
        open 4..5 \"{\"\n\
        identifier 5..6 \"a\"\n\
        whitespace 6..7 \" \"\n\
        colon 7..8 \":\"\n\
        fill 8..9 \"*\"\n\
        align 9..10 \">\"\n\
        sign 10..11 \"+\"\n\
        number-sign 11..12 \"#\"\n\
        zero 12..13 \"0\"\n\
        integer 13..14 \"1\"\n\
        dollar-sign 14..15 \"$\"\n\
        dot 15..16 \".\"\n\
        asterisk 16..17 \"*\"\n\
        type 17..19 \"x?\"\n\
        whitespace 19..20 \" \"\n\
        close 20..21 \"}\"\n\
        escape 21..23 \"{{\"\n\
        text 23..24 \"b\"\n\
        quote 24..25 \"\\\"\"\n",
    error_output: "",
    report: 0,
};

/// The same in colours.
const COLOURED: Row = Row {
    mode: ParseMode::Format,
    is_literal: true,
    output_kind: OutputKind::Tokens,
    colours: true,
    input: b"\"hi {a :*>+#01$.*x? }{{b\"\n",
    output: "\"hi \u{1b}[35m{\u{1b}[0m\u{1b}[36ma\u{1b}[0m \u{1b}[35m:\u{1b}[0m\u{1b}[33m*\u{1b}[0m\
        \u{1b}[33m>\u{1b}[0m\u{1b}[33m+\u{1b}[0m\u{1b}[33m#\u{1b}[0m\u{1b}[33m0\u{1b}[0m\
        \u{1b}[36m1\u{1b}[0m\u{1b}[35m$\u{1b}[0m\u{1b}[35m.\u{1b}[0m\u{1b}[36m*\u{1b}[0m\
        \u{1b}[32mx?\u{1b}[0m \u{1b}[35m}\u{1b}[0m\u{1b}[34m{{\u{1b}[0mb\"\n",
    error_output: "",
    report: 0,
};

/// The kinds of other modes.
const MODIFIER: Row = Row {
    mode: ParseMode::InlineAsm,
    is_literal: false,
    output_kind: OutputKind::Tokens,
    colours: false,
    input: b"{0:e}",
    output: "open 0..1 \"{\"\ninteger 1..2 \"0\"\ncolon 2..3 \":\"\nmodifier 3..4 \"e\"\n\
        close 4..5 \"}\"\n",
    error_output: "",
    report: 0,
};

const DIAGNOSTIC: Row = Row {
    mode: ParseMode::Diagnostic,
    is_literal: false,
    output_kind: OutputKind::Tokens,
    colours: true,
    input: b"{T:a }",
    output: "\u{1b}[35m{\u{1b}[0m\u{1b}[36mT\u{1b}[0m\u{1b}[35m:\u{1b}[0ma \u{1b}[35m}\u{1b}[0m\n",
    error_output: "",
    report: 0,
};

/// The characters that a terminal obeys are drawn as in a line of the source: a control character,
/// one that changes the direction of text, and a tab, which is quoted in a line of its own.
const OBEYED: Row = Row {
    mode: ParseMode::Format,
    is_literal: false,
    output_kind: OutputKind::Tokens,
    colours: false,
    input: b"a\xc2\x9b\xe2\x80\xae\tb",
    output: "text 0..8 \"a\u{fffd}\u{fffd}\\tb\"\n",
    error_output: "",
    report: 0,
};

const OBEYED_COLOURED: Row = Row {
    colours: true,
    output: "a\u{fffd}\u{fffd}    b\n",
    ..OBEYED
};

/// The literal is to be read again, and is written as it is.
const OBEYED_FIXED: Row = Row {
    is_literal: true,
    output_kind: OutputKind::Fix,
    input: b"\"\xc2\x9b\t{r#a}\"",
    output: "\"\u{9b}\t{a}\"\n",
    ..OBEYED
};

/// The kinds that come with a fault.
pub const RAW_PREFIX: Row = Row {
    mode: ParseMode::Format,
    is_literal: true,
    output_kind: OutputKind::Tokens,
    colours: false,
    input: b"\"\\x7br#a}\"",
    output: "quote 0..1 \"\\\"\"\n\
        open 1..5 \"\\\\x7b\"\n\
        raw-prefix 5..7 \"r#\"\n\
        identifier 7..8 \"a\"\n\
        close 8..9 \"}\"\n\
        quote 9..10 \"\\\"\"\n",
    error_output: "error: invalid format string: raw identifiers are not supported\n --> a:1:6\n  |\n\
        1 | \"\\x7br#a}\"\n  |      --^\n  |      |\n\
        \x20 |      raw identifier used here in format string\n  |      help: remove the `r#`\n\
        \x20 |\n  = note: identifiers in format strings can be keywords and don't need to be \
        prefixed with `r#`\n\n",
    report: 1,
};

pub const UNEXPECTED: Row = Row {
    mode: ParseMode::Format,
    is_literal: false,
    output_kind: OutputKind::Tokens,
    colours: true,
    input: b"\xe6\x97\xa5}",
    output: "\u{65e5}\u{1b}[31m}\u{1b}[0m\n",
    error_output: "\u{1b}[1m\u{1b}[91merror\u{1b}[0m\u{1b}[1m: invalid format string: unmatched `}` found\
        \u{1b}[0m\n \u{1b}[1m\u{1b}[94m--> \u{1b}[0ma:1:2\n  \u{1b}[1m\u{1b}[94m|\u{1b}[0m\n\
        \u{1b}[1m\u{1b}[94m1\u{1b}[0m \u{1b}[1m\u{1b}[94m|\u{1b}[0m \u{65e5}}\n\
        \x20 \u{1b}[1m\u{1b}[94m|\u{1b}[0m   \u{1b}[1m\u{1b}[91m^\u{1b}[0m \
        \u{1b}[1m\u{1b}[91munmatched `}` in format string\u{1b}[0m\n\
        \x20 \u{1b}[1m\u{1b}[94m|\u{1b}[0m\n  \u{1b}[1m\u{1b}[94m= \u{1b}[0m\u{1b}[1mnote\
        \u{1b}[0m: if you intended to print `}`, you can escape it using `}}`\n\n",
    report: 1,
};

/// A literal with its suggestion.
pub const FIXED: Row = Row {
    mode: ParseMode::Format,
    is_literal: true,
    output_kind: OutputKind::Fix,
    colours: false,
    input: b"\"\\x7br#a}\"",
    output: "\"\\x7ba}\"\n",
    error_output: "",
    report: 0,
};

/// The first call that finds a fault counts, as rustc 1.95 shows it, even where the error of a
/// later call comes first in the list of a parser.
const FIRST: Row = Row {
    mode: ParseMode::Format,
    is_literal: true,
    output_kind: OutputKind::Fault,
    colours: false,
    input: b"\"} {r#a}\"",
    output: "error: invalid format string: unmatched `}` found\n --> a:1:2\n  |\n\
        1 | \"} {r#a}\"\n  |  ^ unmatched `}` in format string\n  |\n\
        \x20 = note: if you intended to print `}`, you can escape it using `}}`\n\n",
    error_output: "",
    report: 2,
};

/// The fault that rustc 1.95 shows of two in a call.
const ONE_OF_TWO: Row = Row {
    mode: ParseMode::Format,
    is_literal: true,
    output_kind: OutputKind::Fault,
    colours: false,
    input: b"\"{a<>\"",
    output: "error: invalid format string: expected alignment specifier after `:` in format \
        string; example: `{:>?}`\n --> a:1:4\n  |\n\
        1 | \"{a<>\"\n  |    ^ expected `<` to occur after `:` in format string\n\n",
    error_output: "",
    report: 1,
};

/// The same with the fault that the parser finds after that, and their ids.
pub const BOTH: Row = Row {
    mode: ParseMode::Format,
    is_literal: true,
    output_kind: OutputKind::All,
    colours: false,
    input: b"\"{a<>\"",
    output: "fault: alignment-before-colon\n\
        error: invalid format string: expected alignment specifier after `:` in format \
        string; example: `{:>?}`\n --> a:1:4\n  |\n\
        1 | \"{a<>\"\n  |    ^ expected `<` to occur after `:` in format string\n\n\
        follows: missing-closing-brace\n\
        error: invalid format string: expected `}`, found `<`\n --> a:1:4\n  |\n\
        1 | \"{a<>\"\n  |  - ^ expected `}` in format string\n  |  |\n\
        \x20 |  because of this opening brace\n  |\n\
        \x20 = note: if you intended to print `{`, you can escape it using `{{`\n\n",
    error_output: "",
    report: 1,
};

/// The first lone brace is the one that the placeholder waits for, the second a mistake of its own.
const WAITING: Row = Row {
    mode: ParseMode::Format,
    is_literal: true,
    output_kind: OutputKind::All,
    colours: false,
    input: b"\"{a!}{} }\"",
    output: "fault: missing-closing-brace\n\
        error: invalid format string: expected `}`, found `!`\n --> a:1:4\n  |\n\
        1 | \"{a!}{} }\"\n  |  - ^ expected `}` in format string\n  |  |\n\
        \x20 |  because of this opening brace\n  |\n\
        \x20 = note: if you intended to print `{`, you can escape it using `{{`\n\n\
        follows: unmatched-closing-brace\n\
        error: invalid format string: unmatched `}` found\n --> a:1:5\n  |\n\
        1 | \"{a!}{} }\"\n  |     ^ unmatched `}` in format string\n  |\n\
        \x20 = note: if you intended to print `}`, you can escape it using `}}`\n\n\
        fault: unmatched-closing-brace\n\
        error: invalid format string: unmatched `}` found\n --> a:1:9\n  |\n\
        1 | \"{a!}{} }\"\n  |         ^ unmatched `}` in format string\n  |\n\
        \x20 = note: if you intended to print `}`, you can escape it using `}}`\n\n",
    error_output: "",
    report: 2,
};

/// The suggestion of the raw identifier is applied; then the other fault is shown, as rustc 1.95
/// shows it.
const ALL_FIXED: Row = Row {
    mode: ParseMode::Format,
    is_literal: true,
    output_kind: OutputKind::Fix,
    colours: false,
    input: b"\"{r#a} {b.c}\"",
    output: "\"{a} {b.c}\"\n",
    error_output: "error: invalid format string: field access isn't supported\n --> a:1:7\n  |\n\
        1 | \"{a} {b.c}\"\n  |       ^^^ not supported in format string\n  |\n\
        \x20 = note: consider moving this expression to a local variable and then using the \
        local here instead\n\n",
    report: 1,
};

/// The first of two faults, as rustc 1.95 shows it. A template of assembly has no suggestions.
const ASSEMBLY: Row = Row {
    mode: ParseMode::InlineAsm,
    is_literal: true,
    output_kind: OutputKind::Fix,
    colours: false,
    input: b"\"mov {r#a} }\"",
    output: "\"mov {r#a} }\"\n",
    error_output: "error: invalid asm template string: raw identifiers are not supported\n --> a:1:7\n  |\n\
        1 | \"mov {r#a} }\"\n\
        \x20 |       ^^^ raw identifier used here in asm template string\n  |\n\
        \x20 = note: identifiers in format strings can be keywords and don't need to be \
        prefixed with `r#`\n\n",
    report: 2,
};

#[test]
fn shows_what_the_compiler_shows(rt: HostRuntime) -> Result<(), Fail> {
    for row in [&FIRST, &ONE_OF_TWO, &BOTH, &WAITING, &ALL_FIXED, &ASSEMBLY] {
        check(&rt, rt.alloc(), row)?;
    }
    Ok(())
}

#[test]
fn shows_each_kind_of_token(rt: HostRuntime) -> Result<(), Fail> {
    let rows = [
        LISTED,
        COLOURED,
        MODIFIER,
        DIAGNOSTIC,
        OBEYED,
        OBEYED_COLOURED,
        OBEYED_FIXED,
        RAW_PREFIX,
        UNEXPECTED,
        FIXED,
    ];
    for row in &rows {
        check(&rt, rt.alloc(), row)?;
    }
    Ok(())
}

/// All faults of a text are shown with this end, and it has so many mistakes.
fn check_end(
    rt: &impl Abort,
    alloc: Global,
    input: &[u8],
    end: &[u8],
    mistakes: usize,
) -> Result<(), Fail> {
    let mut reader = input;
    let mut written = Vec::new(alloc);
    let mut drawn = Vec::new(alloc);
    let answer = run(alloc, &mut reader, &mut written, &mut drawn, ALL);
    assert_eq!(rt; answer, Ok(mistakes));
    assert!(rt; drawn.as_slice().is_empty());
    assert!(rt; written.as_slice().ends_with(end));
    Ok(())
}

/// Twelve faults of as many calls, and two faults of each of eleven.
#[test]
fn draws_ten_faults(rt: HostRuntime) -> Result<(), Fail> {
    let braces = b"}a}a}a}a}a}a}a}a}a}a}a}a";
    check_end(&rt, rt.alloc(), braces, b"\n\nand 2 more\n", 12)?;
    let signs = b"{a<>{a<>{a<>{a<>{a<>{a<>{a<>{a<>{a<>{a<>{a<>";
    check_end(&rt, rt.alloc(), signs, b"\n\nand 12 more\n", 11)
}

/// Nothing is shown of this input.
fn check_refused(
    rt: &impl Abort,
    alloc: Global,
    input: &[u8],
    fault: RunFault,
) -> Result<(), Fail> {
    let mut reader = input;
    let mut written = Vec::new(alloc);
    let mut drawn = Vec::new(alloc);
    let answer = run(alloc, &mut reader, &mut written, &mut drawn, LISTED.task());
    assert_eq!(rt; answer, Err(fault));
    assert!(rt; written.as_slice().is_empty() && drawn.as_slice().is_empty());
    Ok(())
}

#[test]
fn refuses_other_inputs(rt: HostRuntime) -> Result<(), Fail> {
    check_refused(&rt, rt.alloc(), b"\"a", RunFault::NotLiteral)?;
    check_refused(&rt, rt.alloc(), b"\"\xff\"", RunFault::NotText)?;
    let long = vec![in rt.alloc(); b'a'; 1_048_577]?;
    check_refused(&rt, rt.alloc(), long.as_slice(), RunFault::TooLong)
}

/// Each answer, with its number of faults and the status.
const ANSWERS: &[(Result<usize, RunFault>, &str, u8)] = &[
    (Ok(0), "", 0),
    (Ok(1), "", 1),
    (Ok(2), "", 1),
    (Err(RunFault::Words), "formatlint: invalid arguments", 2),
    (
        Err(RunFault::NotLiteral),
        "formatlint: input is not a string literal",
        2,
    ),
    (Err(RunFault::Read), "formatlint: reading failed", 3),
    (
        Err(RunFault::TooLong),
        "formatlint: input is longer than 1048576 bytes",
        3,
    ),
    (Err(RunFault::NotText), "formatlint: input is not UTF-8", 3),
    (Err(RunFault::Memory), "formatlint: out of memory", 3),
    (Err(RunFault::Write), "formatlint: writing failed", 3),
];

#[test]
fn gives_each_answer(rt: HostRuntime) {
    for (answer, message, status) in ANSWERS {
        let verdict = verdict(answer);
        assert_eq!(rt; (verdict.message, verdict.status), (*message, *status));
    }
}
