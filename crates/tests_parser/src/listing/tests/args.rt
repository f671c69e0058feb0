//! Worked cases of the program with a list of arguments.
use super::{answer, check_answer, check_words_refused};
use std::alloc::Global;
use std::process::Abort;
use std::test::Fail;

/// Words, an input, its listing, and whether there is a line in it that is of no piece.
#[derive(Clone, Copy)]
struct Row {
    words: &'static [&'static str],
    input: &'static [u8],
    lines: &'static [u8],
    report: bool,
}

/// Each of these rows is so.
fn check_rows(rt: &impl Abort, alloc: Global, rows: &[Row]) -> Result<(), Fail> {
    for row in rows {
        check_answer(rt, alloc, row.words, row.input, Ok(row.report), row.lines)?;
    }
    Ok(())
}

const BEHIND_PIECES: &[Row] = &[
    Row {
        words: &["format", "--args", "2,w,z"],
        input: b"{}{:w$}{q}",
        lines: b"arg implicit 0 2..2\narg implicit 1 4..4 width=name:w@5..6@5..7\narg name q 9..10\nmissing name \"q\"\nunused name \"z\"\n",
        report: true,
    },
    Row {
        words: &["format", "--args", "2"],
        input: b"{2}{}{}{2}",
        lines: b"arg index 2 2..3\narg implicit 0 5..5\narg implicit 1 7..7\narg index 2 9..10\nmissing index 2\n",
        report: true,
    },
    Row {
        words: &["diagnostic-named", "--args", "2"],
        input: b"{a:b}{}",
        lines: b"arg name a 2..3 ty=\"b\"@3..5\narg implicit 0 7..7\nfault 3..5 format specifiers are not allowed\nfault 7..7 expected a named argument\nmissing name \"a\"\nunused index 1\n",
        report: true,
    },
    Row {
        words: &["asm", "--args", "2,a,b,a"],
        input: b"",
        lines: b"unused index 0\nunused index 1\nunused name \"a\"\nunused name \"b\"\n",
        report: true,
    },
    Row {
        words: &["format", "--args", "00004,a b"],
        input: b"{a}",
        lines: b"arg name a 2..3\nmissing name \"a\"\nunused index 0\nunused index 1\nunused index 2\nunused index 3\nunused name \"a b\"\n",
        report: true,
    },
    Row {
        words: &["diagnostic", "--args", "0,e"],
        input: b"{e:}",
        lines: b"arg name e 2..3 ty=\"\"@3..4\n",
        report: false,
    },
    Row {
        words: &["format", "--args", "1,rr"],
        input: b"{rr}{}",
        lines: b"arg name rr 2..4\narg implicit 0 6..6\n",
        report: false,
    },
    Row {
        words: &["format", "--args", "0"],
        input: b"",
        lines: b"",
        report: false,
    },
];

#[test]
fn lists_the_report_after_the_pieces(rt: HostRuntime) -> Result<(), Fail> {
    check_rows(&rt, rt.alloc(), BEHIND_PIECES)
}

const BEHIND_FAULTS: &[Row] = &[
    Row {
        words: &["format", "--args", "1"],
        input: b"{foo.}{}",
        lines: b"arg name foo 2..5\narg implicit 1 8..8\nfault 5..5 expected `}`, found `.`\nmissing index 1\nmissing name \"foo\"\nunused index 0\n",
        report: true,
    },
    Row {
        words: &["format", "--args", "1"],
        input: b"{00.*}",
        lines: b"arg index 0 2..4\nlit \".*\"\nfault 4..4 expected `}`, found `.`\nfault 6..7 unmatched `}` found\n",
        report: true,
    },
];

#[test]
fn lists_the_report_after_the_faults(rt: HostRuntime) -> Result<(), Fail> {
    check_rows(&rt, rt.alloc(), BEHIND_FAULTS)
}

const ON_A_LITERAL: &[Row] = &[
    Row {
        words: &["format", "--literal", "--args", "03"],
        input: b"\"\"",
        lines: b"unused index 0\nunused index 1\nunused index 2\n",
        report: true,
    },
    Row {
        words: &["format", "--literal", "--args", "3,\u{5b57}\u{540d},a,self"],
        input: b"\"\\x7B9\"",
        lines: b"arg index 9 5..6\nfault 6..6 expected `}` but string was terminated\nmissing index 9\n\
                unused index 0\nunused index 1\nunused index 2\nunused name \"\xE5\xAD\x97\xE5\x90\x8D\"\nunused name \"a\"\nunused name \"self\"\n",
        report: true,
    },
];

#[test]
fn lists_the_report_on_a_literal(rt: HostRuntime) -> Result<(), Fail> {
    check_rows(&rt, rt.alloc(), ON_A_LITERAL)
}

const NO_LISTS: &[&str] = &[
    "", ",a", "2,", "2,,a", "2,a,", "65536", "123456", "000000", "+1", "-1", "1 ", "a", "1;a",
    "\u{0663}",
];

#[test]
fn refuses_what_is_no_list(rt: HostRuntime) -> Result<(), Fail> {
    for list in NO_LISTS {
        let rows: [&[&str]; 2] = [
            &["format", "--args", list],
            &["format", "--literal", "--args", list],
        ];
        check_words_refused(&rt, rt.alloc(), &rows)?;
    }
    Ok(())
}

const IN_ANOTHER_ORDER: &[&[&str]] = &[
    &["format", "--args"],
    &["format", "--literal", "--args"],
    &["format", "--args", "1", "--literal"],
    &["--args", "1", "format"],
    &["format", "1"],
    &["format", "--args", "1", "a"],
    &["format", "--literal", "--args", "1", "a"],
    &["form", "--args", "1"],
];

#[test]
fn refuses_words_in_another_order(rt: HostRuntime) -> Result<(), Fail> {
    check_words_refused(&rt, rt.alloc(), IN_ANOTHER_ORDER)
}

#[test]
fn takes_the_greatest_number(rt: HostRuntime) -> Result<(), Fail> {
    let words = ["format", "--args", "65535"];
    let mut reader: &[u8] = b"{65535}";
    let mut written = Vec::new(rt.alloc());
    let answer = answer(rt.alloc(), &words, &mut reader, &mut written)?;
    assert_eq!(rt; answer, Ok(true));
    let text = written.as_slice();
    let front = b"arg index 65535 2..7\nmissing index 65535\nunused index 0\nunused index 1\n";
    let back = b"unused index 65533\nunused index 65534\n";
    assert!(rt; text.starts_with(front));
    assert!(rt; text.ends_with(back));
    Ok(())
}
