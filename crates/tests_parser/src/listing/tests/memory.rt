//! The program when an allocation fails: nothing is written, and the next call over the same input
//! writes the whole listing.
//!
//! Each test passes whether or not an allocation fails. If the call returns an allocation failure,
//! the test prints a line `refused`. `.ci/refusals` runs the test with its first allocation
//! failing, then with its second, and so on.

use super::fakes::Sheet;
use super::words;
use piece_listing::run::run;
use piece_listing::verdict::{RunFault, verdict};
use std::alloc::Global;
use std::io::Print;
use std::process::Abort;
use std::test::Fail;

/// The words and the input of the program, its listing, and whether a line of it is of no piece.
#[derive(Clone, Copy)]
struct Row {
    words: &'static [&'static str],
    input: &'static [u8],
    lines: &'static [&'static str],
    report: bool,
}

const ROWS: &[Row] = &[
    Row {
        words: &["format"],
        input: b"hi {name}{}",
        lines: &["lit \"hi \"", "arg name name 5..9", "arg implicit 0 11..11"],
        report: false,
    },
    Row {
        words: &["format"],
        input: b"{r#a}{",
        lines: &[
            "arg name a 2..5",
            "arg implicit 0 6..6",
            "fault 2..5 raw identifiers are not supported",
            "fault 6..6 expected `}` but string was terminated",
        ],
        report: true,
    },
    Row {
        words: &["format"],
        input: b"{{a}}b{{{}",
        lines: &[
            "lit \"{a\"",
            "lit \"}b\"",
            "lit \"{\"",
            "arg implicit 0 10..10",
        ],
        report: false,
    },
    Row {
        words: &["format"],
        input: b"{}{:.*}{}",
        lines: &[
            "arg implicit 0 2..2",
            "arg implicit 2 4..4 precision=star:1@5..7",
            "arg implicit 3 9..9",
        ],
        report: false,
    },
    Row {
        words: &["format"],
        input: b"{foo:?#}",
        lines: &[
            "arg name foo 2..5 ty=\"?\"",
            "lit \"#\"",
            "fault 7..8 expected `}`, found `#`",
            "fault 7..7 expected `}`, found `#`",
            "fault 8..9 unmatched `}` found",
        ],
        report: true,
    },
    Row {
        words: &["format"],
        input: b"{foo.r#bar}",
        lines: &[
            "arg name foo 2..5",
            "fault 2..11 field access isn't supported",
            "fault 6..11 raw identifiers are not supported",
            "fault 5..5 expected `}`, found `.`",
        ],
        report: true,
    },
    Row {
        words: &["diagnostic-named"],
        input: b"{foo.0}",
        lines: &[
            "arg name foo 2..5",
            "fault 2..7 tuple index access isn't supported",
            "fault 5..5 expected `}`, found `.`",
            "fault 6..7 expected a named argument",
        ],
        report: true,
    },
    Row {
        words: &["format", "--args", "1,y"],
        input: b"{:.*}{x:x$.y$}",
        lines: &[
            "arg implicit 1 2..2 precision=star:0@3..5",
            "arg name x 7..8 width=name:x@9..10@9..11 precision=name:y@12..13@11..14",
            "missing index 1",
            "missing name \"x\"",
        ],
        report: true,
    },
    Row {
        words: &["format", "--literal"],
        input: b"\"{foo\\\n  }\"",
        lines: &["arg name foo 2..9"],
        report: false,
    },
    Row {
        words: &["diagnostic", "--literal"],
        input: b"\"{a:x\\ny}\"",
        lines: &["arg name a 2..3 ty=\"x\\ny\"@3..8"],
        report: false,
    },
];

/// The words of a row, made once more where that is refused memory.
fn words_again(rt: &impl Print, alloc: Global, row: Row) -> Result<Vec<String>, Fail> {
    if let Ok(words) = words(alloc, row.words) {
        return Ok(words);
    }
    println!(rt; "refused")?;
    Ok(words(alloc, row.words)?)
}

/// Nothing was written where memory was refused.
fn check_refused(rt: &impl Abort, answer: &Result<bool, RunFault>, sheet: &Sheet) {
    assert_eq!(rt; *answer, Err(RunFault::Memory));
    let verdict = verdict(answer);
    assert_eq!(rt; verdict.message, "formatread: out of memory");
    assert_eq!(rt; verdict.status, 3);
    assert!(rt; sheet.text().is_empty());
}

/// Exactly these lines are listed.
fn is_listed(text: &[u8], lines: &[&str]) -> bool {
    let mut rest = str::from_utf8(text).unwrap_or("");
    for line in lines {
        match rest
            .strip_prefix(*line)
            .and_then(|rest| rest.strip_prefix('\n'))
        {
            Some(rest_after) => rest = rest_after,
            None => return false,
        }
    }
    rest.is_empty()
}

/// The run of the program on a row, and once more where it is refused memory.
fn check_row(rt: &(impl Abort + Print), alloc: Global, row: Row) -> Result<(), Fail> {
    let words = words_again(rt, alloc, row)?;
    let mut reader = row.input;
    let mut sheet = Sheet::new();
    let mut answer = run(alloc, &mut reader, &mut sheet, words.as_slice());
    if answer.is_err() {
        println!(rt; "refused")?;
        check_refused(rt, &answer, &sheet);
        reader = row.input;
        answer = run(alloc, &mut reader, &mut sheet, words.as_slice());
    }
    assert_eq!(rt; answer, Ok(row.report));
    assert!(rt; is_listed(sheet.text(), row.lines));
    assert!(rt; reader.is_empty());
    Ok(())
}

#[test]
fn run_out_of_memory_writes_nothing(rt: HostRuntime) -> Result<(), Fail> {
    for row in ROWS {
        check_row(&rt, rt.alloc(), *row)?;
    }
    Ok(())
}
