//! Runs of the program: its command-line arguments and its input, with its standard output, its
//! error message and its exit status.
use super::{AS_LITERAL, USAGE, answer};
use piece_listing::verdict::{RunFault, verdict};
use std::alloc::Global;
use std::process::Abort;
use std::test::Fail;

/// The standard output, the standard error, and the status.
type Answer<'a> = (&'a [u8], &'a str, u8);

/// This was written, and the verdict on the answer itself says so.
fn check_verdict(
    rt: &impl Abort,
    answer: &Result<bool, RunFault>,
    written: &[u8],
    wanted: Answer<'_>,
) {
    let verdict = verdict(answer);
    assert_eq!(rt; (written, verdict.message, verdict.status), wanted);
}

/// A run with these words on this input gives the answer.
fn check_run(
    rt: &impl Abort,
    alloc: Global,
    words: &[&str],
    input: &[u8],
    wanted: Answer<'_>,
) -> Result<(), Fail> {
    let mut reader = input;
    let mut written = Vec::new(alloc);
    let answer = answer(alloc, words, &mut reader, &mut written)?;
    check_verdict(rt, &answer, written.as_slice(), wanted);
    Ok(())
}

/// Words and an input, and the answer.
const RUNS: &[(&[&str], &[u8], Answer<'static>)] = &[
    (
        &["format"],
        b"{:*>8.w$x?}",
        (
            b"arg implicit 0 2..2 fill=\"*\"@3..4 align=right width=is:8@5..6 precision=name:w@7..8@6..9 hex=lower ty=\"?\"\n",
            "",
            0,
        ),
    ),
    (
        AS_LITERAL,
        b"\"a\\n{0:?#}\"",
        (
            b"lit \"a\\n\"\narg index 0 5..6 ty=\"?\"\nlit \"#\"\nfault 8..9 expected `}`, found `#`\nfault 8..8 expected `}`, found `#`\nfault 9..10 unmatched `}` found\n",
            "",
            1,
        ),
    ),
    (AS_LITERAL, b"\"a", NO_LITERAL),
    (AS_LITERAL, b"\"a\"\n\n", NO_LITERAL),
    (AS_LITERAL, b"\"a\"\n", (b"lit \"a\"\n", "", 0)),
    (&["asm"], b"", (b"", "", 0)),
    (&[], b"", (b"", USAGE, 2)),
    (
        &["format", "--args", "2,w,z"],
        b"{}{:w$}{q}",
        (
            b"arg implicit 0 2..2\narg implicit 1 4..4 width=name:w@5..6@5..7\narg name q 9..10\nmissing name \"q\"\nunused name \"z\"\n",
            "",
            1,
        ),
    ),
];

const NO_LITERAL: Answer<'static> = (b"", "formatread: input is not a string literal", 2);

#[test]
fn gives_each_run(rt: HostRuntime) -> Result<(), Fail> {
    for (words, input, wanted) in RUNS {
        check_run(&rt, rt.alloc(), words, input, *wanted)?;
    }
    Ok(())
}
