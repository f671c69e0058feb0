//! Tests of invalid command-line arguments, of readers and writers that fail, and of listings as
//! JSON.
mod args;
mod fakes;
mod json;
mod listings;
mod memory;
mod programs;
mod spans;
mod streams;

use fakes::{Endless, Faltering, Sheet, Stuck, Stumbling};
use piece_listing::run::run;
use piece_listing::verdict::{RunFault, verdict};
use std::alloc::{AllocError, Global};
use std::io::{Read, Write};
use std::process::Abort;
use std::test::Fail;

/// An input of text, an argument with a name and one without.
const HI: &[u8] = b"hi {name}{}";

/// The listing for it.
const HI_LINES: &[u8] = b"lit \"hi \"\narg name name 5..9\narg implicit 0 11..11\n";

/// How many bytes an input may have.
const LIMIT: usize = 1_048_576;

/// Words as the program has them.
fn words(alloc: Global, list: &[&str]) -> Result<Vec<String>, AllocError> {
    let mut words = Vec::new(alloc);
    for word in list {
        words.push(String::from_str(alloc, word)?)?;
    }
    Ok(words)
}

/// So many copies of a byte.
fn repeated(alloc: Global, byte: u8, count: usize) -> Result<Vec<u8>, AllocError> {
    vec![in alloc; byte; count]
}

/// The answer of the program for these words.
fn answer<R: Read, W: Write>(
    alloc: Global,
    list: &[&str],
    reader: &mut R,
    writer: &mut W,
) -> Result<Result<bool, RunFault>, AllocError> {
    let words = words(alloc, list)?;
    Ok(run(alloc, reader, writer, words.as_slice()))
}

/// So many bytes of an input may be left: none of one that is listed, and all where the words are
/// refused.
fn may_be_left(answer: &Result<bool, RunFault>, input: &[u8], left: usize) -> bool {
    match answer {
        Ok(_) => left == 0,
        Err(RunFault::Words) => left == input.len(),
        Err(_) => true,
    }
}

/// This is answered and written.
fn check_report(
    rt: &impl Abort,
    answer: Result<bool, RunFault>,
    wanted: Result<bool, RunFault>,
    written: &[u8],
    lines: &[u8],
) {
    assert_eq!(rt; answer, wanted);
    assert_eq!(rt; written, lines);
}

/// For words and an input this is answered and written.
fn check_answer(
    rt: &impl Abort,
    alloc: Global,
    words: &[&str],
    input: &[u8],
    wanted: Result<bool, RunFault>,
    lines: &[u8],
) -> Result<(), Fail> {
    let mut reader = input;
    let mut written = Vec::new(alloc);
    let answer = answer(alloc, words, &mut reader, &mut written)?;
    check_report(rt, answer, wanted, written.as_slice(), lines);
    assert!(rt; may_be_left(&answer, input, reader.len()));
    Ok(())
}

/// An input, what is listed for it, and whether a line of that is of no piece.
type Listing<'a> = (&'a [u8], &'a [u8], bool);

/// Each of these inputs is listed so.
fn check_listings(
    rt: &impl Abort,
    alloc: Global,
    words: &[&str],
    rows: &[Listing<'_>],
) -> Result<(), Fail> {
    for (input, lines, report) in rows {
        check_answer(rt, alloc, words, input, Ok(*report), lines)?;
    }
    Ok(())
}

/// This input is refused, and then nothing is written.
fn check_refused(
    rt: &impl Abort,
    alloc: Global,
    words: &[&str],
    input: &[u8],
    fault: RunFault,
) -> Result<(), Fail> {
    check_answer(rt, alloc, words, input, Err(fault), b"")
}

/// Each of these inputs is refused for the same.
fn check_inputs_refused(
    rt: &impl Abort,
    alloc: Global,
    words: &[&str],
    inputs: &[&[u8]],
    fault: RunFault,
) -> Result<(), Fail> {
    for input in inputs {
        check_refused(rt, alloc, words, input, fault)?;
    }
    Ok(())
}

/// Each of these words is refused, and nothing is read.
fn check_words_refused(rt: &impl Abort, alloc: Global, rows: &[&[&str]]) -> Result<(), Fail> {
    for words in rows {
        check_refused(rt, alloc, words, HI, RunFault::Words)?;
    }
    Ok(())
}

const AS_LITERAL: &[&str] = &["format", "--literal"];

const NO_LITERALS: &[&[u8]] = &[
    b"\"a\"\n\n",
    b"\"a",
    b"\"a\"\r\n",
    b"",
    b"\"\\q\"",
    b"r#\"a\"",
    b"b\"a\"",
];

#[test]
fn refuses_what_is_no_literal(rt: HostRuntime) -> Result<(), Fail> {
    let fault = RunFault::NotLiteral;
    check_inputs_refused(&rt, rt.alloc(), AS_LITERAL, NO_LITERALS, fault)?;
    check_refused(&rt, rt.alloc(), AS_LITERAL, b"\xFF", RunFault::NotText)
}

#[test]
fn lists_the_longest_input(rt: HostRuntime) -> Result<(), Fail> {
    let input = repeated(rt.alloc(), b'a', LIMIT)?;
    let mut lines = Vec::from_slice(rt.alloc(), b"lit \"")?;
    lines.extend_from_slice(input.as_slice())?;
    lines.extend_from_slice(b"\"\n")?;
    let rows = [(input.as_slice(), lines.as_slice(), false)];
    check_listings(&rt, rt.alloc(), &["format"], &rows)
}

#[test]
fn refuses_what_is_too_long_or_no_text(rt: HostRuntime) -> Result<(), Fail> {
    let long = repeated(rt.alloc(), b'a', LIMIT + 1)?;
    check_refused(
        &rt,
        rt.alloc(),
        &["format"],
        long.as_slice(),
        RunFault::TooLong,
    )?;
    check_refused(&rt, rt.alloc(), &["format"], b"\xFF", RunFault::NotText)
}

const OTHER_WORDS: &[&[&str]] = &[
    &[],
    &["format", "format"],
    &["--literal"],
    &["--literal", "format"],
    &["format", "--literal", "--literal"],
    &["asm", "diagnostic"],
    &["Format"],
    &["formats"],
    &["diagnostic-name"],
    &["diagnosticnamed"],
];

#[test]
fn refuses_other_words_unread(rt: HostRuntime) -> Result<(), Fail> {
    check_words_refused(&rt, rt.alloc(), OTHER_WORDS)
}

/// Of a reader, whose bytes are a text of the mode `format`, this is answered and written.
fn check_reader<R: Read>(
    rt: &impl Abort,
    alloc: Global,
    reader: &mut R,
    wanted: Result<bool, RunFault>,
    lines: &[u8],
) -> Result<(), Fail> {
    let mut sheet = Sheet::new();
    let answer = answer(alloc, &["format"], reader, &mut sheet)?;
    check_report(rt, answer, wanted, sheet.text(), lines);
    Ok(())
}

/// Where a writer is to take the listing of an input, this is answered.
fn check_writer<W: Write>(
    rt: &impl Abort,
    alloc: Global,
    words: &[&str],
    input: &[u8],
    writer: &mut W,
    wanted: Result<bool, RunFault>,
) -> Result<(), Fail> {
    let mut reader = input;
    let answer = answer(alloc, words, &mut reader, writer)?;
    assert_eq!(rt; answer, wanted);
    Ok(())
}

/// So many reads of single bytes are made, one of which fails after so many others, if there are
/// more.
fn check_reads(
    rt: &impl Abort,
    alloc: Global,
    before: usize,
    wanted: Result<bool, RunFault>,
    lines: &[u8],
    calls: usize,
) -> Result<(), Fail> {
    let mut reader = Stumbling::new(HI, before);
    check_reader(rt, alloc, &mut reader, wanted, lines)?;
    assert_eq!(rt; reader.calls, calls);
    Ok(())
}

#[test]
fn a_failed_read_is_not_tried_again(rt: HostRuntime) -> Result<(), Fail> {
    // One read for each byte, and one more finds the end.
    let count = HI.len() + 1;
    for before in 0..count {
        let wanted = Err(RunFault::Read);
        check_reads(&rt, rt.alloc(), before, wanted, b"", before + 1)?;
    }
    check_reads(&rt, rt.alloc(), count, Ok(false), HI_LINES, count)
}

#[test]
fn a_reader_without_end_is_given_up(rt: HostRuntime) -> Result<(), Fail> {
    for (step, calls) in [(16, LIMIT / 16 + 1), (1000, 1049)] {
        let mut reader = Endless { step, calls: 0 };
        check_reader(&rt, rt.alloc(), &mut reader, Err(RunFault::TooLong), b"")?;
        assert_eq!(rt; reader.calls, calls);
    }
    Ok(())
}

#[test]
fn a_failed_write_is_not_tried_again(rt: HostRuntime) -> Result<(), Fail> {
    for before in 0..HI_LINES.len() {
        let mut writer = Faltering::new(before);
        let wanted = Err(RunFault::Write);
        check_writer(&rt, rt.alloc(), &["format"], HI, &mut writer, wanted)?;
        assert_eq!(rt; writer.calls, before + 1);
    }
    let mut writer = Faltering::new(HI_LINES.len());
    check_writer(&rt, rt.alloc(), &["format"], HI, &mut writer, Ok(false))
}

#[test]
fn a_write_that_takes_no_byte_has_failed(rt: HostRuntime) -> Result<(), Fail> {
    let mut writer = Stuck { calls: 0 };
    let wanted = Err(RunFault::Write);
    check_writer(&rt, rt.alloc(), &["format"], HI, &mut writer, wanted)?;
    assert_eq!(rt; writer.calls, 1);
    Ok(())
}

const USAGE: &str =
    "usage: formatread format|asm|diagnostic|diagnostic-named [--literal] [--args N,NAME,..]";

/// Each answer, with its number of faults and the status.
const ANSWERS: &[(Result<bool, RunFault>, &str, u8)] = &[
    (Ok(false), "", 0),
    (Ok(true), "", 1),
    (Err(RunFault::Words), USAGE, 2),
    (
        Err(RunFault::NotLiteral),
        "formatread: input is not a string literal",
        2,
    ),
    (Err(RunFault::Read), "formatread: reading failed", 3),
    (
        Err(RunFault::TooLong),
        "formatread: input is longer than 1048576 bytes",
        3,
    ),
    (Err(RunFault::NotText), "formatread: input is not UTF-8", 3),
    (Err(RunFault::Memory), "formatread: out of memory", 3),
    (Err(RunFault::Write), "formatread: writing failed", 3),
];

#[test]
fn gives_each_answer(rt: HostRuntime) {
    for (answer, message, status) in ANSWERS {
        let verdict = verdict(answer);
        assert_eq!(rt; (verdict.message, verdict.status), (*message, *status));
    }
}
