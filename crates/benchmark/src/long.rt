//! Jobs over long inputs.

use crate::digest::Digest;
use crate::inputs::{hard, kinds, lines};
use crate::random::Random;
use format_lint::run::run as lint;
use format_lint::task::{OutputKind, Task};
use piece_listing::run::run as list;
use rustc_parse_format::ParseMode;
use std::alloc::{AllocError, Global};

/// The number of bytes of a long text.
const SIZE: usize = 60_000;

/// The number of bytes of a long input that is hard to read.
const HARD: usize = 40_000;

/// Lists an input, with the words of a command line.
fn list_one(
    alloc: Global,
    input: &str,
    words: &[String],
    digest: &mut Digest,
) -> Result<(), AllocError> {
    let mut reader = input.as_bytes();
    let mut written = Vec::new(alloc);
    let answer = list(alloc, &mut reader, &mut written, words);
    digest.add(u64::from(answer == Ok(true)));
    digest.add_bytes(written.as_slice());
    Ok(())
}

/// Returns the words of a command line.
fn words(alloc: Global, texts: &[&str]) -> Result<Vec<String>, AllocError> {
    let mut words = Vec::new(alloc);
    for text in texts {
        words.push(String::from_str(alloc, text)?)?;
    }
    Ok(words)
}

/// Lists as many long texts, with the arguments that they lack.
pub fn list_each(
    alloc: Global,
    count: usize,
    random: &mut Random,
    digest: &mut Digest,
) -> Result<(), AllocError> {
    let words = words(
        alloc,
        &["format", "--literal", "--args", "4,name,value,err,path"],
    )?;
    for _ in 0..count {
        let input = lines(alloc, random, SIZE)?;
        list_one(alloc, input.as_str(), words.as_slice(), digest)?;
    }
    Ok(())
}

/// Shows an input.
fn lint_one(
    alloc: Global,
    input: &str,
    output_kind: OutputKind,
    colours: bool,
    digest: &mut Digest,
) -> Result<(), AllocError> {
    let task = Task {
        mode: ParseMode::Format,
        is_literal: true,
        path: "src/main.rs",
        output_kind,
        width: 140,
        colours,
    };
    let mut reader = input.as_bytes();
    let mut written = Vec::new(alloc);
    let mut drawn = Vec::new(alloc);
    let answer = lint(alloc, &mut reader, &mut written, &mut drawn, task);
    written.extend_from_slice(drawn.as_slice())?;
    digest.add(u64::from(matches!(answer, Ok(1..))));
    digest.add_bytes(written.as_slice());
    Ok(())
}

/// Reads long inputs of each kind that is hard to read, `count` times: each is listed, or shown in
/// one of four ways.
pub fn awkward(
    alloc: Global,
    count: usize,
    random: &mut Random,
    digest: &mut Digest,
) -> Result<(), AllocError> {
    let words = words(alloc, &["format", "--literal"])?;
    for _ in 0..count {
        for kind in 0..kinds() {
            for way in 0..5 {
                let input = hard(alloc, random, kind, HARD)?;
                let input = input.as_str();
                match way {
                    0 => list_one(alloc, input, words.as_slice(), digest)?,
                    1 => lint_one(alloc, input, OutputKind::Fault, false, digest)?,
                    2 => lint_one(alloc, input, OutputKind::Tokens, false, digest)?,
                    3 => lint_one(alloc, input, OutputKind::Tokens, true, digest)?,
                    _ => lint_one(alloc, input, OutputKind::Fix, false, digest)?,
                }
            }
        }
    }
    Ok(())
}
