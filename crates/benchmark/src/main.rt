//! Runs one of the jobs that bench/ times, over inputs that it makes from a number, and prints a
//! digest of all that the calls return: `benchmark JOB COUNT SEED`.
#![tactic(auto)]

mod digest;
mod inputs;
mod jobs;
mod long;
mod random;
mod source;

use digest::Digest;
use random::Random;
use std::alloc::{AllocError, Global};
use std::env;
use std::process::ExitCode;
use std::test::Fail;

/// Runs a job of this name `count` times. Returns whether there is such a job, and `Err` if an
/// allocation fails.
fn run(
    alloc: Global,
    job: &str,
    count: usize,
    random: &mut Random,
    digest: &mut Digest,
) -> Result<bool, AllocError> {
    match job {
        "check" => jobs::check_each(alloc, count, random, digest)?,
        "records" => jobs::record_each(alloc, count, random, digest)?,
        "lint" => jobs::lint_each(alloc, count, random, digest)?,
        "list" => long::list_each(alloc, count, random, digest)?,
        "awkward" => long::awkward(alloc, count, random, digest)?,
        "source" => source::lex_each(alloc, count, random, digest)?,
        "files" => source::read_each(alloc, count, random, digest)?,
        _ => return Ok(false),
    }
    Ok(true)
}

/// Runs the jobs that the words name, each `count` times. Returns whether the words are understood.
fn answer(rt: &HostRuntime, words: &[String]) -> Result<bool, Fail> {
    let [_program, job, count, seed] = words else {
        return Ok(false);
    };
    let (Ok(count), Ok(seed)) = (count.as_str().parse(), seed.as_str().parse()) else {
        return Ok(false);
    };
    for job in job.as_str().split(',') {
        let mut random = Random::new(seed);
        let mut digest = Digest::new();
        if !run(rt.alloc(), job, count, &mut random, &mut digest)? {
            return Ok(false);
        }
        let value = digest.value();
        println!(rt; "{job} {value:016x}")?;
    }
    Ok(true)
}

fn main(rt: HostRuntime) -> Result<ExitCode, Fail> {
    let words: Vec<String> = env::args(&rt)?.collect(rt.alloc())?;
    if answer(&rt, words.as_slice())? {
        return Ok(ExitCode::SUCCESS);
    }
    let _ = rt.eprintln("usage: benchmark JOB[,JOB].. COUNT SEED");
    Ok(ExitCode::from(2))
}
