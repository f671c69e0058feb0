//! Very many errors in one input.

use rustc_parse_format::{ParseError, ParseMode, Reading, read_all};
use std::alloc::{AllocError, Global};
use std::process::Abort;
use std::test::Fail;

/// An input in which each placeholder has a raw name.
fn raw_names(alloc: Global, count: usize) -> Result<String, AllocError> {
    let mut input = String::new(alloc);
    for _ in 0..count {
        input.push_str("{r#a}")?;
    }
    Ok(input)
}

/// There are so many errors, and the first and the last begin here.
fn check_many(rt: &impl Abort, errors: &[ParseError], count: usize, first: usize, last: usize) {
    assert_eq!(rt; errors.len(), count);
    assert!(rt; count > 0);
    assert_eq!(rt; errors[0].span.start, first);
    assert_eq!(rt; errors[count - 1].span.start, last);
}

fn check_many_faults(rt: &impl Abort, alloc: Global, input: &str) -> Result<(), Fail> {
    assert!(rt; input.len() < 1_000_000);
    let Reading { pieces, parser } = read_all(alloc, input, None, None, false, ParseMode::Format)?;
    assert_eq!(rt; pieces.len(), 5_000);
    check_many(rt, parser.errors(), 5_000, 24_997, 2);
    Ok(())
}

#[test]
fn of_many_faults_in_front_the_last_found_is_first(rt: HostRuntime) -> Result<(), Fail> {
    let input = raw_names(rt.alloc(), 5_000)?;
    check_many_faults(&rt, rt.alloc(), input.as_str())
}
