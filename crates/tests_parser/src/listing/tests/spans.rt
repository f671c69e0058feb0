//! Spans as they are appended to a text.
use piece_listing::put_span;
use std::alloc::{AllocError, Global};
use std::process::Abort;
use std::test::Fail;

/// A mark, the two offsets, and both after the letter `x`.
const SPANS: &[(char, usize, usize, &str)] = &[
    ('@', 0, 0, "x@0..0"),
    (' ', 9, 10, "x 9..10"),
    ('\n', 100, 99, "x\n100..99"),
    (
        '\x7F',
        usize::MAX,
        usize::MAX,
        "x\x7F18446744073709551615..18446744073709551615",
    ),
];

/// The letter `x` with a mark and two offsets after it.
fn marked(
    rt: &impl Abort,
    alloc: Global,
    mark: char,
    start: usize,
    end: usize,
) -> Result<String, AllocError> {
    assert!(rt; mark < '\u{80}');
    let mut out = String::from_str(alloc, "x")?;
    put_span(&mut out, mark, &(start..end))?;
    Ok(out)
}

#[test]
fn spans_are_appended(rt: HostRuntime) -> Result<(), Fail> {
    for (mark, start, end, wanted) in SPANS {
        let out = marked(&rt, rt.alloc(), *mark, *start, *end)?;
        assert_eq!(rt; out.as_str(), *wanted);
    }
    Ok(())
}
