//! The characters that the content of a literal stands for.

use super::spare::check_spare;
use rustc_parse_format::literal::{ContentCharacter, read_content};
use std::alloc::Global;
use std::io::Print;
use std::ops::Range;
use std::process::Abort;
use std::test::Fail;

/// The characters of a content, read once more where that is refused memory.
fn content_again(
    rt: &(impl Abort + Print),
    alloc: Global,
    content: &str,
) -> Result<Option<Vec<ContentCharacter>>, Fail> {
    if let Ok(read) = read_content(alloc, content) {
        return Ok(read);
    }
    println!(rt; "refused")?;
    check_spare(rt, alloc)?;
    Ok(read_content(alloc, content)?)
}

/// Characters with their places are those that are wanted.
fn check_characters(rt: &impl Abort, found: &[ContentCharacter], wanted: &[(Range<usize>, char)]) {
    assert_eq!(rt; found.len(), wanted.len());
    for (one, other) in found.iter().zip(wanted.iter()) {
        assert!(rt; one.span == other.0);
        assert!(rt; one.character == other.1);
    }
}

#[test]
fn read_content_out_of_memory_is_called_again(rt: HostRuntime) -> Result<(), Fail> {
    let read = content_again(&rt, rt.alloc(), "a\\x41\\u{1_F__600_}\\\n b")?;
    let found = read.unwrap_or(Vec::new(rt.alloc()));
    let wanted = [
        (0..1, 'a'),
        (1..5, 'A'),
        (5..18, '\u{1F600}'),
        (21..22, 'b'),
    ];
    check_characters(&rt, &found, &wanted);
    Ok(())
}

/// So many characters that the list of them has to grow.
#[test]
fn read_content_out_of_memory_while_growing(rt: HostRuntime) -> Result<(), Fail> {
    let read = content_again(&rt, rt.alloc(), "0123456789abcdef\\n0123456789abcdef\\n")?;
    assert!(rt; read.map(|found| found.len()) == Some(34));
    Ok(())
}

/// A text that is no content stays none, wherever its first fault is.
#[test]
fn read_content_out_of_memory_finds_none(rt: HostRuntime) -> Result<(), Fail> {
    let read = content_again(&rt, rt.alloc(), "a\\n\\q")?;
    assert!(rt; read.is_none());
    Ok(())
}
