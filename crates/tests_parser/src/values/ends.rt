//! The byte offset at which a text ends in its source.

ghost use Rattle.std.specs.Prelude.{◌≡◌, IfOk};

use rustc_parse_format::{ParseMode, Parser};
use std::alloc::{AllocError, Global};
use std::process::Abort;
use std::test::Fail;

/// Of the empty input nothing is taken off for a newline that was appended: its text ends at byte
/// 0.
fn nothing_after_a_newline(alloc: Global) -> Result<Parser<'static>, AllocError>
    ensures { IfOk result (λ p. p.world.end ≡ 0) }
{
    Parser::new(alloc, "", None, None, true, ParseMode::Format)
}

/// Such a parser is at the end, and has found nothing.
fn check_end(rt: &impl Abort, parser: &mut Parser<'_>) -> Result<(), Fail> {
    assert!(rt; parser.peek().is_none());
    let is_end = parser.next()?.is_none();
    assert!(rt; is_end);
    assert!(rt; parser.errors().is_empty());
    Ok(())
}

#[test]
fn the_empty_input_ends_at_once(rt: HostRuntime) -> Result<(), Fail> {
    let mut parser = nothing_after_a_newline(rt.alloc())?;
    check_end(&rt, &mut parser)
}
