//! Tokens for which an allocation fails are read again.
//!
//! The test passes whether or not an allocation fails. If the call returns an allocation failure,
//! it prints a line `refused`. `.ci/refusals` runs it with its first allocation failing, then with
//! its second, and so on.

use super::rows::check;
use super::sources::tokens_of;
use format_tokens::Kind::*;
use format_tokens::Token;
use std::alloc::Global;
use std::io::Print;
use std::process::Abort;
use std::test::Fail;

/// The tokens of an ordinary literal, read once more where an allocation fails.
fn read(
    rt: &(impl Abort + Print),
    alloc: Global,
    input: &str,
    literal: &str,
) -> Result<Vec<Token>, Fail> {
    if let Ok(found) = tokens_of(rt, alloc, input, None, literal, false) {
        return Ok(found);
    }
    println!(rt; "refused")?;
    Ok(tokens_of(rt, alloc, input, None, literal, false)?)
}

#[test]
fn tokens_out_of_memory_are_read_again(rt: HostRuntime) -> Result<(), Fail> {
    let row = [
        (Quote, 0),
        (OpenBrace, 1),
        (Identifier, 5),
        (CloseBrace, 6),
        (Quote, 7),
    ];
    let found = read(&rt, rt.alloc(), "{a}", "\"\\x7ba}\"")?;
    check(&rt, found.as_slice(), &row, 8);
    Ok(())
}
