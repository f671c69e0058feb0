//! A fix for which an allocation fails is made again.
//!
//! The test passes whether or not an allocation fails. If the call returns an allocation failure,
//! it prints a line `refused`. `.ci/refusals` runs it with its first allocation failing, then with
//! its second, and so on.

use fault_fixes::{FixedLiteral, fix};
use rustc_parse_format::ParseMode;
use std::alloc::{AllocError, Global};
use std::io::Print;
use std::process::Abort;
use std::test::Fail;

/// A literal with its fix.
fn fixed(alloc: Global) -> Result<Option<FixedLiteral>, AllocError> {
    let literal = "\"{r#a} {b?}\"";
    fix(alloc, "{r#a} {b?}", None, literal, false, ParseMode::Format)
}

/// The same, made once more where an allocation fails.
fn fixed_again(rt: &(impl Abort + Print), alloc: Global) -> Result<Option<FixedLiteral>, Fail> {
    if let Ok(found) = fixed(alloc) {
        return Ok(found);
    }
    println!(rt; "refused")?;
    Ok(fixed(alloc)?)
}

#[test]
fn fix_out_of_memory_is_made_again(rt: HostRuntime) -> Result<(), Fail> {
    let found = fixed_again(&rt, rt.alloc())?;
    assert!(rt; found.is_some_and(|fixed| fixed.snippet.as_str() == "\"{a} {b:?}\""));
    Ok(())
}
