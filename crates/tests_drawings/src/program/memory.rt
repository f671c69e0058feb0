//! A run for which an allocation fails writes nothing, and is made again.
//!
//! The test passes whether or not an allocation fails. If the call returns an allocation failure,
//! it prints a line `refused`. `.ci/refusals` runs it with its first allocation failing, then with
//! its second, and so on.

use super::rows::{BOTH, FIXED, RAW_PREFIX, Row, UNEXPECTED};
use format_lint::run::run;
use piece_listing::verdict::RunFault;
use std::alloc::Global;
use std::io;
use std::io::{Print, Write};
use std::process::Abort;
use std::test::Fail;

/// Compares the output with a text, without memory.
#[derive(Drop)]
struct Compared {
    rest: &'static [u8],
    is_same: bool,
    is_new: bool,
}

impl Write for Compared {
    fn write(&mut self, buf: &[u8]) -> io::Result<usize> {
        self.is_new = false;
        match self.rest.strip_prefix(buf) {
            Some(rest) => self.rest = rest,
            None => self.is_same = false,
        }
        Ok(buf.len())
    }

    fn flush(&mut self) -> io::Result<()> {
        Ok(())
    }
}

/// Returns the writer of a text that is wanted.
fn compared_with(text: &'static str) -> Compared {
    Compared {
        rest: text.as_bytes(),
        is_same: true,
        is_new: true,
    }
}

/// The output for a row, once more where an allocation fails.
fn check(rt: &(impl Abort + Print), alloc: Global, row: &Row) -> Result<(), Fail> {
    let (mut writer, mut errors) = (compared_with(row.output), compared_with(row.error_output));
    let mut reader = row.input;
    let mut answer = run(alloc, &mut reader, &mut writer, &mut errors, row.task());
    if answer.is_err() {
        println!(rt; "refused")?;
        assert_eq!(rt; answer, Err(RunFault::Memory));
        assert!(rt; writer.is_new && errors.is_new, "nothing is written");
        reader = row.input;
        answer = run(alloc, &mut reader, &mut writer, &mut errors, row.task());
    }
    assert_eq!(rt; answer, Ok(row.report));
    assert!(rt; writer.is_same && writer.rest.is_empty());
    assert!(rt; errors.is_same && errors.rest.is_empty());
    Ok(())
}

#[test]
fn run_out_of_memory_writes_nothing(rt: HostRuntime) -> Result<(), Fail> {
    for row in [&RAW_PREFIX, &UNEXPECTED, &FIXED, &BOTH] {
        check(&rt, rt.alloc(), row)?;
    }
    Ok(())
}
