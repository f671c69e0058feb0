//! Each read of an input fails in turn, and each write of the output for it.

use super::rows::UNEXPECTED;
use format_lint::run::run;
use piece_listing::verdict::RunFault;
use std::alloc::Global;
use std::io;
use std::io::{ErrorKind, Read, Write};
use std::process::Abort;
use std::test::Fail;

/// Gives or takes one byte at each call, and fails once, after so many calls.
#[derive(Drop)]
struct Failing {
    rest: &'static [u8],
    before: usize,
    calls: usize,
}

impl Failing {
    fn new(before: usize) -> Failing {
        Failing {
            rest: UNEXPECTED.input,
            before,
            calls: 0,
        }
    }

    /// Counts a call. Returns `Err` if it is the one that fails.
    fn count(&mut self) -> io::Result<()> {
        let calls = self.calls;
        self.calls = calls.saturating_add(1);
        if calls == self.before {
            return Err(io::Error::from(ErrorKind::Interrupted));
        }
        Ok(())
    }
}

impl Read for Failing {
    fn read(&mut self, buf: &mut [u8]) -> io::Result<usize> {
        self.count()?;
        if self.rest.is_empty() || buf.is_empty() {
            return Ok(0);
        }
        buf[0] = self.rest[0];
        self.rest = &self.rest[1..];
        Ok(1)
    }
}

impl Write for Failing {
    fn write(&mut self, buf: &[u8]) -> io::Result<usize> {
        self.count()?;
        Ok(buf.len().min(1))
    }

    fn flush(&mut self) -> io::Result<()> {
        Ok(())
    }
}

/// The reads of an input, one of which fails after so many others, if there are more. Nothing is
/// written then.
fn reads(
    rt: &impl Abort,
    alloc: Global,
    before: usize,
    wanted: Result<usize, RunFault>,
) -> Result<usize, Fail> {
    let mut reader = Failing::new(before);
    let mut written = Vec::new(alloc);
    let mut drawn = Vec::new(alloc);
    let answer = run(
        alloc,
        &mut reader,
        &mut written,
        &mut drawn,
        UNEXPECTED.task(),
    );
    assert_eq!(rt; answer, wanted);
    assert_eq!(rt; written.as_slice().is_empty(), answer.is_err());
    assert_eq!(rt; drawn.as_slice().is_empty(), answer.is_err());
    Ok(reader.calls)
}

#[test]
fn a_failed_read_is_not_tried_again(rt: HostRuntime) -> Result<(), Fail> {
    let count = UNEXPECTED.input.len() + 1;
    assert_eq!(rt;
        reads(&rt, rt.alloc(), usize::MAX, Ok(1))?,
        count,
        "the end is read too"
    );
    for before in 0..count {
        let asked = reads(&rt, rt.alloc(), before, Err(RunFault::Read))?;
        assert_eq!(rt; asked, before + 1, "no read after the one that failed");
    }
    Ok(())
}

/// The writes of both outputs, one of which fails after so many others, if there are more. Nothing
/// is written to the error output after a write of the output has failed.
fn writes(
    rt: &impl Abort,
    alloc: Global,
    before: usize,
    before_errors: usize,
    wanted: Result<usize, RunFault>,
) -> (usize, usize) {
    let mut reader = UNEXPECTED.input;
    let mut writer = Failing::new(before);
    let mut error_writer = Failing::new(before_errors);
    let answer = run(
        alloc,
        &mut reader,
        &mut writer,
        &mut error_writer,
        UNEXPECTED.task(),
    );
    assert_eq!(rt; answer, wanted);
    (writer.calls, error_writer.calls)
}

#[test]
fn a_failed_write_is_not_tried_again(rt: HostRuntime) {
    let (most, count) = (usize::MAX, UNEXPECTED.output.len());
    let errors = UNEXPECTED.error_output.len();
    let asked = writes(&rt, rt.alloc(), most, most, Ok(1));
    assert_eq!(rt; asked, (count, errors), "a write for each byte");
    for before in 0..count {
        let asked = writes(&rt, rt.alloc(), before, most, Err(RunFault::Write));
        assert_eq!(rt;
            asked,
            (before + 1, 0),
            "no write after the one that failed"
        );
    }
    for before in 0..errors {
        let asked = writes(&rt, rt.alloc(), most, before, Err(RunFault::Write));
        assert_eq!(rt;
            asked,
            (count, before + 1),
            "no write after the one that failed"
        );
    }
}
