//! Each read of a reader over bytes fails in turn, and each write of a listing with errors. The
//! reads and the writes are counted.
use super::fakes::Faltering;
use super::{HI, HI_LINES, check_reader, check_writer};
use piece_listing::verdict::RunFault;
use std::alloc::Global;
use std::io;
use std::io::{ErrorKind, Read};
use std::process::Abort;
use std::test::Fail;

/// A literal with an escape, in which a flag stands after its type.
const FLAG: &[u8] = b"\"a\\n{0:?#}\"";

/// How many bytes are listed for it.
const FLAG_LENGTH: usize = 144;

/// Reads as a slice of bytes does, but fails once, after so many reads.
#[derive(Drop)]
struct Failing {
    rest: &'static [u8],
    before: usize,
    calls: usize,
}

impl Read for Failing {
    fn read(&mut self, buf: &mut [u8]) -> io::Result<usize> {
        let calls = self.calls;
        self.calls = calls.saturating_add(1);
        if calls == self.before {
            return Err(io::Error::from(ErrorKind::Interrupted));
        }
        self.rest.read(buf)
    }
}

/// The reads of a short text, one of which fails after so many others, if there are more. Nothing
/// is written then.
fn reads(
    rt: &impl Abort,
    alloc: Global,
    before: usize,
    wanted: Result<bool, RunFault>,
    lines: &[u8],
) -> Result<usize, Fail> {
    let mut reader = Failing {
        rest: HI,
        before,
        calls: 0,
    };
    check_reader(rt, alloc, &mut reader, wanted, lines)?;
    Ok(reader.calls)
}

#[test]
fn each_read_from_memory_may_fail(rt: HostRuntime) -> Result<(), Fail> {
    let count = reads(&rt, rt.alloc(), usize::MAX, Ok(false), HI_LINES)?;
    assert!(rt; count > 1, "the end is found by a read of its own");
    for before in 0..count {
        let asked = reads(&rt, rt.alloc(), before, Err(RunFault::Read), b"")?;
        assert_eq!(rt; asked, before + 1, "no read after the one that failed");
    }
    Ok(())
}

/// The writes of the listing of a literal with faults, one of which fails after so many others, if
/// there are more.
fn writes(
    rt: &impl Abort,
    alloc: Global,
    before: usize,
    wanted: Result<bool, RunFault>,
) -> Result<usize, Fail> {
    let words = ["format", "--literal"];
    let mut writer = Faltering::new(before);
    check_writer(rt, alloc, &words, FLAG, &mut writer, wanted)?;
    Ok(writer.calls)
}

#[test]
fn each_write_of_a_listing_with_faults_may_fail(rt: HostRuntime) -> Result<(), Fail> {
    let count = writes(&rt, rt.alloc(), usize::MAX, Ok(true))?;
    assert_eq!(rt; count, FLAG_LENGTH, "a write for each byte");
    for before in 0..count {
        let asked = writes(&rt, rt.alloc(), before, Err(RunFault::Write))?;
        assert_eq!(rt; asked, before + 1, "no write after the one that failed");
    }
    Ok(())
}
