//! Writing to standard output.

use lint_program::{Failure, Recorder, shown_bytes};
use piece_listing::run::write_whole;

/// Writes a text to standard output.
pub fn write(rt: &HostRuntime, text: &str) -> Result<(), Failure> {
    write_bytes(rt, text.as_bytes())
}

/// Writes bytes to standard output.
fn write_bytes(rt: &HostRuntime, bytes: &[u8]) -> Result<(), Failure> {
    let mut writer = Recorder::new(rt.stdout());
    match write_whole(&mut writer, bytes) {
        Ok(()) => Ok(()),
        Err(fault) => Err(Failure {
            fault,
            error: writer.error,
        }),
    }
}

/// Writes bytes of a file to standard output, on a terminal as drawings have them.
pub fn write_shown(rt: &HostRuntime, bytes: &[u8]) -> Result<(), Failure> {
    let mut drawing = String::new(rt.alloc());
    write_bytes(rt, shown_bytes(rt, bytes, &mut drawing)?)
}
