//! The bytes that standard output gets of files.

use shown_text::put_drawn;
use std::alloc::AllocError;
use std::io::IsTerminal;

/// Returns the bytes that standard output gets of these: on a terminal they are as drawings have
/// them, which is made in `drawing`, and otherwise they stay. Returns `Err` if an allocation fails.
pub fn shown_bytes<'a>(
    rt: &HostRuntime,
    bytes: &'a [u8],
    drawing: &'a mut String,
) -> Result<&'a [u8], AllocError> {
    if !rt.stdout().is_terminal() {
        return Ok(bytes);
    }
    put_drawn(drawing, bytes)?;
    Ok(drawing.as_bytes())
}
