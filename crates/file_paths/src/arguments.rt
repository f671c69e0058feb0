//! The arguments of the program.

use std::{env, io};

/// Returns the arguments of the program, with its name as the first one. Each is text as a path
/// is. The standard library of the kit gives those that are UTF-8 alone: returns `Err` if another
/// one is there, or if an allocation fails.
pub fn args(rt: &HostRuntime) -> io::Result<Vec<String>> {
    let words = env::args(rt)?;
    Ok(words.collect(rt.alloc())?)
}
