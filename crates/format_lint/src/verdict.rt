//! The error message and the exit status for each result of the program.

ghost use Rattle.std.specs.Prelude.{◌≡◌};
ghost use Rattle.format_lint.specs.Lint.{verdict};

use piece_listing::verdict::{Exit, RunFault};

/// Returns the message and the exit status of the program for a result of `run`. The status is 0 if
/// no mistake is left, 1 if one is, 2 if the arguments are invalid or the input is not a string
/// literal, and 3 after any other error. Does not allocate.
pub fn verdict(answer: &Result<usize, RunFault>) -> Exit
    ensures { (result.message.now, result.status) ≡ verdict answer.now }
{
    let (message, status) = match answer {
        Ok(0) => ("", 0),
        Ok(_) => ("", 1),
        Err(RunFault::Words) => ("formatlint: invalid arguments", 2),
        Err(RunFault::NotLiteral) => ("formatlint: input is not a string literal", 2),
        Err(RunFault::Read) => ("formatlint: reading failed", 3),
        Err(RunFault::TooLong) => ("formatlint: input is longer than 1048576 bytes", 3),
        Err(RunFault::NotText) => ("formatlint: input is not UTF-8", 3),
        Err(RunFault::Memory) => ("formatlint: out of memory", 3),
        Err(RunFault::Write) => ("formatlint: writing failed", 3),
    };
    Exit { message, status }
}
