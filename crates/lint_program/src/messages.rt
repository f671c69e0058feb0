//! The lines that are written to standard error where there is no answer.

ghost use Rattle.std.specs.Prelude.{◌≡◌, ◌++◌, IsCharBoundary, OnOk, decimal, string_bytes};
ghost use Rattle.lint_program.specs.Messages.{failure, not_literal, opening, place_failure, reason};
ghost use Rattle.lint_program.specs.Messages.{place_text};
ghost use Rattle.shown_text.specs.Shown.{IsLine};

use itoa::Buffer;
use literal_faults::LiteralFault;
use piece_listing::verdict::RunFault;
use rust_trees::{Place, place_at};
use shown_text::{Kind, put_shown};
use std::alloc::AllocError;

/// Returns the words of the system in the text of an error of reading or writing, without the
/// number that std adds.
pub fn system_words(text: &str) -> &str {
    match text.split_once(" (os error ") {
        Some((words, _)) => words,
        None => text,
    }
}

/// Appends the start of a line: the name of the program and the path. Returns `Err` if an
/// allocation fails.
fn put_opening(out: &mut String, path: &str) -> Result<(), AllocError>
    ensures { OnOk result (string_bytes out.new ≡ string_bytes out.old ++ opening path.now) }
{
    out.push_str("formatlint: ")?;
    put_shown(out, Kind::Line, path)?;
    out.push_str(":")?;
    Ok(())
}

/// Returns the reason why there is no answer. For a read or a write that failed, `words` has the
/// words of the system, if it has any.
fn reason<'a>(fault: RunFault, words: &'a str) -> &'a str
    ensures { result.now ≡ reason fault words.now }
{
    match fault {
        RunFault::Read if words.is_empty() => "reading failed",
        RunFault::Write if words.is_empty() => "writing failed",
        RunFault::Read | RunFault::Write => words,
        RunFault::Words => "invalid arguments",
        RunFault::TooLong => "longer than 1048576 bytes",
        RunFault::NotText => "not UTF-8",
        RunFault::NotLiteral => "not a string literal",
        RunFault::Memory => "out of memory",
    }
}

/// Appends the line that says why there is no answer for the input with this path. For a read or a
/// write that failed `words` has the words of the system, if it has any. Returns `Err` if an
/// allocation fails, and a part of the line may then be appended.
#[tactic(auto, using(crate::proofs::Lines::one_line))]
pub fn put_failure(
    out: &mut String,
    path: &str,
    fault: RunFault,
    words: &str,
) -> Result<(), AllocError>
    ensures written { OnOk result (string_bytes out.new
        ≡ string_bytes out.old ++ failure path.now fault words.now) }
    ensures line { IsLine (failure path.now fault words.now) }
{
    put_opening(out, path)?;
    out.push_str(" ")?;
    put_shown(out, Kind::Line, reason(fault, words))?;
    out.push_str("\n")?;
    Ok(())
}

/// Appends a number in decimal digits. Returns `Err` if an allocation fails.
fn put_number(out: &mut String, number: usize) -> Result<(), AllocError>
    ensures { OnOk result (string_bytes out.new ≡ string_bytes out.old ++ decimal number) }
{
    let mut buffer = Buffer::new();
    out.push_str(buffer.format(number))?;
    Ok(())
}

/// Appends a place: the line, a colon and the column. Returns `Err` if an allocation fails.
fn put_place(out: &mut String, place: Place) -> Result<(), AllocError>
    ensures { OnOk result (string_bytes out.new ≡ string_bytes out.old ++ place_text place) }
{
    put_number(out, place.line)?;
    out.push_str(":")?;
    put_number(out, place.column)?;
    Ok(())
}

/// Appends the lines that say why the file with this path holds no string literal, at which place,
/// and which option reads it as a text. Returns `Err` if an allocation fails, and a part of the
/// lines may then be appended.
pub fn put_not_literal(
    out: &mut String,
    path: &str,
    file: &str,
    fault: &LiteralFault,
) -> Result<(), AllocError>
    requires { IsCharBoundary file.now fault.now.offset }
    ensures { OnOk result (string_bytes out.new
        ≡ string_bytes out.old ++ not_literal path.now file.now fault.now) }
{
    put_opening(out, path)?;
    put_place(out, place_at(file, fault.offset))?;
    out.push_str(": ")?;
    fault.kind.put_message(out)?;
    out.push_str("\n  = help: with --text the input is read as it stands\n")?;
    Ok(())
}

/// Appends the line that says why the file with this path is not read from a place on. Returns
/// `Err` if an allocation fails, and a part of the line may then be appended.
#[tactic(auto, using(crate::proofs::Lines::one_line))]
pub fn put_place_failure(
    out: &mut String,
    path: &str,
    place: Place,
    words: &str,
) -> Result<(), AllocError>
    ensures written { OnOk result (string_bytes out.new
        ≡ string_bytes out.old ++ place_failure path.now place words.now) }
    ensures line { IsLine (place_failure path.now place words.now) }
{
    put_opening(out, path)?;
    put_place(out, place)?;
    out.push_str(": ")?;
    put_shown(out, Kind::Line, words)?;
    out.push_str("\n")?;
    Ok(())
}
