//! The errors of all calls of a parser.

ghost use Rattle.std.specs.Prelude.{◌≡◌, ◌+◌, ◌<◌, ◌^◌, [], IfOk, IsOk, OnOk, chars, length, map};
ghost use Rattle.rustc_parse_format.specs.Faults.{add_errors};
ghost use Rattle.rustc_parse_format.specs.Views.{seen_error, seen_mode, seen_snippet};
ghost use Rattle.rustc_parse_format.specs.FaultViews.{seen_fault};
ghost use Rattle.rustc_parse_format.specs.State.{state_after, first_state, next_call};
ghost use Rattle.rustc_parse_format.specs.World.{faults_in, hashes};
ghost use Rattle.fault_fixes.specs.Fixing.{all_errors};
ghost use Rattle.fault_fixes.specs.SeenEdits.{seen_errors};

use rustc_parse_format::{Argument, Fault, ParseError, ParseMode, Parser};
use std::alloc::{AllocError, Global};

/// Errors in the order of a parser. None is moved where one is put before the others.
#[derive(Drop)]
struct Errors {
    /// The errors that were put before all others: the last one is the first of all.
    front_errors: Vec<ParseError>,
    /// The errors after these.
    back_errors: Vec<ParseError>,
}

/// Adds the errors of faults. Returns `Err` if an allocation fails.
fn add_each(alloc: Global, errors: &mut Errors, faults: &[Fault<'_>]) -> Result<(), AllocError>
    ensures { OnOk result (seen_errors errors.new
        ≡ add_errors (seen_errors errors.old) (map seen_fault faults.now)) }
{
    for fault in faults {
        let error = fault.error(alloc)?;
        if fault.is_front() {
            errors.front_errors.push(error)?;
        } else {
            errors.back_errors.push(error)?;
        }
    }
    Ok(())
}

/// Makes a call of a parser, and adds the errors of its faults. `faults` is empty before and after
/// the call. Returns `Err` if an allocation fails.
fn add_next<'a>(
    alloc: Global,
    errors: &mut Errors,
    parser: &mut Parser<'a>,
    argument: &mut Argument<'a>,
    faults: &mut Vec<Fault<'a>>,
) -> Result<(), AllocError>
    requires none { parser.old.errors ≡ [] }
    requires empty { faults.old.items ≡ [] }
    ensures state { OnOk result (parser.new
        ≡ record (state_after parser.old (next_call parser.old)) { errors = [] }) }
    ensures errors { OnOk result (seen_errors errors.new ≡ add_errors (seen_errors errors.old)
        (faults_in parser.old.world (next_call parser.old).faults)) }
    ensures added { OnOk result (faults.new.items ≡ []) }
{
    parser.next_with_faults(argument, faults)?;
    add_each(alloc, errors, faults.as_slice())?;
    faults.clear();
    Ok(())
}

/// Returns errors as one list. Returns `Err` if an allocation fails.
fn into_list(errors: Errors) -> Result<Vec<ParseError>, AllocError>
    ensures { IfOk result (λ v. map seen_error v.items ≡ seen_errors errors) }
{
    let mut list = errors.front_errors;
    let mut back_errors = errors.back_errors;
    list.reverse();
    list.append(&mut back_errors)?;
    Ok(list)
}

/// Returns the errors of all calls of a parser up to the end of an input, in its order. The
/// arguments are those of [`Parser::new`]. The time grows with the input, whereas a parser moves
/// all errors that it has where one is put before them. Returns `Err` if an allocation fails.
pub fn errors_of(
    alloc: Global,
    input: &str,
    style: Option<usize>,
    snippet: Option<String>,
    appended_newline: bool,
    mode: ParseMode,
) -> Result<Vec<ParseError>, AllocError>
    requires { hashes style + length input.now + 2 < 2 ^ 64 }
    ensures errors { IfOk result (λ v. map seen_error v.items
        ≡ all_errors (first_state (seen_mode mode) (chars input.now) style
        (seen_snippet snippet) appended_newline)) }
    ensures empty { input.now ≡ [] → IsOk result }
{
    if input.is_empty() {
        return Ok(Vec::new(alloc));
    }
    let mut parser = Parser::new(alloc, input, style, snippet, appended_newline, mode)?;
    let mut argument = Argument::default();
    let mut faults = Vec::new(alloc);
    let mut errors = Errors {
        front_errors: Vec::new(alloc),
        back_errors: Vec::new(alloc),
    };
    while !parser.is_at_end() {
        add_next(alloc, &mut errors, &mut parser, &mut argument, &mut faults)?;
    }
    into_list(errors)
}
