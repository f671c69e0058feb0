//! Writes the call of a parser at the end of the input as a record.

ghost use Rattle.std.specs.Prelude.{◌≡◌, ℕ, [], List, OnOk};
ghost use Rattle.rustc_parse_format.specs.State.{state_after, next_call};
ghost use Rattle.flat_reading.specs.declared.records.Spec.{Spec as SpecRecord};
ghost use Rattle.flat_reading.specs.Events.{event, step_meant};
ghost use Rattle.flat_reading.specs.Progress.{IsAdded};

use crate::flat::put_no_piece;
use crate::records::Step;
use crate::state::{BLANK, put_state};
use rustc_parse_format::{Argument, Parser};
use std::alloc::AllocError;

/// Makes the call at the end of the input, with a source literal. Returns `Err` if an
/// allocation fails.
#[inline(always)]
fn end_literal(parser: &mut Parser<'_>) -> Result<(), AllocError>
    requires { parser.old.rest ≡ [] }
    ensures { OnOk result (parser.new
        ≡ state_after parser.old (next_call parser.old)) }
{
    // (it is at the end, and where that is tested, the compiler leaves the argument out)
    if parser.is_at_end() {
        let _none = parser.next_into(&mut Argument::default())?;
    }
    Ok(())
}

/// Makes the call at the end of the input, which does nothing without a source literal. Returns
/// `Err` if an allocation fails.
#[inline(always)]
fn end(parser: &mut Parser<'_>) -> Result<(), AllocError>
    requires { parser.old.rest ≡ [] }
    ensures { OnOk result (parser.new
        ≡ state_after parser.old (next_call parser.old)) }
{
    if parser.is_source_literal() {
        end_literal(parser)?;
    }
    Ok(())
}

/// Makes the call at the end of the input and writes it into its step. The call returns no
/// piece and finds no error. Returns `Err` if an allocation fails.
#[inline(always)]
fn put_end(parser: &mut Parser<'_>, step: &mut Step) -> Result<(), AllocError>
    requires { parser.old.rest ≡ [] }
    ensures described { OnOk result ((input : List ℕ) (specs : List SpecRecord)
        → step_meant input specs step.new ≡ event parser.old) }
    ensures number { OnOk result (step.new.spec ≡ 0) }
    ensures state { OnOk result (parser.new
        ≡ state_after parser.old (next_call parser.old)) }
{
    end(parser)?;
    put_state(parser, step);
    step.has_place = 0;
    put_no_piece(step);
    Ok(())
}

/// Makes the call at the end of the input and writes it into the step with this index, if there
/// is one. Returns `Err` if an allocation fails.
#[inline(always)]
pub fn add_end(parser: &mut Parser<'_>, number: usize, steps: &mut [Step]) -> Result<(), AllocError>
    requires { parser.old.rest ≡ [] }
    ensures added { OnOk result
        ((input : List ℕ) (count : ℕ) (specs : List SpecRecord)
        → IsAdded input (event parser.old) number count steps.old steps.new specs) }
    ensures state { OnOk result (parser.new
        ≡ state_after parser.old (next_call parser.old)) }
{
    if number >= steps.len() {
        let mut spare_step = BLANK;
        put_end(parser, &mut spare_step)?;
        return Ok(());
    }
    put_end(parser, &mut steps[number])?;
    Ok(())
}
