//! Writes the calls of a parser, up to the end of the input, as records.

ghost use Rattle.std.specs.Prelude.{◌≡◌, ◌<◌, ◌≤◌, ◌^◌, if◌then◌else◌, [], List, None, Option};
ghost use Rattle.std.specs.Prelude.{Some, IfNone, IfOk, IfSome, OnOk, drop, length, map};
ghost use Rattle.std.specs.Prelude.{option_map, take};
ghost use Rattle.rustc_parse_format.specs.Views.{seen_argument, seen_mode, seen_spec, seen_taken};
ghost use Rattle.rustc_parse_format.specs.Types.{NextArgument};
ghost use Rattle.flat_reading.specs.declared.records.Step.{Step as StepRecord};
ghost use Rattle.flat_reading.specs.Events.{end_of, event, events, finders_of, fronts_of};
ghost use Rattle.flat_reading.specs.Events.{given_piece, is_default, lookaheads, peek_meant};
ghost use Rattle.flat_reading.specs.Events.{position, spec_count, specs_in, states, step_meant};
ghost use Rattle.flat_reading.specs.Interface.{SameBuffer};
ghost use Rattle.flat_reading.specs.Meaning.{piece_meant, spec_at};
ghost use Rattle.flat_reading.specs.Progress.{Adds, IsAdded, IsOnItsWay, IsReadAt, IsUpTo};
ghost use Rattle.flat_reading.specs.Progress.{MakesCall, PlaceholderStands, RunStands, SameAfter};

use crate::end::add_end;
use crate::finders::Finders;
use crate::flat::{put_argument, put_no_piece, put_plain_argument, put_text};
use crate::near::texts_of;
use crate::reading::Reading;
use crate::records::{Peek, Step};
use crate::specification::SpecBuffer;
use crate::state::{BLANK, add_peek, put_closed_place, put_state};
use crate::texts::run_extent;
use rustc_parse_format::{Argument, NextPiece, ParseMode, Parser, PieceKind};
use std::alloc::{AllocError, Global};

/// Writes a placeholder of a literal that may have escapes, which begins at `start`, when the
/// next implicit argument had the index `next`. Returns `Err` if an allocation fails.
#[inline(never)]
fn put_escaped_argument(
    alloc: Global,
    input: &str,
    mode: ParseMode,
    argument: &Argument<'_>,
    start: usize,
    next: usize,
    specs: &mut SpecBuffer<'_>,
    step: &mut Step,
) -> Result<(), AllocError>
    requires read { IsReadAt input.now (seen_mode mode) next start
        (Some (NextArgument (seen_argument argument.now))) }
    requires room { specs.old.count < usize.MAX }
    ensures described { OnOk result (specs.new.count ≤ length specs.old.records.now
        → piece_meant input.now
        (spec_at input.now specs.new.records.now step.new.spec) step.new
        ≡ Some (NextArgument (seen_argument argument.now))) }
    ensures number { OnOk result (step.new.spec ≤ specs.new.count) }
    ensures adds { OnOk result (Adds (if is_default (seen_spec argument.now.format)
        then 0 else 1) specs.old specs.new) }
    ensures room { SameBuffer specs.old.records specs.new.records }
    ensures others { OnOk result (SameAfter step.old step.new) }
{
    let texts = texts_of(alloc, mode, input, start, next, argument)?;
    put_argument(argument, &texts, specs, step);
    Ok(())
}

/// Writes the piece that a call returned. The call began at `start`, when the next implicit
/// argument had the index `next`. Returns `Err` if an allocation fails.
#[tactic(auto, unfolding(crate::specs::Meaning::piece_meant))]
#[inline(always)]
fn put_piece(
    alloc: Global,
    reading: &Reading<'_>,
    argument: &Argument<'_>,
    piece: &Option<PieceKind<'_>>,
    start: usize,
    next: usize,
    specs: &mut SpecBuffer<'_>,
    step: &mut Step,
) -> Result<(), AllocError>
    requires last { RunStands reading.now.input.now step.old.offset
        (option_map (seen_taken argument.now) piece.now) }
    requires stands { IfNone reading.now.escapes
        (PlaceholderStands reading.now.input.now reading.now.offset
        (option_map (seen_taken argument.now) piece.now)) }
    requires read { IfSome reading.now.escapes
        (λ m. IsReadAt reading.now.input.now (seen_mode m) next start
        (option_map (seen_taken argument.now) piece.now)) }
    requires room { specs.old.count < usize.MAX }
    ensures described { OnOk result (specs.new.count ≤ length specs.old.records.now
        → piece_meant reading.now.input.now
        (spec_at reading.now.input.now specs.new.records.now step.new.spec) step.new
        ≡ option_map (seen_taken argument.now) piece.now) }
    ensures number { OnOk result (step.new.spec ≤ specs.new.count) }
    ensures adds { OnOk result
        (Adds (specs_in (option_map (seen_taken argument.now) piece.now)) specs.old
        specs.new) }
    ensures room { SameBuffer specs.old.records specs.new.records }
    ensures others { OnOk result (SameAfter step.old step.new) }
{
    match piece {
        None => put_no_piece(step),
        Some(PieceKind::Lit(text)) => put_text(run_extent(step.offset, text), step),
        Some(PieceKind::NextArgument) => match reading.escapes {
            Some(mode) => {
                return put_escaped_argument(
                    alloc,
                    reading.input,
                    mode,
                    argument,
                    start,
                    next,
                    specs,
                    step,
                );
            }
            None => put_plain_argument(argument, reading.input, reading.offset, specs, step),
        },
    }
    Ok(())
}

/// Makes the call with this number and writes it into its step. Returns `Err` if an allocation
/// fails.
#[inline(always)]
fn step<'a>(
    alloc: Global,
    parser: &mut Parser<'a>,
    finders: &mut Finders,
    reading: &Reading<'_>,
    argument: &mut Argument<'a>,
    number: usize,
    specs: &mut SpecBuffer<'_>,
    step: &mut Step,
) -> Result<(), AllocError>
    requires ready { IsOnItsWay reading.now parser.old }
    requires room { specs.old.count < usize.MAX }
    ensures described { OnOk result (specs.new.count ≤ length specs.old.records.now
        → step_meant reading.now.input.now specs.new.records.now step.new
        ≡ event parser.old) }
    ensures number { OnOk result (step.new.spec ≤ specs.new.count) }
    ensures adds { OnOk result (Adds (specs_in
        (given_piece parser.old)) specs.old specs.new) }
    ensures room { SameBuffer specs.old.records specs.new.records }
    ensures call { OnOk result (MakesCall number reading.now parser.old parser.new finders.old
        finders.new) }
    ensures read { OnOk result (step.new.offset
        ≡ position parser.new.input parser.new.rest) }
{
    let start = parser.position();
    let next = parser.curarg();
    let faults = parser.errors().len();
    let places = parser.arg_places().len();
    let NextPiece {
        piece,
        front_errors,
    } = parser.next_into(argument)?;
    put_state(parser, step);
    put_closed_place(parser, places, &mut step.has_place, &mut step.place);
    let count = parser.errors().len() - faults;
    finders.add(alloc, number, front_errors, count)?;
    put_piece(alloc, reading, argument, &piece, start, next, specs, step)?;
    Ok(())
}

/// Makes the call with this number, whose step does not fit. Returns the byte offset up to
/// which the input is then read, or `Err` if an allocation fails. (A copy of `reading` is
/// passed, so that its fields stay in registers where steps fit.)
#[cold]
#[inline(never)]
fn step_without_room<'a>(
    alloc: Global,
    parser: &mut Parser<'a>,
    finders: &mut Finders,
    reading: Reading<'_>,
    argument: &mut Argument<'a>,
    number: usize,
    specs: &mut SpecBuffer<'_>,
) -> Result<usize, AllocError>
    requires ready { IsOnItsWay reading parser.old }
    requires room { specs.old.count < usize.MAX }
    ensures added { OnOk result ((full : List StepRecord) → length full ≤ number
        → IsAdded reading.entry.input.now (event parser.old) number specs.new.count full
        full specs.new.records.now) }
    ensures adds { OnOk result (Adds (specs_in
        (given_piece parser.old)) specs.old specs.new) }
    ensures room { SameBuffer specs.old.records specs.new.records }
    ensures call { OnOk result (MakesCall number reading.entry parser.old parser.new finders.old
        finders.new) }
    ensures read { IfOk result (λ n. n ≡ position parser.new.input parser.new.rest) }
{
    let mut spare_step = BLANK;
    step(
        alloc,
        parser,
        finders,
        &reading,
        argument,
        number,
        specs,
        &mut spare_step,
    )?;
    Ok(spare_step.offset)
}

/// Makes the call with this number and writes it into the step with this index, if there is
/// one. Returns the byte offset up to which the input is then read, or `Err` if an allocation
/// fails.
#[inline(always)]
fn add_step<'a>(
    alloc: Global,
    parser: &mut Parser<'a>,
    finders: &mut Finders,
    reading: &Reading<'_>,
    argument: &mut Argument<'a>,
    number: usize,
    steps: &mut [Step],
    specs: &mut SpecBuffer<'_>,
) -> Result<usize, AllocError>
    requires ready { IsOnItsWay reading.now parser.old }
    requires room { specs.old.count < usize.MAX }
    ensures added { OnOk result
        (IsAdded reading.now.input.now (event parser.old) number specs.new.count steps.old
        steps.new specs.new.records.now) }
    ensures adds { OnOk result (Adds (specs_in
        (given_piece parser.old)) specs.old specs.new) }
    ensures room { SameBuffer specs.old.records specs.new.records }
    ensures call { OnOk result (MakesCall number reading.now parser.old parser.new finders.old
        finders.new) }
    ensures read { IfOk result (λ n. n ≡ position parser.new.input parser.new.rest) }
{
    if number < steps.len() {
        step(
            alloc,
            parser,
            finders,
            reading,
            argument,
            number,
            specs,
            &mut steps[number],
        )?;
        Ok(steps[number].offset)
    } else {
        step_without_room(alloc, parser, finders, *reading, argument, number, specs)
    }
}

/// Makes the calls before the end of the input, and returns their number. The steps, the
/// specifications and the peeks that fit are written. Returns `Err` if an allocation fails.
#[inline(always)]
fn add_steps(
    alloc: Global,
    parser: &mut Parser<'_>,
    finders: &mut Finders,
    reading: &Reading<'_>,
    steps: &mut [Step],
    specs: &mut SpecBuffer<'_>,
    peeks: &mut [Peek],
) -> Result<usize, AllocError>
    requires ready { IsOnItsWay reading.now parser.old }
    requires small { length parser.old.rest < 2 ^ 63 }
    requires none { finders.old ≡ record { calls = []; front_count = 0 } }
    requires start { parser.old.rest ≡ parser.old.input }
    requires empty { specs.old.count ≡ 0 }
    ensures end { OnOk result (parser.new.rest ≡ []) }
    ensures small { IfOk result (λ k. k < 2 ^ 63) }
    ensures up_to { IfOk result (λ k. IsUpTo reading.now.input.now parser.old
        (states parser.new) parser.new k specs.new.count finders.new steps.new
        specs.new.records.now peeks.new) }
    ensures specs { OnOk result (Adds specs.new.count specs.old specs.new) }
    ensures room { SameBuffer specs.old.records specs.new.records }
    ensures kept_steps { IfOk result (λ k. drop k steps.new ≡ drop k steps.old) }
    ensures kept_peeks { IfOk result (λ k. drop k peeks.new ≡ drop k peeks.old) }
{
    // (an empty input needs no argument)
    if reading.input.is_empty() {
        return Ok(0);
    }
    let mut argument = Argument::default();
    let mut count = 0;
    let mut offset = 0;
    while offset < reading.input.len() {
        add_peek(parser, count, peeks);
        offset = add_step(
            alloc,
            parser,
            finders,
            reading,
            &mut argument,
            count,
            steps,
            specs,
        )?;
        count += 1;
    }
    Ok(count)
}

/// Makes all calls up to and including the one at the end of the input, and returns their
/// number. The steps, the specifications and the peeks that fit are written. Returns `Err` if
/// an allocation fails.
#[inline(always)]
pub fn walk(
    alloc: Global,
    parser: &mut Parser<'_>,
    finders: &mut Finders,
    reading: &Reading<'_>,
    steps: &mut [Step],
    specs: &mut SpecBuffer<'_>,
    peeks: &mut [Peek],
) -> Result<usize, AllocError>
    requires ready { IsOnItsWay reading.now parser.old }
    requires small { length parser.old.rest < 2 ^ 63 }
    requires none { finders.old ≡ record { calls = []; front_count = 0 } }
    requires start { parser.old.rest ≡ parser.old.input }
    requires empty { specs.old.count ≡ 0 }
    ensures count { IfOk result (λ k. k ≡ length (states parser.old)) }
    ensures specs { OnOk result (Adds (spec_count parser.old) specs.old specs.new) }
    ensures room { SameBuffer specs.old.records specs.new.records }
    ensures written { IfOk result (λ k. k ≤ length steps.old → specs.new.count
        ≤ length specs.old.records.now
        → map (step_meant reading.now.input.now (take specs.new.count specs.new.records.now))
        (take k steps.new) ≡ events parser.old) }
    ensures seen { IfOk result (λ k. k ≤ length peeks.old
        → map peek_meant (take k peeks.new) ≡ lookaheads parser.old) }
    ensures state { OnOk result (parser.new ≡ end_of parser.old) }
    ensures finders { OnOk result (finders.new.calls ≡ finders_of parser.old) }
    ensures front_count { OnOk result (finders.new.front_count
        ≡ fronts_of parser.old) }
    ensures kept_steps { IfOk result (λ k. drop k steps.new ≡ drop k steps.old) }
    ensures kept_peeks { IfOk result (λ k. drop k peeks.new ≡ drop k peeks.old) }
{
    let count = add_steps(alloc, parser, finders, reading, steps, specs, peeks)?;
    add_peek(parser, count, peeks);
    add_end(parser, count, steps)?;
    Ok(count + 1)
}
