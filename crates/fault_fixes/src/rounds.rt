//! The literal that the suggestions of its faults make of it, round by round.

ghost use Rattle.std.specs.Prelude.{◌≡◌, ◌≤◌, ◌+◌, ◌<◌, ◌^◌, IfNone, IfOk, IfSome, IsOk, IsTrue};
ghost use Rattle.std.specs.Prelude.{chars, length, map};
ghost use Rattle.rustc_parse_format.specs.FaultIds.{fault_id};
ghost use Rattle.rustc_parse_format.specs.Literal.{IsSource};
ghost use Rattle.rustc_parse_format.specs.Views.{seen_mode};
ghost use Rattle.rustc_parse_format.specs.FaultViews.{seen_fault};
ghost use Rattle.rustc_parse_format.specs.World.{hashes};
ghost use Rattle.fault_fixes.specs.Fixing.{FixedLiteral as FixedValue, IsRound};
ghost use Rattle.fault_fixes.specs.Rounds.{IsFixed, count_left, faulty_count, ids, is_part};
ghost use Rattle.fault_fixes.specs.Rounds.{best_with};
ghost use Rattle.fault_fixes.specs.SeenEdits.{seen_best, seen_fixed};

use crate::fixes::{FixedLiteral, round};
use rustc_parse_format::{Argument, Fault, ParseMode, Parser};
use std::alloc::{AllocError, Global};

/// The most rounds of edits: those of a round may make others possible.
const MOST_ROUNDS: usize = 8;

/// The faults of a text.
#[derive(Drop)]
struct Faults<'a> {
    /// All of them, in the order in which they are found.
    list: Vec<Fault<'a>>,
    /// How many calls of a parser find any.
    calls: usize,
}

/// Returns the faults of a text. Returns `Err` if an allocation fails, or if the text has 2^59
/// bytes or more.
fn faults_of(alloc: Global, text: &str, mode: ParseMode) -> Result<Faults<'_>, AllocError>
    ensures ids { IfOk result (λ f. map fault_id (map seen_fault f.list.items)
        ≡ ids (seen_mode mode) text.now) }
    ensures calls { IfOk result (λ f. f.calls ≡ faulty_count (seen_mode mode) text.now) }
{
    if text.len() >= 1 << 59 {
        return Err(AllocError);
    }
    let mut parser = Parser::new(alloc, text, None, None, false, mode)?;
    let mut argument = Argument::default();
    let mut list = Vec::new(alloc);
    let mut calls = 0;
    while !parser.is_at_end() {
        let count = list.len();
        parser.next_with_faults(&mut argument, &mut list)?;
        if count < list.len() {
            calls += 1;
        }
    }
    Ok(Faults { list, calls })
}

/// Returns whether faults are some of others, in their order, by their kinds alone.
fn is_part(part: &[Fault<'_>], all_faults: &[Fault<'_>]) -> bool
    ensures { result ≡ is_part (map fault_id (map seen_fault part.now))
        (map fault_id (map seen_fault all_faults.now)) }
{
    let mut count = 0;
    for fault in all_faults {
        if count == part.len() {
            return true;
        }
        if part[count].id() == fault.id() {
            count += 1;
        }
    }
    count == part.len()
}

/// Returns how many calls over a text find a fault, or `None` if not all of these faults are old
/// ones, in their order. Returns `Err` as `faults_of` does.
fn count_left(
    alloc: Global,
    old: &[Fault<'_>],
    text: &str,
    mode: ParseMode,
) -> Result<Option<usize>, AllocError>
    ensures { IfOk result (λ o. o ≡ count_left (map fault_id (map seen_fault old.now))
        (seen_mode mode) text.now) }
{
    let faults = faults_of(alloc, text, mode)?;
    if is_part(faults.list.as_slice(), old) {
        Ok(Some(faults.calls))
    } else {
        Ok(None)
    }
}

/// The best literal so far.
#[derive(Drop)]
struct Best {
    /// The literal, or `None` if none is better than that of the start.
    literal: Option<FixedLiteral>,
    /// How many of its calls find a fault, or of those at the start.
    calls: usize,
}

/// Keeps a literal if it is better. `calls` is how many of its calls find a fault, or `None` if
/// there is a new one.
fn offer(best: &mut Best, literal: FixedLiteral, calls: Option<usize>)
    ensures { seen_best best.new ≡ best_with (seen_best best.old) (seen_fixed literal) calls }
{
    if let Some(calls) = calls {
        if calls < best.calls {
            best.literal = Some(literal);
            best.calls = calls;
        }
    }
}

/// Returns what one more round of edits makes of a literal, or `None` if there is no edit. Returns
/// `Err` if an allocation fails, or if the literal or its text has 2^59 bytes or more.
fn next_round(
    alloc: Global,
    literal: &FixedLiteral,
    style: Option<usize>,
    appended_newline: bool,
    mode: ParseMode,
) -> Result<Option<FixedLiteral>, AllocError>
    requires { hashes style ≤ length (seen_fixed literal.now).snippet }
    ensures some { IfOk result (λ o. IfSome o (λ f. IsRound (seen_mode mode)
        (seen_fixed literal.now).text style (seen_fixed literal.now).snippet appended_newline
        (seen_fixed f))) }
    ensures none { IfOk result (λ o. IfNone o ((f : FixedValue) → IsRound (seen_mode mode)
        (seen_fixed literal.now).text style (seen_fixed literal.now).snippet appended_newline f
        → ⊥)) }
{
    let text = literal.text.as_str();
    let snippet = literal.snippet.as_str();
    if text.len() >= 1 << 59 {
        return Err(AllocError);
    }
    if snippet.len() >= 1 << 59 {
        return Err(AllocError);
    }
    Ok(round(alloc, text, style, snippet, appended_newline, mode)?)
}

/// Returns the source literal of an input with the edits that its faults suggest, and the text with
/// the same edits, which the literal then stands for. Fewer calls of a parser over it find a fault,
/// and each of these faults the input has too.
///
/// The edits of all faults are made in a round, and then those that the result suggests, in at most
/// eight rounds. Of all that the literal becomes without a new fault, the result is what has the
/// fewest calls that find one, and of two with as few the earlier one. Faults are compared by their
/// kinds, as [`Fault::id`] names them.
///
/// Returns `None` if there is no such literal: if there is no edit, if all lead to new faults, or
/// if the snippet is not the source literal of the input, so that no edit is made in a foreign
/// literal. The arguments are those of [`Parser::new`]: the number of hashes, the byte length of
/// the input and 2 must add up to less than 2^64. Returns `Err` if an allocation fails, or if there
/// is an edit and a literal or its text has 2^59 bytes or more.
pub fn fix(
    alloc: Global,
    input: &str,
    style: Option<usize>,
    snippet: &str,
    appended_newline: bool,
    mode: ParseMode,
) -> Result<Option<FixedLiteral>, AllocError>
    requires { hashes style + length input.now + 2 < 2 ^ 64 }
    ensures some { IfOk result (λ o. IfSome o (λ f. IsFixed (seen_mode mode) input.now style
        snippet.now appended_newline (seen_fixed f))) }
    ensures none { IfOk result (λ o. IfNone o ((f : FixedValue)
        → IsFixed (seen_mode mode) input.now style snippet.now appended_newline f → ⊥)) }
    ensures foreign { (IsSource (chars input.now) style (chars snippet.now) appended_newline → ⊥)
        → IsOk result }
{
    let Some(first_literal) = round(alloc, input, style, snippet, appended_newline, mode)? else {
        return Ok(None);
    };
    let old = faults_of(alloc, input, mode)?;
    let mut best = Best {
        literal: None,
        calls: old.calls,
    };
    let mut next_literal = Some(first_literal);
    let mut rounds = 0;
    while rounds < MOST_ROUNDS {
        let Some(literal) = next_literal else {
            return Ok(best.literal);
        };
        let calls = count_left(alloc, old.list.as_slice(), literal.text.as_str(), mode)?;
        if let Some(0) = calls {
            offer(&mut best, literal, calls);
            return Ok(best.literal);
        }
        next_literal = next_round(alloc, &literal, style, appended_newline, mode)?;
        offer(&mut best, literal, calls);
        rounds += 1;
    }
    Ok(best.literal)
}
