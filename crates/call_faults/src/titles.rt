//! The ids and the titles of faults, in rustc's words. A function whose name begins with `put_`
//! appends to `out`, and returns `Err` if an allocation fails.

ghost use Rattle.std.specs.Prelude.{◌≡◌, ◌++◌, ◌∷◌, [], OnOk, chars, codes, decimal, length, map};
ghost use Rattle.std.specs.Prelude.{if◌then◌else◌, string_bytes};
ghost use Rattle.std.specs.List.{list_any, slice_get};
ghost use Rattle.rustc_parse_format.specs.Faults.{message};
ghost use Rattle.rustc_parse_format.specs.Views.{seen_piece, seen_count, seen_position};
ghost use Rattle.rustc_parse_format.specs.FaultViews.{seen_fault as seen_text_fault};
ghost use Rattle.placeholder_check.specs.Report.{IsReport, Report};
ghost use Rattle.placeholder_check.specs.Uses.{uses};
ghost use Rattle.call_faults.specs.Views.{seen_fault, seen_given, title_parts};
ghost use Rattle.call_faults.specs.Words.{call_id, count_text, few_title, has_number, is_counted};
ghost use Rattle.call_faults.specs.Words.{is_named, is_number, number_list, name_of, never_used};
ghost use Rattle.call_faults.specs.Words.{numbers_title, plural, separator};
ghost use Rattle.text_faults.specs.Words.{quoted_name};
ghost use Rattle.call_faults.specs.Words.{title, unused_title};

use crate::arguments::FormatArgument;
use crate::checker::CallReport;
use crate::faults::CallFault;
use itoa::Buffer;
use placeholder_check::check;
use rustc_parse_format::{Count, Fault, Piece, Position};
use std::alloc::{AllocError, Global};

impl CallFault<'_> {
    ghost use Rattle.std.specs.Prelude.{◌≡◌};
    ghost use Rattle.call_faults.specs.Views.{seen_fault};
    ghost use Rattle.call_faults.specs.Words.{call_id};

    /// Returns the id of the fault in kebab case, as `unused-argument`: the same for all faults of
    /// a kind. A fault of the format string has the id of its [`Fault`]. Does not allocate.
    #[tactic(auto, unfolding(crate::specs::Words::call_id))]
    pub fn id(&self) -> &'static str
        ensures { result.now ≡ call_id (seen_fault self.now) }
    {
        match self {
            CallFault::PositionalAfterNamed { .. } => "positional-after-named",
            CallFault::RepeatedName { .. } => "repeated-name",
            CallFault::Text(fault) => fault.id(),
            CallFault::MissingName { .. } => "missing-name",
            CallFault::UnknownTrait { .. } => "unknown-trait",
            CallFault::MissingArguments(_) => "missing-argument",
            CallFault::UnusedArguments(_) => "unused-argument",
            CallFault::RedundantArguments(_) => "redundant-argument",
            CallFault::NameUsedByIndex { .. } => "name-used-by-index",
        }
    }
}

/// Adds a number in decimal digits.
pub(crate) fn put_number(out: &mut String, number: usize) -> Result<(), AllocError>
    ensures { OnOk result (string_bytes out.new ≡ string_bytes out.old ++ decimal number) }
{
    let mut digits = Buffer::new();
    out.push_str(digits.format(number))?;
    Ok(())
}

/// Adds how many arguments are given.
fn put_count(out: &mut String, count: usize) -> Result<(), AllocError>
    ensures { OnOk result (string_bytes out.new ≡ string_bytes out.old ++ count_text count) }
{
    if count == 0 {
        out.push_str("no arguments were given")?;
        return Ok(());
    }
    if count == 1 {
        out.push_str("there is 1 argument")?;
        return Ok(());
    }
    out.push_str("there are ")?;
    put_number(out, count)?;
    out.push_str(" arguments")?;
    Ok(())
}

/// Adds a noun, in the plural unless there is one.
pub(crate) fn put_noun(out: &mut String, noun: &str, count: usize) -> Result<(), AllocError>
    ensures { OnOk result (string_bytes out.new ≡ string_bytes out.old ++ plural noun.now count) }
{
    out.push_str(noun)?;
    if count != 1 {
        out.push('s')?;
    }
    Ok(())
}

/// Adds the text between a number and those after it.
fn put_separator(out: &mut String, others: &[usize]) -> Result<(), AllocError>
    ensures { OnOk result (string_bytes out.new ≡ string_bytes out.old ++ separator others.now) }
{
    match others {
        [] => {}
        [_] => out.push_str(" and ")?,
        _ => out.push_str(", ")?,
    }
    Ok(())
}

/// Adds numbers one after the other.
fn put_numbers(out: &mut String, numbers: &[usize]) -> Result<(), AllocError>
    ensures { OnOk result (string_bytes out.new ≡ string_bytes out.old ++ number_list numbers.now) }
{
    let mut rest = numbers;
    while let Some((first, others)) = rest.split_first() {
        put_number(out, *first)?;
        put_separator(out, others)?;
        rest = others;
    }
    Ok(())
}

/// Adds a name between backquotes.
fn put_quoted(out: &mut String, name: &str) -> Result<(), AllocError>
    ensures { OnOk result (string_bytes out.new ≡ string_bytes out.old
        ++ quoted_name (chars name.now)) }
{
    out.push('`')?;
    out.push_str(name)?;
    out.push('`')?;
    Ok(())
}

/// Adds a text and a name between backquotes.
fn put_named(out: &mut String, text: &str, name: &str) -> Result<(), AllocError>
    ensures { OnOk result (string_bytes out.new
        ≡ string_bytes out.old ++ (text.now ++ quoted_name (chars name.now))) }
{
    out.push_str(text)?;
    put_quoted(out, name)?;
    Ok(())
}

/// Adds a name between backquotes, between two texts.
pub(crate) fn put_name_between(
    out: &mut String,
    prefix: &str,
    name: &str,
    suffix: &str,
) -> Result<(), AllocError>
    ensures { OnOk result (string_bytes out.new ≡ string_bytes out.old
        ++ (prefix.now ++ (quoted_name (chars name.now) ++ suffix.now))) }
{
    put_named(out, prefix, name)?;
    out.push_str(suffix)?;
    Ok(())
}

/// Returns whether a width or a precision is an argument by a number that is written.
fn is_counted(count: &Count<'_>) -> bool
    ensures { result ≡ is_counted (seen_count count.now) }
{
    matches!(count, Count::CountIsParam(_))
}

/// Returns whether a position is a number that is written.
fn is_number(position: &Position<'_>) -> bool
    ensures { result ≡ is_number (seen_position position.now) }
{
    matches!(position, Position::ArgumentIs(_))
}

/// Returns whether a piece refers to an argument by a number that is written.
fn has_number(piece: &Piece<'_>) -> bool
    ensures { result ≡ has_number (seen_piece piece.now) }
{
    match piece {
        Piece::Lit(_) => false,
        Piece::NextArgument(argument) => {
            is_number(&argument.position)
                || is_counted(&argument.format.width)
                || is_counted(&argument.format.precision)
        }
    }
}

/// Returns whether pieces refer to an argument by a number that is written.
pub(crate) fn have_numbers(pieces: &[Piece<'_>]) -> bool
    ensures { result ≡ list_any has_number (map seen_piece pieces.now) }
{
    for piece in pieces {
        if has_number(piece) {
            return true;
        }
    }
    false
}

/// Adds the title of numbers that are too large, where `count` arguments are given.
fn put_numbers_title(out: &mut String, numbers: &[usize], count: usize) -> Result<(), AllocError>
    ensures { OnOk result (string_bytes out.new
        ≡ string_bytes out.old ++ numbers_title numbers.now count) }
{
    out.push_str("invalid reference to positional ")?;
    put_noun(out, "argument", numbers.len())?;
    out.push(' ')?;
    put_numbers(out, numbers)?;
    out.push_str(" (")?;
    put_count(out, count)?;
    out.push(')')?;
    Ok(())
}

/// Adds the title of too few arguments, where `count` are given and the placeholders take `total`.
fn put_few_title(out: &mut String, total: usize, count: usize) -> Result<(), AllocError>
    ensures { OnOk result (string_bytes out.new ≡ string_bytes out.old ++ few_title total count) }
{
    put_number(out, total)?;
    put_noun(out, " positional argument", total)?;
    out.push_str(" in format string, but ")?;
    put_count(out, count)?;
    Ok(())
}

/// Returns the name of an argument, or an empty text if it has none.
pub(crate) fn name_of<'a>(arguments: &[FormatArgument<'a>], index: usize) -> &'a str
    ensures { chars result.now ≡ name_of (slice_get (map seen_given arguments.now) index) }
{
    match arguments.get(index) {
        Some(argument) => match argument.name {
            Some(name) => name,
            None => "",
        },
        None => "",
    }
}

/// Returns whether an argument has a name.
fn is_named(arguments: &[FormatArgument<'_>], index: usize) -> bool
    ensures { result ≡ is_named (slice_get (map seen_given arguments.now) index) }
{
    match arguments.get(index) {
        Some(argument) => argument.name.is_some(),
        None => false,
    }
}

/// Returns the label of an argument that is not used.
pub(crate) fn never_used(arguments: &[FormatArgument<'_>], index: usize) -> &'static str
    ensures { result.now ≡ never_used (slice_get (map seen_given arguments.now) index) }
{
    if is_named(arguments, index) {
        "named argument never used"
    } else {
        "argument never used"
    }
}

/// Returns the title of arguments that are not used.
fn unused_title(arguments: &[FormatArgument<'_>], unused_indices: &[usize]) -> &'static str
    ensures { result.now ≡ unused_title (map seen_given arguments.now) unused_indices.now }
{
    match unused_indices {
        [index] => never_used(arguments, *index),
        _ => "multiple unused formatting arguments",
    }
}

/// Adds the title of a fault of the format string.
fn put_text_title(alloc: Global, out: &mut String, fault: &Fault<'_>) -> Result<(), AllocError>
    ensures { OnOk result (string_bytes out.new ≡ string_bytes out.old
        ++ (codes "invalid format string: " ++ (message (seen_text_fault fault.now)).description)) }
{
    let error = fault.error(alloc)?;
    out.push_str("invalid format string: ")?;
    out.push_str(&error.description)?;
    Ok(())
}

/// Adds the title of missing arguments.
fn put_missing(out: &mut String, call: &CallReport<'_>) -> Result<(), AllocError>
    ensures { OnOk result ((r : Report) → IsReport (uses (map seen_piece call.now.pieces.items))
        (length call.now.indices.items) [] r → string_bytes out.new ≡ string_bytes out.old
        ++ (if list_any has_number (map seen_piece call.now.pieces.items)
        then numbers_title r.missing_index (length call.now.indices.items)
        else few_title call.now.parser.next (length call.now.indices.items))) }
{
    let count = call.indices.len();
    if have_numbers(&call.pieces) {
        let alloc = *call.pieces.allocator();
        let report = check(alloc, &call.pieces, count, &[])?;
        put_numbers_title(out, &report.missing_index, count)?;
        return Ok(());
    }
    put_few_title(out, call.parser.curarg(), count)?;
    Ok(())
}

impl<'a> CallReport<'a> {
    ghost use Rattle.std.specs.Prelude.{◌≡◌, ◌++◌, [], OnOk, length, map, string_bytes};
    ghost use Rattle.rustc_parse_format.specs.Views.{seen_piece};
    ghost use Rattle.placeholder_check.specs.Report.{IsReport, Report};
    ghost use Rattle.placeholder_check.specs.Uses.{uses};
    ghost use Rattle.call_faults.specs.Views.{seen_fault, title_parts};
    ghost use Rattle.call_faults.specs.Words.{title};

    /// Adds the title of one of the faults to the end of `out`, as rustc has it. Returns `Err` if
    /// an allocation fails; a part may then be at the end of `out`.
    #[tactic(auto, unfolding(crate::specs::Words::title))]
    pub fn put_title(&self, out: &mut String, fault: &CallFault<'a>) -> Result<(), AllocError>
        ensures { OnOk result ((r : Report) → IsReport (uses (map seen_piece self.now.pieces.items))
            (length self.now.indices.items) [] r → string_bytes out.new ≡ string_bytes out.old
            ++ title (title_parts self.now r.missing_index) (seen_fault fault.now)) }
    {
        match fault {
            CallFault::PositionalAfterNamed { .. } => {
                out.push_str("positional arguments cannot follow named arguments")?;
                Ok(())
            }
            CallFault::RepeatedName { index, .. } => put_named(
                out,
                "duplicate argument named ",
                name_of(self.arguments, *index),
            ),
            CallFault::Text(fault) => put_text_title(*self.pieces.allocator(), out, fault),
            CallFault::MissingName { name, .. } => {
                put_named(out, "there is no argument named ", name)?;
                Ok(())
            }
            CallFault::UnknownTrait { ty, .. } => {
                put_named(out, "unknown format trait ", ty)?;
                Ok(())
            }
            CallFault::MissingArguments(_) => {
                put_missing(out, self)?;
                Ok(())
            }
            CallFault::UnusedArguments(unused_indices) => {
                out.push_str(unused_title(self.arguments, unused_indices))?;
                Ok(())
            }
            CallFault::RedundantArguments(redundant_indices) => {
                put_noun(out, "redundant argument", redundant_indices.len())
            }
            CallFault::NameUsedByIndex { index, .. } => {
                put_name_between(
                    out,
                    "named argument ",
                    name_of(self.arguments, *index),
                    " is not used by name",
                )
            }
        }
    }
}
