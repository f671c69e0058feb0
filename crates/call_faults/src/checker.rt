//! The check of a call.

ghost use Rattle.std.specs.Prelude.{◌≡◌, ◌+◌, ◌<◌, ◌^◌, ◌↔◌, [], IfOk, IsTrue, OnOk, chars};
ghost use Rattle.std.specs.Prelude.{is_none, length, map, option_map};
ghost use Rattle.std.specs.List.{All};
ghost use Rattle.rustc_parse_format.specs.Call.{pieces_of};
ghost use Rattle.rustc_parse_format.specs.Views.{seen_piece, seen_snippet};
ghost use Rattle.rustc_parse_format.specs.State.{after_all, calls};
ghost use Rattle.rustc_parse_format.specs.World.{hashes, pieces_in};
ghost use Rattle.call_faults.specs.CallFaults.{is_warning};
ghost use Rattle.call_faults.specs.Calls.{call_faults, kept_indices};
ghost use Rattle.call_faults.specs.Clean.{IsClean};
ghost use Rattle.placeholder_check.specs.Views.{text as seen_text};
ghost use Rattle.rustc_parse_format.specs.FaultViews.{seen_fault as seen_text_fault};
ghost use Rattle.call_faults.specs.Views.{seen_fault, seen_given, start};
ghost use Rattle.call_faults.specs.Spots.{counts_before};
ghost use Rattle.text_faults.specs.Texts.{text_fault};

use crate::arguments::{FormatArgument, arguments_of};
use crate::comparison::{compare, indices_of};
use crate::faults::CallFault;
use crate::lookups::lookups_of;
use crate::spots::counts_before;
use rustc_parse_format::{Fault, ParseMode, Parser, Piece, Reading, read_all};
use std::alloc::{AllocError, Global};
use text_faults::text_fault;

/// The format string of a call.
#[derive(Clone, Copy)]
pub struct FormatString<'a> {
    /// The text that it stands for.
    pub text: &'a str,
    /// `None` for an ordinary literal, and `Some` of the number of hashes for a raw one.
    pub style: Option<usize>,
    /// The literal as it is in the source, if it is known.
    pub snippet: Option<&'a str>,
    /// Whether the text ends in a newline that the source does not have, as that of `println!`.
    pub appended_newline: bool,
    /// Whether a name that no argument has is a variable, as it is where the literal stands in the
    /// call itself.
    pub captures_variables: bool,
}

/// A call that was checked.
#[derive(Drop)]
pub struct CallReport<'a> {
    /// The arguments that are given.
    pub arguments: &'a [FormatArgument<'a>],
    /// The indices of the arguments that count: of those whose name is not that of an earlier one.
    /// Empty if an argument without a name after one with a name ended the check.
    pub indices: Vec<usize>,
    /// The pieces of the format string.
    pub pieces: Vec<Piece<'a>>,
    /// Of each piece, how many placeholders stand before it.
    pub counts: Vec<usize>,
    /// The parser after them, which has the places of the placeholders.
    pub parser: Parser<'a>,
    /// The faults, in the order in which rustc reports them.
    pub faults: Vec<CallFault<'a>>,
}

/// Returns a text as a string. Returns `Err` if an allocation fails.
fn owned_string(alloc: Global, text: Option<&str>) -> Result<Option<String>, AllocError>
    ensures { IfOk result (λ o. seen_snippet o ≡ option_map seen_text text.entry) }
{
    match text {
        None => Ok(None),
        Some(text) => Ok(Some(String::from_str(alloc, text)?)),
    }
}

/// Returns the fault of a format string that rustc shows, or `None` if it is in the grammar.
/// Returns `Err` if an allocation fails.
fn fault_of<'a>(alloc: Global, string: FormatString<'a>) -> Result<Option<Fault<'a>>, AllocError>
    requires { hashes string.style + length string.text.now + 2 < 2 ^ 64 }
    ensures { IfOk result (λ o. option_map seen_text_fault o ≡ text_fault (start string.entry)) }
{
    let snippet = owned_string(alloc, string.snippet)?;
    let mut parser = Parser::new(
        alloc,
        string.text,
        string.style,
        snippet,
        string.appended_newline,
        ParseMode::Format,
    )?;
    text_fault(alloc, &mut parser)
}

/// Returns the faults of a call whose format string has these pieces, and puts the indices of
/// the arguments that count into `indices`. `is_read` is whether the string is in the grammar.
/// Returns `Err` if an allocation fails.
fn faults_of<'a>(
    alloc: Global,
    string: FormatString<'a>,
    is_read: bool,
    pieces: &[Piece<'a>],
    call_arguments: &[FormatArgument<'a>],
    indices: &mut Vec<usize>,
) -> Result<Vec<CallFault<'a>>, AllocError>
    requires { hashes string.style + length string.text.now + 2 < 2 ^ 64 }
    ensures kept { OnOk result (indices.old.items ≡ []
        → indices.new.items ≡ kept_indices (map seen_given call_arguments.now)) }
    ensures faults { IfOk result (λ v. is_none (text_fault (start string.entry)) ≡ is_read
        → map seen_fault v.items ≡ call_faults string.entry.captures_variables
        (map seen_given call_arguments.now) (text_fault (start string.entry))
        (map seen_piece pieces.now)) }
{
    let mut faults = Vec::new(alloc);
    let Some(mut arguments) = arguments_of(alloc, &mut faults, call_arguments)? else {
        return Ok(faults);
    };
    *indices = indices_of(alloc, &arguments.list)?;
    if !is_read {
        if let Some(fault) = fault_of(alloc, string)? {
            faults.push(CallFault::Text(fault))?;
        }
        return Ok(faults);
    }
    let lookups = lookups_of(alloc, pieces)?;
    compare(
        alloc,
        &mut faults,
        string.captures_variables,
        &mut arguments,
        call_arguments.len(),
        &lookups,
    )?;
    Ok(faults)
}

/// Checks a call of a macro that takes a format string: reads the string, compares its placeholders
/// with the arguments that are given, in the order of the source, and returns its pieces and the
/// faults, as rustc reports them. A placeholder's spans are those of the parser.
///
/// The number of hashes, the length of the text in bytes, and 2 must together fit into a `usize`.
/// Returns `Err` if an allocation fails.
pub fn call_faults<'a>(
    alloc: Global,
    string: FormatString<'a>,
    arguments: &'a [FormatArgument<'a>],
) -> Result<CallReport<'a>, AllocError>
    requires { hashes string.style + length string.text.now + 2 < 2 ^ 64 }
    // The pieces and the parser are those of the calls of a parser at the start of the string, and
    // the faults are those that the definition names, in its order.
    ensures walk { IfOk result (λ x. let s = start string.entry in
        (map seen_piece x.pieces.items ≡ pieces_in s.world (pieces_of (calls s)))
        × (x.parser ≡ after_all s (calls s))) }
    ensures arguments { IfOk result (λ x. x.arguments ≡ arguments.entry) }
    ensures kept { IfOk result (λ x. x.indices.items
        ≡ kept_indices (map seen_given arguments.now)) }
    ensures counts { IfOk result (λ x. x.counts.items
        ≡ counts_before 0 (map seen_piece x.pieces.items)) }
    ensures faults { IfOk result (λ x. map seen_fault x.faults.items
        ≡ call_faults string.entry.captures_variables (map seen_given arguments.now)
        (text_fault (start string.entry)) (map seen_piece x.pieces.items)) }

    // Nothing but warnings is found exactly if the call is clean.
    ensures clean { IfOk result (λ x. All (λ f. IsTrue (is_warning f)) (map seen_fault
        x.faults.items)
        ↔ IsClean string.entry.captures_variables (map seen_given arguments.now)
        (chars string.entry.text.now)) }
{
    let snippet = owned_string(alloc, string.snippet)?;
    let Reading { pieces, parser } = read_all(
        alloc,
        string.text,
        string.style,
        snippet,
        string.appended_newline,
        ParseMode::Format,
    )?;
    let is_read = parser.errors().is_empty();
    let mut indices = Vec::new(alloc);
    let faults = faults_of(alloc, string, is_read, &pieces, arguments, &mut indices)?;
    let counts = counts_before(alloc, &pieces)?;
    Ok(CallReport {
        arguments,
        indices,
        pieces,
        counts,
        parser,
        faults,
    })
}
