//! What inlining makes of a call.

ghost use Rattle.std.specs.Prelude.{◌≡◌, ◌+◌, ◌<◌, ◌^◌, ◌++◌, List, [], IfOk, IsTrue, OnOk, Some};
ghost use Rattle.std.specs.Prelude.{Contains, length, map, slice_get};
ghost use Rattle.rustc_parse_format.specs.World.{hashes};
ghost use Rattle.rust_trees.specs.Forests.{IsPair};
ghost use Rattle.rust_trees.specs.Leaves.{leaf};
ghost use Rattle.format_calls.specs.Arguments.{AreArguments};
ghost use Rattle.format_calls.specs.Strings.{is_string_by};
ghost use Rattle.format_calls.specs.declared.listing.Call.{Call as CallValue};
ghost use Rattle.format_calls.specs.declared.split.Argument.{Argument as ArgumentValue};
ghost use Rattle.source_lint.specs.CallLists.{Gives};
ghost use Rattle.source_lint.specs.Readings.{Reads, name_at, scope};
ghost use Rattle.source_report.specs.declared.report.Finding.{Finding as FindingValue};
ghost use Rattle.inlined_arguments.specs.Edits.{Edit as EditValue};
ghost use Rattle.inlined_arguments.specs.Views.{seen_call, seen_edit};
ghost use Rattle.file_inlines.specs.CallInlines.{AreEdits, Inlines, InlinesAt, InlinesOn};
ghost use Rattle.file_inlines.specs.CallInlines.{InlinesLiteral, InlinesOne, Makes};
ghost use Rattle.file_inlines.specs.CallInlines.{has_const_form, is_format_alone, is_unread};
ghost use Rattle.file_inlines.specs.Terms.{seen_terms};
ghost use Rattle.file_inlines.specs.declared.calls.CallInlining.{CallInlining as InliningValue};

use crate::edits::edits_of;
use crate::sources::with_sources;
use crate::terms::{Terms, is_inlined};
use asm_lint::{appends_newline, read_literal};
use call_faults::FormatString;
use format_calls::{Argument, Call, Part, Rule, arguments, extent_of, is_standard, token_at};
use inlined_arguments::{Call as FormatCall, Edit, Obstacle, inline_arguments};
use rust_trees::Token;
use source_lint::{
    File, argument_at, arguments_before, captures_variables, ends_early, index_or, name_at,
    other_macro,
};
use source_report::CallReading;
use std::alloc::{AllocError, Global};

/// What inlining makes of a call.
#[derive(Clone, Copy)]
pub enum CallInlining {
    /// Its format string has the variables that were arguments.
    Inlined,
    /// It is left as it is, for this reason.
    Unchanged(Obstacle),
    /// It is left as it is, since its format string is not read for this reason.
    Unread(CallReading),
    /// It is left as it is, since it is one of assembly, whose templates capture no variables.
    Assembly,
    /// It is left as it is, although it could be inlined, since its macro may be another one than
    /// that of its row.
    Uncertain,
}

/// A call with what inlining makes of it.
#[derive(Drop)]
pub(crate) struct InlinedCall {
    /// What becomes of it.
    pub inlining: CallInlining,
    /// The edits that inline it, or none if it is left as it is.
    pub edits: Vec<Edit>,
}

/// Calls with what inlining makes of them.
#[derive(Drop)]
pub(crate) struct InlinedCalls {
    /// What becomes of each.
    pub inlinings: Vec<CallInlining>,
    /// The edits of all, one call after the other.
    pub edits: Vec<Edit>,
}

/// Returns whether the string of a macro with this rule and this name is known to be a format
/// string if no argument follows it.
fn is_format_alone(rule: Rule, name: &[u8], is_from_2021: bool) -> bool
    ensures { result ≡ is_format_alone is_from_2021 rule name.now }
{
    match rule {
        Rule::Index(_) => is_standard(name),
        Rule::IndexByEdition(_) => is_from_2021,
        Rule::FirstLiteral => true,
        Rule::Templates => false,
    }
}

/// Returns whether a `const fn` may call a macro with this rule, with one argument and the string
/// `{}`.
fn has_const_form(rule: Rule) -> bool
    ensures { result ≡ has_const_form rule }
{
    matches!(rule, Rule::IndexByEdition(_))
}

/// A call whose format string was found.
#[derive(Clone, Copy)]
struct LiteralSite<'s, 'a> {
    /// The text of the file.
    text: &'a str,
    /// The tokens of the file.
    tokens: &'s [Token<'a>],
    /// The literal of the format string.
    literal: Token<'a>,
    /// The arguments after it.
    arguments: &'s [Argument],
}

/// Returns what inlining makes of this call, which `site` is in its file. Returns `Err` if an
/// allocation fails.
fn inline_format_call(
    alloc: Global,
    site: LiteralSite<'_, '_>,
    call: FormatCall<'_>,
    allows_mixed: bool,
) -> Result<InlinedCall, AllocError>
    requires { hashes call.string.style + length call.string.text.now + 2 < 2 ^ 64 }
    ensures { IfOk result (λ x. Makes allows_mixed (seen_call call.entry) (leaf site.entry.literal)
        (AreEdits site.entry.text.now (map leaf site.entry.tokens.now) (leaf site.entry.literal)
        site.entry.arguments.now) x.inlining (map seen_edit x.edits.items)) }
{
    let new_call = match inline_arguments(alloc, call, allows_mixed)? {
        Ok(new_call) => new_call,
        Err(reason) => return Ok(unchanged_call(alloc, CallInlining::Unchanged(reason))),
    };
    let edits = edits_of(
        alloc,
        site.text,
        site.tokens,
        site.literal,
        site.arguments,
        &new_call,
    )?;
    match edits {
        Some(edits) => Ok(InlinedCall {
            inlining: CallInlining::Inlined,
            edits,
        }),
        None => Ok(unchanged_call(alloc, CallInlining::Unchanged(Obstacle::OtherMeaning))),
    }
}

/// Returns a call that is left as it is, for this reason.
fn unchanged_call(alloc: Global, reason: CallInlining) -> InlinedCall
    ensures reason { result.inlining ≡ reason }
    ensures none { result.edits.items ≡ [] }
{
    InlinedCall {
        inlining: reason,
        edits: Vec::new(alloc),
    }
}

/// Returns what inlining makes of a call of a macro with this rule and this name, whose arguments
/// are all or not. Returns `Err` if an allocation fails.
fn inline_site(
    alloc: Global,
    site: LiteralSite<'_, '_>,
    rule: Rule,
    name: &[u8],
    is_counted: bool,
    is_from_2021: bool,
    allows_mixed: bool,
) -> Result<InlinedCall, AllocError>
    ensures { IfOk result (λ x. InlinesLiteral is_from_2021 allows_mixed rule name.now
        site.entry.text.now (map leaf site.entry.tokens.now) (leaf site.entry.literal)
        site.entry.arguments.now is_counted x.inlining (map seen_edit x.edits.items)) }
{
    let appended_newline = appends_newline(name);
    let Some(literal) = read_literal(alloc, site.literal.text, appended_newline)? else {
        return Ok(unchanged_call(alloc, CallInlining::Unread(CallReading::Malformed)));
    };
    let arguments = with_sources(alloc, site.text, site.tokens, site.arguments)?;
    let text = literal.text.as_str();
    let snippet = literal.snippet.as_str();
    let list = arguments.as_slice();
    let string = FormatString {
        text,
        style: literal.style,
        snippet: Some(snippet),
        appended_newline,
        captures_variables: captures_variables(rule, name, is_from_2021),
    };
    let call = FormatCall {
        string,
        arguments: list,
        is_counted,
        is_format_alone: is_format_alone(rule, name, is_from_2021),
        has_const_form: has_const_form(rule),
    };
    inline_format_call(alloc, site, call, allows_mixed)
}

/// Returns what inlining makes of a call whose format string begins the argument of this index.
/// Returns `Err` if an allocation fails.
fn inline_at(
    alloc: Global,
    file: File<'_, '_>,
    part: &Part<'_>,
    call: &Call,
    arguments: &[Argument],
    index: usize,
    allows_mixed: bool,
) -> Result<InlinedCall, AllocError>
    requires pair { IsPair part.now (call.now.name + 2) call.now.close }
    requires split { AreArguments part.now (call.now.name + 3) arguments.now call.now.close }
    requires literal { (a : ArgumentValue) × (slice_get arguments.now index ≡ Some a)
        × IsTrue (is_string_by call.now.rule part.now a) }
    ensures { IfOk result (λ x. InlinesAt file.entry.is_from_2021 allows_mixed file.entry.text.now
        part.now call.now arguments.now index x.inlining (map seen_edit x.edits.items)) }
{
    let unread_call = CallInlining::Unread(CallReading::Malformed);
    let Some(string) = argument_at(arguments, index) else {
        return Ok(unchanged_call(alloc, unread_call));
    };
    let tokens = part.tokens();
    let Some(literal) = token_at(tokens, string.start) else {
        return Ok(unchanged_call(alloc, unread_call));
    };
    let extent = extent_of(
        part.source(),
        ends_early(call.rule),
        call.name + 2,
        string.start + 1,
        call.close,
    );
    let kept_arguments = arguments_before(alloc, &arguments[index + 1..], extent.end)?;
    let site = LiteralSite {
        text: file.text,
        tokens,
        literal,
        arguments: &kept_arguments,
    };
    inline_site(
        alloc,
        site,
        call.rule,
        name_at(tokens, call.name),
        extent.is_counted,
        file.is_from_2021,
        allows_mixed,
    )
}

/// Returns what inlining makes of a call whose format string is the argument of this index, or
/// whose templates begin with it. Returns `Err` if an allocation fails.
fn inline_one(
    alloc: Global,
    file: File<'_, '_>,
    part: &Part<'_>,
    call: &Call,
    arguments: &[Argument],
    index: usize,
    allows_mixed: bool,
) -> Result<InlinedCall, AllocError>
    requires pair { IsPair part.now (call.now.name + 2) call.now.close }
    requires split { AreArguments part.now (call.now.name + 3) arguments.now call.now.close }
    requires literal { (a : ArgumentValue) × (slice_get arguments.now index ≡ Some a)
        × IsTrue (is_string_by call.now.rule part.now a) }
    ensures { IfOk result (λ x. InlinesOne call.now.rule file.entry.is_from_2021 allows_mixed
        file.entry.text.now part.now call.now arguments.now index x.inlining
        (map seen_edit x.edits.items)) }
{
    match call.rule {
        Rule::Templates => Ok(unchanged_call(alloc, CallInlining::Assembly)),
        Rule::Index(_) | Rule::IndexByEdition(_) | Rule::FirstLiteral => {
            inline_at(alloc, file, part, call, arguments, index, allows_mixed)
        }
    }
}

/// Returns whether the format string of a call of a macro with this rule was not read.
fn is_unread(rule: Rule, reading: CallReading) -> bool
    ensures { result ≡ is_unread rule reading }
{
    match rule {
        Rule::Templates => false,
        Rule::Index(_) | Rule::IndexByEdition(_) | Rule::FirstLiteral => {
            !matches!(reading, CallReading::Whole | CallReading::StringAlone)
        }
    }
}

/// Returns what inlining makes of a call that has this reading. Returns `Err` if an allocation
/// fails.
fn inline_call<'a>(
    alloc: Global,
    file: File<'_, 'a>,
    part: &Part<'a>,
    call: &Call,
    reading: CallReading,
    allows_mixed: bool,
) -> Result<InlinedCall, AllocError>
    requires pair { IsPair part.now (call.now.name + 2) call.now.close }
    requires reads { (xs : List FindingValue)
        × Reads (scope file) file.is_from_2021 part.now call.now reading xs }
    ensures { IfOk result (λ x. Inlines (scope file.entry) file.entry.is_from_2021 allows_mixed
        part.now call.now x.inlining (map seen_edit x.edits.items)) }
{
    if is_unread(call.rule, reading) {
        return Ok(unchanged_call(alloc, CallInlining::Unread(reading)));
    }
    if let Some(reading) = other_macro(file, part.tokens(), call) {
        return Ok(unchanged_call(alloc, CallInlining::Unread(reading)));
    }
    let Some(arguments) = arguments(alloc, part.source(), call.close)? else {
        return Ok(unchanged_call(alloc, CallInlining::Unread(CallReading::Whole)));
    };
    let list = arguments.as_slice();
    match index_or(file, part, call, list) {
        Ok(index) => inline_one(alloc, file, part, call, list, index, allows_mixed),
        Err(reading) => Ok(unchanged_call(alloc, CallInlining::Unread(reading))),
    }
}

/// Returns what inlining makes of a call that has this reading, on these terms. Returns `Err` if an
/// allocation fails.
fn inline_on<'a>(
    alloc: Global,
    file: File<'_, 'a>,
    part: &Part<'a>,
    call: &Call,
    reading: CallReading,
    terms: Terms<'_>,
) -> Result<InlinedCall, AllocError>
    requires pair { IsPair part.now (call.now.name + 2) call.now.close }
    requires reads { (xs : List FindingValue)
        × Reads (scope file) file.is_from_2021 part.now call.now reading xs }
    ensures { IfOk result (λ x. InlinesOn (seen_terms terms.entry) (scope file.entry)
        file.entry.is_from_2021 part.now call.now x.inlining (map seen_edit x.edits.items)) }
{
    let inlined_call = inline_call(alloc, file, part, call, reading, terms.allows_mixed)?;
    if !is_inlined(inlined_call.inlining) {
        return Ok(inlined_call);
    }
    match terms.reason(name_at(part.tokens(), call.name)) {
        Some(reason) => Ok(unchanged_call(alloc, reason)),
        None => Ok(inlined_call),
    }
}

/// Adds what inlining makes of calls of a part of a file that have these readings, one after the
/// other, on these terms. Returns `Err` if an allocation fails.
pub(crate) fn inline_calls<'a>(
    alloc: Global,
    results: &mut InlinedCalls,
    file: File<'_, 'a>,
    part: &Part<'a>,
    calls: &[Call],
    readings: &[CallReading],
    terms: Terms<'_>,
) -> Result<(), AllocError>
    requires pairs { (c : CallValue) → Contains calls.now c → IsPair part.now (c.name + 2) c.close }
    requires read { (xs : List FindingValue)
        × Gives (Reads (scope file) file.is_from_2021 part.now) calls.now readings.now xs }
    ensures { OnOk result ((rs : List InliningValue) × (es : List EditValue)
        × (results.new.inlinings.items ≡ results.old.inlinings.items ++ rs)
        × (map seen_edit results.new.edits.items ≡ map seen_edit results.old.edits.items ++ es)
        × Gives (InlinesOn (seen_terms terms.entry) (scope file.entry) file.entry.is_from_2021
        part.now) calls.now rs es) }
{
    let mut rest = calls;
    let mut rest_readings = readings;
    while let Some((call, others)) = rest.split_first() {
        let Some((reading, more)) = rest_readings.split_first() else {
            return Ok(());
        };
        let mut one = inline_on(alloc, file, part, call, *reading, terms)?;
        results.inlinings.push(one.inlining)?;
        results.edits.append(&mut one.edits)?;
        rest = others;
        rest_readings = more;
    }
    Ok(())
}
