//! The reading of a call, and its findings.

ghost use Rattle.std.specs.Prelude.{◌≡◌, ◌+◌, ◌<◌, ◌^◌, ◌++◌, List, IfOk, IsTrue, OnOk, Some};
ghost use Rattle.std.specs.Prelude.{chars, length, map, slice_get};
ghost use Rattle.std.specs.List.{All, list_any};
ghost use Rattle.rustc_parse_format.specs.World.{hashes};
ghost use Rattle.rust_trees.specs.Forests.{IsPair};
ghost use Rattle.rust_trees.specs.Leaves.{leaf};
ghost use Rattle.format_calls.specs.Arguments.{AreArguments, tokens_of};
ghost use Rattle.format_calls.specs.Strings.{is_string_by};
ghost use Rattle.format_calls.specs.declared.split.Argument.{Argument as ArgumentValue};
ghost use Rattle.call_faults.specs.Views.{seen_given, start};
ghost use Rattle.source_lint.specs.Findings.{AreFindings};
ghost use Rattle.asm_lint.specs.Spans.{HasSpans};
ghost use Rattle.source_lint.specs.Givens.{given_argument};
ghost use Rattle.asm_lint.specs.Literals.{without_crs};
ghost use Rattle.source_lint.specs.Readings.{Reads, ReadsAt, ReadsLiteral, ReadsOne, call_of};
ghost use Rattle.call_forms.specs.Operators.{lacks_operand};
ghost use Rattle.source_lint.specs.Readings.{are_expressions, arguments_before, captures_variables};
ghost use Rattle.source_lint.specs.Readings.{counted_givens, lack_expression};
ghost use Rattle.source_lint.specs.Readings.{ends_early, has_expressions, index_or, is_empty};
ghost use Rattle.source_lint.specs.Readings.{name_at, newline_of, scope};
ghost use Rattle.source_report.specs.declared.report.Finding.{Finding as FindingValue};

use crate::findings::put_findings;
use crate::form_words::put_form;
use crate::givens::givens;
use crate::macros::{File, name_at, newline_of, other_macro};
use asm_lint::{Site, dropped_crs, read_asm, read_literal, reading_of};
use call_faults::{FormatArgument, FormatString, call_faults};
use call_forms::{form_here, have_joined, have_variables, lacks_operand, tokens_of};
use format_calls::{Argument, Call, Part, Rule, arguments, extent_of, format_string, token_at};
use rust_trees::Token;
use source_report::{CallReading, Finding};
use std::alloc::{AllocError, Global};

/// Returns arguments as placeholders refer to them, or none if their number is not known.
/// Returns `Err` if an allocation fails.
fn counted_givens<'a>(
    alloc: Global,
    tokens: &[Token<'a>],
    arguments: &[Argument],
    is_counted: bool,
) -> Result<Vec<FormatArgument<'a>>, AllocError>
    ensures { IfOk result (λ v. map seen_given v.items
        ≡ counted_givens is_counted (map (given_argument (map leaf tokens.now)) arguments.now)) }
{
    if !is_counted {
        return Ok(Vec::new(alloc));
    }
    givens(alloc, tokens, arguments)
}

/// Checks a call with this format string and these arguments, and adds its findings. Returns `Err`
/// if an allocation fails.
fn check_string<'c>(
    alloc: Global,
    findings: &mut Vec<Finding>,
    site: Site<'_, '_>,
    string: FormatString<'c>,
    arguments: &'c [FormatArgument<'c>],
    is_counted: bool,
) -> Result<(), AllocError>
    requires { hashes string.style + length string.text.now + 2 < 2 ^ 64 }
    ensures outcome { OnOk result (let s = start string.entry in (xs : List FindingValue)
        × (findings.new.items ≡ findings.old.items ++ xs)
        × AreFindings is_counted (call_of string.entry.captures_variables s
        (map seen_given arguments.now)) xs) }
    ensures spans { OnOk result (All (HasSpans site.entry.text.now) findings.old.items
        → All (HasSpans site.entry.text.now) findings.new.items) }
{
    let report = call_faults(alloc, string, arguments)?;
    put_findings(alloc, findings, site, &report, is_counted)?;
    Ok(())
}

/// Reads the format string of a call, which is the literal of the site, with the arguments after
/// it, and adds the findings. Returns `Err` if an allocation fails.
fn read_string(
    alloc: Global,
    findings: &mut Vec<Finding>,
    site: Site<'_, '_>,
    appended_newline: bool,
    captures_variables: bool,
    is_counted: bool,
) -> Result<CallReading, AllocError>
    ensures read { IfOk result (λ r. (xs : List FindingValue)
        × (findings.new.items ≡ findings.old.items ++ xs)
        × ReadsLiteral (without_crs (chars site.entry.literal.text.now)) appended_newline
        captures_variables
        is_counted (map (given_argument (map leaf site.entry.tokens.now)) site.entry.arguments.now)
        r xs) }
    ensures spans { OnOk result (All (HasSpans site.entry.text.now) findings.old.items
        → All (HasSpans site.entry.text.now) findings.new.items) }
{
    let Some(literal) = read_literal(alloc, site.literal.text, appended_newline)? else {
        return Ok(CallReading::Malformed);
    };
    let arguments = counted_givens(alloc, site.tokens, site.arguments, is_counted)?;
    let text = literal.text.as_str();
    let snippet = literal.snippet.as_str();
    let list = arguments.as_slice();
    let string = FormatString {
        text,
        style: literal.style,
        snippet: Some(snippet),
        appended_newline,
        captures_variables,
    };
    check_string(alloc, findings, site, string, list, is_counted)?;
    Ok(reading_of(is_counted))
}

/// Returns whether the format string of a macro captures variables. `unreachable!` of the standard
/// library puts it into another text before the edition 2021, where it captures none.
pub fn captures_variables(rule: Rule, name: &[u8], is_from_2021: bool) -> bool
    ensures { result ≡ captures_variables is_from_2021 rule name.now }
{
    match rule {
        Rule::IndexByEdition(_) => is_from_2021 || name != b"unreachable".as_slice(),
        Rule::Index(_) | Rule::FirstLiteral | Rule::Templates => true,
    }
}

/// Returns the argument of an index, or `None` if there is none.
pub fn argument_at(arguments: &[Argument], index: usize) -> Option<Argument>
    ensures { result ≡ slice_get arguments.now index }
{
    if index < arguments.len() {
        Some(arguments[index])
    } else {
        None
    }
}

/// Returns whether `;` ends the arguments of a macro with this rule: key-values follow it in those
/// of slog.
pub fn ends_early(rule: Rule) -> bool
    ensures { result ≡ ends_early rule }
{
    matches!(rule, Rule::FirstLiteral)
}

/// Returns the arguments that start before a token, of which the last ends there at the latest.
/// Returns `Err` if an allocation fails.
pub fn arguments_before(
    alloc: Global,
    arguments: &[Argument],
    end: usize,
) -> Result<Vec<Argument>, AllocError>
    ensures { IfOk result (λ v. v.items ≡ arguments_before end arguments.now) }
{
    let mut list = Vec::new(alloc);
    for argument in arguments {
        if argument.start >= end {
            return Ok(list);
        }
        list.push(Argument {
            start: argument.start,
            end: argument.end.min(end),
            is_named: argument.is_named,
        })?;
    }
    Ok(list)
}

/// Reads a call with this literal as its format string and these arguments after it, and adds its
/// findings. Returns `Err` if an allocation fails.
fn read_with(
    alloc: Global,
    findings: &mut Vec<Finding>,
    file: File<'_, '_>,
    part: &Part<'_>,
    call: &Call,
    literal: Token<'_>,
    arguments: &[Argument],
    is_counted: bool,
) -> Result<CallReading, AllocError>
    ensures read { IfOk result (λ r. (xs : List FindingValue)
        × (findings.new.items ≡ findings.old.items ++ xs)
        × ReadsLiteral (without_crs (chars literal.entry.text.now))
        (newline_of (scope file.entry) (name_at part.now call.now.name))
        (captures_variables file.entry.is_from_2021 call.now.rule (name_at part.now call.now.name))
        is_counted (map (given_argument part.now) arguments.now) r xs) }
    ensures spans { OnOk result (All (HasSpans file.entry.text.now) findings.old.items
        → All (HasSpans file.entry.text.now) findings.new.items) }
{
    let tokens = part.tokens();
    let crs = dropped_crs(alloc, literal.text)?;
    let site = Site {
        text: file.text,
        tokens,
        literal,
        crs: &crs,
        arguments,
        name: call.name,
        close: call.close,
    };
    let name = name_at(tokens, call.name);
    let appended_newline = newline_of(file, name);
    let captures_variables = captures_variables(call.rule, name, file.is_from_2021);
    read_string(
        alloc,
        findings,
        site,
        appended_newline,
        captures_variables,
        is_counted,
    )
}

/// Reads a call whose format string begins the argument of this index, and adds its findings.
/// Returns `Err` if an allocation fails.
fn read_at(
    alloc: Global,
    findings: &mut Vec<Finding>,
    file: File<'_, '_>,
    part: &Part<'_>,
    call: &Call,
    arguments: &[Argument],
    index: usize,
) -> Result<CallReading, AllocError>
    requires pair { IsPair part.now (call.now.name + 2) call.now.close }
    requires split { AreArguments part.now (call.now.name + 3) arguments.now call.now.close }
    requires literal { (a : ArgumentValue) × (slice_get arguments.now index ≡ Some a)
        × IsTrue (is_string_by call.now.rule part.now a) }
    ensures read { IfOk result (λ r. (xs : List FindingValue)
        × (findings.new.items ≡ findings.old.items ++ xs)
        × ReadsAt file.entry.is_from_2021
        (newline_of (scope file.entry) (name_at part.now call.now.name)) part.now call.now
        arguments.now index r xs) }
    ensures spans { OnOk result (All (HasSpans file.entry.text.now) findings.old.items
        → All (HasSpans file.entry.text.now) findings.new.items) }
{
    let Some(string) = argument_at(arguments, index) else {
        return Ok(CallReading::Malformed);
    };
    let Some(literal) = token_at(part.tokens(), string.start) else {
        return Ok(CallReading::Malformed);
    };
    let extent = extent_of(
        part.source(),
        ends_early(call.rule),
        call.name + 2,
        string.start + 1,
        call.close,
    );
    let is_counted = extent.is_counted;
    let others = &arguments[index + 1..];
    if extent.end == call.close {
        return read_with(
            alloc, findings, file, part, call, literal, others, is_counted,
        );
    }
    let kept_arguments = arguments_before(alloc, others, extent.end)?;
    read_with(
        alloc,
        findings,
        file,
        part,
        call,
        literal,
        &kept_arguments,
        is_counted,
    )
}

/// Reads a call whose format string is the argument of this index, or whose templates begin with
/// it, and adds its findings. Returns `Err` if an allocation fails.
fn read_one<'a>(
    alloc: Global,
    findings: &mut Vec<Finding>,
    file: File<'_, 'a>,
    part: &Part<'a>,
    call: &Call,
    arguments: &[Argument],
    index: usize,
) -> Result<CallReading, AllocError>
    requires pair { IsPair part.now (call.now.name + 2) call.now.close }
    requires split { AreArguments part.now (call.now.name + 3) arguments.now call.now.close }
    requires literal { (a : ArgumentValue) × (slice_get arguments.now index ≡ Some a)
        × IsTrue (is_string_by call.now.rule part.now a) }
    ensures read { IfOk result (λ r. (xs : List FindingValue)
        × (findings.new.items ≡ findings.old.items ++ xs)
        × ReadsOne call.now.rule file.entry.is_from_2021
        (newline_of (scope file.entry) (name_at part.now call.now.name)) part.now call.now
        arguments.now index r xs) }
    ensures spans { OnOk result (All (HasSpans file.entry.text.now) findings.old.items
        → All (HasSpans file.entry.text.now) findings.new.items) }
{
    match call.rule {
        Rule::Templates => { read_asm(alloc, findings, file.text, part, call, arguments) }
        Rule::Index(_) | Rule::IndexByEdition(_) | Rule::FirstLiteral => {
            read_at(alloc, findings, file, part, call, arguments, index)
        }
    }
}

/// Returns whether no token stands where an argument should.
fn is_empty(argument: &Argument) -> bool
    ensures { result ≡ is_empty argument.now }
{
    argument.start == argument.end
}

/// Returns whether no token stands where one of these arguments should.
fn has_empty(arguments: &[Argument]) -> bool
    ensures { result ≡ list_any is_empty arguments.now }
{
    for argument in arguments {
        if is_empty(argument) {
            return true;
        }
    }
    false
}

/// Returns whether the arguments of a macro with this rule are expressions, up to the last one:
/// those of tracing and of slog have forms of their own.
fn are_expressions(rule: Rule) -> bool
    ensures { result ≡ are_expressions rule }
{
    matches!(rule, Rule::Index(_) | Rule::IndexByEdition(_))
}

/// Returns whether an operator lacks an operand in one of these arguments.
fn lack_operand(part: &Part<'_>, arguments: &[Argument]) -> bool
    ensures { result ≡ list_any lacks_operand (map (tokens_of part.now) arguments.now) }
{
    for argument in arguments {
        if lacks_operand(tokens_of(part.tokens(), argument)) {
            return true;
        }
    }
    false
}

/// Returns whether an operator lacks an operand in one of the arguments of a macro with this rule,
/// and no variable of a macro stands in them.
fn lack_expression(part: &Part<'_>, rule: Rule, arguments: &[Argument]) -> bool
    ensures { result ≡ lack_expression rule (map (tokens_of part.now) arguments.now) }
{
    are_expressions(rule) && lack_operand(part, arguments) && !have_variables(part, arguments)
}

/// Returns whether the arguments of a macro with this rule are expressions: operands are none.
fn has_expressions(rule: Rule) -> bool
    ensures { result ≡ has_expressions rule }
{
    !matches!(rule, Rule::Templates)
}

/// Returns the index of the argument that is the format string of a call, or the reading of the
/// call if none is read.
pub fn index_or(
    file: File<'_, '_>,
    part: &Part<'_>,
    call: &Call,
    arguments: &[Argument],
) -> Result<usize, CallReading>
    ensures value { result ≡ index_or file.entry.is_from_2021 part.now call.now.rule
        arguments.now }
    ensures literal { IfOk result (λ n. (a : ArgumentValue) × (slice_get arguments.now n ≡ Some a)
        × IsTrue (is_string_by call.now.rule part.now a)) }
{
    if has_empty(arguments) || lack_expression(part, call.rule, arguments) {
        return Err(CallReading::NoExpression);
    }
    if has_expressions(call.rule) && have_joined(part, arguments) {
        return Err(CallReading::NoComma);
    }
    match format_string(part.source(), call.rule, arguments, file.is_from_2021) {
        Ok(index) => Ok(index),
        Err(reason) => Err(CallReading::Unread(reason)),
    }
}

/// Reads a call, and adds its findings. Returns `Err` if an allocation fails.
pub fn read_call<'a>(
    alloc: Global,
    findings: &mut Vec<Finding>,
    file: File<'_, 'a>,
    part: &Part<'a>,
    call: &Call,
) -> Result<CallReading, AllocError>
    requires { IsPair part.now (call.now.name + 2) call.now.close }
    ensures read { IfOk result (λ r. (xs : List FindingValue)
        × (findings.new.items ≡ findings.old.items ++ xs)
        × Reads (scope file.entry) file.entry.is_from_2021 part.now call.now r xs) }
    ensures spans { OnOk result (All (HasSpans file.entry.text.now) findings.old.items
        → All (HasSpans file.entry.text.now) findings.new.items) }
{
    let tokens = part.tokens();
    if let Some(reading) = other_macro(file, tokens, call) {
        return Ok(reading);
    }
    let name = name_at(tokens, call.name);
    let Some(arguments) = arguments(alloc, part.source(), call.close)? else {
        return Ok(CallReading::Whole);
    };
    let list = arguments.as_slice();
    match index_or(file, part, call, list) {
        Ok(index) => read_one(alloc, findings, file, part, call, list, index),
        Err(reading) => {
            let form = form_here(part, name, call.rule, file.is_from_2021, list, call.close);
            put_form(findings, file.text, tokens, call, list, form)?;
            Ok(reading)
        }
    }
}
