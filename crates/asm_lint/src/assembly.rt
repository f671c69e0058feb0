//! The reading of a call of a macro for inline assembly.

ghost use Rattle.std.specs.Prelude.{◌≡◌, ◌+◌, ◌<◌, ◌^◌, ◌++◌, ◌∷◌, ◌||◌, [], List, IfOk, IfSome};
ghost use Rattle.std.specs.Prelude.{◌&&◌, OnOk, Some, length, map, not, option_map, slice_get};
ghost use Rattle.std.specs.Prelude.{string_bytes};
ghost use Rattle.std.specs.List.{All, AllByRecursion};
ghost use Rattle.std.specs.Option.{MatchOption};
ghost use Rattle.rustc_parse_format.specs.World.{hashes};
ghost use Rattle.rust_trees.specs.Forests.{IsPair};
ghost use Rattle.rust_trees.specs.Leaves.{leaf};
ghost use Rattle.format_calls.specs.Arguments.{AreArguments};
ghost use Rattle.format_calls.specs.Assembly.{asm_part, template_count};
ghost use Rattle.asm_faults.specs.Calls.{asm_faults};
ghost use Rattle.asm_faults.specs.Operands.{slots_after};
ghost use Rattle.asm_faults.specs.Views.{seen_operand, seen_template};
ghost use Rattle.asm_lint.specs.AsmFindings.{TellAllAsm, counted_asm};
ghost use Rattle.asm_lint.specs.Assembly.{AreTemplates, HasNoText, HaveNoText, IsTemplate};
ghost use Rattle.asm_lint.specs.Assembly.{ReadsLiterals, ReadsTemplates, are_raw};
ghost use Rattle.asm_lint.specs.Assembly.{is_raw_part, is_unknown, is_unknown_part, operand_of};
ghost use Rattle.asm_lint.specs.Assembly.{operands, read_templates, reading_of, seen_read};
ghost use Rattle.asm_lint.specs.Spans.{HasSpans};
ghost use Rattle.source_report.specs.declared.report.Finding.{Finding as FindingValue};

use crate::asm_findings::{AsmSite, ReadTemplate, put_findings};
use crate::literals::{dropped_crs, read_literal};
use crate::names::name_of;
use asm_faults::{Operand, Template, asm_faults};
use format_calls::{Argument, AsmPart, Call, Part, asm_part, extent_of, template_count};
use rust_trees::Token;
use source_report::{CallReading, Finding};
use std::alloc::{AllocError, Global};

/// Returns how much of a call is read where the number of its arguments is known, and where not.
pub fn reading_of(is_counted: bool) -> CallReading
    ensures { result ≡ reading_of is_counted }
{
    if is_counted {
        CallReading::Whole
    } else {
        CallReading::StringAlone
    }
}

/// Returns the operand that an argument is, or `None` if it is none.
fn operand_of<'a>(tokens: &[Token<'a>], argument: &Argument, part: AsmPart) -> Option<Operand<'a>>
    ensures { option_map seen_operand result
        ≡ operand_of (map leaf tokens.now) argument.now part }
{
    match part {
        AsmPart::Operand => match name_of(tokens, argument) {
            Some(name) => Some(Operand::Named(name)),
            None => Some(Operand::Unnamed),
        },
        AsmPart::Register => Some(Operand::Register {
            has_name: argument.is_named,
        }),
        AsmPart::Raw | AsmPart::Setting | AsmPart::Unknown => None,
    }
}

/// The arguments after the templates of a call.
#[derive(Drop)]
struct Operands<'a> {
    /// The operands.
    list: Vec<Operand<'a>>,
    /// The argument that each operand is.
    arguments: Vec<Argument>,
    /// Whether templates have no placeholders.
    are_raw: bool,
    /// Whether an argument is no operand, option or ABI.
    is_unknown: bool,
}

/// Adds an argument after the templates. Returns `Err` if an allocation fails.
fn add<'a>(
    all_operands: &mut Operands<'a>,
    part: &Part<'a>,
    argument: &Argument,
) -> Result<(), AllocError>
    requires { argument.now.start < length part.now }
    ensures list { OnOk result (map seen_operand all_operands.new.list.items
        ≡ map seen_operand all_operands.old.list.items
        ++ operands part.now (argument.now ∷ [])) }
    ensures raw { OnOk result (all_operands.new.are_raw
        ≡ (all_operands.old.are_raw || is_raw_part (asm_part part.now argument.now))) }
    ensures unknown { OnOk result (all_operands.new.is_unknown
        ≡ (all_operands.old.is_unknown || is_unknown_part (asm_part part.now argument.now))) }
{
    let kind = asm_part(part, argument);
    if let Some(operand) = operand_of(part.tokens(), argument, kind) {
        all_operands.list.push(operand)?;
        all_operands.arguments.push(*argument)?;
    }
    all_operands.are_raw = all_operands.are_raw || matches!(kind, AsmPart::Raw);
    all_operands.is_unknown = all_operands.is_unknown || matches!(kind, AsmPart::Unknown);
    Ok(())
}

/// Returns the arguments after the templates. Returns `Err` if an allocation fails.
fn operands_of<'a>(
    alloc: Global,
    part: &Part<'a>,
    arguments: &[Argument],
) -> Result<Operands<'a>, AllocError>
    requires { AllByRecursion (λ a. a.start < length part.now) arguments.now }
    ensures list { IfOk result (λ o. map seen_operand o.list.items
        ≡ operands part.now arguments.now) }
    ensures raw { IfOk result (λ o. o.are_raw ≡ are_raw part.now arguments.now) }
    ensures unknown { IfOk result (λ o. o.is_unknown
        ≡ is_unknown part.now arguments.now) }
{
    let mut operands = Operands {
        list: Vec::new(alloc),
        arguments: Vec::new(alloc),
        are_raw: false,
        is_unknown: false,
    };
    for argument in arguments {
        add(&mut operands, part, argument)?;
    }
    Ok(operands)
}

/// Returns the first token of an argument, which is there.
fn first_token<'a>(tokens: &[Token<'a>], argument: &Argument) -> Token<'a>
    requires { argument.now.start < length tokens.now }
    ensures { slice_get (map leaf tokens.now) argument.now.start ≡ Some (leaf result) }
{
    tokens[argument.start]
}

/// Reads the template that an argument is. Returns `None` if its literal stands for no text, and
/// `Err` if an allocation fails.
fn read_template<'a>(
    alloc: Global,
    tokens: &[Token<'a>],
    argument: &Argument,
) -> Result<Option<ReadTemplate<'a>>, AllocError>
    requires { argument.now.start < length tokens.now }
    ensures read { IfOk result (λ o. MatchOption o
        (HasNoText (map leaf tokens.now) argument.now)
        (λ t. IsTemplate (map leaf tokens.now) argument.now (seen_read t))) }
    ensures short { IfOk result (λ o. IfSome o (λ t.
        hashes t.literal.style + length (string_bytes t.literal.text) + 2 < 2 ^ 64)) }
{
    let token = first_token(tokens, argument);
    let Some(literal) = read_literal(alloc, token.text, false)? else {
        return Ok(None);
    };
    let crs = dropped_crs(alloc, token.text)?;
    Ok(Some(ReadTemplate {
        token,
        crs,
        literal,
    }))
}

/// Reads the templates that arguments are. Returns `None` if a literal of them stands for no text,
/// and `Err` if an allocation fails.
fn read_templates<'a>(
    alloc: Global,
    tokens: &[Token<'a>],
    arguments: &[Argument],
) -> Result<Option<Vec<ReadTemplate<'a>>>, AllocError>
    requires { AllByRecursion (λ a. a.start < length tokens.now) arguments.now }
    ensures read { IfOk result (λ o. MatchOption o
        (HaveNoText (map leaf tokens.now) arguments.now)
        (λ v. AreTemplates (map leaf tokens.now) arguments.now (map seen_read v.items))) }
    ensures short { IfOk result (λ o. IfSome o (λ v. AllByRecursion (λ t.
        hashes t.literal.style + length (string_bytes t.literal.text) + 2 < 2 ^ 64) v.items)) }
{
    let mut templates = Vec::new(alloc);
    for argument in arguments {
        match read_template(alloc, tokens, argument)? {
            Some(template) => templates.push(template)?,
            None => return Ok(None),
        }
    }
    Ok(Some(templates))
}

/// Returns templates as placeholders are read in them. Returns `Err` if an allocation fails.
fn templates_of<'c>(
    alloc: Global,
    template_list: &'c [ReadTemplate<'_>],
) -> Result<Vec<Template<'c>>, AllocError>
    requires { AllByRecursion (λ t.
        hashes t.literal.style + length (string_bytes t.literal.text) + 2 < 2 ^ 64)
        template_list.now }
    ensures seen { IfOk result (λ v. map seen_template v.items ≡ map seen_read template_list.now) }
    ensures short { IfOk result (λ v. AllByRecursion (λ t.
        hashes t.style + length t.text.now + 2 < 2 ^ 64) v.items) }
{
    let mut templates = Vec::new(alloc);
    for template in template_list {
        templates.push(Template {
            text: template.literal.text.as_str(),
            style: template.literal.style,
            snippet: Some(template.literal.snippet.as_str()),
        })?;
    }
    Ok(templates)
}

/// Checks a call with these templates and operands, and adds its findings. Returns `Err` if an
/// allocation fails.
fn check_call<'c>(
    alloc: Global,
    findings: &mut Vec<Finding>,
    site: AsmSite<'_, '_>,
    templates: &[Template<'c>],
    operands: &[Operand<'c>],
    is_whole: bool,
) -> Result<(), AllocError>
    requires { AllByRecursion (λ t. hashes t.style + length t.text.now + 2 < 2 ^ 64)
        templates.now }
    ensures outcome { OnOk result ((xs : List FindingValue)
        × (findings.new.items ≡ findings.old.items ++ xs)
        × TellAllAsm (slots_after [] (map seen_operand operands.now)) (counted_asm is_whole
        (asm_faults (map seen_template templates.now) (map seen_operand operands.now))) xs) }
    ensures spans { OnOk result (All (HasSpans site.entry.text.now) findings.old.items
        → All (HasSpans site.entry.text.now) findings.new.items) }
{
    let call = asm_faults(alloc, templates, operands)?;
    put_findings(alloc, findings, site, &call, is_whole)?;
    Ok(())
}

/// Returns the templates whose placeholders count: none with `options(raw)`. Returns `Err` if an
/// allocation fails.
fn read_unless<'c>(
    alloc: Global,
    template_list: &'c [ReadTemplate<'_>],
    are_raw: bool,
) -> Result<Vec<Template<'c>>, AllocError>
    requires { AllByRecursion (λ t.
        hashes t.literal.style + length (string_bytes t.literal.text) + 2 < 2 ^ 64)
        template_list.now }
    ensures seen { IfOk result (λ v. map seen_template v.items
        ≡ read_templates are_raw (map seen_read template_list.now)) }
    ensures short { IfOk result (λ v. AllByRecursion (λ t.
        hashes t.style + length t.text.now + 2 < 2 ^ 64) v.items) }
{
    if are_raw {
        return Ok(Vec::new(alloc));
    }
    templates_of(alloc, template_list)
}

/// Reads a call whose templates are arguments, with the other arguments after them, and adds its
/// findings. Returns `Err` if an allocation fails.
fn read_literals<'s, 'a>(
    alloc: Global,
    findings: &mut Vec<Finding>,
    text: &'a str,
    tokens: &'s [Token<'a>],
    templates: &[Argument],
    operands: &'s Operands<'a>,
    is_whole: bool,
) -> Result<CallReading, AllocError>
    requires { AllByRecursion (λ a. a.start < length tokens.now) templates.now }
    ensures read { IfOk result (λ r. (xs : List FindingValue)
        × (findings.new.items ≡ findings.old.items ++ xs)
        × ReadsLiterals (map leaf tokens.now) templates.now operands.now.are_raw is_whole
        (map seen_operand operands.now.list.items) r xs) }
    ensures spans { OnOk result (All (HasSpans text.now) findings.old.items
        → All (HasSpans text.now) findings.new.items) }
{
    let Some(template_list) = read_templates(alloc, tokens, templates)? else {
        return Ok(CallReading::Malformed);
    };
    let site = AsmSite {
        text,
        tokens,
        templates: &template_list,
        operands: &operands.arguments,
    };
    let list = read_unless(alloc, &template_list, operands.are_raw)?;
    check_call(alloc, findings, site, &list, &operands.list, is_whole)?;
    Ok(reading_of(is_whole))
}

/// Returns whether the operands and options of a call are known: each argument is one, and the
/// number of arguments is known.
fn are_known(is_unknown: bool, is_counted: bool) -> bool
    ensures { result ≡ (not is_unknown && is_counted) }
{
    !is_unknown && is_counted
}

/// Reads a call of a macro for inline assembly, and adds its findings. Returns `Err` if an
/// allocation fails.
pub fn read_asm<'a>(
    alloc: Global,
    findings: &mut Vec<Finding>,
    text: &'a str,
    part: &Part<'a>,
    call: &Call,
    arguments: &[Argument],
) -> Result<CallReading, AllocError>
    requires pair { IsPair part.now (call.now.name + 2) call.now.close }
    requires split { AreArguments part.now (call.now.name + 3) arguments.now call.now.close }
    ensures read { IfOk result (λ r. (xs : List FindingValue)
        × (findings.new.items ≡ findings.old.items ++ xs)
        × ReadsTemplates part.now call.now arguments.now
        (template_count part.now arguments.now) r xs) }
    ensures spans { OnOk result (All (HasSpans text.now) findings.old.items
        → All (HasSpans text.now) findings.new.items) }
{
    let tokens = part.tokens();
    let count = template_count(tokens, arguments);
    let operands = operands_of(alloc, part, &arguments[count..])?;
    let extent = extent_of(
        part.source(),
        false,
        call.name + 2,
        call.name + 3,
        call.close,
    );
    let is_whole = are_known(operands.is_unknown, extent.is_counted);
    read_literals(
        alloc,
        findings,
        text,
        tokens,
        &arguments[..count],
        &operands,
        is_whole,
    )
}
