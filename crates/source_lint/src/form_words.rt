//! The findings of calls whose arguments are wrong, in rustc's words.

ghost use Rattle.std.specs.Prelude.{◌≡◌, ◌++◌, ◌∷◌, [], List, IfOk, IfSome, OnOk, option_map};
ghost use Rattle.std.specs.Prelude.{string_bytes};
ghost use Rattle.std.specs.List.{All};
ghost use Rattle.asm_lint.specs.Spans.{HasSpans, IsSpan};
ghost use Rattle.source_lint.specs.Findings.{TellsHelp};
ghost use Rattle.source_lint.specs.FormWords.{TellLabels, TellsForm, TellsForms, bytes_label};
ghost use Rattle.source_lint.specs.FormWords.{end_words, expected_label, expected_words};
ghost use Rattle.source_lint.specs.FormWords.{form_help, form_id, form_label, form_labels};
ghost use Rattle.source_lint.specs.FormWords.{form_title, found_text, has_bytes, lacks_literal};
ghost use Rattle.source_lint.specs.FormWords.{literal_for, missing_words};
ghost use Rattle.source_lint.specs.FormWords.{more_placeholders};
ghost use Rattle.call_forms.specs.Forms.{seen_form};
ghost use Rattle.call_forms.specs.Keywords.{kind_word};
ghost use Rattle.call_forms.specs.Operators.{seen_operator};
ghost use Rattle.source_report.specs.declared.report.Finding.{Finding as FindingValue};
ghost use Rattle.source_report.specs.declared.report.Label.{Label as LabelValue};

use asm_lint::{call_range, range_in, tokens_range};
use call_forms::{ExpectedTokens, Form, Operator, kind_word};
use format_calls::{Argument, Call};
use rust_trees::Token;
use source_report::{Edit, Finding, Help, Label};
use std::alloc::{AllocError, Global};
use std::ops::Range;

/// Returns the id of what is wrong, in kebab case.
#[tactic(auto, unfolding(crate::specs::FormWords::form_id))]
fn form_id(form: Form<'_>) -> &'static str
    ensures { result.now ≡ form_id (seen_form form.entry) }
{
    match form {
        Form::NoString => "missing-format-string",
        Form::NoLiteral { .. } => "no-string-literal",
        Form::NoComma { .. } => "missing-comma",
        Form::NoOperand(_) | Form::NoExpression { .. } => "missing-expression",
    }
}

/// Adds a token that rustc found, in its words. Returns `Err` if an allocation fails.
#[tactic(auto, using(crate::proofs::Texts::assoc), unfolding(crate::specs::FormWords::found_text))]
fn put_operator(out: &mut String, operator: Operator<'_>) -> Result<(), AllocError>
    ensures { OnOk result (string_bytes out.new
        ≡ string_bytes out.old ++ found_text (seen_operator operator.entry)) }
{
    out.push_str(kind_word(operator.first.text))?;
    out.push_str("`")?;
    out.push_str(operator.first.text)?;
    out.push_str(operator.second)?;
    out.push_str(operator.third)?;
    out.push_str("`")?;
    Ok(())
}

/// Returns the tokens that rustc expects, in its words, up to the one that it found.
#[tactic(auto, unfolding(crate::specs::FormWords::expected_words))]
fn expected_words(expected: ExpectedTokens) -> &'static str
    ensures { result.now ≡ expected_words expected }
{
    match expected {
        ExpectedTokens::Comma => "expected `,`, found ",
        ExpectedTokens::Path => {
            "expected one of `!`, `,`, `.`, `::`, `?`, `{`, or an operator, found "
        }
        ExpectedTokens::Field => "expected one of `(`, `,`, `.`, `::`, `?`, or an operator, found ",
        ExpectedTokens::Value => "expected one of `,`, `.`, `?`, or an operator, found ",
    }
}

/// Returns the title where an expression is missing, up to what rustc found.
#[tactic(auto, unfolding(crate::specs::FormWords::missing_words))]
fn missing_words() -> &'static str
    ensures { result.now ≡ missing_words }
{
    "expected expression, found "
}

/// Returns the title where an argument ends without an expression, at the end of the call or at a
/// comma.
#[tactic(auto, unfolding(crate::specs::FormWords::end_words))]
fn end_words(is_last: bool) -> &'static str
    ensures { result.now ≡ end_words is_last }
{
    if is_last {
        "expected expression, found end of macro arguments"
    } else {
        "expected expression, found `,`"
    }
}

/// Adds the title. Returns `Err` if an allocation fails.
#[tactic(auto, using(crate::proofs::Texts::assoc), unfolding(crate::specs::FormWords::form_title))]
fn put_title(out: &mut String, form: Form<'_>) -> Result<(), AllocError>
    ensures { OnOk result (string_bytes out.new
        ≡ string_bytes out.old ++ form_title (seen_form form.entry)) }
{
    match form {
        Form::NoString => out.push_str("requires at least a format string argument")?,
        Form::NoLiteral { .. } => out.push_str("format argument must be a string literal")?,
        Form::NoComma { expected, operator } => {
            out.push_str(expected_words(expected))?;
            put_operator(out, operator)?;
        }
        Form::NoOperand(operator) => {
            out.push_str(missing_words())?;
            put_operator(out, operator)?;
        }
        Form::NoExpression { is_last, .. } => out.push_str(end_words(is_last))?,
    }
    Ok(())
}

/// Returns the label of a token where rustc expects others.
#[tactic(auto, unfolding(crate::specs::FormWords::expected_label))]
fn expected_label(expected: ExpectedTokens) -> &'static str
    ensures { result.now ≡ expected_label expected }
{
    match expected {
        ExpectedTokens::Comma => "expected `,`",
        ExpectedTokens::Path => "expected one of 7 possible tokens",
        ExpectedTokens::Field => "expected one of `(`, `,`, `.`, `::`, `?`, or an operator",
        ExpectedTokens::Value => "expected one of `,`, `.`, `?`, or an operator",
    }
}

/// Returns the text of the primary label.
#[tactic(auto, unfolding(crate::specs::FormWords::form_label))]
fn form_label(form: Form<'_>) -> &'static str
    ensures { result.now ≡ form_label (seen_form form.entry) }
{
    match form {
        Form::NoString | Form::NoLiteral { .. } => "",
        Form::NoComma { expected, .. } => expected_label(expected),
        Form::NoOperand(_) | Form::NoExpression { .. } => "expected expression",
    }
}

/// Returns the bytes of the argument with this index, or none if there is no such argument.
fn argument_range(tokens: &[Token<'_>], arguments: &[Argument], index: usize) -> Range<usize> {
    match arguments.get(index) {
        Some(argument) => tokens_range(tokens, argument.start, argument.end),
        None => 0..0,
    }
}

/// Returns the bytes of the token after the argument with this index, or the end of that argument
/// if it is the last one. Returns no bytes if there is no such argument.
fn range_after(
    tokens: &[Token<'_>],
    arguments: &[Argument],
    index: usize,
    is_last: bool,
) -> Range<usize> {
    match arguments.get(index) {
        Some(argument) => {
            if is_last {
                let end = tokens_range(tokens, argument.start, argument.end).end;
                end..end
            } else {
                tokens_range(tokens, argument.end, argument.end.saturating_add(1))
            }
        }
        None => 0..0,
    }
}

/// Returns the bytes of a token that rustc found.
fn found_range(operator: Operator<'_>) -> Range<usize> {
    let first = operator
        .first
        .start
        .saturating_add(operator.first.text.len());
    let second = first.saturating_add(operator.second.len());
    operator.first.start..second.saturating_add(operator.third.len())
}

/// Returns the bytes that are wrong.
fn form_range(
    text: &str,
    tokens: &[Token<'_>],
    call: &Call,
    arguments: &[Argument],
    form: Form<'_>,
) -> Range<usize>
    ensures { IsSpan text.now result }
{
    let range = match form {
        Form::NoString => call_range(text, tokens, call.name, call.close),
        Form::NoLiteral { other_count, .. } => {
            let index = arguments
                .len()
                .saturating_sub(other_count)
                .saturating_sub(1);
            argument_range(tokens, arguments, index)
        }
        Form::NoComma { operator, .. } => found_range(operator),
        Form::NoOperand(operator) => found_range(operator),
        Form::NoExpression { index, is_last } => range_after(tokens, arguments, index, is_last),
    };
    range_in(text, range.start, range.end)
}

/// Returns what is said of the `b` of a byte string literal.
#[tactic(auto, unfolding(crate::specs::FormWords::bytes_label))]
fn bytes_label() -> &'static str
    ensures { result.now ≡ bytes_label }
{
    "help: consider removing the leading `b`"
}

/// Returns whether a byte string literal stands where the format string should.
fn has_bytes(form: Form<'_>) -> bool
    ensures { result ≡ has_bytes (seen_form form.entry) }
{
    match form {
        Form::NoLiteral { is_bytes, .. } => is_bytes,
        _ => false,
    }
}

/// Returns how many arguments stand after the expression in whose place a literal is missing, or
/// `None` if none is.
fn lacks_literal(form: Form<'_>) -> Option<usize>
    ensures { result ≡ lacks_literal (seen_form form.entry) }
{
    match form {
        Form::NoLiteral {
            other_count,
            is_bytes,
        } => { if is_bytes { None } else { Some(other_count) } }
        _ => None,
    }
}

/// Adds a label. Returns `Err` if an allocation fails.
fn push_label(
    labels: &mut Vec<Label>,
    range: Range<usize>,
    is_primary: bool,
    text: &str,
) -> Result<(), AllocError>
    ensures { OnOk result ((l : LabelValue) × (labels.new.items ≡ labels.old.items ++ l ∷ [])
        × (l.range ≡ range) × (l.is_primary ≡ is_primary) × (string_bytes l.text ≡ text.now)) }
{
    let text = String::from_str(*labels.allocator(), text)?;
    labels.push(Label {
        range,
        is_primary,
        text,
    })?;
    Ok(())
}

/// Returns the labels of what is wrong with these bytes. Returns `Err` if an allocation fails.
fn form_labels(
    alloc: Global,
    text: &str,
    span: &Range<usize>,
    form: Form<'_>,
) -> Result<Vec<Label>, AllocError>
    requires { IsSpan text.now span.now }
    ensures outcome { IfOk result (λ v. TellLabels (form_labels (seen_form form.entry)) v.items) }
    ensures spans { IfOk result (λ v. All (λ l. IsSpan text.now l.range) v.items) }
{
    let mut labels = Vec::new(alloc);
    push_label(&mut labels, span.start..span.end, true, form_label(form))?;
    if has_bytes(form) {
        let letter = range_in(text, span.start, span.start.saturating_add(1));
        push_label(&mut labels, letter, false, bytes_label())?;
    }
    Ok(labels)
}

/// Adds this many placeholders, each after a space. Returns `Err` if an allocation fails.
fn put_placeholders(out: &mut String, count: usize) -> Result<(), AllocError>
    ensures { OnOk result (string_bytes out.new ≡ string_bytes out.old ++ more_placeholders count) }
{
    let mut countdown = count;
    while countdown > 0 {
        out.push_str(" {}")?;
        countdown -= 1;
    }
    Ok(())
}

/// Returns the format string for an argument and so many others, with the comma after it. Returns
/// `Err` if an allocation fails.
fn literal_for(alloc: Global, other_count: usize) -> Result<String, AllocError>
    ensures { IfOk result (λ s. string_bytes s ≡ literal_for other_count) }
{
    let mut text = String::from_str(alloc, "\"{}")?;
    put_placeholders(&mut text, other_count)?;
    text.push_str("\", ")?;
    Ok(text)
}

/// Returns the help, or `None` if there is none that is no label. Returns `Err` if an allocation
/// fails.
fn form_help(
    alloc: Global,
    text: &str,
    span: &Range<usize>,
    form: Form<'_>,
) -> Result<Option<Help>, AllocError>
    ensures outcome { IfOk result (λ o. TellsHelp (form_help (seen_form form.entry)) o) }
    ensures spans { IfOk result (λ o. IfSome o (λ h. All (λ e. IsSpan text.now e.range)
        h.edits.items)) }
{
    let Some(other_count) = lacks_literal(form) else {
        return Ok(None);
    };
    let message = "you might be missing a string literal to format with";
    let words = String::from_str(alloc, message)?;
    let literal = literal_for(alloc, other_count)?;
    let mut edits = Vec::new(alloc);
    edits.push(Edit {
        range: range_in(text, span.start, span.start),
        text: literal,
    })?;
    Ok(Some(Help { text: words, edits }))
}

/// Returns the finding of what is wrong with the arguments of a call. Returns `Err` if an
/// allocation fails.
fn form_finding(
    alloc: Global,
    text: &str,
    span: Range<usize>,
    form: Form<'_>,
) -> Result<Finding, AllocError>
    requires { IsSpan text.now span }
    ensures outcome { IfOk result (λ x. TellsForm (seen_form form.entry) x) }
    ensures spans { IfOk result (λ x. HasSpans text.now x) }
{
    let mut title = String::new(alloc);
    put_title(&mut title, form)?;
    let labels = form_labels(alloc, text, &span, form)?;
    let help = form_help(alloc, text, &span, form)?;
    Ok(Finding {
        is_warning: false,
        id: form_id(form),
        title,
        span,
        labels,
        notes: Vec::new(alloc),
        help,
    })
}

/// Adds the finding of what is wrong with the arguments of a call, if anything is. Returns `Err` if
/// an allocation fails.
pub fn put_form(
    findings: &mut Vec<Finding>,
    text: &str,
    tokens: &[Token<'_>],
    call: &Call,
    arguments: &[Argument],
    form: Option<Form<'_>>,
) -> Result<(), AllocError>
    ensures outcome { OnOk result ((xs : List FindingValue)
        × (findings.new.items ≡ findings.old.items ++ xs)
        × TellsForms (option_map seen_form form.entry) xs) }
    ensures spans { OnOk result (All (HasSpans text.now) findings.old.items
        → All (HasSpans text.now) findings.new.items) }
{
    if let Some(form) = form {
        let span = form_range(text, tokens, call, arguments, form);
        findings.push(form_finding(*findings.allocator(), text, span, form)?)?;
    }
    Ok(())
}
