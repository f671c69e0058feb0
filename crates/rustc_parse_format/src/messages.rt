//! The errors that faults become, with their texts: one match arm for each fault.
//!
//! Texts are put together by `push_str`, in a string that is made as long as they are: `format!`
//! takes 100 to 750 instructions more for each.

ghost use Rattle.std.specs.Prelude.{◌≡◌, ◌∷◌, [], IfOk, None, OnOk, Some};
ghost use Rattle.std.specs.Prelude.{chars, codes, encode_utf8_all, string_bytes};
ghost use Rattle.rustc_parse_format.specs.Faults.{align_after, debug_after, error, expected_brace};
ghost use Rattle.rustc_parse_format.specs.Faults.{local_variable, message, out_of_range};
ghost use Rattle.rustc_parse_format.specs.Faults.{UsePositional, with_suggestion};
ghost use Rattle.rustc_parse_format.specs.Views.{pair, seen_error};
ghost use Rattle.rustc_parse_format.specs.FaultViews.{seen_fault};

use crate::escapes::put_written;
use crate::faults::Fault;
use crate::types::{ParseError, Suggestion};
use std::alloc::{AllocError, Global};
use std::ops::Range;

/// Returns the description of a missing closing brace, from the character found in its place, or
/// `None` at the end of the input. Returns `Err` if an allocation fails.
fn expected_brace(alloc: Global, character: Option<char>) -> Result<String, AllocError>
    ensures { IfOk result (λ s. string_bytes s ≡ expected_brace character) }
{
    let Some(c) = character else {
        return String::from_str(alloc, "expected `}` but string was terminated");
    };
    // 21 bytes, at most 6 for the character, and the closing quote
    let mut text = String::with_capacity(alloc, 28)?;
    text.push_str("expected `}`, found `")?;
    put_written(&mut text, c)?;
    text.push('`')?;
    Ok(text)
}

/// Returns the description of a number above 65535, from its digits. Returns `Err` if an allocation
/// fails.
fn out_of_range(alloc: Global, digits: &str) -> Result<String, AllocError>
    ensures { IfOk result (λ s. string_bytes s ≡ out_of_range (chars digits.now)) }
{
    let mut text = String::with_capacity(alloc, 70 + digits.len())?;
    text.push_str("integer `")?;
    text.push_str(digits)?;
    text.push_str("` does not fit into the type `u16` whose range is `0..=65535`")?;
    Ok(text)
}

/// Returns the flag with the type `?` after it. Returns `Err` if an allocation fails.
fn flagged_type(alloc: Global, flag: char) -> Result<String, AllocError>
    ensures { IfOk result (λ s. string_bytes s ≡ encode_utf8_all (flag ∷ codes "?")) }
{
    let mut text = String::with_capacity(alloc, 1 + flag.len_utf8())?;
    text.push(flag)?;
    text.push('?')?;
    Ok(text)
}

/// Returns the note on how to write the type `?` for the argument `word`. Returns `Err` if an
/// allocation fails.
fn debug_after(alloc: Global, word: &str) -> Result<String, AllocError>
    ensures { IfOk result (λ s. string_bytes s ≡ debug_after (chars word.now)) }
{
    let mut text = String::with_capacity(alloc, 37 + word.len())?;
    text.push_str("`?` comes after `:`, try `")?;
    text.push_str(word)?;
    text.push_str(":?` instead")?;
    Ok(text)
}

/// Returns the label on where an alignment belongs. Returns `Err` if an allocation fails.
fn align_after(alloc: Global, sign: char) -> Result<String, AllocError>
    ensures { IfOk result (λ s. string_bytes s ≡ align_after sign) }
{
    let mut text = String::with_capacity(alloc, 30 + sign.len_utf8())?;
    text.push_str("expected `")?;
    text.push(sign)?;
    text.push_str("` to occur after `:`")?;
    Ok(text)
}

/// Sets the description, the label and the span of an error. Returns `Err` if an allocation fails.
#[inline(always)]
fn set_texts(
    alloc: Global,
    parse_error: &mut ParseError,
    description: String,
    label: &str,
    span: &Range<usize>,
) -> Result<(), AllocError>
    ensures { OnOk result (seen_error parse_error.new ≡ record (seen_error parse_error.old) {
      description = string_bytes description;
      label = label.now;
      span = pair span.now;
    }) }
{
    parse_error.description = description;
    parse_error.label = String::from_str(alloc, label)?;
    parse_error.span = span.start..span.end;
    Ok(())
}

/// Sets the description, the note, the label and the span of an error. Returns `Err` if an
/// allocation fails.
#[inline(always)]
fn set_texts_with_note(
    alloc: Global,
    parse_error: &mut ParseError,
    description: &str,
    note: &str,
    label: &str,
    span: &Range<usize>,
) -> Result<(), AllocError>
    ensures { OnOk result (seen_error parse_error.new ≡ record (seen_error parse_error.old) {
      description = description.now;
      note = Some note.now;
      label = label.now;
      span = pair span.now;
    }) }
{
    let description = String::from_str(alloc, description)?;
    parse_error.note = Some(String::from_str(alloc, note)?);
    set_texts(alloc, parse_error, description, label, span)
}

/// Sets the description, the note, the span and the secondary label of an error whose label is that
/// of a missing closing brace. Returns `Err` if an allocation fails.
fn set_brace_error(
    alloc: Global,
    parse_error: &mut ParseError,
    description: String,
    note: &str,
    span: &Range<usize>,
    second: (&str, &Range<usize>),
) -> Result<(), AllocError>
    ensures { OnOk result (seen_error parse_error.new ≡ record (seen_error parse_error.old) {
      description = string_bytes description;
      note = Some note.now;
      label = codes "expected `}`";
      span = pair span.now;
      second = Some (second.entry.0.now, pair second.entry.1.now);
    }) }
{
    parse_error.note = Some(String::from_str(alloc, note)?);
    parse_error.secondary_label = Some((
        String::from_str(alloc, second.0)?,
        second.1.start..second.1.end,
    ));
    set_texts(alloc, parse_error, description, "expected `}`", span)
}

/// Sets the texts and the span of the error of a field access. Returns `Err` if an allocation
/// fails.
fn set_field_error(
    alloc: Global,
    parse_error: &mut ParseError,
    description: &str,
    span: &Range<usize>,
) -> Result<(), AllocError>
    requires { seen_error parse_error.old
        ≡ with_suggestion UsePositional (error [] None [] (0, 0) None) }
    ensures { OnOk result (seen_error parse_error.new
        ≡ local_variable description.now (pair span.now)) }
{
    set_texts_with_note(
        alloc,
        parse_error,
        description,
        "consider moving this expression to a local variable and then using the local here instead",
        "not supported",
        span,
    )
}

impl Fault<'_> {
    ghost use Rattle.std.specs.Prelude.{◌≡◌, IfOk};
    ghost use Rattle.rustc_parse_format.specs.Faults.{message};
    ghost use Rattle.rustc_parse_format.specs.Views.{seen_suggestion};
    ghost use Rattle.rustc_parse_format.specs.FaultViews.{seen_fault};

    /// Returns the suggestion of the fault's error, and makes none of the error's other texts.
    /// Returns `Err` if an allocation fails.
    #[inline(always)]
    #[tactic(auto, unfolding(crate::specs::Faults::message))]
    pub fn suggestion(&self, alloc: Global) -> Result<Suggestion, AllocError>
        ensures { IfOk result (λ s. seen_suggestion s
            ≡ (message (seen_fault self.now)).suggestion) }
    {
        let suggestion = match self {
            Fault::RawIdentifier(_, prefix) => Suggestion::RemoveRawIdent(prefix.start..prefix.end),
            Fault::LateFlag(flag, _, both) => Suggestion::ReorderFormatParameter(
                both.start..both.end,
                flagged_type(alloc, *flag)?,
            ),
            Fault::MissingColon(span) => Suggestion::AddMissingColon(span.start..span.end),
            Fault::DebugPrint(..) => Suggestion::UseRustDebugPrintingMacro,
            Fault::FieldAccess(_) | Fault::TupleIndex(_) => Suggestion::UsePositional,
            _ => Suggestion::None,
        };
        Ok(suggestion)
    }
}

/// Sets an error, which is still empty, to that of a fault. Returns `Err` if an allocation fails.
#[tactic(auto, unfolding(crate::specs::Faults::message))]
pub fn set_error(
    alloc: Global,
    parse_error: &mut ParseError,
    fault: &Fault<'_>,
) -> Result<(), AllocError>
    requires { seen_error parse_error.old ≡ error [] None [] (0, 0) None }
    ensures { OnOk result (seen_error parse_error.new ≡ message (seen_fault fault.now)) }
{
    match fault {
        Fault::UnmatchedBrace(span) => set_texts_with_note(
            alloc,
            parse_error,
            "unmatched `}` found",
            "if you intended to print `}`, you can escape it using `}}`",
            "unmatched `}`",
            span,
        ),
        Fault::MissingBrace(character, span, opening) => set_brace_error(
            alloc,
            parse_error,
            expected_brace(alloc, *character)?,
            "if you intended to print `{`, you can escape it using `{{`",
            span,
            ("because of this opening brace", opening),
        ),
        Fault::FillBrace(character, span, fill) => set_brace_error(
            alloc,
            parse_error,
            expected_brace(alloc, *character)?,
            "the character `}` is interpreted as a fill character because of the `:` that precedes it",
            span,
            (
                "this is not interpreted as a formatting closing brace",
                fill,
            ),
        ),
        Fault::Underscore(span) => set_texts_with_note(
            alloc,
            parse_error,
            "invalid argument name `_`",
            "argument name cannot be a single underscore",
            "invalid argument name",
            span,
        ),
        Fault::TooLarge(digits, span) => set_texts(
            alloc,
            parse_error,
            out_of_range(alloc, digits)?,
            "integer out of range for `u16`",
            span,
        ),
        Fault::Unnamed(span) => set_texts_with_note(
            alloc,
            parse_error,
            "expected a named argument",
            "only named arguments are allowed here",
            "expected a name",
            span,
        ),
        Fault::TextAfterColon(span) => set_texts(
            alloc,
            parse_error,
            String::from_str(alloc, "format specifiers are not allowed")?,
            "remove this text",
            span,
        ),
        Fault::RawIdentifier(span, _) => {
            parse_error.suggestion = fault.suggestion(alloc)?;
            set_texts_with_note(
                alloc,
                parse_error,
                "raw identifiers are not supported",
                "identifiers in format strings can be keywords and don't need to be prefixed with `r#`",
                "raw identifier used here",
                span,
            )
        }
        Fault::LateFlag(flag, span, _) => {
            parse_error.suggestion = fault.suggestion(alloc)?;
            let description = expected_brace(alloc, Some(*flag))?;
            set_texts(alloc, parse_error, description, "expected `'}'`", span)
        }
        Fault::MissingColon(span) => {
            parse_error.suggestion = fault.suggestion(alloc)?;
            set_texts_with_note(
                alloc,
                parse_error,
                "expected `}`, found `?`",
                "to print `{`, you can escape it using `{{`",
                "expected `:` before `?` to format with `Debug`",
                span,
            )
        }
        Fault::LateDebug(word, span) => {
            parse_error.note = Some(debug_after(alloc, word)?);
            set_texts(
                alloc,
                parse_error,
                String::from_str(alloc, "expected format parameter to occur after `:`")?,
                "expected `?` to occur after `:`",
                span,
            )
        }
        Fault::LateAlign(sign, span) => {
            parse_error.label = align_after(alloc, *sign)?;
            parse_error.span = span.start..span.end;
            parse_error.description = String::from_str(
                alloc,
                "expected alignment specifier after `:` in format string; example: `{:>?}`",
            )?;
            Ok(())
        }
        Fault::Grouping(span, opening) => set_brace_error(
            alloc,
            parse_error,
            String::from_str(
                alloc,
                "python's numeric grouping `,` is not supported in rust format strings",
            )?,
            "to print `{`, you can escape it using `{{`",
            span,
            ("because of this opening brace", opening),
        ),
        Fault::DebugPrint(span, opening) => {
            parse_error.suggestion = fault.suggestion(alloc)?;
            set_brace_error(
                alloc,
                parse_error,
                String::from_str(
                    alloc,
                    "python's f-string debug `=` is not supported in rust, use `dbg(x)` instead",
                )?,
                "to print `{`, you can escape it using `{{`",
                span,
                ("because of this opening brace", opening),
            )
        }
        Fault::LateSign(span) => set_texts_with_note(
            alloc,
            parse_error,
            "the `+` sign flag must appear after `:` in a format string",
            "`+` comes after `:`, try `{:+}` instead of `{+}`",
            "expected `:` before `+` sign flag",
            span,
        ),
        Fault::FieldAccess(span) => {
            parse_error.suggestion = fault.suggestion(alloc)?;
            set_field_error(alloc, parse_error, "field access isn't supported", span)
        }
        Fault::TupleIndex(span) => {
            parse_error.suggestion = fault.suggestion(alloc)?;
            set_field_error(
                alloc,
                parse_error,
                "tuple index access isn't supported",
                span,
            )
        }
    }
}
