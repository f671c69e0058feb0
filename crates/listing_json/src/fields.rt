//! Values that are written as JSON. Each function of this module appends to a writer, and returns
//! `Err` if an allocation fails.

ghost use Rattle.std.specs.Prelude.{◌≡◌, ◌++◌, ◌∷◌, [], OnOk, chars, decimal, option_map, codes};
ghost use Rattle.std.specs.Prelude.{string_bytes};
ghost use Rattle.json.specs.Json.{string};
ghost use Rattle.json.specs.Token.{begin_object, key, number};
ghost use Rattle.json.specs.Tree.{json_tokens};
ghost use Rattle.rustc_parse_format.specs.Views.{pair};
ghost use Rattle.listing_json.specs.Values.{index_value, maybe_value, name_value, span_value};
ghost use Rattle.listing_json.specs.Values.{text_value};

use json::Writer;
use std::alloc::AllocError;
use std::ops::Range;

/// Appends a text as a string.
pub fn put_text(writer: &mut Writer, text: &str) -> Result<(), AllocError>
    ensures tokens { OnOk result (writer.new.tokens
        ≡ writer.old.tokens ++ json_tokens (text_value (chars text.now))) }
    ensures before { writer.new.before ≡ writer.old.before }
{
    writer.string(text)?;
    Ok(())
}

/// Appends a key and a string.
pub fn put_string(writer: &mut Writer, name: &str, text: &str) -> Result<(), AllocError>
    ensures tokens { OnOk result (writer.new.tokens
        ≡ writer.old.tokens ++ key name.now ∷ json_tokens (string text.now)) }
    ensures before { writer.new.before ≡ writer.old.before }
{
    writer.key(name)?;
    writer.string(text)?;
    Ok(())
}

/// Appends a key and a number.
pub fn put_number(writer: &mut Writer, name: &str, value: usize) -> Result<(), AllocError>
    ensures tokens { OnOk result (writer.new.tokens
        ≡ writer.old.tokens ++ key name.now ∷ number (decimal value) ∷ []) }
    ensures before { writer.new.before ≡ writer.old.before }
{
    writer.key(name)?;
    writer.u64(value as u64)?;
    Ok(())
}

/// Appends a span.
pub fn put_span(writer: &mut Writer, span: &Range<usize>) -> Result<(), AllocError>
    ensures tokens { OnOk result (writer.new.tokens
        ≡ writer.old.tokens ++ json_tokens (span_value (pair span.now))) }
    ensures before { writer.new.before ≡ writer.old.before }
{
    writer.begin_object()?;
    put_number(writer, "start", span.start)?;
    put_number(writer, "end", span.end)?;
    writer.end_object()?;
    Ok(())
}

/// Appends a key and a span.
pub fn put_span_of(writer: &mut Writer, name: &str, span: &Range<usize>) -> Result<(), AllocError>
    ensures tokens { OnOk result (writer.new.tokens
        ≡ writer.old.tokens ++ key name.now ∷ json_tokens (span_value (pair span.now))) }
    ensures before { writer.new.before ≡ writer.old.before }
{
    writer.key(name)?;
    put_span(writer, span)?;
    Ok(())
}

/// Appends a key and a span, or null if there is none.
pub fn put_maybe_span(
    writer: &mut Writer,
    name: &str,
    span: &Option<Range<usize>>,
) -> Result<(), AllocError>
    ensures tokens { OnOk result (writer.new.tokens
        ≡ writer.old.tokens ++ key name.now
        ∷ json_tokens (maybe_value span_value (option_map pair span.now))) }
    ensures before { writer.new.before ≡ writer.old.before }
{
    writer.key(name)?;
    match span {
        Some(span) => put_span(writer, span)?,
        None => writer.null()?,
    }
    Ok(())
}

/// Appends the start of an object of this kind.
pub fn begin_kind(writer: &mut Writer, kind: &str) -> Result<(), AllocError>
    ensures tokens { OnOk result (writer.new.tokens ≡ writer.old.tokens
        ++ begin_object ∷ key (codes "kind") ∷ json_tokens (string kind.now)) }
    ensures before { writer.new.before ≡ writer.old.before }
{
    writer.begin_object()?;
    put_string(writer, "kind", kind)?;
    Ok(())
}

/// Appends an object of this kind with the index of an argument.
pub fn put_index(writer: &mut Writer, kind: &str, index: usize) -> Result<(), AllocError>
    ensures tokens { OnOk result (writer.new.tokens
        ≡ writer.old.tokens ++ json_tokens (index_value kind.now index)) }
    ensures before { writer.new.before ≡ writer.old.before }
{
    begin_kind(writer, kind)?;
    put_number(writer, "index", index)?;
    writer.end_object()?;
    Ok(())
}

/// Appends an object of this kind with the name of an argument.
pub fn put_name(writer: &mut Writer, kind: &str, name: &str) -> Result<(), AllocError>
    ensures tokens { OnOk result (writer.new.tokens
        ≡ writer.old.tokens ++ json_tokens (name_value kind.now (chars name.now))) }
    ensures before { writer.new.before ≡ writer.old.before }
{
    begin_kind(writer, kind)?;
    writer.key("name")?;
    put_text(writer, name)?;
    writer.end_object()?;
    Ok(())
}
