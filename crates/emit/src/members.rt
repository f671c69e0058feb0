//! Members of objects of JSON. A function whose name begins with `put_` appends to `out`, and
//! returns `Err` if an allocation fails. `is_later` is whether another member of the object comes
//! before.

ghost use Rattle.std.specs.Prelude.{◌≡◌, ◌++◌, OnOk, option_map, string_bytes, true};
ghost use Rattle.serde_json.specs.Data.{Data, Members, boolean, member, no_members, string};
ghost use Rattle.serde_json.specs.Written.{comma_if};
ghost use Rattle.emit.specs.Texts.{json_text, number_json, object_text, opening};
ghost use Rattle.emit.specs.Texts.{text_or_null};

use crate::escapes::{put_number, put_quoted};
use std::alloc::AllocError;

/// Returns the text before a member: the brace of its object, or a comma after another member.
fn opening(is_later: bool) -> &'static str
    ensures { result.now ≡ opening is_later }
{
    if is_later { "," } else { "{" }
}

/// Adds the key of a member.
pub fn put_key(out: &mut String, is_later: bool, key: &str) -> Result<(), AllocError>
    ensures { OnOk result ((d : Data) (ms : Members)
        → string_bytes out.new ++ (json_text d ++ object_text true ms)
        ≡ string_bytes out.old ++ object_text is_later (member key.now d ms)) }
{
    out.push_str(opening(is_later))?;
    put_quoted(out, key)?;
    out.push_str(":")?;
    Ok(())
}

/// Adds the end of an object that has members.
pub fn put_end(out: &mut String) -> Result<(), AllocError>
    ensures { OnOk result (string_bytes out.new
        ≡ string_bytes out.old ++ object_text true no_members) }
{
    out.push_str("}")?;
    Ok(())
}

/// Adds a text as a value.
#[tactic(auto, unfolding(crate::specs::Texts::json_text))]
fn put_string(out: &mut String, text: &str) -> Result<(), AllocError>
    ensures { OnOk result (string_bytes out.new
        ≡ string_bytes out.old ++ json_text (string text.now)) }
{
    put_quoted(out, text)?;
    Ok(())
}

/// Adds a text or `null` as a value.
#[tactic(auto, unfolding(crate::specs::Texts::json_text))]
fn put_string_or_null(out: &mut String, text: Option<&str>) -> Result<(), AllocError>
    ensures { OnOk result (string_bytes out.new ≡ string_bytes out.old
        ++ json_text (text_or_null (option_map (λ t. t.now) text.entry))) }
{
    match text {
        Some(text) => put_quoted(out, text)?,
        None => out.push_str("null")?,
    }
    Ok(())
}

/// Adds a number as a value.
#[tactic(auto, unfolding(crate::specs::Texts::json_text))]
fn put_digits(out: &mut String, number: usize) -> Result<(), AllocError>
    ensures { OnOk result (string_bytes out.new
        ≡ string_bytes out.old ++ json_text (number_json number)) }
{
    put_number(out, number)?;
    Ok(())
}

/// Adds a truth value.
#[tactic(auto, unfolding(crate::specs::Texts::json_text))]
fn put_bool(out: &mut String, value: bool) -> Result<(), AllocError>
    ensures { OnOk result (string_bytes out.new
        ≡ string_bytes out.old ++ json_text (boolean value)) }
{
    out.push_str(if value { "true" } else { "false" })?;
    Ok(())
}

/// Adds a member with a text.
pub fn put_text(out: &mut String, is_later: bool, key: &str, text: &str) -> Result<(), AllocError>
    ensures { OnOk result ((ms : Members) → string_bytes out.new ++ object_text true ms
        ≡ string_bytes out.old ++ object_text is_later (member key.now (string text.now) ms)) }
{
    put_key(out, is_later, key)?;
    put_string(out, text)?;
    Ok(())
}

/// Adds a member with a text, or with `null`, after another one.
pub fn put_text_or_null(out: &mut String, key: &str, text: Option<&str>) -> Result<(), AllocError>
    ensures { OnOk result ((ms : Members) → string_bytes out.new ++ object_text true ms
        ≡ string_bytes out.old ++ object_text true (member key.now
        (text_or_null (option_map (λ t. t.now) text.entry)) ms)) }
{
    put_key(out, true, key)?;
    put_string_or_null(out, text)?;
    Ok(())
}

/// Adds a member with a number.
pub fn put_count(
    out: &mut String,
    is_later: bool,
    key: &str,
    number: usize,
) -> Result<(), AllocError>
    ensures { OnOk result ((ms : Members) → string_bytes out.new ++ object_text true ms
        ≡ string_bytes out.old ++ object_text is_later (member key.now (number_json number) ms)) }
{
    put_key(out, is_later, key)?;
    put_digits(out, number)?;
    Ok(())
}

/// Adds a member with a truth value.
pub fn put_truth(out: &mut String, is_later: bool, key: &str, value: bool) -> Result<(), AllocError>
    ensures { OnOk result ((ms : Members) → string_bytes out.new ++ object_text true ms
        ≡ string_bytes out.old ++ object_text is_later (member key.now (boolean value) ms)) }
{
    put_key(out, is_later, key)?;
    put_bool(out, value)?;
    Ok(())
}

/// Adds a comma, if the item that follows comes after another one.
pub fn put_comma(out: &mut String, is_later: bool) -> Result<(), AllocError>
    ensures { OnOk result (string_bytes out.new ≡ string_bytes out.old ++ comma_if is_later) }
{
    if is_later {
        out.push_str(",")?;
    }
    Ok(())
}
