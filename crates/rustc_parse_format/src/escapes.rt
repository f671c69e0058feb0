//! How a character is written in an error message and in a quoted text.

ghost use Rattle.std.specs.Prelude.{◌≡◌, ◌≤◌, ◌++◌, OnErr, OnOk, chars, flat_map, length};
ghost use Rattle.std.specs.Prelude.{option_map, string_bytes};
ghost use Rattle.rustc_parse_format.specs.Escaping.{plainly_written, short_escape};
ghost use Rattle.rustc_parse_format.specs.Escaping.{written_character};

use crate::characters::Class;
use crate::literal::Rest;
use std::alloc::AllocError;

/// Returns the short escape of a character, or `None` if it has none.
fn short_escape(c: char) -> Option<&'static str>
    ensures { option_map (λ s. s.now) result ≡ short_escape c }
{
    match c {
        '\0' => Some("\\0"),
        '\t' => Some("\\t"),
        '\r' => Some("\\r"),
        '\n' => Some("\\n"),
        '\'' => Some("\\'"),
        '"' => Some("\\\""),
        '\\' => Some("\\\\"),
        _ => None,
    }
}

/// Appends a character that has no short escape: an ASCII control character as `\u{..}`, any other
/// as it is. Returns `Err` if an allocation fails, and `out` is then unchanged.
fn put_plainly_written(out: &mut String, c: char) -> Result<(), AllocError>
    ensures ok { OnOk result (string_bytes out.new ≡ string_bytes out.old ++ plainly_written c) }
    ensures err { OnErr result (string_bytes out.new ≡ string_bytes out.old) }
{
    let code = u32::from(c);
    if code < 32 || code == 127 {
        // formatted on its own first: `write!` does not promise what it leaves in `out` if it fails
        let escape = format!(in *out.allocator(); "\\u{{{code:x}}}")?;
        out.push_str(&escape)?;
    } else {
        out.push(c)?;
    }
    Ok(())
}

/// Appends a character, escaped if it has an escape or is an ASCII control character. Returns `Err`
/// if an allocation fails, and `out` is then unchanged.
#[tactic(auto, unfolding(crate::specs::Escaping::written_character))]
pub fn put_written(out: &mut String, c: char) -> Result<(), AllocError>
    ensures ok { OnOk result (string_bytes out.new ≡ string_bytes out.old ++ written_character c) }
    ensures err { OnErr result (string_bytes out.new ≡ string_bytes out.old) }
{
    match short_escape(c) {
        Some(escape) => out.push_str(escape)?,
        None => put_plainly_written(out, c)?,
    }
    Ok(())
}

/// Appends a run of characters, which is often empty. Returns `Err` if an allocation fails.
#[inline(always)]
fn push_run(out: &mut String, run: &str) -> Result<(), AllocError>
    ensures { OnOk result (string_bytes out.new ≡ string_bytes out.old ++ run.now) }
{
    if run.is_empty() {
        return Ok(());
    }
    out.push_str(run)
}

/// Appends the characters that come next and are written as they are. Returns `Err` if an
/// allocation fails.
#[inline(always)]
fn put_unchanged(out: &mut String, rest: &mut Rest<'_>) -> Result<(), AllocError>
    ensures written { OnOk result (string_bytes out.new ++ flat_map written_character rest.new
        ≡ string_bytes out.old ++ flat_map written_character rest.old) }
    ensures shorter { length rest.new ≤ length rest.old }
{
    push_run(out, rest.take_run(Class::Unchanged))?;
    Ok(())
}

/// Appends the characters of a text, each as [`put_written`] does. Returns `Err` if an allocation
/// fails, and `out` may then have a part of them.
pub fn put_all_written(out: &mut String, text: &str) -> Result<(), AllocError>
    ensures { OnOk result (string_bytes out.new
        ≡ string_bytes out.old ++ flat_map written_character (chars text.now)) }
{
    let mut rest = Rest::new(text);
    put_unchanged(out, &mut rest)?;
    while let Some(c) = rest.next() {
        put_written(out, c)?;
        put_unchanged(out, &mut rest)?;
    }
    Ok(())
}
