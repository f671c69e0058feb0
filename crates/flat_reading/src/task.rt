//! The input and options of a call, and the codes for those that are invalid.

ghost use Rattle.std.specs.Prelude.{◌≡◌, ◌≤◌, IfErr, IfOk, IfSome, Some, None, chars, is_some};
ghost use Rattle.std.specs.Prelude.{length, option_map};
ghost use Rattle.std.specs.Str.{is_utf8};
ghost use Rattle.rustc_parse_format.specs.Views.{seen_mode};
ghost use Rattle.rustc_parse_format.specs.World.{hashes};
ghost use Rattle.flat_reading.specs.Interface.{limit, mode_meant, refusal, snippet_meant};
ghost use Rattle.flat_reading.specs.Interface.{style_meant};
ghost use Rattle.flat_reading.specs.Meaning.{is_set};

use crate::records::{
    MODE_DIAGNOSTIC, MODE_DIAGNOSTIC_NAMED, MODE_FORMAT, MODE_INLINE_ASM, NO_SUCH_MODE, NOT_TEXT,
    Options, SNIPPET_NOT_TEXT, TOO_LONG,
};
use rustc_parse_format::ParseMode;

/// An input, and how to read it.
#[derive(Clone, Copy)]
pub struct Task<'a> {
    /// The kind of text that the input is.
    pub mode: ParseMode,
    /// The input.
    pub input: &'a str,
    /// The number of hashes of a raw literal, or `None` for an ordinary literal.
    pub style: Option<usize>,
    /// The source text that the input should come from, if it is known.
    pub snippet: Option<&'a str>,
    /// Whether the input ends in a newline that is not in the source.
    pub appended_newline: bool,
}

/// The most bytes of an input, and the most hashes of a raw literal.
const LIMIT: usize = 1_000_000_000_000;

/// Returns the mode of one of `MODE_..`, or `None` if it is none of them.
fn mode_of(mode: u32) -> Option<ParseMode>
    ensures { option_map seen_mode result ≡ mode_meant mode }
{
    match mode {
        MODE_FORMAT => Some(ParseMode::Format),
        MODE_INLINE_ASM => Some(ParseMode::InlineAsm),
        MODE_DIAGNOSTIC => Some(ParseMode::Diagnostic),
        MODE_DIAGNOSTIC_NAMED => Some(ParseMode::DiagnosticNamed),
        _ => None,
    }
}

/// Returns the number of hashes of a raw literal, or `None` for an ordinary literal.
fn style_of(options: &Options) -> Option<usize>
    ensures { result ≡ style_meant options.now }
{
    if options.is_raw == 0 {
        None
    } else {
        Some(options.hashes)
    }
}

/// Returns the text that the bytes are in UTF-8, or `None` if they are not UTF-8.
fn text_of(bytes: &[u8]) -> Option<&str>
    ensures some { is_some result ≡ is_utf8 bytes.now }
    ensures same { IfSome result (λ t. t.now ≡ bytes.now) }
{
    match str::from_utf8(bytes) {
        Ok(text) => Some(text),
        Err(_) => None,
    }
}

/// Returns the input and the options as a `Task`. Returns `Err` with a code of `records` if the
/// input or the snippet is not UTF-8, the mode is none of `MODE_..`, or the input has more than
/// 10^12 bytes or a raw literal more than 10^12 hashes. Does not allocate.
pub fn task_of<'a>(input: &'a [u8], snippet: &'a [u8], options: &Options) -> Result<Task<'a>, u32>
    ensures refused { IfErr result (λ e. refusal input.now snippet.now options.now ≡ Some e) }
    ensures accepted { IfOk result (λ _. refusal input.now snippet.now options.now ≡ None) }
    ensures mode { IfOk result (λ a. Some (seen_mode a.mode) ≡ mode_meant options.now.mode) }
    ensures input { IfOk result (λ a. a.input.now ≡ input.now) }
    ensures style { IfOk result (λ a. a.style ≡ style_meant options.now) }
    ensures snippet { IfOk result (λ a. option_map (λ t. chars t.now) a.snippet
        ≡ snippet_meant options.now snippet.now) }
    ensures newline { IfOk result (λ a. a.appended_newline ≡ is_set options.now.appended_newline) }
    ensures input_length { IfOk result (λ a. length a.input.now ≤ limit) }
    ensures hashes { IfOk result (λ a. hashes a.style ≤ limit) }
{
    let Some(mode) = mode_of(options.mode) else {
        return Err(NO_SUCH_MODE);
    };
    let Some(text) = text_of(input) else {
        return Err(NOT_TEXT);
    };
    let snippet = if options.has_snippet == 0 {
        None
    } else {
        let Some(snippet) = text_of(snippet) else {
            return Err(SNIPPET_NOT_TEXT);
        };
        Some(snippet)
    };
    if input.len() > LIMIT || options.is_raw != 0 && options.hashes > LIMIT {
        return Err(TOO_LONG);
    }
    Ok(Task {
        mode,
        input: text,
        style: style_of(options),
        snippet,
        appended_newline: options.appended_newline != 0,
    })
}
