//! The arguments of a macro for inline assembly: templates, and then operands and options.

ghost use Rattle.std.specs.Prelude.{◌≡◌, ◌<◌, ◌≤◌, length, map, option_map};
ghost use Rattle.rust_trees.specs.Leaves.{leaf};
ghost use Rattle.format_calls.specs.Assembly.{asm_part, is_direction, is_string_at};
ghost use Rattle.format_calls.specs.Assembly.{is_parenthesis, is_value, part_of};
ghost use Rattle.format_calls.specs.Assembly.{register_at};
ghost use Rattle.format_calls.specs.Assembly.{setting_of, template_count, token_in};

use crate::marks::{is_mark_of, token_at};
use crate::modes::is_text as is_text_of;
use crate::part::Part;
use crate::split::Argument;
use crate::strings::is_text;
use rust_tokens::Kind;
use rust_trees::Token;

/// The kind of an argument after the templates of a macro for inline assembly.
#[derive(Clone, Copy)]
pub enum AsmPart {
    /// An operand without a register of its own, for example `in(reg) x` or `const 1`.
    Operand,
    /// An operand with a register of its own, for example `in("eax") x`.
    Register,
    /// Options with `raw` among them, where templates have no placeholders.
    Raw,
    /// Other options, or ABIs: `options(..)` or `clobber_abi(..)`.
    Setting,
    /// Anything else.
    Unknown,
}

/// Returns how many of arguments, from the first one on, are a string literal: these are the
/// templates.
pub fn template_count(tokens: &[Token<'_>], arguments: &[Argument]) -> usize
    ensures value { result ≡ template_count (map leaf tokens.now) arguments.now }
    ensures within { result ≤ length arguments.now }
{
    for (index, argument) in arguments.iter().enumerate() {
        if !is_text(tokens, argument) {
            return index;
        }
    }
    arguments.len()
}

/// Returns whether a word is that of an operand that a register in parentheses follows.
fn is_direction(token: &Token<'_>) -> bool
    ensures { result ≡ is_direction (leaf token.now) }
{
    is_text_of(token, "in")
        || is_text_of(token, "out")
        || is_text_of(token, "inout")
        || is_text_of(token, "lateout")
        || is_text_of(token, "inlateout")
}

/// Returns whether a word is that of an operand that has no register.
fn is_value(token: &Token<'_>) -> bool
    ensures { result ≡ is_value (leaf token.now) }
{
    is_text_of(token, "const") || is_text_of(token, "sym") || is_text_of(token, "label")
}

/// Returns whether there is a token, and it is a string literal, of whatever kind.
fn is_string(token: Option<Token<'_>>) -> bool
    ensures { result ≡ is_string_at (option_map leaf token.entry) }
{
    match token {
        Some(token) => matches!(token.kind, Kind::Str | Kind::RawStr),
        None => false,
    }
}

/// Returns whether there is a token, and it is an opening parenthesis.
fn is_parenthesis(token: Option<Token<'_>>) -> bool
    ensures { result ≡ is_parenthesis (option_map leaf token.entry) }
{
    match token {
        Some(token) => is_mark_of(&token, b'('),
        None => false,
    }
}

/// Returns which operand has its register, in parentheses, at this token.
fn register_at(token: Option<Token<'_>>) -> AsmPart
    ensures { result ≡ register_at (option_map leaf token.entry) }
{
    if is_string(token) {
        AsmPart::Register
    } else {
        AsmPart::Operand
    }
}

/// Returns what an argument without a name is that begins with a token, and has the word `raw` or
/// not.
fn setting_of(has_raw: bool, token: &Token<'_>) -> AsmPart
    ensures { result ≡ setting_of has_raw (leaf token.now) }
{
    if is_text_of(token, "options") {
        if has_raw {
            AsmPart::Raw
        } else {
            AsmPart::Setting
        }
    } else if is_text_of(token, "clobber_abi") {
        AsmPart::Setting
    } else {
        AsmPart::Unknown
    }
}

/// Returns the token of an index, if it is one of an argument.
fn token_in<'a>(tokens: &[Token<'a>], argument: &Argument, index: usize) -> Option<Token<'a>>
    ensures { option_map leaf result ≡ token_in (map leaf tokens.now) argument.now index }
{
    if index < argument.end {
        token_at(tokens, index)
    } else {
        None
    }
}

/// Returns what an argument is whose value begins with the first one of these three tokens, if they
/// are there. It has a name or not, and the word `raw` or not.
fn part_of(
    is_named: bool,
    has_raw: bool,
    first: Option<Token<'_>>,
    second: Option<Token<'_>>,
    third: Option<Token<'_>>,
) -> AsmPart
    ensures { result ≡ part_of is_named has_raw (option_map leaf first.entry)
        (option_map leaf second.entry) (option_map leaf third.entry) }
{
    let Some(first) = first else {
        return AsmPart::Unknown;
    };
    if is_direction(&first) && is_parenthesis(second) {
        return register_at(third);
    }
    if is_value(&first) {
        return AsmPart::Operand;
    }
    if is_named {
        return AsmPart::Unknown;
    }
    setting_of(has_raw, &first)
}

/// Returns what an argument after the templates is, which starts at one of the tokens.
pub fn asm_part(part: &Part<'_>, argument: &Argument) -> AsmPart
    requires { argument.now.start < length part.now }
    ensures { result ≡ asm_part part.now argument.now }
{
    let tokens = part.tokens();
    let start = if argument.is_named {
        argument.start + 2
    } else {
        argument.start
    };
    part_of(
        argument.is_named,
        part.has_raw(argument),
        token_in(tokens, argument, start),
        token_in(tokens, argument, start + 1),
        token_in(tokens, argument, start + 2),
    )
}
