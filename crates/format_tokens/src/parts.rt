//! The tokens of the parts of a placeholder. Each function takes a part that the parser read, adds
//! its tokens to a list, and returns the rest of the text after the part. Returns `Err` if an
//! allocation fails; the list may then have some of the tokens.

ghost use Rattle.std.specs.Prelude.{◌≡◌, ◌++◌, ℕ, [], IfOk, chars, codes, length, option_map};
ghost use Rattle.std.specs.Prelude.{◌+◌, ◌*◌, ◌≤◌, IsTrue, min};
ghost use Rattle.rustc_parse_format.specs.Characters.{Text, begins_with, after_first, byte_length};
ghost use Rattle.rustc_parse_format.specs.Characters.{first, front, is_over};
ghost use Rattle.std.specs.Char.{digit_value, is_ascii_digit};
ghost use Rattle.rustc_parse_format.specs.Views.{seen_alignment, seen_count, seen_debug_hex};
ghost use Rattle.rustc_parse_format.specs.Views.{seen_mode, seen_position, seen_sign, seen_spec};
ghost use Rattle.rustc_parse_format.specs.Spelling.{IsPart};
ghost use Rattle.rustc_parse_format.specs.Syntax.{CountText, FormatText, PositionText};
ghost use Rattle.rustc_parse_format.specs.Syntax.{PrecisionText, SpecText, TypeText, WidthText};
ghost use Rattle.rustc_parse_format.specs.Syntax.{align_part, count_part, fill_part, format_part};
ghost use Rattle.rustc_parse_format.specs.Syntax.{position_part, precision_part, sign_part};
ghost use Rattle.rustc_parse_format.specs.Syntax.{spec_part, type_part, width_part};
ghost use Rattle.rustc_parse_format.specs.Types.{Implied, Star, bare_count, bare_spec};
ghost use Rattle.rustc_parse_format.specs.Values.{count_value, debug_hex_of, format_value};
ghost use Rattle.rustc_parse_format.specs.Values.{is_padded, position_of, precision_value};
ghost use Rattle.rustc_parse_format.specs.Values.{spec_value, type_of, width_value};
ghost use Rattle.format_tokens.specs.Labels.{Adds, names_raw, passes};
ghost use Rattle.format_tokens.specs.Tokens.{count_tokens, format_tokens, position_tokens};
ghost use Rattle.format_tokens.specs.Tokens.{integer_kind, precision_tokens, spec_tokens, token};
ghost use Rattle.format_tokens.specs.Tokens.{width_tokens, word_kind};

use crate::kinds::{Kind, Label};
use rustc_parse_format::{Alignment, Count, DebugHex, FormatSpec, ParseMode, Position, Sign};
use std::alloc::AllocError;

/// Returns the number of characters of a text.
pub fn length_of(text: &str) -> usize
    ensures { result ≡ length (chars text.now) }
{
    text.chars().count()
}

/// Adds a token of a text's first `bytes` bytes, and returns the rest of the text. Without bytes
/// there is no token. Returns `Err` if an allocation fails.
pub fn take<'a>(
    labels: &mut Vec<Label>,
    kind: Kind,
    bytes: usize,
    text: &'a str,
) -> Result<&'a str, AllocError>
    ensures { IfOk result (λ rest. (u r : Text) → chars text.now ≡ u ++ r → bytes ≡ byte_length u
        → Adds (token kind u) r labels.old.items labels.new.items rest.now) }
{
    if bytes == 0 {
        return Ok(text);
    }
    match text.split_at_checked(bytes) {
        Some((front, rest)) => {
            labels.push(Label {
                kind,
                width: length_of(front),
            })?;
            Ok(rest)
        }
        None => Ok(""),
    }
}

/// Returns the byte length of a text.
pub fn width_of(text: &str) -> usize
    ensures { result ≡ byte_length (chars text.now) }
{
    text.len()
}

/// Returns the first character, or `None` if the text is empty.
fn first(text: &str) -> Option<char>
    ensures { result ≡ first (chars text.now) }
{
    text.chars().next()
}

/// Returns the text after the first character, or an empty text if there is none.
pub fn after_first(text: &str) -> &str
    ensures { chars result.now ≡ after_first (chars text.now) }
{
    let mut rest = text.chars();
    rest.next();
    rest.as_str()
}

/// Returns whether the first character is `c`.
pub fn begins(text: &str, c: char) -> bool
    ensures { result ≡ begins_with c (chars text.now) }
{
    match first(text) {
        Some(d) => d == c,
        None => false,
    }
}

/// A class of characters.
#[derive(Clone, Copy)]
pub enum Run {
    /// The decimal digits.
    Digits,
    /// White space, as in `char::is_whitespace`.
    Whitespace,
}

impl Run {
    /// Returns whether a character is of the class.
    fn passes(self, c: char) -> bool
        ensures { result ≡ passes self c }
    {
        match self {
            Run::Digits => c.is_ascii_digit(),
            Run::Whitespace => c.is_whitespace(),
        }
    }
}

/// Returns the byte length of the longest prefix of a text whose characters are all of the class.
pub fn run_width(text: &str, run: Run) -> usize
    ensures { result ≡ byte_length (front (passes run) (chars text.now)) }
{
    let mut rest = text.chars();
    let mut width = 0;
    while let Some(c) = rest.next() {
        if !run.passes(c) {
            return width;
        }
        width += c.len_utf8();
    }
    width
}

/// Returns the kind of a word that is of a kind unless it is a lone `_`.
fn word_kind(kind: Kind, word: &str) -> Kind
    ensures { result ≡ word_kind kind (chars word.now) }
{
    if first(word) == Some('_') && first(after_first(word)).is_none() {
        Kind::Unexpected
    } else {
        kind
    }
}

/// Returns a number with one more digit, or 65536 if it is greater.
fn with_digit(number: u32, digit: char) -> u32
    requires number { number ≤ 65536 }
    requires digit { IsTrue (is_ascii_digit digit) }
    ensures { result ≡ min (number * 10 + digit_value digit) 65536 }
{
    (number * 10 + (u32::from(digit) - 48)).min(65536)
}

/// Returns whether the number that the digits at the start of a text write is above 65535.
fn is_over(text: &str) -> bool
    ensures { result ≡ is_over (front is_ascii_digit (chars text.now)) }
{
    let mut number = 0;
    let mut rest = text.chars();
    while let Some(c) = rest.next() {
        if !c.is_ascii_digit() {
            return number > 65535;
        }
        number = with_digit(number, c);
    }
    number > 65535
}

/// Returns the kind of the digits at the start of a text.
fn integer_kind(text: &str) -> Kind
    ensures { result ≡ integer_kind (front is_ascii_digit (chars text.now)) }
{
    if is_over(text) {
        Kind::Unexpected
    } else {
        Kind::Integer
    }
}

/// Returns whether a text that begins with a name has an `r#` before it.
fn is_raw(text: &str, name: &str) -> bool
    ensures { result ≡ names_raw (chars text.now) (chars name.now) }
{
    let hash = after_first(text);
    match first(name) {
        Some(c) => begins(text, 'r') && begins(hash, '#') && begins(after_first(hash), c),
        None => false,
    }
}

/// Adds the tokens of a position.
pub fn position<'a>(
    labels: &mut Vec<Label>,
    position: &Position<'_>,
    text: &'a str,
) -> Result<&'a str, AllocError>
    ensures { IfOk result (λ rest. (p : PositionText) (n : ℕ) (r : Text)
        → IsPart (chars text.now) (position_part p) r
        → seen_position position.now ≡ position_of n p
        → Adds (position_tokens p) r labels.old.items labels.new.items rest.now) }
{
    match position {
        Position::ArgumentImplicitlyIs(_) => Ok(text),
        Position::ArgumentIs(_) => take(
            labels,
            integer_kind(text),
            run_width(text, Run::Digits),
            text,
        ),
        Position::ArgumentNamed(name) => {
            let prefix = if is_raw(text, name) { 2 } else { 0 };
            let word = take(labels, Kind::RawPrefix, prefix, text)?;
            let kind = word_kind(Kind::Identifier, name);
            take(labels, kind, width_of(name), word)
        }
    }
}

/// Adds the tokens of a count.
fn count<'a>(
    labels: &mut Vec<Label>,
    count: &Count<'_>,
    text: &'a str,
) -> Result<&'a str, AllocError>
    ensures count { IfOk result (λ rest. (k : CountText) (r : Text)
        → IsPart (chars text.now) (count_part k) r
        → bare_count (seen_count count.now) ≡ count_value k
        → Adds (count_tokens k) r labels.old.items labels.new.items rest.now) }
    ensures star { IfOk result (λ rest. (n : ℕ) (r : Text) → chars text.now ≡ codes "*" ++ r
        → bare_count (seen_count count.now) ≡ Star n
        → Adds (token Kind.Asterisk (codes "*")) r labels.old.items labels.new.items rest.now) }
    ensures none { IfOk result (λ rest. bare_count (seen_count count.now) ≡ Implied
        → Adds [] (chars text.now) labels.old.items labels.new.items rest.now) }
{
    match count {
        Count::CountIs(_) => take(
            labels,
            integer_kind(text),
            run_width(text, Run::Digits),
            text,
        ),
        Count::CountIsParam(_) => {
            let dollar = take(
                labels,
                integer_kind(text),
                run_width(text, Run::Digits),
                text,
            )?;
            take(labels, Kind::DollarSign, 1, dollar)
        }
        Count::CountIsName(name, _) => {
            let kind = word_kind(Kind::Identifier, name);
            let dollar = take(labels, kind, width_of(name), text)?;
            take(labels, Kind::DollarSign, 1, dollar)
        }
        Count::CountIsStar(_) => take(labels, Kind::Asterisk, 1, text),
        Count::CountImplied => Ok(text),
    }
}

/// Adds the tokens of a width, with the flag `0` if it is set.
fn width<'a>(
    labels: &mut Vec<Label>,
    zero_pad: bool,
    width: &Count<'_>,
    text: &'a str,
) -> Result<&'a str, AllocError>
    ensures { IfOk result (λ rest. (k : WidthText) (r : Text)
        → IsPart (chars text.now) (width_part k) r
        → zero_pad ≡ is_padded k → bare_count (seen_count width.now) ≡ width_value k
        → Adds (width_tokens k) r labels.old.items labels.new.items rest.now) }
{
    let rest_after = take(labels, Kind::Zero, usize::from(zero_pad), text)?;
    count(labels, width, rest_after)
}

/// Adds the tokens of a precision, with the dot before it.
fn precision<'a>(
    labels: &mut Vec<Label>,
    precision: &Count<'_>,
    text: &'a str,
) -> Result<&'a str, AllocError>
    ensures { IfOk result (λ rest. (k : PrecisionText) (n : ℕ) (r : Text)
        → IsPart (chars text.now) (precision_part k) r
        → bare_count (seen_count precision.now) ≡ precision_value n k
        → Adds (precision_tokens k) r labels.old.items labels.new.items rest.now) }
{
    let rest_after = take(labels, Kind::Dot, usize::from(begins(text, '.')), text)?;
    count(labels, precision, rest_after)
}

/// Returns the byte length of a fill.
fn fill_width(fill: Option<char>) -> usize
    ensures { result ≡ byte_length (fill_part fill).spelling }
{
    match fill {
        Some(c) => c.len_utf8(),
        None => 0,
    }
}

/// Returns the byte length of an alignment.
fn align_width(align: Alignment) -> usize
    ensures { result ≡ byte_length (align_part (seen_alignment align)).spelling }
{
    match align {
        Alignment::AlignLeft | Alignment::AlignRight | Alignment::AlignCenter => 1,
        Alignment::AlignUnknown => 0,
    }
}

/// Returns the byte length of a sign.
fn sign_width(sign: Option<Sign>) -> usize
    ensures { result ≡ byte_length (sign_part (option_map seen_sign sign)).spelling }
{
    match sign {
        Some(Sign::Plus | Sign::Minus) => 1,
        None => 0,
    }
}

/// Returns the byte length of a type. With a flag for its hexadecimal digits it is `x?` or `X?`.
fn type_width(debug_hex: Option<DebugHex>, ty: &str) -> usize
    ensures { (k : TypeText) → option_map seen_debug_hex debug_hex ≡ debug_hex_of k
        → chars ty.now ≡ type_of k → result ≡ byte_length (type_part k).spelling }
{
    match debug_hex {
        Some(_) => 2,
        None => width_of(ty),
    }
}

/// Adds the tokens of a format specification.
fn format<'a>(
    labels: &mut Vec<Label>,
    format: &FormatSpec<'_>,
    text: &'a str,
) -> Result<&'a str, AllocError>
    ensures { IfOk result (λ rest. (p : FormatText) (n : ℕ) (r : Text)
        → IsPart (chars text.now) (format_part p) r
        → bare_spec (seen_spec format.now) ≡ format_value n p
        → Adds (format_tokens p) r labels.old.items labels.new.items rest.now) }
{
    let align = take(labels, Kind::Fill, fill_width(format.fill), text)?;
    let sign = take(labels, Kind::Alignment, align_width(format.align), align)?;
    let alternate = take(labels, Kind::Sign, sign_width(format.sign), sign)?;
    let number = take(
        labels,
        Kind::NumberSign,
        usize::from(format.alternate),
        alternate,
    )?;
    let dot = width(labels, format.zero_pad, &format.width, number)?;
    let ty = precision(labels, &format.precision, dot)?;
    take(
        labels,
        word_kind(Kind::Type, format.ty),
        type_width(format.debug_hex, format.ty),
        ty,
    )
}

/// Adds the tokens of a specification, with the colon before it.
pub fn specification<'a>(
    labels: &mut Vec<Label>,
    mode: ParseMode,
    spec: &FormatSpec<'_>,
    text: &'a str,
) -> Result<&'a str, AllocError>
    ensures { IfOk result (λ rest. (k : SpecText) (n : ℕ) (r : Text)
        → IsPart (chars text.now) (spec_part (seen_mode mode) k) r
        → bare_spec (seen_spec spec.now) ≡ spec_value n k
        → Adds (spec_tokens k) r labels.old.items labels.new.items rest.now) }
{
    if !begins(text, ':') {
        return Ok(text);
    }
    let rest_after = take(labels, Kind::Colon, 1, text)?;
    match mode {
        ParseMode::Format => format(labels, spec, rest_after),
        ParseMode::InlineAsm => {
            let kind = word_kind(Kind::Modifier, spec.ty);
            take(labels, kind, width_of(spec.ty), rest_after)
        }
        ParseMode::Diagnostic | ParseMode::DiagnosticNamed => take(
            labels,
            Kind::DiagnosticText,
            width_of(spec.ty),
            rest_after,
        ),
    }
}
