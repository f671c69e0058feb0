//! Numbers, from after their first digit on.

ghost use Rattle.std.specs.Prelude.{◌≡◌, chars, option_map};
ghost use Rattle.rust_tokens.specs.First.{after_fraction, exponent_or, first_decimal};
ghost use Rattle.rust_tokens.specs.First.{first_number, first_zero, fraction_or};
ghost use Rattle.rust_tokens.specs.Numbers.{after_digits, after_exponent, after_point};
ghost use Rattle.rust_tokens.specs.Numbers.{after_sign};
ghost use Rattle.rust_tokens.specs.Views.{seen_body};

use crate::bodies::{Body, ended_token};
use crate::kinds::Kind;
use crate::texts::{Class, after_run, begins, split_first};

/// Returns the rest after a sign, or the text if it begins with none.
fn after_sign(text: &str) -> &str
    ensures { chars result.now ≡ after_sign (chars text.now) }
{
    match split_first(text) {
        Some((c, rest)) => { if c == '+' || c == '-' { rest } else { text } }
        None => text,
    }
}

/// Returns the rest after digits, or `None` if the text begins with none.
fn after_digits(text: &str) -> Option<&str>
    ensures { option_map (λ r. chars r.now) result ≡ after_digits (chars text.now) }
{
    if begins(text, Class::Digit) {
        Some(after_run(text, Class::DigitPart))
    } else {
        None
    }
}

/// Returns the rest after an exponent, or `None` if the text begins with none.
fn after_exponent(text: &str) -> Option<&str>
    ensures { option_map (λ r. chars r.now) result ≡ after_exponent (chars text.now) }
{
    let Some((c, rest)) = split_first(text) else {
        return None;
    };
    if c == 'e' || c == 'E' {
        return after_digits(after_run(after_sign(rest), Class::Underscore));
    }
    None
}

/// Returns the rest after a point that belongs to the number before it, or `None`.
fn after_point(text: &str) -> Option<&str>
    ensures { option_map (λ r. chars r.now) result ≡ after_point (chars text.now) }
{
    let Some((c, rest)) = split_first(text) else {
        return None;
    };
    if c == '.' && !begins(rest, Class::PointOrStart) {
        Some(rest)
    } else {
        None
    }
}

/// Returns a float with an exponent after which `exponent` is left, or else a number of this kind
/// after which `rest` is left.
fn exponent_or<'a>(kind: Kind, rest: &'a str, exponent: Option<&'a str>) -> Body<'a>
    ensures { seen_body result ≡ exponent_or kind (chars rest.now)
        (option_map (λ r. chars r.now) exponent.entry) }
{
    match exponent {
        Some(rest) => ended_token(Kind::Float, rest),
        None => ended_token(kind, rest),
    }
}

/// Returns a number, from after its point on.
fn after_fraction(text: &str) -> Body<'_>
    ensures { seen_body result ≡ after_fraction (chars text.now) }
{
    if begins(text, Class::Digit) {
        let rest = after_run(text, Class::DigitPart);
        return exponent_or(Kind::Float, rest, after_exponent(rest));
    }
    ended_token(Kind::Float, text)
}

/// Returns a decimal number, from after its first digit on.
fn first_decimal(text: &str) -> Body<'_>
    ensures { seen_body result ≡ first_decimal (chars text.now) }
{
    let rest = after_run(text, Class::DigitPart);
    match after_point(rest) {
        Some(fraction) => after_fraction(fraction),
        None => exponent_or(Kind::DecimalInt, rest, after_exponent(rest)),
    }
}

/// Returns a number that begins with `0`, from after that on.
fn first_zero(text: &str) -> Body<'_>
    ensures { seen_body result ≡ first_zero (chars text.now) }
{
    let Some((c, rest)) = split_first(text) else {
        return first_decimal(text);
    };
    match c {
        'b' => {
            let rest = after_run(rest, Class::DigitPart);
            ended_token(Kind::BinaryInt, rest)
        }
        'o' => {
            let rest = after_run(rest, Class::DigitPart);
            ended_token(Kind::OctalInt, rest)
        }
        'x' => {
            let rest = after_run(rest, Class::HexPart);
            ended_token(Kind::HexadecimalInt, rest)
        }
        _ => first_decimal(text),
    }
}

/// Returns the number that begins with the digit `c` before the text.
pub fn first_number(c: char, text: &str) -> Body<'_>
    ensures { seen_body result ≡ first_number c (chars text.now) }
{
    if c == '0' {
        first_zero(text)
    } else {
        first_decimal(text)
    }
}
