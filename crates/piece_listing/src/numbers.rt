//! Numbers and spans in decimal digits. Each function that returns a `Result` returns `Err` if an
//! allocation fails; `put_` in a name means that it appends to `out`.

ghost use Rattle.std.specs.Prelude.{◌≡◌, ◌<◌, ◌++◌, ◌∷◌, IsAscii, OnErr, OnOk, decimal, drop};
ghost use Rattle.std.specs.Prelude.{string_bytes};
ghost use Rattle.rustc_parse_format.specs.Views.{pair};
ghost use Rattle.piece_listing.specs.Listing.{span_text};

use itoa::{Buffer, write_digits};
use std::alloc::AllocError;
use std::ops::Range;

/// The most bytes of a span after a mark: the mark, two dots and two numbers of up to 20 digits.
const SPAN_BYTES: usize = 43;

/// Appends a label and then a number in decimal digits to `out`. Returns `Err` if an allocation
/// fails; the label may then be in `out`.
#[inline(always)]
pub(crate) fn put_number(out: &mut String, label: &str, number: usize) -> Result<(), AllocError>
    ensures { OnOk result (string_bytes out.new ≡ string_bytes out.old
        ++ (label.now ++ decimal number)) }
{
    out.push_str(label)?;
    if number < 10 {
        out.push(char::from(b'0' + number as u8))?;
    } else {
        out.push_str(Buffer::new().format(number))?;
    }
    Ok(())
}

/// Writes a mark and then a span so that they end where `row` ends, and returns where they start.
#[tactic(auto, using(crate::proofs::Rows::length_decimal))]
fn write_span(row: &mut [u8; SPAN_BYTES], mark: char, start: usize, end: usize) -> usize
    requires { mark < 128 }
    ensures written { drop result row.new ≡ mark ∷ span_text (start, end) }
    ensures ascii { IsAscii (drop result row.new) }
{
    let dots = write_digits(end as u64, row, SPAN_BYTES) - 2;
    row[dots + 1] = b'.';
    row[dots] = b'.';
    let first = write_digits(start as u64, row, dots) - 1;
    row[first] = mark as u8;
    first
}

/// Appends a mark, which is an ASCII character, and then a span to `out`: its two offsets in
/// decimal digits with `..` between them. Returns `Err` if an allocation fails, and `out` is then
/// unchanged.
pub fn put_span(out: &mut String, mark: char, span: &Range<usize>) -> Result<(), AllocError>
    requires { mark < 128 }
    ensures ok { OnOk result (string_bytes out.new ≡ string_bytes out.old
        ++ (mark ∷ span_text (pair span.now))) }
    ensures err { OnErr result (string_bytes out.new ≡ string_bytes out.old) }
{
    let mut row = [0; SPAN_BYTES];
    let first = write_span(&mut row, mark, span.start, span.end);
    out.push_str(unsafe { str::from_utf8_unchecked(&row[first..]) })
}
