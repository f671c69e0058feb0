//! Writes specifications as records.

ghost use Rattle.std.specs.Prelude.{◌≡◌, ℕ, ◌+◌, ◌<◌, ◌≤◌, List, Some, chars, length, option_map};
ghost use Rattle.std.specs.Prelude.{true};
ghost use Rattle.rustc_parse_format.specs.Views.{seen_alignment, seen_count, seen_debug_hex};
ghost use Rattle.rustc_parse_format.specs.Views.{seen_sign, seen_spec};
ghost use Rattle.rustc_parse_format.specs.Characters.{is_nil};
ghost use Rattle.flat_reading.specs.declared.records.Spec.{Spec as SpecRecord};
ghost use Rattle.flat_reading.specs.Events.{has_no_counts, has_no_flags, is_default};
ghost use Rattle.flat_reading.specs.Meaning.{align_meant, count_meant, fill_meant, hex_meant};
ghost use Rattle.flat_reading.specs.Meaning.{sign_meant, spec_at, spec_meant, text_at};
ghost use Rattle.flat_reading.specs.Progress.{Adds, CountAt, SpecAt};

use crate::fields::{flag, put_extent, put_maybe_extent};
use crate::records::{
    ALIGN_CENTER, ALIGN_LEFT, ALIGN_RIGHT, ALIGN_UNKNOWN, COUNT_IMPLIED, COUNT_IS, COUNT_IS_NAME,
    COUNT_IS_PARAM, COUNT_IS_STAR, Extent, HEX_LOWER, HEX_NONE, HEX_UPPER, NO_FILL, SIGN_MINUS,
    SIGN_NONE, SIGN_PLUS, Spec, TYPE_TEXT,
};
use crate::texts::SpecTexts;
use rustc_parse_format::{Alignment, Count, DebugHex, FormatSpec, Sign};

/// Returns the code of a fill character, or `NO_FILL`.
fn fill(fill: Option<char>) -> u32
    ensures { fill_meant result ≡ fill }
{
    match fill {
        Some(c) => u32::from(c),
        None => NO_FILL,
    }
}

/// Returns the one of `ALIGN_..` for an alignment.
fn align(align: Alignment) -> u8
    ensures same { align_meant result ≡ seen_alignment align }
    ensures listed { result < 4 }
{
    match align {
        Alignment::AlignUnknown => ALIGN_UNKNOWN,
        Alignment::AlignLeft => ALIGN_LEFT,
        Alignment::AlignRight => ALIGN_RIGHT,
        Alignment::AlignCenter => ALIGN_CENTER,
    }
}

/// Returns the one of `SIGN_..` for a sign flag.
fn sign(sign: Option<Sign>) -> u8
    ensures same { sign_meant result ≡ option_map seen_sign sign }
    ensures listed { result < 3 }
{
    match sign {
        None => SIGN_NONE,
        Some(Sign::Plus) => SIGN_PLUS,
        Some(Sign::Minus) => SIGN_MINUS,
    }
}

/// Returns the one of `HEX_..` for the case of hexadecimal digits.
fn debug_hex(hex: Option<DebugHex>) -> u8
    ensures same { hex_meant result ≡ option_map seen_debug_hex hex }
    ensures listed { result < 3 }
{
    match hex {
        None => HEX_NONE,
        Some(DebugHex::Lower) => HEX_LOWER,
        Some(DebugHex::Upper) => HEX_UPPER,
    }
}

/// Writes a count over the fields of a record. `extent` is the byte range of its name in the input.
#[tactic(auto, unfolding(crate::specs::Meaning::count_meant))]
#[inline(always)]
fn put_count(
    count: &Count<'_>,
    extent: Extent,
    kind: &mut u8,
    number: &mut usize,
    name: &mut Extent,
    name_span: &mut Extent,
)
    ensures { (input : List ℕ) → CountAt (text_at input extent) (seen_count count.now)
        → count_meant input kind.new number.new name.new name_span.new ≡ seen_count count.now }
{
    match count {
        Count::CountImplied => *kind = COUNT_IMPLIED,
        Count::CountIs(value) => {
            *kind = COUNT_IS;
            *number = usize::from(*value);
        }
        Count::CountIsParam(index) => {
            *kind = COUNT_IS_PARAM;
            *number = *index;
        }
        Count::CountIsStar(index) => {
            *kind = COUNT_IS_STAR;
            *number = *index;
        }
        Count::CountIsName(_, span) => {
            *kind = COUNT_IS_NAME;
            *name = extent;
            put_extent(span, name_span);
        }
    }
}

/// Writes a specification over a record. `texts` has the byte ranges of its texts in the input.
#[tactic(auto, unfolding(crate::specs::Meaning::spec_meant))]
#[inline(always)]
fn put_spec(spec: &FormatSpec<'_>, texts: &SpecTexts, record: &mut Spec)
    ensures { (input : List ℕ) → SpecAt input texts.now (seen_spec spec.now)
        → spec_meant input record.new ≡ seen_spec spec.now }
{
    record.fill = fill(spec.fill);
    record.align = align(spec.align);
    record.sign = sign(spec.sign);
    record.debug_hex = debug_hex(spec.debug_hex);
    record.alternate = flag(spec.alternate);
    record.zero_pad = flag(spec.zero_pad);
    record.type_kind = texts.type_kind;
    put_count(
        &spec.width,
        texts.width,
        &mut record.width_kind,
        &mut record.width_number,
        &mut record.width_name,
        &mut record.width_name_span,
    );
    put_count(
        &spec.precision,
        texts.precision,
        &mut record.precision_kind,
        &mut record.precision_number,
        &mut record.precision_name,
        &mut record.precision_name_span,
    );
    if texts.type_kind == TYPE_TEXT {
        record.ty = texts.ty;
    }
    put_maybe_extent(
        &spec.fill_span,
        &mut record.has_fill_span,
        &mut record.fill_span,
    );
    put_maybe_extent(
        &spec.width_span,
        &mut record.has_width_span,
        &mut record.width_span,
    );
    put_maybe_extent(
        &spec.precision_span,
        &mut record.has_precision_span,
        &mut record.precision_span,
    );
    put_maybe_extent(&spec.ty_span, &mut record.has_ty_span, &mut record.ty_span);
}

/// Returns whether a specification has no fill, alignment or flag.
fn has_no_flags(spec: &FormatSpec<'_>) -> bool
    ensures { result ≡ has_no_flags (seen_spec spec.now) }
{
    spec.fill.is_none()
        && spec.fill_span.is_none()
        && matches!(spec.align, Alignment::AlignUnknown)
        && spec.sign.is_none()
        && !spec.alternate
        && !spec.zero_pad
        && spec.debug_hex.is_none()
}

/// Returns whether a specification has no width and no precision.
fn has_no_counts(spec: &FormatSpec<'_>) -> bool
    ensures { result ≡ has_no_counts (seen_spec spec.now) }
{
    matches!(spec.width, Count::CountImplied)
        && spec.width_span.is_none()
        && matches!(spec.precision, Count::CountImplied)
        && spec.precision_span.is_none()
}

/// Returns whether a text is empty.
fn is_empty(text: &str) -> bool
    ensures { result ≡ is_nil (chars text.now) }
{
    text.is_empty()
}

/// Returns whether a specification is the default one.
#[inline(always)]
pub fn is_default(spec: &FormatSpec<'_>) -> bool
    ensures { result ≡ is_default (seen_spec spec.now) }
{
    has_no_flags(spec) && has_no_counts(spec) && is_empty(spec.ty) && spec.ty_span.is_none()
}

/// Returns the number of the default specification, which has no record.
#[inline(always)]
pub fn no_spec(spec: &FormatSpec<'_>) -> usize
    requires { is_default (seen_spec spec.now) ≡ true }
    ensures described { (input : List ℕ) (specs : List SpecRecord) → spec_at input specs result
        ≡ seen_spec spec.now }
    ensures number { result ≡ 0 }
{
    let _spec = spec;
    0
}

/// A buffer for specifications: each is written after those before it, as long as they fit.
#[derive(Drop)]
pub struct SpecBuffer<'a> {
    records: &'a mut [Spec],
    /// The number of specifications, including those that do not fit.
    count: usize,
}

impl<'a> SpecBuffer<'a> {
    /// Creates a buffer without specifications, over these records.
    pub fn new(records: &'a mut [Spec]) -> SpecBuffer<'a>
        ensures same { result.records.ghost_name ≡ records.entry.ghost_name }
        ensures records { result.records.now ≡ records.old }
        ensures used { result.count ≡ 0 }
    {
        SpecBuffer { records, count: 0 }
    }

    /// Returns the number of specifications, including those that do not fit.
    pub fn count(&self) -> usize
        ensures { result ≡ self.now.count }
    {
        self.count
    }

    /// Adds a specification, which is written if it fits, and returns its number, from 1.
    #[inline(always)]
    pub fn add(&mut self, spec: &FormatSpec<'_>, texts: &SpecTexts) -> usize
        requires room { self.old.count < usize.MAX }
        ensures described { (input : List ℕ) → SpecAt input texts.now (seen_spec spec.now)
            → self.new.count ≤ length self.old.records.now
            → spec_at input self.new.records.now result ≡ seen_spec spec.now }
        ensures number { result ≡ self.new.count }
        ensures adds { Adds 1 self.old self.new }
    {
        if self.count < self.records.len() {
            put_spec(spec, texts, &mut self.records[self.count]);
        }
        self.count += 1;
        self.count
    }
}
