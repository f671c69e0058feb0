//! The records that are shared with C: plain integers, so that any bytes are a valid record. A
//! range of the input is in byte offsets of the input, and a range in the source is a span as
//! `rustc_parse_format` has it. `bindings/c/dephungo.h` describes each field and constant.

/// A byte range, from the offset of its start to that of its end, which is excluded.
#[repr(C)]
#[derive(Clone, Copy)]
pub struct Extent {
    pub start: usize,
    pub end: usize,
}

/// The byte ranges in the source of the next two characters before a call.
#[repr(C)]
#[derive(Clone, Copy)]
pub struct Peek {
    /// Not 0 if there is a next character.
    pub has_peek: u8,
    /// Not 0 if there is a character after that.
    pub has_peek_ahead: u8,
    pub peek: Extent,
    pub peek_ahead: Extent,
}

pub const MODE_FORMAT: u32 = 0;

pub const MODE_INLINE_ASM: u32 = 1;

pub const MODE_DIAGNOSTIC: u32 = 2;

pub const MODE_DIAGNOSTIC_NAMED: u32 = 3;

/// How to read the input.
#[repr(C)]
#[derive(Clone, Copy)]
pub struct Options {
    /// One of `MODE_..`.
    pub mode: u32,
    /// Not 0 if the input comes from a raw string literal.
    pub is_raw: u32,
    /// The number of hashes of a raw literal.
    pub hashes: usize,
    /// Not 0 if there is a snippet.
    pub has_snippet: u32,
    /// Not 0 if a newline was appended to the input that is not in the snippet.
    pub appended_newline: u32,
}

pub const COUNT_IMPLIED: u8 = 0;

pub const COUNT_IS: u8 = 1;

pub const COUNT_IS_NAME: u8 = 2;

pub const COUNT_IS_PARAM: u8 = 3;

pub const COUNT_IS_STAR: u8 = 4;

pub const ALIGN_UNKNOWN: u8 = 0;

pub const ALIGN_LEFT: u8 = 1;

pub const ALIGN_RIGHT: u8 = 2;

pub const ALIGN_CENTER: u8 = 3;

pub const SIGN_NONE: u8 = 0;

pub const SIGN_PLUS: u8 = 1;

pub const SIGN_MINUS: u8 = 2;

pub const HEX_NONE: u8 = 0;

pub const HEX_LOWER: u8 = 1;

pub const HEX_UPPER: u8 = 2;

pub const TYPE_NONE: u8 = 0;

pub const TYPE_TEXT: u8 = 1;

pub const TYPE_LOWER_HEX: u8 = 2;

pub const TYPE_UPPER_HEX: u8 = 3;

pub const TYPE_DEBUG: u8 = 4;

/// The value of `fill` if there is no fill character: no character has this code.
pub const NO_FILL: u32 = 0x11_0000;

/// A format specification that is not the default one. What few specifications have is last, and
/// touches no memory where it is absent.
#[repr(C)]
#[derive(Clone, Copy)]
pub struct Spec {
    /// The code of the fill character, or `NO_FILL`.
    pub fill: u32,
    /// One of `ALIGN_..`.
    pub align: u8,
    /// One of `SIGN_..`.
    pub sign: u8,
    /// One of `HEX_..`.
    pub debug_hex: u8,
    /// Not 0 if the flag `#` is written.
    pub alternate: u8,
    /// Not 0 if the flag `0` is written.
    pub zero_pad: u8,
    /// One of `TYPE_..`.
    pub type_kind: u8,
    /// One of `COUNT_..`.
    pub width_kind: u8,
    /// One of `COUNT_..`.
    pub precision_kind: u8,
    /// Not 0 if there is a `fill_span`.
    pub has_fill_span: u8,
    /// Not 0 if there is a `width_span`.
    pub has_width_span: u8,
    /// Not 0 if there is a `precision_span`.
    pub has_precision_span: u8,
    /// Not 0 if there is a `ty_span`.
    pub has_ty_span: u8,
    /// The width, or the index of the argument that is the width.
    pub width_number: usize,
    /// The precision, or the index of the argument that is the precision.
    pub precision_number: usize,
    pub width_span: Extent,
    pub precision_span: Extent,
    /// The type, as a range of the input, if `type_kind` is `TYPE_TEXT`.
    pub ty: Extent,
    pub ty_span: Extent,
    pub fill_span: Extent,
    /// The name of the argument that is the width, as a range of the input.
    pub width_name: Extent,
    /// The byte range of that name in the source.
    pub width_name_span: Extent,
    /// The name of the argument that is the precision, as a range of the input.
    pub precision_name: Extent,
    /// The byte range of that name in the source.
    pub precision_name_span: Extent,
}

pub const PIECE_NONE: u8 = 0;

pub const PIECE_TEXT: u8 = 1;

pub const PIECE_ARGUMENT: u8 = 2;

pub const POSITION_IMPLICIT: u8 = 0;

pub const POSITION_INDEX: u8 = 1;

pub const POSITION_NAMED: u8 = 2;

/// A call of the parser: the piece that it returned, and the state after it.
#[repr(C)]
#[derive(Clone, Copy)]
pub struct Step {
    /// One of `PIECE_..`: `PIECE_NONE` at the end of the input, and at a closing brace that closes
    /// nothing.
    pub kind: u8,
    /// For an argument, one of `POSITION_..`.
    pub position: u8,
    /// Not 0 if the call closed a placeholder; never without a source literal.
    pub has_place: u8,
    /// The index of the argument, from 0.
    pub number: usize,
    /// The literal text, or the name of the argument, as a range of the input.
    pub text: Extent,
    /// The byte range of the position in the source.
    pub position_span: Extent,
    /// The number of the specification, from 1, or 0 for the default one.
    pub spec: usize,
    /// The byte range in the source of the placeholder that the call closed.
    pub place: Extent,
    /// The byte offset up to which the input is read after the call.
    pub offset: usize,
    /// The index of the next implicit argument after the call.
    pub next_index: usize,
    /// The number of lines after the call.
    pub lines: usize,
}

pub const MEND_NONE: u32 = 0;

pub const MEND_USE_POSITIONAL: u32 = 1;

pub const MEND_REMOVE_RAW_IDENT: u32 = 2;

pub const MEND_REORDER_FORMAT_PARAMETER: u32 = 3;

pub const MEND_ADD_MISSING_COLON: u32 = 4;

pub const MEND_USE_RUST_DEBUG_PRINTING_MACRO: u32 = 5;

/// An error in the input. `description`, `note`, the labels and `suggestion_text` are byte ranges
/// of the buffer for texts.
#[repr(C)]
#[derive(Clone, Copy)]
pub struct Fault {
    /// Not 0 if there is a `note`.
    pub has_note: u8,
    /// Not 0 if there is a second label.
    pub has_second_label: u8,
    /// One of `MEND_..`.
    pub suggestion: u32,
    pub description: Extent,
    pub note: Extent,
    pub label: Extent,
    /// The byte range of the error in the source.
    pub span: Extent,
    pub second_label: Extent,
    /// The byte range in the source that the second label is for.
    pub second_span: Extent,
    /// The byte range in the source that the suggestion is about.
    pub suggestion_span: Extent,
    /// The replacement that it suggests.
    pub suggestion_text: Extent,
    /// The index of the step that found it, from 0.
    pub step: usize,
}

/// The lengths of the results, in records and, for `texts`, in bytes.
#[repr(C)]
#[derive(Clone, Copy)]
pub struct Answer {
    pub steps: usize,
    pub specs: usize,
    pub faults: usize,
    pub texts: usize,
    pub lines: usize,
    /// The number of faults that were put at the front of the list when they were found. They are
    /// the first ones of the list.
    pub front_faults: usize,
    /// Not 0 if the snippet is the source literal of the input.
    pub is_source_literal: u8,
}

/// Success: all results are written.
pub const DONE: u32 = 0;
/// A buffer is too short: `Answer` has the lengths needed.
pub const SHORT: u32 = 1;
/// Allocation failure.
pub const NO_MEMORY: u32 = 2;
/// The input is not UTF-8.
pub const NOT_TEXT: u32 = 3;
/// The snippet is not UTF-8.
pub const SNIPPET_NOT_TEXT: u32 = 4;
/// The mode is none of `MODE_..`.
pub const NO_SUCH_MODE: u32 = 5;
/// The input has more than 10^12 bytes, or the raw literal more than 10^12 hashes.
pub const TOO_LONG: u32 = 6;
