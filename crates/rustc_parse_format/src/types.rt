//! The public types, with their derives.

ghost use Rattle.std.specs.Prelude.{◌≡◌};
ghost use Rattle.rustc_parse_format.specs.Views.{seen_mode};
ghost use Rattle.rustc_parse_format.specs.Types.{wants_names};

use std::ops::Range;

/// The kind of text that is parsed. In each mode `{{` and `}}` are escaped braces, and a
/// placeholder may have a position and, after a colon, what the mode allows.
#[derive(Copy, Clone, Debug, Eq, PartialEq)]
pub enum ParseMode {
    /// A format string, as for `format_args!`. After the colon: a format specification, by the
    /// grammar in the documentation of `std::fmt`.
    Format,
    /// An inline assembly template, as for `asm!`. After the colon: a modifier, which is one word
    /// or nothing.
    InlineAsm,
    /// The text of a diagnostic attribute. After the colon: any text without braces.
    Diagnostic,
    /// The text of a diagnostic attribute in which each argument has to be a name and nothing else:
    /// `{name}` or `{name:}`.
    DiagnosticNamed,
}

/// A piece of the input: literal text, or a placeholder.
#[derive(Debug, PartialEq, Drop)]
pub enum Piece<'input> {
    /// Literal text, borrowed from the input. An escaped brace, `{{` or `}}`, is one brace.
    Lit(&'input str),
    /// A placeholder.
    NextArgument(Box<Argument<'input>>),
}

/// A piece as `Parser::next_into` reads it: a placeholder is read into an argument of the caller.
#[derive(Clone, Copy)]
pub enum PieceKind<'input> {
    /// Literal text, borrowed from the input. An escaped brace, `{{` or `}}`, is one brace.
    Lit(&'input str),
    /// A placeholder, which is in the argument of the caller.
    NextArgument,
}

/// The next piece, as returned by `Parser::next_into`.
#[derive(Drop)]
pub struct NextPiece<'input> {
    /// The piece, or `None` at the end of the input and for an unmatched `}`.
    pub piece: Option<PieceKind<'input>>,
    /// The number of errors of the call that come before all earlier ones.
    pub front_errors: usize,
}

/// The contents of a placeholder: the argument that it refers to, and the format of that argument.
/// Spans are byte ranges of the source.
#[derive(Clone, Debug, PartialEq, Drop)]
pub struct Argument<'input> {
    /// The argument that the placeholder refers to.
    pub position: Position<'input>,
    /// The span of the position, with the `r#` of a raw identifier and the white space after it.
    pub position_span: Range<usize>,
    /// The format of the argument.
    pub format: FormatSpec<'input>,
}

/// A format specification: the part after the colon, in a format string by the rule `format_spec`
/// in the documentation of `std::fmt`. Each part is optional, and absent by default. Spans are byte
/// ranges of the source, and `None` if the part is absent.
#[derive(Clone, Debug, PartialEq, Default, Drop)]
pub struct FormatSpec<'input> {
    /// The fill character.
    pub fill: Option<char>,
    /// The span of the fill character.
    pub fill_span: Option<Range<usize>>,
    /// The alignment.
    pub align: Alignment,
    /// The sign flag.
    pub sign: Option<Sign>,
    /// Whether the flag `#` is present.
    pub alternate: bool,
    /// Whether the flag `0` is present.
    pub zero_pad: bool,
    /// The flag `x` or `X` before the type `?`.
    pub debug_hex: Option<DebugHex>,
    /// The precision. A dot with nothing after it is `CountImplied`, and has a span.
    pub precision: Count<'input>,
    /// The span of the precision, with its dot.
    pub precision_span: Option<Range<usize>>,
    /// The width.
    pub width: Count<'input>,
    /// The span of the width, without the flag `0`.
    pub width_span: Option<Range<usize>>,
    /// The type of a format string, the modifier of an assembly template, or the text after the
    /// colon in a diagnostic. It is empty if there is none.
    pub ty: &'input str,
    /// The span of `ty`. A word has a span unless it is empty. The span of the text in a diagnostic
    /// includes the colon, so even an empty text has one. The types `x`, `X`, `?`, `x?` and `X?`
    /// have none.
    pub ty_span: Option<Range<usize>>,
}

/// The argument that a placeholder refers to.
#[derive(Clone, Debug, PartialEq, Drop)]
pub enum Position<'input> {
    /// The next argument, which has this index.
    ArgumentImplicitlyIs(usize),
    /// The argument with this index: the number that is written, modulo 65536. A number above 65535
    /// is a fault.
    ArgumentIs(usize),
    /// The argument with this name.
    ArgumentNamed(&'input str),
}

/// The alignment of a value in its width.
#[derive(Copy, Clone, Debug, PartialEq, Default)]
pub enum Alignment {
    /// `<`: left-aligned.
    AlignLeft,
    /// `>`: right-aligned.
    AlignRight,
    /// `^`: center-aligned.
    AlignCenter,
    /// No alignment is given.
    #[default]
    AlignUnknown,
}

/// A sign flag of a format specification.
#[derive(Copy, Clone, Debug, PartialEq)]
pub enum Sign {
    /// `+`
    Plus,
    /// `-`
    Minus,
}

/// Whether the type `?` writes hexadecimal digits in lower or upper case.
#[derive(Copy, Clone, Debug, PartialEq)]
pub enum DebugHex {
    /// `x?`: lower case.
    Lower,
    /// `X?`: upper case.
    Upper,
}

/// A width or a precision.
#[derive(Clone, Debug, PartialEq, Default, Drop)]
pub enum Count<'input> {
    /// This number: the one that is written, modulo 65536. A number above 65535 is a fault.
    CountIs(u16),
    /// The value of the argument with this name, and the span of the name.
    CountIsName(&'input str, Range<usize>),
    /// The value of the argument with this index, as in [`Position::ArgumentIs`].
    CountIsParam(usize),
    /// The value of the next argument, which has this index.
    CountIsStar(usize),
    /// No count is given.
    #[default]
    CountImplied,
}

/// The error that the parser makes of a fault: its texts, as a diagnostic has them, and its spans,
/// which are byte ranges of the source. Faults, texts and spans are those of rustc's parser, except
/// for the differences that `docs/DIFFERENCES.md` lists.
#[derive(Drop)]
pub struct ParseError {
    /// The message.
    pub description: String,
    /// A note to the message.
    pub note: Option<String>,
    /// The label of the span.
    pub label: String,
    /// The span of the fault.
    pub span: Range<usize>,
    /// The label of a second span, and that span.
    pub secondary_label: Option<(String, Range<usize>)>,
    /// The suggested fix.
    pub suggestion: Suggestion,
}

/// A suggested fix for a fault. Ranges are byte ranges of the source.
#[derive(Drop)]
pub enum Suggestion {
    /// No fix is suggested.
    None,
    /// Pass the value as a positional argument.
    UsePositional,
    /// Remove the `r#` in this range.
    RemoveRawIdent(Range<usize>),
    /// Replace this range with this text.
    ReorderFormatParameter(Range<usize>, String),
    /// Insert a colon before this range.
    AddMissingColon(Range<usize>),
    /// Use the macro `dbg!`.
    UseRustDebugPrintingMacro,
}

/// Returns whether each argument has to be a name and nothing else.
pub fn wants_names(mode: ParseMode) -> bool
    ensures { result ≡ wants_names (seen_mode mode) }
{
    matches!(mode, ParseMode::DiagnosticNamed)
}
