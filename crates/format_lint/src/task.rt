//! The task of the program.

use rustc_parse_format::ParseMode;

/// The output that is wanted for an input.
#[derive(Copy, Clone, Debug, Eq, PartialEq)]
pub enum OutputKind {
    /// The fault that the compiler shows, drawn under its source.
    Fault,
    /// All its faults, each with its id and whether it follows from an earlier one.
    All,
    /// Its tokens, each in a line or as its text in their colours, and then the fault that the
    /// compiler shows.
    Tokens,
    /// The literal with the edits that its faults suggest, and the fault that the compiler shows of
    /// that.
    Fix,
}

/// A task of the program.
#[derive(Copy, Clone)]
pub struct Task<'a> {
    pub mode: ParseMode,
    /// Whether the input is a string literal, as written in a program. Otherwise it is a text.
    pub is_literal: bool,
    /// The path that is shown for the input.
    pub path: &'a str,
    pub output_kind: OutputKind,
    /// How many columns a row of a drawing has.
    pub width: usize,
    /// Whether the output has colours, for a terminal.
    pub colours: bool,
}
