//! A row of the tables: a literal with a fault, and what rustc 1.95 draws of it.

/// A literal in its source, and the drawing of its first fault. The path is `a.rs`.
#[derive(Clone, Copy)]
pub struct Row {
    /// The number of the first line of the source.
    pub line: u32,
    /// The text before the literal in the source.
    pub text_before: &'static str,
    /// The literal.
    pub literal: &'static str,
    /// The text after it.
    pub text_after: &'static str,
    /// The hashes of a raw literal.
    pub style: Option<usize>,
    /// The text that the literal stands for.
    pub text: &'static str,
    /// Whether the macro appended a newline to the text.
    pub appended_newline: bool,
    /// The lines of the drawing. Suggestions for which the call is needed are left out.
    pub lines: &'static [&'static str],
}
