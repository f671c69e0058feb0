//! The rows of calls, with the parts of the messages of rustc 1.95 under their titles.

/// A call of `format!`, and the parts of rustc's messages under the titles.
#[derive(Clone, Copy)]
pub struct ShownRow {
    /// The text of the string, which stands for itself in an ordinary literal.
    pub text: &'static str,
    /// The arguments, with a comma and a space between them.
    pub arguments: &'static str,
    /// Of each fault its labels, whose lines are sorted, its notes and its helps, one on a line.
    /// Byte ranges count from the start of the literal. A label has the sign `^` or `-`, its range
    /// and its text; a note has `=`, and the ranges that it shows; a help has `?`, and its edits,
    /// each a range, or `call` for the whole call, and the new text.
    pub output: &'static str,
}
