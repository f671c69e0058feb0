//! The rows of calls of `asm!`, with the words of rustc 1.95 for them.

/// A call of `asm!`, and the words of rustc for it.
#[derive(Clone, Copy)]
pub struct Row {
    /// The text between its parentheses, with a comma and a space between arguments. A template is
    /// an ordinary literal that stands for what is between its quotes.
    pub call: &'static str,
    /// Of each fault its title, its labels, whose lines are sorted, and its notes and helps, each
    /// on a line. Byte ranges count from the start of the call. A label has the sign `^` or `-`,
    /// its range and its text; a note has `=`, a help `?`, and the range that it shows.
    pub output: &'static str,
}
