//! Theorems about the definitions alone, each as the contract of a function that does nothing.

ghost use Rattle.std.specs.Prelude.{ℕ, List};
ghost use Rattle.std.specs.Str.{IsUtf8};
ghost use Rattle.drawn_edits.specs.EditedLines.{Edit, new_lines, old_lines, parts};
ghost use Rattle.drawn_edits.specs.ShownLines.{AreLines};

/// States which lines the rows of edits show, of a text that is the source from a line on: the old
/// ones are the lines of the text up to that in which the last edit ends, and the new ones are the
/// lines of the text with the edits applied, up to the same. Does nothing.
pub fn lines()
    ensures { (at : ℕ) (es : List Edit) (text : List ℕ) → IsUtf8 text
        → AreLines at es text (old_lines (parts at es text)) (new_lines (parts at es text)) }
{}
