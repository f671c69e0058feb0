//! Theorems about the definitions alone, each as the contract of a function that does nothing.

ghost use Rattle.std.specs.Prelude.{ℕ, List, ◌≤◌};
ghost use Rattle.rustc_parse_format.specs.Characters.{Text};
ghost use Rattle.drawn_lines.specs.Places.{line, spot};
ghost use Rattle.drawn_lines.specs.Positions.{IsLine, IsSpot, line_feeds};

/// States that the line with a number is that line of the text, if the text has so many. Does
/// nothing.
pub fn lines()
    ensures { (n : ℕ) (text : List ℕ) → n ≤ line_feeds text → IsLine n text (line n text) }
{}

/// States that the spot at a byte offset is that of the character which has this byte: so many
/// lines are in front of it, and so many characters of its own line, in so many columns. Does
/// nothing.
pub fn spots()
    ensures { (n : ℕ) (text : Text) → IsSpot n text (spot n text) }
{}
