//! The side of a token in a pair of delimiters.

ghost use Rattle.std.specs.Prelude.{◌≡◌, IsTrue};
ghost use Rattle.rust_trees.specs.Sides.{is_opening, is_same, side_of};
ghost use Rattle.rust_trees.specs.declared.sides.Delimiter.{Delimiter};
ghost use Rattle.rust_trees.specs.declared.sides.Side.TheVariants.{Closes};

use rust_tokens::Kind;

/// A kind of delimiters.
#[derive(Clone, Copy)]
pub enum Delimiter {
    /// `(` and `)`
    Parenthesis,
    /// `[` and `]`
    Bracket,
    /// `{` and `}`
    Brace,
}

/// The side of a token in a pair of delimiters.
#[derive(Clone, Copy)]
pub enum Side {
    /// It opens a pair.
    Opens(Delimiter),
    /// It closes a pair.
    Closes(Delimiter),
    /// It is no delimiter.
    Neither,
}

/// Returns the side of a token of this kind with this text.
pub fn side_of(kind: Kind, text: &str) -> Side
    ensures { result ≡ side_of kind text.now }
{
    if !matches!(kind, Kind::Punct) {
        return Side::Neither;
    }
    match text.as_bytes().first() {
        Some(b'(') => Side::Opens(Delimiter::Parenthesis),
        Some(b')') => Side::Closes(Delimiter::Parenthesis),
        Some(b'[') => Side::Opens(Delimiter::Bracket),
        Some(b']') => Side::Closes(Delimiter::Bracket),
        Some(b'{') => Side::Opens(Delimiter::Brace),
        Some(b'}') => Side::Closes(Delimiter::Brace),
        _ => Side::Neither,
    }
}

/// Returns whether two delimiters are of one kind.
pub fn is_same(opening: Delimiter, closing: Delimiter) -> bool
    ensures { result ≡ is_same opening closing }
{
    matches!(
        (opening, closing),
        (Delimiter::Parenthesis, Delimiter::Parenthesis)
            | (Delimiter::Bracket, Delimiter::Bracket)
            | (Delimiter::Brace, Delimiter::Brace)
    )
}

/// Returns whether a token closes a pair.
pub fn is_closing(side: Side) -> bool
    ensures { IsTrue result → (d : Delimiter) × (side ≡ Closes d) }
{
    matches!(side, Side::Closes(_))
}

/// Returns whether a token opens a pair.
pub fn is_opening(side: Side) -> bool
    ensures { result ≡ is_opening side }
{
    matches!(side, Side::Opens(_))
}
