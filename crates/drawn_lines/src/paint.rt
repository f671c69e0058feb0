//! Texts in the styles that rustc gives them on a terminal. A function whose name begins with
//! `put_` appends to `out`, and returns `Err` if an allocation fails.

ghost use Rattle.std.specs.Prelude.{◌≡◌, ◌++◌, ◌∷◌, ◌==◌, List, OnOk, codes, false, length};
ghost use Rattle.std.specs.Prelude.{string_bytes};
ghost use Rattle.drawn_lines.specs.Painting.{Piece, change, closing, escape, has_colours};
ghost use Rattle.drawn_lines.specs.Painting.{level_escape, opening, painted_text, palette_of};
ghost use Rattle.drawn_lines.specs.Painting.{piece};
ghost use Rattle.drawn_lines.specs.Painting.{pieces_after, rank, reset_of};
ghost use Rattle.drawn_lines.specs.declared.paint.Style.TheVariants.{Bold, Plain, Secondary};

use std::alloc::AllocError;

/// The colours of a drawing.
#[derive(Clone, Copy)]
pub enum Palette {
    Colourless,
    /// The colours of an error.
    Error,
    /// The colours of a warning.
    Warning,
    /// The colours of a note that shows something.
    Note,
}

/// How a text is shown.
#[derive(Clone, Copy)]
pub enum Style {
    /// As the text of the source.
    Plain,
    /// As the signs of a primary label, and as the word that a title begins with.
    Primary,
    /// As the text of a primary label.
    PrimaryText,
    /// As the signs of another label, and as the numbers of lines.
    Secondary,
    /// As the text of another label.
    SecondaryText,
    /// As a title.
    Bold,
    /// As the word that a help begins with.
    Help,
    /// As a text that is new.
    Addition,
    /// As a text that is left out.
    Removal,
}

/// The gutter of a drawing, and its colours.
#[derive(Clone, Copy)]
pub struct Gutter {
    /// How many columns the numbers of the lines have.
    pub columns: usize,
    pub palette: Palette,
}

/// Returns the colours of this level, if there are colours.
pub fn palette_of(colours: bool, level: Palette) -> Palette
    ensures { result ≡ palette_of colours level }
{
    if colours { level } else { Palette::Colourless }
}

/// Returns whether there are colours.
pub fn has_colours(palette: Palette) -> bool
    ensures { result ≡ has_colours palette }
{
    !matches!(palette, Palette::Colourless)
}

/// Returns the escapes that set the colour of a level.
fn level_escape(palette: Palette) -> &'static str
    ensures { result.now ≡ level_escape palette }
{
    match palette {
        Palette::Colourless => "",
        Palette::Error => "\u{1b}[1m\u{1b}[91m",
        Palette::Warning => "\u{1b}[1m\u{1b}[33m",
        Palette::Note => "\u{1b}[1m\u{1b}[92m",
    }
}

/// Returns the escapes that set a style.
#[tactic(auto, unfolding(crate::specs::Painting::escape))]
pub fn escape(palette: Palette, style: Style) -> &'static str
    ensures { result.now ≡ escape palette style }
{
    match style {
        Style::Plain => "",
        Style::Primary | Style::PrimaryText => level_escape(palette),
        Style::Secondary | Style::SecondaryText => "\u{1b}[1m\u{1b}[94m",
        Style::Bold => "\u{1b}[1m",
        Style::Help => "\u{1b}[1m\u{1b}[96m",
        Style::Addition => "\u{1b}[92m",
        Style::Removal => "\u{1b}[91m",
    }
}

/// Returns a number of a style.
pub fn rank(style: Style) -> u8
    ensures { result ≡ rank style }
{
    match style {
        Style::Plain => 0,
        Style::Primary => 1,
        Style::PrimaryText => 2,
        Style::Secondary => 3,
        Style::SecondaryText => 4,
        Style::Bold => 5,
        Style::Help => 6,
        Style::Addition => 7,
        Style::Removal => 8,
    }
}

/// Adds the escape that ends a style, if it has one.
pub fn put_reset(out: &mut String, style: Style) -> Result<(), AllocError>
    ensures { OnOk result (string_bytes out.new ≡ string_bytes out.old ++ reset_of style) }
{
    if rank(style) != 0 {
        out.push_str("\u{1b}[0m")?;
    }
    Ok(())
}

/// Adds the escapes between a text of one style and a text of another.
pub fn put_change(
    out: &mut String,
    palette: Palette,
    old: Style,
    new: Style,
) -> Result<(), AllocError>
    ensures { OnOk result (string_bytes out.new
        ≡ string_bytes out.old ++ change palette old new) }
{
    if rank(old) == rank(new) {
        return Ok(());
    }
    put_reset(out, old)?;
    out.push_str(escape(palette, new))?;
    Ok(())
}

/// Adds a text in a style, without its end.
pub fn put_sign(
    out: &mut String,
    palette: Palette,
    style: Style,
    sign: &str,
) -> Result<(), AllocError>
    requires { (length sign.now == 0) ≡ false }
    ensures { OnOk result ((xs : List Piece) → string_bytes out.new
        ++ pieces_after palette style xs
        ≡ string_bytes out.old ++ pieces_after palette Plain (piece style sign.now ∷ xs)) }
{
    put_change(out, palette, Style::Plain, style)?;
    out.push_str(sign)?;
    Ok(())
}

/// Adds the escapes before a text in a style.
#[inline]
pub fn put_opening(out: &mut String, palette: Palette, style: Style) -> Result<(), AllocError>
    ensures { OnOk result (string_bytes out.new
        ≡ string_bytes out.old ++ opening palette style) }
{
    if has_colours(palette) {
        out.push_str(escape(palette, style))?;
    }
    Ok(())
}

/// Adds the escape after a text in a style.
#[inline]
pub fn put_closing(out: &mut String, palette: Palette) -> Result<(), AllocError>
    ensures { OnOk result (string_bytes out.new ≡ string_bytes out.old ++ closing palette) }
{
    if has_colours(palette) {
        out.push_str("\u{1b}[0m")?;
    }
    Ok(())
}

/// Adds a text in a style.
#[inline]
pub fn put_painted_text(
    out: &mut String,
    palette: Palette,
    style: Style,
    text: &str,
) -> Result<(), AllocError>
    ensures { OnOk result (string_bytes out.new
        ≡ string_bytes out.old ++ painted_text palette style text.now) }
{
    if !text.is_empty() {
        put_opening(out, palette, style)?;
        out.push_str(text)?;
        put_closing(out, palette)?;
    }
    Ok(())
}

/// Adds a space and the bar of a gutter.
#[inline]
#[tactic(auto, unfolding(crate::specs::Painting::escape))]
pub fn put_gutter_bar(out: &mut String, palette: Palette) -> Result<(), AllocError>
    ensures { OnOk result (string_bytes out.new
        ≡ string_bytes out.old ++ (codes " " ++ painted_text palette Secondary (codes "|"))) }
{
    match palette {
        Palette::Colourless => out.push_str(" |")?,
        Palette::Error | Palette::Warning | Palette::Note => {
            out.push_str(" \u{1b}[1m\u{1b}[94m|\u{1b}[0m")?;
        }
    }
    Ok(())
}

/// Adds the start of a note, after the columns of the gutter.
#[tactic(auto, unfolding(crate::specs::Painting::escape))]
pub fn put_note_sign(out: &mut String, palette: Palette) -> Result<(), AllocError>
    ensures { OnOk result (string_bytes out.new ≡ string_bytes out.old
        ++ (codes " " ++ (painted_text palette Secondary (codes "= ")
        ++ (painted_text palette Bold (codes "note") ++ codes ": ")))) }
{
    match palette {
        Palette::Colourless => out.push_str(" = note: ")?,
        Palette::Error | Palette::Warning | Palette::Note => {
            out.push_str(" \u{1b}[1m\u{1b}[94m= \u{1b}[0m\u{1b}[1mnote\u{1b}[0m: ")?;
        }
    }
    Ok(())
}
