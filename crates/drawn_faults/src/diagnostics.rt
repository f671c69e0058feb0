//! The drawing of a diagnostic under its source: a title, several labels, notes and helps. A
//! function whose name begins with `put_` appends to `out`, and returns `Err` if an allocation
//! fails.

ghost use Rattle.std.specs.Prelude.{◌≡◌, ◌++◌, ◌<◌, ◌^◌, IfOk, OnOk, length, map, string_bytes};
ghost use Rattle.drawn_faults.specs.Diagnostics.{diagnostic_text, drawn_in, gutter_of, label_of};
ghost use Rattle.drawn_faults.specs.Diagnostics.{level_of, level_word, parting_above};
ghost use Rattle.drawn_lines.specs.Frames.{seen_frame};
ghost use Rattle.drawn_labels.specs.Labels.{seen_label};
ghost use Rattle.drawn_lines.specs.Painting.{IsColourOf, IsHarmlessWith};
ghost use Rattle.drawn_lines.specs.Places.{seen_picture, without_colours};
ghost use Rattle.drawn_faults.specs.SeenDiagnostics.{is_warning, seen_diagnostic};
ghost use Rattle.drawn_faults.specs.SeenDiagnostics.{seen_source_label};
ghost use Rattle.drawn_faults.specs.Shown.{PointsAt, ShowsLabels};

use crate::helps::{SourceHelp, last_help_line, put_helps};
use crate::marked::{frame_of, last_label_line};
use crate::notes::{SourceNote, last_note_line, put_notes, put_titled_labels};
use drawn_labels::Label;
use drawn_lines::{Frame, Gutter, Palette, Picture, digits, extent_of, palette_of, put_parting};
use std::alloc::{AllocError, Global};
use std::ops::Range;

/// The severity of a diagnostic.
#[derive(Clone, Copy, Debug, Eq, PartialEq)]
pub enum Level {
    /// The source does not compile.
    Error,
    /// The source compiles, but may not do what is meant.
    Warning,
}

/// A label of a range of the source.
#[derive(Clone, Debug, Eq, PartialEq, Drop)]
pub struct SourceLabel<'a> {
    /// The range.
    pub span: Range<usize>,
    /// Whether the diagnostic is about this range: its sign is `^`, and that of the others `-`.
    pub is_primary: bool,
    /// Its text, which may be empty.
    pub text: &'a str,
}

/// A diagnostic that is drawn under its source.
#[derive(Clone, Copy, Debug, Drop)]
pub struct Diagnostic<'a> {
    /// The severity: an error or a warning.
    pub level: Level,
    /// The message, which is drawn first.
    pub title: &'a str,
    /// The labels, in any order.
    pub labels: &'a [SourceLabel<'a>],
    /// The notes.
    pub notes: &'a [SourceNote<'a>],
    /// The helps.
    pub helps: &'a [SourceHelp<'a>],
}

/// Returns a label with its place in the source.
fn label_of<'a>(picture: &Picture<'_>, label: &SourceLabel<'a>) -> Label<'a>
    requires { length picture.now.source.now < 2 ^ 59 }
    ensures { seen_label result
        ≡ label_of (seen_picture picture.now) (seen_source_label label.now) }
{
    Label {
        sign: if label.is_primary { '^' } else { '-' },
        text: label.text,
        extent: extent_of(picture, &label.span),
    }
}

/// Returns labels with their places in the source. Returns `Err` if an allocation fails.
fn labels_of<'a>(
    alloc: Global,
    picture: &Picture<'_>,
    labels: &[SourceLabel<'a>],
) -> Result<Vec<Label<'a>>, AllocError>
    requires { length picture.now.source.now < 2 ^ 59 }
    ensures { IfOk result (λ v. map seen_label v.items
        ≡ map (label_of (seen_picture picture.now)) (map seen_source_label labels.now)) }
{
    let mut list = Vec::new(alloc);
    for label in labels {
        list.push(label_of(picture, label))?;
    }
    Ok(list)
}

/// Returns the gutter of a diagnostic with these labels. Returns `Err` if an allocation fails.
fn gutter_of(
    alloc: Global,
    picture: &Picture<'_>,
    diagnostic: &Diagnostic<'_>,
    labels: &[Label<'_>],
) -> Result<Gutter, AllocError>
    requires source { length picture.now.source.now < 2 ^ 59 }
    requires labels { map seen_label labels.now ≡ map (label_of (seen_picture picture.now))
        (seen_diagnostic diagnostic.now).labels }
    ensures { IfOk result (λ n. n
        ≡ gutter_of (seen_picture picture.now) (seen_diagnostic diagnostic.now)) }
{
    let last = last_label_line(0, labels);
    let last = last_note_line(alloc, picture, last, diagnostic.notes)?;
    let last = last_help_line(alloc, picture, last, diagnostic.helps)?;
    let columns = digits(picture.line_start as usize + last);
    let palette = palette_of(picture.colours, level_of(diagnostic.level));
    Ok(Gutter { columns, palette })
}

/// Adds the row between the labels and what is below them, if there is anything.
fn put_parting_above(
    out: &mut String,
    frame: &Frame<'_>,
    diagnostic: &Diagnostic<'_>,
) -> Result<(), AllocError>
    ensures { OnOk result (string_bytes out.new ≡ string_bytes out.old
        ++ parting_above (seen_frame frame.now) (seen_diagnostic diagnostic.now)) }
{
    if diagnostic.notes.is_empty() && diagnostic.helps.is_empty() {
        return Ok(());
    }
    put_parting(out, frame)?;
    Ok(())
}

/// Returns the word that a title begins with.
fn level_word(level: Level) -> &'static str
    ensures { result.now ≡ level_word (is_warning level) }
{
    match level {
        Level::Error => "error",
        Level::Warning => "warning",
    }
}

/// Returns the level whose colours a diagnostic has.
fn level_of(level: Level) -> Palette
    ensures { result ≡ level_of (is_warning level) }
{
    match level {
        Level::Error => Palette::Error,
        Level::Warning => Palette::Warning,
    }
}

/// Adds the drawing of a diagnostic with these labels in a layout.
#[tactic(auto, unfolding(crate::specs::Diagnostics::drawn_in))]
fn put_drawn_diagnostic(
    out: &mut String,
    frame: &Frame<'_>,
    diagnostic: &Diagnostic<'_>,
    labels: &[Label<'_>],
) -> Result<(), AllocError>
    requires source { length frame.now.picture.now.source.now < 2 ^ 59 }
    ensures { OnOk result (string_bytes out.new ≡ string_bytes out.old
        ++ drawn_in (seen_frame frame.now) (seen_diagnostic diagnostic.now)
        (map seen_label labels.now)) }
{
    put_titled_labels(
        out,
        frame,
        frame.gutter.palette,
        level_word(diagnostic.level),
        diagnostic.title,
        labels,
    )?;
    put_parting_above(out, frame, diagnostic)?;
    put_notes(out, frame.picture, frame.gutter, diagnostic.notes)?;
    put_helps(out, frame, diagnostic.helps)?;
    out.push_str("\n")?;
    Ok(())
}

/// How many bytes most drawings have at most, besides their title.
const ROOM: usize = 768;

/// Adds the drawing of a diagnostic.
#[tactic(auto, unfolding(crate::specs::Diagnostics::diagnostic_text))]
fn put_diagnostic(
    out: &mut String,
    picture: &Picture<'_>,
    diagnostic: &Diagnostic<'_>,
) -> Result<(), AllocError>
    requires { length picture.now.source.now < 2 ^ 59 }
    ensures { OnOk result (string_bytes out.new ≡ string_bytes out.old
        ++ diagnostic_text (seen_picture picture.now) (seen_diagnostic diagnostic.now)) }
{
    out.reserve(diagnostic.title.len().saturating_add(ROOM))?;
    let alloc = *out.allocator();
    let labels = labels_of(alloc, picture, diagnostic.labels)?;
    let gutter = gutter_of(alloc, picture, diagnostic, &labels)?;
    let frame = frame_of(picture, gutter, &labels);
    put_drawn_diagnostic(out, &frame, diagnostic, &labels)?;
    Ok(())
}

/// Returns the text that shows a diagnostic under its source, as rustc 1.95 draws it, with the
/// colours that rustc gives it on a terminal if the picture has them. Its ranges are byte ranges of
/// the source that count from `literal_start` of the picture on, as the spans of an error do.
///
/// From top to bottom: what it says; the path, and the line and column at which the first primary
/// label in the source begins, or the source without one; the lines in which labels begin, each
/// with its number and the signs of its labels under it; the notes; the helps; an empty line. The
/// text of a label stands right of its signs, or hangs from a bar where there is no room. Between
/// lines with labels there is the line between them, or `...` for several. A label over several
/// lines is drawn so if it is the only one, and else has one sign where it begins. The edits of a
/// help, from left to right, are shown by the new lines: of several the changed ones have the sign
/// `~`, or `+` if they are all new, and of more than three others between them the first and the
/// last are shown; one has the old lines above it if something is left out, and else the signs `+`
/// under what is new.
///
/// Lines with labels, and those between, are cut where a row would be wider than the picture. The
/// width of a character is that of the crate `unicode_width`. Of all characters up to U+323FF, it
/// differs from that of rustc 1.95 for U+FF9E and U+FF9F, and for 1,027 that are new in Unicode 18.
///
/// A span that does not fit is drawn too: an offset inside a character means the start of that
/// character, one after the source its end, and a range that ends before it begins is empty.
///
/// It takes the square of the number of labels in a line, and has as many rows there. Returns `Err`
/// if an allocation fails, or if the source has 2^59 bytes or more.
#[tactic(auto, using(crate::proofs::ShownLaws::shown_diagnostic))]
pub fn draw_labels(
    alloc: Global,
    picture: &Picture<'_>,
    diagnostic: &Diagnostic<'_>,
) -> Result<String, AllocError>
    ensures drawn { IfOk result (λ s. string_bytes s
        ≡ diagnostic_text (seen_picture picture.now) (seen_diagnostic diagnostic.now)) }
    // Without its colours it is the drawing without colours, and a terminal obeys nothing of it but
    // these.
    ensures coloured { IfOk result (λ s. IsColourOf (string_bytes s) (diagnostic_text
        (without_colours (seen_picture picture.now)) (seen_diagnostic diagnostic.now))) }
    ensures harmless { IfOk result (λ s. IsHarmlessWith picture.now.colours (string_bytes s)) }
    // The line and the column that it names are those of the first character of a primary label.
    ensures arrow { IfOk result (λ s. PointsAt (seen_picture picture.now)
        (seen_diagnostic diagnostic.now) (string_bytes s)) }
    // It shows the lines of its labels, with their signs in their columns and no sign elsewhere.
    ensures labels { IfOk result (λ s. ShowsLabels (seen_picture picture.now)
        (seen_diagnostic diagnostic.now) (string_bytes s)) }
{
    let mut out = String::new(alloc);
    put_labels(&mut out, picture, diagnostic)?;
    Ok(out)
}

/// Appends the text that [`draw_labels`] returns to `out`. Returns `Err` if an allocation fails, or
/// if the source has 2^59 bytes or more; a part of the text may then be in `out`.
#[tactic(auto, using(crate::proofs::HarmlessDiagnostics::harmless_diagnostic))]
pub fn put_labels(
    out: &mut String,
    picture: &Picture<'_>,
    diagnostic: &Diagnostic<'_>,
) -> Result<(), AllocError>
    ensures drawn { OnOk result (string_bytes out.new ≡ string_bytes out.old
        ++ diagnostic_text (seen_picture picture.now) (seen_diagnostic diagnostic.now)) }
    ensures coloured { IsColourOf
        (diagnostic_text (seen_picture picture.now) (seen_diagnostic diagnostic.now))
        (diagnostic_text (without_colours (seen_picture picture.now))
        (seen_diagnostic diagnostic.now)) }
    ensures harmless { IsHarmlessWith picture.now.colours
        (diagnostic_text (seen_picture picture.now) (seen_diagnostic diagnostic.now)) }
{
    if picture.source.len() >= 1 << 59 {
        return Err(AllocError);
    }
    put_diagnostic(out, picture, diagnostic)?;
    Ok(())
}
