//! Notes of a diagnostic, and labels under a title. A function whose name begins with `put_`
//! appends to `out`, and returns `Err` if an allocation fails.

ghost use Rattle.std.specs.Prelude.{◌≡◌, ◌++◌, ◌<◌, ◌^◌, IfOk, OnOk, chars, length, map};
ghost use Rattle.std.specs.Prelude.{string_bytes};
ghost use Rattle.rustc_parse_format.specs.Views.{pair};
ghost use Rattle.drawn_faults.specs.Diagnostics.{arrow, indented_text, last_note_line, margin};
ghost use Rattle.drawn_faults.specs.Diagnostics.{note_word, notes_rows};
ghost use Rattle.drawn_faults.specs.Diagnostics.{plain_note, shown_label, shown_note};
ghost use Rattle.drawn_faults.specs.Diagnostics.{titled_labels};
ghost use Rattle.drawn_lines.specs.Frames.{seen_frame};
ghost use Rattle.drawn_labels.specs.Labels.{seen_label};
ghost use Rattle.drawn_lines.specs.Places.{seen_picture};
ghost use Rattle.drawn_faults.specs.SeenDiagnostics.{seen_note};

use crate::marked::{first_spot, frame_of, last_label_line, put_labels_rows};
use drawn_labels::Label;
use drawn_lines::{
    Frame, Gutter, Palette, Picture, Spot, Style, extent_of, glyph, glyph_count, palette_of,
    put_closing, put_decimal, put_glyphs, put_note_sign, put_opening, put_painted_text,
    put_parting, put_run, split_first,
};
use shown_text::{Kind, put_shown};
use std::alloc::{AllocError, Global};
use std::ops::Range;

/// A note of a diagnostic.
#[derive(Clone, Copy, Debug, Drop)]
pub struct SourceNote<'a> {
    /// Its text, of one or more lines.
    pub text: &'a str,
    /// The ranges of the source that it shows. A note without any is a row.
    pub spans: &'a [Range<usize>],
}

/// Returns labels of ranges that a note shows. Returns `Err` if an allocation fails.
fn shown_labels(
    alloc: Global,
    picture: &Picture<'_>,
    spans: &[Range<usize>],
) -> Result<Vec<Label<'static>>, AllocError>
    requires { length picture.now.source.now < 2 ^ 59 }
    ensures { IfOk result (λ v. map seen_label v.items
        ≡ map (shown_label (seen_picture picture.now)) (map pair spans.now)) }
{
    let mut list = Vec::new(alloc);
    for span in spans {
        list.push(Label {
            sign: '^',
            text: "",
            extent: extent_of(picture, span),
        })?;
    }
    Ok(list)
}

/// Returns the last line that notes show, or `last` if that is further down. Returns `Err` if an
/// allocation fails.
pub fn last_note_line(
    alloc: Global,
    picture: &Picture<'_>,
    last: usize,
    notes: &[SourceNote<'_>],
) -> Result<usize, AllocError>
    requires source { length picture.now.source.now < 2 ^ 59 }
    requires small { last < 2 ^ 59 }
    ensures value { IfOk result (λ n. n
        ≡ last_note_line (seen_picture picture.now) last (map seen_note notes.now)) }
    ensures small { IfOk result (λ n. n < 2 ^ 59) }
{
    let mut line = last;
    for note in notes {
        let labels = shown_labels(alloc, picture, note.spans)?;
        line = last_label_line(line, &labels);
    }
    Ok(line)
}

/// Adds where the text is that a diagnostic is about.
#[tactic(auto, unfolding(crate::specs::Diagnostics::arrow))]
fn put_arrow(out: &mut String, frame: &Frame<'_>, at: Spot) -> Result<(), AllocError>
    requires line { at.line < 2 ^ 59 }
    requires chars { at.chars < 2 ^ 59 }
    ensures { OnOk result (string_bytes out.new ≡ string_bytes out.old
        ++ arrow (seen_frame frame.now) at) }
{
    let line = frame.picture.line_start as usize + at.line;
    let column = at.chars + 1;
    put_run(out, ' ', frame.gutter.columns)?;
    put_painted_text(out, frame.gutter.palette, Style::Secondary, "--> ")?;
    put_shown(out, Kind::Line, frame.picture.path)?;
    out.push_str(":")?;
    put_decimal(out, line)?;
    out.push_str(":")?;
    put_decimal(out, column)?;
    out.push_str("\n")?;
    Ok(())
}

/// Adds a title, in these colours, after a word, and labels under it.
#[tactic(auto, unfolding(crate::specs::Diagnostics::titled_labels))]
pub fn put_titled_labels(
    out: &mut String,
    frame: &Frame<'_>,
    palette: Palette,
    word: &str,
    title: &str,
    labels: &[Label<'_>],
) -> Result<(), AllocError>
    requires { length frame.now.picture.now.source.now < 2 ^ 59 }
    ensures { OnOk result (string_bytes out.new ≡ string_bytes out.old
        ++ titled_labels (seen_frame frame.now) palette word.now title.now
        (map seen_label labels.now)) }
{
    put_painted_text(out, frame.gutter.palette, Style::Primary, word)?;
    put_opening(out, palette, Style::Bold)?;
    out.push_str(": ")?;
    put_glyphs(out, title, 0)?;
    put_closing(out, palette)?;
    out.push_str("\n")?;
    put_arrow(out, frame, first_spot(labels))?;
    put_parting(out, frame)?;
    put_labels_rows(out, frame, labels)?;
    Ok(())
}

/// Adds the text after a character of a note: after a line feed the margin of the next line.
fn put_margin(out: &mut String, gutter: Gutter, c: char) -> Result<(), AllocError>
    ensures { OnOk result (string_bytes out.new ≡ string_bytes out.old ++ margin gutter c) }
{
    if c == '\n' {
        put_run(out, ' ', gutter.columns)?;
        out.push_str("         ")?;
    }
    Ok(())
}

/// Adds a text of several lines, of which all but the first one begin with a margin.
fn put_note_lines(out: &mut String, gutter: Gutter, text: &str) -> Result<(), AllocError>
    ensures { OnOk result (string_bytes out.new
        ≡ string_bytes out.old ++ indented_text gutter (chars text.now)) }
{
    let mut rest = text;
    while let Some((c, tail)) = split_first(rest) {
        put_run(out, glyph(c), glyph_count(c))?;
        put_margin(out, gutter, c)?;
        rest = tail;
    }
    Ok(())
}

/// Adds a text whose lines but the first one begin with a margin.
#[tactic(auto, using(crate::proofs::Indents::one_lines))]
pub fn put_indented_text(out: &mut String, gutter: Gutter, text: &str) -> Result<(), AllocError>
    ensures { OnOk result (string_bytes out.new
        ≡ string_bytes out.old ++ indented_text gutter (chars text.now)) }
{
    if text.contains('\n') {
        put_note_lines(out, gutter, text)?;
    } else {
        put_glyphs(out, text, 0)?;
    }
    Ok(())
}

/// Adds the start of a note.
fn put_note_word(out: &mut String, gutter: Gutter) -> Result<(), AllocError>
    ensures { OnOk result (string_bytes out.new ≡ string_bytes out.old ++ note_word gutter) }
{
    put_run(out, ' ', gutter.columns)?;
    put_note_sign(out, gutter.palette)?;
    Ok(())
}

/// Adds a note that shows nothing.
fn put_plain_note(out: &mut String, gutter: Gutter, text: &str) -> Result<(), AllocError>
    ensures { OnOk result (string_bytes out.new
        ≡ string_bytes out.old ++ plain_note gutter text.now) }
{
    put_note_word(out, gutter)?;
    put_indented_text(out, gutter, text)?;
    out.push_str("\n")?;
    Ok(())
}

/// Adds a note with labels for what it shows.
fn put_shown_note(
    out: &mut String,
    picture: &Picture<'_>,
    gutter: Gutter,
    text: &str,
    labels: &[Label<'_>],
) -> Result<(), AllocError>
    requires { length picture.now.source.now < 2 ^ 59 }
    ensures { OnOk result (string_bytes out.new ≡ string_bytes out.old
        ++ shown_note (seen_picture picture.now) gutter text.now (map seen_label labels.now)) }
{
    match labels {
        [] => put_plain_note(out, gutter, text)?,
        _ => {
            let columns = gutter.columns;
            let palette = palette_of(picture.colours, Palette::Note);
            let frame = frame_of(picture, Gutter { columns, palette }, labels);
            put_titled_labels(out, &frame, Palette::Colourless, "note", text, labels)?;
        }
    }
    Ok(())
}

/// Adds notes.
pub fn put_notes(
    out: &mut String,
    picture: &Picture<'_>,
    gutter: Gutter,
    notes: &[SourceNote<'_>],
) -> Result<(), AllocError>
    requires { length picture.now.source.now < 2 ^ 59 }
    ensures { OnOk result (string_bytes out.new ≡ string_bytes out.old
        ++ notes_rows (seen_picture picture.now) gutter (map seen_note notes.now)) }
{
    let alloc = *out.allocator();
    for note in notes {
        let labels = shown_labels(alloc, picture, note.spans)?;
        put_shown_note(out, picture, gutter, note.text, &labels)?;
    }
    Ok(())
}
