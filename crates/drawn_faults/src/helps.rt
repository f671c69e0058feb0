//! Helps of a diagnostic. A function whose name begins with `put_` appends to `out`, and returns
//! `Err` if an allocation fails.

ghost use Rattle.std.specs.Prelude.{◌≡◌, ◌++◌, ◌<◌, ◌^◌, IfOk, OnOk, chars, codes, length};
ghost use Rattle.std.specs.Prelude.{map, string_bytes};
ghost use Rattle.drawn_faults.specs.Diagnostics.{help_row_word, help_rows, helps_rows};
ghost use Rattle.drawn_faults.specs.Diagnostics.{indented_text};
ghost use Rattle.drawn_faults.specs.Diagnostics.{last_help_line, placed_edit};
ghost use Rattle.drawn_edits.specs.EditedLines.{seen_edit};
ghost use Rattle.drawn_lines.specs.Frames.{seen_frame};
ghost use Rattle.drawn_lines.specs.Places.{seen_picture};
ghost use Rattle.drawn_faults.specs.SeenDiagnostics.{seen_help, seen_source_edit};

use crate::marked::last_edit_line;
use crate::notes::put_indented_text;
use drawn_edits::{Edit, placed_edit, put_edits, put_help_word};
use drawn_lines::{Frame, Gutter, Picture, Style, put_glyphs, put_painted_text, put_run};
use fault_fixes::Edit as SourceEdit;
use std::alloc::{AllocError, Global};

/// A help of a diagnostic.
#[derive(Clone, Copy, Debug, Drop)]
pub struct SourceHelp<'a> {
    /// The text, which says what to do.
    pub text: &'a str,
    /// The edits that do it, from left to right. They may be in several lines.
    pub edits: &'a [SourceEdit<'a>],
}

/// Returns edits with their places in the source. Returns `Err` if an allocation fails.
fn placed_edits<'a>(
    alloc: Global,
    picture: &Picture<'_>,
    edits: &[SourceEdit<'a>],
) -> Result<Vec<Edit<'a>>, AllocError>
    requires { length picture.now.source.now < 2 ^ 59 }
    ensures { IfOk result (λ v. map seen_edit v.items
        ≡ map (placed_edit (seen_picture picture.now)) (map seen_source_edit edits.now)) }
{
    let mut list = Vec::new(alloc);
    for edit in edits {
        list.push(placed_edit(picture, edit.text, &edit.span))?;
    }
    Ok(list)
}

/// Returns the last line that helps edit, or `last` if that is further down. Returns `Err` if an
/// allocation fails.
pub fn last_help_line(
    alloc: Global,
    picture: &Picture<'_>,
    last: usize,
    helps: &[SourceHelp<'_>],
) -> Result<usize, AllocError>
    requires source { length picture.now.source.now < 2 ^ 59 }
    requires small { last < 2 ^ 59 }
    ensures value { IfOk result (λ n. n
        ≡ last_help_line (seen_picture picture.now) last (map seen_help helps.now)) }
    ensures small { IfOk result (λ n. n < 2 ^ 59) }
{
    let mut line = last;
    for help in helps {
        let edits = placed_edits(alloc, picture, help.edits)?;
        line = last_edit_line(line, &edits);
    }
    Ok(line)
}

/// Adds the start of a help without edits.
#[tactic(auto, using(std::proofs::Common::append_assoc))]
fn put_help_row_word(out: &mut String, gutter: Gutter) -> Result<(), AllocError>
    ensures { OnOk result (string_bytes out.new ≡ string_bytes out.old ++ help_row_word gutter) }
{
    put_run(out, ' ', gutter.columns)?;
    out.push_str(" ")?;
    put_painted_text(out, gutter.palette, Style::Secondary, "= ")?;
    put_painted_text(out, gutter.palette, Style::Bold, "help")?;
    out.push_str(": ")?;
    Ok(())
}

/// Adds a help without edits, as a row.
fn put_help_row(out: &mut String, gutter: Gutter, text: &str) -> Result<(), AllocError>
    ensures { OnOk result (string_bytes out.new ≡ string_bytes out.old
        ++ (help_row_word gutter ++ (indented_text gutter (chars text.now) ++ codes "\n"))) }
{
    put_help_row_word(out, gutter)?;
    put_indented_text(out, gutter, text)?;
    out.push_str("\n")?;
    Ok(())
}

/// Adds a help and its edits.
fn put_help(out: &mut String, frame: &Frame<'_>, help: &SourceHelp<'_>) -> Result<(), AllocError>
    requires { length frame.now.picture.now.source.now < 2 ^ 59 }
    ensures { OnOk result (string_bytes out.new ≡ string_bytes out.old
        ++ help_rows (seen_frame frame.now) (seen_help help.now)) }
{
    if help.edits.is_empty() {
        put_help_row(out, frame.gutter, help.text)?;
        return Ok(());
    }
    put_help_word(out, frame.gutter.palette)?;
    put_glyphs(out, help.text, 0)?;
    out.push_str("\n")?;
    let edits = placed_edits(*out.allocator(), frame.picture, help.edits)?;
    put_edits(out, frame, &edits)?;
    Ok(())
}

/// Adds helps.
pub fn put_helps(
    out: &mut String,
    frame: &Frame<'_>,
    helps: &[SourceHelp<'_>],
) -> Result<(), AllocError>
    requires { length frame.now.picture.now.source.now < 2 ^ 59 }
    ensures { OnOk result (string_bytes out.new ≡ string_bytes out.old
        ++ helps_rows (seen_frame frame.now) (map seen_help helps.now)) }
{
    for help in helps {
        put_help(out, frame, help)?;
    }
    Ok(())
}
