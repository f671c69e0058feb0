//! Edits with the old and the new lines. A function whose name begins with `put_` appends to
//! `out`, and returns `Err` if an allocation fails.

ghost use Rattle.std.specs.Prelude.{◌≡◌, ◌++◌, OnOk, false, map, string_bytes};
ghost use Rattle.drawn_edits.specs.Helps.{edits_rows, help_word};
ghost use Rattle.drawn_edits.specs.EditedLines.{seen_edit};
ghost use Rattle.drawn_edits.specs.PlusSigns.{AddsEdits};
ghost use Rattle.drawn_lines.specs.Frames.{seen_frame};
ghost use Rattle.drawn_lines.specs.Painting.{has_colours};

use crate::changes::put_rows;
use crate::edited::Edit;
use drawn_lines::{Frame, Palette, Style, put_painted_text};
use std::alloc::AllocError;

/// Adds the word that a help begins with.
#[tactic(auto, unfolding(crate::specs::Helps::help_word))]
pub fn put_help_word(out: &mut String, palette: Palette) -> Result<(), AllocError>
    ensures { OnOk result (string_bytes out.new ≡ string_bytes out.old ++ help_word palette) }
{
    put_painted_text(out, palette, Style::Help, "help")?;
    out.push_str(": ")?;
    Ok(())
}

/// Adds the rows of edits.
#[tactic(auto, using(crate::proofs::PlusLaws::shown_edits))]
pub fn put_edits(out: &mut String, frame: &Frame<'_>, edits: &[Edit<'_>]) -> Result<(), AllocError>
    ensures rows { OnOk result (string_bytes out.new ≡ string_bytes out.old
        ++ edits_rows (seen_frame frame.now) (map seen_edit edits.now)) }
    // Without colours, if they only insert something into one line, they are that line, and under
    // it signs in the columns of what is added, and no sign elsewhere.
    ensures signs { OnOk result (has_colours frame.now.gutter.palette ≡ false
        → AddsEdits (seen_frame frame.now) (map seen_edit edits.now) (string_bytes out.old)
        (string_bytes out.new)) }
{
    put_rows(out, frame, edits)?;
    Ok(())
}
