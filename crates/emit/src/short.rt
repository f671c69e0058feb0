//! The form for editors.

ghost use Rattle.std.specs.Prelude.{◌≡◌, ◌++◌, OnOk, string_bytes};
ghost use Rattle.emit.specs.Lines.{place_text, short};
ghost use Rattle.shown_text.specs.Shown.{IsLine};

use crate::escapes::put_number;
use crate::message::{Message, level_name};
use rust_trees::Place;
use shown_text::{Kind, put_shown};
use std::alloc::AllocError;

/// Appends a place: the line, a colon and the column.
fn put_place(out: &mut String, place: Place) -> Result<(), AllocError>
    ensures { OnOk result (string_bytes out.new ≡ string_bytes out.old ++ place_text place) }
{
    put_number(out, place.line)?;
    out.push_str(":")?;
    put_number(out, place.column)?;
    Ok(())
}

/// Appends a message as a line that editors find places in: `PATH:LINE:COLUMN: LEVEL: TITLE [ID]`.
/// Returns `Err` if an allocation fails, and a part of the line may then be appended.
#[tactic(auto, using(crate::proofs::Harmless::one_line))]
pub fn put_short(out: &mut String, message: &Message<'_>) -> Result<(), AllocError>
    ensures written { OnOk result (string_bytes out.new
        ≡ string_bytes out.old ++ short message.now) }
    ensures line { IsLine (short message.now) }
{
    put_shown(out, Kind::Line, message.path)?;
    out.push_str(":")?;
    put_place(out, message.primary.start)?;
    out.push_str(": ")?;
    out.push_str(level_name(message.level))?;
    out.push_str(": ")?;
    put_shown(out, Kind::Line, message.title)?;
    out.push_str(" [")?;
    put_shown(out, Kind::Line, message.id)?;
    out.push_str("]\n")?;
    Ok(())
}
