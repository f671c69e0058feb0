//! The parts of a diagnostic, made and added. Each function adds to the end of a list, and returns
//! `Err` if an allocation fails; the list is then as it was.

ghost use Rattle.std.specs.Prelude.{◌≡◌, ◌++◌, ◌∷◌, [], OnErr, OnOk, map};
ghost use Rattle.diagnostic.specs.Parts.{help_note, primary, secondary, seen_label, seen_note};

use crate::parts::{Label, Note, NoteLevel};
use std::alloc::AllocError;

/// Adds a label of a place that the fault is about.
pub fn push_primary<P: Drop>(
    labels: &mut Vec<Label<P>>,
    place: P,
    text: &str,
) -> Result<(), AllocError>
    ensures added { OnOk result (map seen_label labels.new.items
        ≡ map seen_label labels.old.items ++ primary place text.now ∷ []) }
    ensures failed { OnErr result (labels.new.items ≡ labels.old.items) }
{
    let text = String::from_str(*labels.allocator(), text)?;
    labels.push(Label {
        place,
        is_primary: true,
        text,
    })?;
    Ok(())
}

/// Adds a label of another place.
pub fn push_secondary<P: Drop>(
    labels: &mut Vec<Label<P>>,
    place: P,
    text: &str,
) -> Result<(), AllocError>
    ensures added { OnOk result (map seen_label labels.new.items
        ≡ map seen_label labels.old.items ++ secondary place text.now ∷ []) }
    ensures failed { OnErr result (labels.new.items ≡ labels.old.items) }
{
    let text = String::from_str(*labels.allocator(), text)?;
    labels.push(Label {
        place,
        is_primary: false,
        text,
    })?;
    Ok(())
}

/// Adds a help without edits and without places.
pub fn push_help<P: Drop>(notes: &mut Vec<Note<P>>, text: &str) -> Result<(), AllocError>
    ensures added { OnOk result (map seen_note notes.new.items
        ≡ map seen_note notes.old.items ++ help_note text.now ∷ []) }
    ensures failed { OnErr result (notes.new.items ≡ notes.old.items) }
{
    let alloc = *notes.allocator();
    let text = String::from_str(alloc, text)?;
    notes.push(Note {
        level: NoteLevel::Help,
        text,
        places: Vec::new(alloc),
    })?;
    Ok(())
}
