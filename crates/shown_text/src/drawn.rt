//! Bytes of files as a terminal gets them.

ghost use Rattle.std.specs.Prelude.{◌≡◌, ◌++◌, OnOk, string_bytes};
ghost use Rattle.drawn_lines.specs.Glyphs.{IsHarmless};
ghost use Rattle.shown_text.specs.Shown.{drawn};

use drawn_lines::put_glyphs;
use std::alloc::AllocError;

/// Appends bytes as a terminal is to have them: as drawings have their text, with U+FFFD for bytes
/// that are not UTF-8. Returns `Err` if an allocation fails, and a part of them may then be
/// appended.
#[tactic(auto, using(crate::proofs::Terminals::harmless_drawn))]
pub fn put_drawn(out: &mut String, bytes: &[u8]) -> Result<(), AllocError>
    ensures written { OnOk result (string_bytes out.new
        ≡ string_bytes out.old ++ drawn bytes.now) }
    ensures harmless { IsHarmless (drawn bytes.now) }
{
    let text = String::from_utf8_lossy(*out.allocator(), bytes)?;
    put_glyphs(out, text.as_str(), 0)
}
