//! The place at which a text can no longer be read as the content of an ordinary string literal.

ghost use Rattle.std.specs.Prelude.{chars};
ghost use Rattle.literal_faults.specs.Stops.{StopsAt};

use rustc_parse_format::literal::{FirstUnit, split_first_unit};

/// Returns the rest of a text after the characters and escapes of an ordinary string literal that
/// it begins with.
pub fn after_units(content: &str) -> &str
    ensures { StopsAt (chars content.now) (chars result.now) }
{
    let mut rest = content;
    while let Some(
        FirstUnit {
            character: _,
            rest: more,
        },
    ) = split_first_unit(rest)
    {
        rest = more;
    }
    rest
}
