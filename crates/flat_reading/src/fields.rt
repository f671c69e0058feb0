//! Writes single fields of records: byte ranges and flags.

ghost use Rattle.std.specs.Prelude.{◌≡◌, ◌<◌, Some, option_map};
ghost use Rattle.rustc_parse_format.specs.Views.{pair};
ghost use Rattle.flat_reading.specs.Meaning.{is_set, maybe_place, place as place_meant};

use crate::records::Extent;
use std::ops::Range;

/// The byte range in a record that has none.
pub const NOWHERE: Extent = Extent { start: 0, end: 0 };

/// Writes a byte range. (Each field is copied by itself: a copy of both at once would wait for the
/// two that the parser has just written.)
#[inline(always)]
pub fn put_extent(range: &Range<usize>, record: &mut Extent)
    ensures { place_meant record.new ≡ pair range.now }
{
    record.start = range.start;
    record.end = range.end;
}

/// Writes a byte range, or none: then `has_range` is 0, and `record` is as before.
#[inline(always)]
pub fn put_maybe_extent(range: &Option<Range<usize>>, has_range: &mut u8, record: &mut Extent)
    ensures { maybe_place has_range.new record.new ≡ option_map pair range.now }
{
    match range {
        Some(range) => {
            *has_range = 1;
            put_extent(range, record);
        }
        None => *has_range = 0,
    }
}

/// Returns 1 for true and 0 for false.
pub fn flag(condition: bool) -> u8
    ensures { is_set result ≡ condition }
{
    if condition { 1 } else { 0 }
}
