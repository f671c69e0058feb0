//! A list of byte ranges, of which the first two need no allocation.

ghost use Rattle.std.specs.Prelude.{◌≡◌, ◌↔◌, ◌++◌, ◌∷◌, [], IfOk, IsTrue, OnErr, OnOk};
ghost use Rattle.std.specs.Prelude.{length, map, take};
ghost use Rattle.rustc_parse_format.specs.Views.{pair};

use std::alloc::{AllocError, Global};
use std::marker::Model;
use std::mem;
use std::ops::Range;

/// A list of byte ranges: the first `array_len` entries of `array` while `list` is empty, and
/// otherwise `list`, with `array_len` 0. Most texts are one line with one or two placeholders, and
/// an allocation takes longer than reading them.
#[derive(Drop)]
pub struct RangeList {
    array: [Range<usize>; 2],
    array_len: usize,
    list: Vec<Range<usize>>,
}

impl Model for RangeList {
    ghost use Rattle.std.specs.Prelude.{◌≡◌, ◌≢◌, ◌≤◌, ◌++◌, [], List, length, map, take};
    ghost use Rattle.rustc_parse_format.specs.Views.{pair};
    ghost use Rattle.rustc_parse_format.specs.World.{Place};

    ghost Value = { List Place };

    ghost view = { λ l. map pair (take l.array_len l.array ++ l.list.items) };

    ghost invariant = { λ l. (length l.array ≡ 2) × (l.array_len ≤ 2)
        × (l.array_len ≢ 0 → l.list.items ≡ []) };
}

/// Returns a list of the two ranges, with room for six more. Returns `Err` if an allocation fails.
#[inline(never)]
fn list_of_two(alloc: Global, array: &[Range<usize>; 2]) -> Result<Vec<Range<usize>>, AllocError>
    ensures { IfOk result (λ list. map pair list.items ≡ map pair array.now) }
{
    let mut list = Vec::new(alloc);
    list.reserve(8)?;
    let [first, second] = array;
    list.push_reserved(first.start..first.end);
    list.push_reserved(second.start..second.end);
    Ok(list)
}

impl RangeList {
    /// Returns an empty list. Does not allocate.
    pub fn new(alloc: Global) -> RangeList
        ensures { result ≡ [] }
    {
        RangeList {
            array: [0..0, 0..0],
            array_len: 0,
            list: Vec::new(alloc),
        }
    }

    /// Returns the number of ranges.
    pub fn len(&self) -> usize
        ensures { result ≡ length self.now }
    {
        self.array_len + self.list.len()
    }

    /// Returns whether there are no ranges.
    pub fn is_empty(&self) -> bool
        ensures { IsTrue result ↔ (self.now ≡ []) }
    {
        self.len() == 0
    }

    /// Returns the ranges, in order.
    pub fn as_slice(&self) -> &[Range<usize>]
        ensures { map pair result.now ≡ self.now }
    {
        if self.array_len == 0 {
            return self.list.as_slice();
        }
        &self.array[..self.array_len]
    }

    /// Adds a range at the end. Returns `Err` if an allocation fails, and the list is then
    /// unchanged. The first two ranges need no allocation.
    #[inline(always)]
    pub fn push(&mut self, range: Range<usize>) -> Result<(), AllocError>
        ensures ok { OnOk result (self.new ≡ self.old ++ pair range ∷ []) }
        ensures err { OnErr result (self.new ≡ self.old) }
    {
        if self.list.is_empty() {
            if self.array_len < 2 {
                self.array[self.array_len] = range;
                self.array_len += 1;
                return Ok(());
            }
            self.list = list_of_two(*self.list.allocator(), &self.array)?;
            self.array_len = 0;
        }
        self.list.push(range)?;
        Ok(())
    }

    /// Keeps the first `count` ranges, and drops all others.
    pub fn truncate(&mut self, count: usize)
        ensures { self.new ≡ take count self.old }
    {
        if count < self.array_len {
            self.array_len = count;
            return;
        }
        self.list.truncate(count);
    }

    /// Moves all of `ranges` to the end. Returns `Err` if an allocation fails, and the list is then
    /// unchanged. If the list is empty and there are several ranges, takes over their vector and
    /// does not allocate.
    pub fn append(&mut self, ranges: &mut Vec<Range<usize>>) -> Result<(), AllocError>
        ensures ok { OnOk result (self.new ≡ self.old ++ map pair ranges.old.items) }
        ensures moved { OnOk result (ranges.new.items ≡ []) }
        ensures err { OnErr result (self.new ≡ self.old) }
    {
        if self.is_empty() && ranges.len() > 1 {
            self.array_len = 0;
            self.list = mem::replace(ranges, Vec::new(*ranges.allocator()));
            return Ok(());
        }
        let count = self.len();
        for range in ranges.as_slice() {
            if self.push(range.start..range.end).is_err() {
                self.truncate(count);
                return Err(AllocError);
            }
        }
        ranges.clear();
        Ok(())
    }
}
