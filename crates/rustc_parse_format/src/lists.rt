//! The lists of the errors, places and lines that a parser has found in all its calls so far. The
//! errors are made here, of faults.

ghost use Rattle.std.specs.Prelude.{◌≡◌, ◌<◌, ◌^◌, ◌++◌, ◌∷◌, [], IfOk, IsOk, None, OnErr, OnOk};
ghost use Rattle.std.specs.Prelude.{length, map, option_map, take};
ghost use Rattle.std.specs.List.{filter};
ghost use Rattle.rustc_parse_format.specs.Faults.{add_errors, is_front};
ghost use Rattle.rustc_parse_format.specs.Lines.{ends_with, place_list};
ghost use Rattle.rustc_parse_format.specs.CallStates.{HasFoundNothing};
ghost use Rattle.rustc_parse_format.specs.Views.{pair};
ghost use Rattle.rustc_parse_format.specs.FaultViews.{seen_fault};

use crate::error_list::ErrorList;
use crate::faults::{Fault, Faults};
use crate::range_list::RangeList;
use crate::reader::Reader;
use std::alloc::{AllocError, Global};
use std::ops::Range;

/// Adds the error of a fault. Returns how many errors were added at the front. Returns `Err` if an
/// allocation fails, and `errors` is then unchanged.
fn add_error(alloc: Global, errors: &mut ErrorList, fault: &Fault<'_>) -> Result<usize, AllocError>
    ensures ok { OnOk result (errors.new ≡ add_errors errors.old (seen_fault fault.now ∷ [])) }
    ensures front_count { IfOk result
        (λ n. n ≡ length (filter is_front (seen_fault fault.now ∷ []))) }
    ensures err { OnErr result (errors.new ≡ errors.old) }
{
    if fault.is_front() {
        errors.push_front(alloc, fault)?;
        Ok(1)
    } else {
        errors.push_back(alloc, fault)?;
        Ok(0)
    }
}

/// Adds the errors of faults. Returns how many errors were added at the front. Returns `Err` if an
/// allocation fails, and `errors` is then unchanged.
#[inline(never)]
fn add_errors(
    alloc: Global,
    errors: &mut ErrorList,
    faults: &Faults<'_>,
) -> Result<usize, AllocError>
    requires { length faults.now < 2 ^ 64 }
    ensures ok { OnOk result (errors.new ≡ add_errors errors.old faults.now) }
    ensures front_count { IfOk result (λ n. n ≡ length (filter is_front faults.now)) }
    ensures err { OnErr result (errors.new ≡ errors.old) }
{
    let count = errors.as_slice().len();
    let mut front_count = 0;
    let mut index = 0;
    while let Some(fault) = faults.get(index) {
        match add_error(alloc, errors, fault) {
            Ok(number) => front_count += number,
            Err(error) => {
                errors.keep(front_count, count);
                return Err(error);
            }
        }
        index += 1;
    }
    Ok(front_count)
}

/// The errors that a parser has found, and the byte ranges of placeholders and of lines.
#[derive(Drop)]
pub struct Lists {
    pub errors: ErrorList,
    pub arg_places: RangeList,
    pub line_spans: RangeList,
}

impl Lists {
    /// Returns empty lists. Does not allocate.
    pub fn new(alloc: Global) -> Lists
        ensures { (result.errors ≡ []) × (result.arg_places ≡ []) × (result.line_spans ≡ []) }
    {
        Lists {
            errors: ErrorList::new(),
            arg_places: RangeList::new(alloc),
            line_spans: RangeList::new(alloc),
        }
    }

    /// Adds the errors of faults, the byte ranges of lines and the byte range of a placeholder, and
    /// empties `faults`, `lines` and `closed_place`. Returns how many errors were added at the
    /// front. Returns `Err` if an allocation fails: the errors are then unchanged, and the other
    /// lists may have new ranges at their ends.
    #[inline(always)]
    fn add(
        &mut self,
        alloc: Global,
        faults: &mut Faults<'_>,
        lines: &mut Vec<Range<usize>>,
        closed_place: &mut Option<Range<usize>>,
    ) -> Result<usize, AllocError>
        ensures errors { OnOk result ((self.new.errors ≡ add_errors self.old.errors faults.old)
            × (faults.new ≡ [])) }
        ensures front_count { IfOk result (λ n. n ≡ length (filter is_front faults.old)) }
        ensures places { OnOk result ((self.new.arg_places
            ≡ self.old.arg_places ++ place_list (option_map pair closed_place.old))
            × (closed_place.new ≡ None)) }
        ensures lines { OnOk result ((self.new.line_spans
            ≡ self.old.line_spans ++ map pair lines.old.items) × (lines.new.items ≡ [])) }
        ensures err { OnErr result ((self.new.errors ≡ self.old.errors)
            × (take (length self.old.arg_places) self.new.arg_places ≡ self.old.arg_places)
            × (take (length self.old.line_spans) self.new.line_spans ≡ self.old.line_spans)) }
    {
        if let Some(place) = closed_place.take() {
            self.arg_places.push(place)?;
        }
        if !lines.is_empty() {
            self.line_spans.append(lines)?;
        }
        if faults.is_empty() {
            return Ok(0);
        }
        let front_count = add_errors(alloc, &mut self.errors, faults)?;
        faults.clear();
        Ok(front_count)
    }

    /// Moves all that a call has found from `reader` into the lists. Returns how many errors were
    /// added at the front. Returns `Err` if an allocation fails: the lists are then unchanged, and
    /// `reader` is to be restored with `rewind`. Does not allocate if the call has found nothing.
    #[inline(always)]
    pub fn take_over(&mut self, alloc: Global, reader: &mut Reader<'_>) -> Result<usize, AllocError>
        ensures errors { OnOk result (self.new.errors
            ≡ add_errors self.old.errors reader.old.faults) }
        ensures places { OnOk result (self.new.arg_places
            ≡ self.old.arg_places ++ place_list reader.old.closed_place) }
        ensures lines { OnOk result (self.new.line_spans
            ≡ self.old.line_spans ++ reader.old.lines) }
        ensures front_count { IfOk result (λ n. n ≡ length (filter is_front reader.old.faults)) }
        ensures reader { OnOk result (reader.new
            ≡ record reader.old { faults = []; lines = []; closed_place = None }) }
        ensures source { OnErr result (reader.new.source ≡ reader.old.source) }
        ensures err { OnErr result ((self.new.errors ≡ self.old.errors)
            × (self.new.arg_places ≡ self.old.arg_places)
            × (self.new.line_spans ≡ self.old.line_spans)) }
        ensures none { HasFoundNothing reader.old → IsOk result }
    {
        if reader.has_found_nothing() {
            return Ok(0);
        }
        let places = self.arg_places.len();
        let lines = self.line_spans.len();
        let front_count = self.add(
            alloc,
            &mut reader.faults,
            &mut reader.lines,
            &mut reader.closed_place,
        );
        if front_count.is_err() {
            self.arg_places.truncate(places);
            self.line_spans.truncate(lines);
        }
        front_count
    }
}

/// Returns whether the last of the lines is `line`.
pub fn ends_with(lines: &[Range<usize>], line: &Range<usize>) -> bool
    ensures { result ≡ ends_with (pair line.now) (map pair lines.now) }
{
    match lines.last() {
        Some(last) => last.start == line.start && last.end == line.end,
        None => false,
    }
}
