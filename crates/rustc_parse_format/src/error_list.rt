//! The list of a parser's errors, which grows at both ends.

ghost use Rattle.std.specs.Prelude.{◌≡◌, ◌+◌, ◌≤◌, ◌++◌, ◌∷◌, [], None, OnErr, OnOk};
ghost use Rattle.std.specs.Prelude.{drop, length, map, take};
ghost use Rattle.rustc_parse_format.specs.Faults.{error, message};
ghost use Rattle.rustc_parse_format.specs.Views.{seen_error};
ghost use Rattle.rustc_parse_format.specs.FaultViews.{seen_fault};

use crate::faults::Fault;
use crate::messages::set_error;
use crate::types::{ParseError, Suggestion};
use std::alloc::{AllocError, Global};
use std::marker::Model;
use std::mem;

/// A list of errors that grows at both ends. The first `room` entries are free, for errors that are
/// added at the front. The list is the entries after them.
#[derive(Drop)]
pub struct ErrorList {
    /// `None` before the first error: most lists have none, and are then dropped at once.
    entries: Option<Vec<ParseError>>,
    room: usize,
}

impl Model for ErrorList {
    ghost use Rattle.std.specs.Prelude.{◌≤◌, [], List, drop, length, map, option_map, unwrap_or};
    ghost use Rattle.rustc_parse_format.specs.Faults.{Message};
    ghost use Rattle.rustc_parse_format.specs.Views.{seen_error};
    ghost use Rattle.rustc_parse_format.specs.World.{Place};

    ghost Value = { List (Message Place) };

    ghost view = { λ l. map seen_error (drop l.room
        (unwrap_or (option_map (λ v. v.items) l.entries) [])) };

    ghost invariant = { λ l. l.room
        ≤ length (unwrap_or (option_map (λ v. v.items) l.entries) []) };
}

/// Returns an error whose texts are empty. Does not allocate.
pub fn empty_error(alloc: Global) -> ParseError
    ensures { seen_error result ≡ error [] None [] (0, 0) None }
{
    ParseError {
        description: String::new(alloc),
        note: None,
        label: String::new(alloc),
        span: 0..0,
        secondary_label: None,
        suggestion: Suggestion::None,
    }
}

impl Fault<'_> {
    ghost use Rattle.std.specs.Prelude.{◌≡◌, IfOk};
    ghost use Rattle.rustc_parse_format.specs.Faults.{message};
    ghost use Rattle.rustc_parse_format.specs.Views.{seen_error};
    ghost use Rattle.rustc_parse_format.specs.FaultViews.{seen_fault};

    /// Returns the error of the fault, as a parser has it in its list. Returns `Err` if an
    /// allocation fails.
    pub fn error(&self, alloc: Global) -> Result<ParseError, AllocError>
        ensures { IfOk result (λ e. seen_error e ≡ message (seen_fault self.now)) }
    {
        let mut error = empty_error(alloc);
        set_error(alloc, &mut error, self)?;
        Ok(error)
    }
}

/// Inserts `count` empty errors before the entries. Returns `Err` if an allocation fails, and the
/// entries are then unchanged.
fn widen(alloc: Global, entries: &mut Vec<ParseError>, count: usize) -> Result<(), AllocError>
    ensures rest { OnOk result (drop count entries.new.items ≡ entries.old.items) }
    ensures len { OnOk result (length entries.new.items ≡ count + length entries.old.items) }
    ensures err { OnErr result (entries.new.items ≡ entries.old.items) }
{
    entries.reserve(count)?;
    for _ in 0..count {
        entries.push_reserved(empty_error(alloc));
    }
    entries.rotate_right(count);
    Ok(())
}

/// Appends the error of a fault. Returns `Err` if an allocation fails, and the entries are then
/// unchanged.
#[inline(always)]
#[tactic(auto, using(crate::proofs::Readers::Errors::list_ends))]
fn push_error(
    alloc: Global,
    entries: &mut Vec<ParseError>,
    fault: &Fault<'_>,
) -> Result<(), AllocError>
    ensures ok { OnOk result (map seen_error entries.new.items
        ≡ map seen_error entries.old.items ++ message (seen_fault fault.now) ∷ []) }
    ensures err { OnErr result (entries.new.items ≡ entries.old.items) }
{
    let last = entries.len();
    entries.push(empty_error(alloc))?;
    let outcome = set_error(alloc, &mut entries[last], fault);
    if outcome.is_err() {
        entries.truncate(last);
    }
    outcome
}

impl ErrorList {
    /// Returns an empty list. Does not allocate.
    pub fn new() -> ErrorList
        ensures { result ≡ [] }
    {
        ErrorList {
            entries: None,
            room: 0,
        }
    }

    /// Returns the errors, in order.
    pub fn as_slice(&self) -> &[ParseError]
        ensures { map seen_error result.now ≡ self.now }
    {
        match &self.entries {
            Some(entries) => &entries[self.room..],
            None => &[],
        }
    }

    /// Takes all errors out of the list, and returns them in order. Does not allocate.
    pub fn take(&mut self, alloc: Global) -> Vec<ParseError>
        ensures value { map seen_error result.items ≡ self.old }
        ensures state { self.new ≡ [] }
    {
        let room = mem::replace(&mut self.room, 0);
        match self.entries.take() {
            Some(mut entries) => {
                entries.drain(..room);
                entries
            }
            None => Vec::new(alloc),
        }
    }

    /// Adds the error of a fault at the front. Returns `Err` if an allocation fails, and the list
    /// is then unchanged. If no entry is free, makes as many free entries as there are errors, so
    /// that the number of errors moved in all calls is proportional to the number added.
    pub fn push_front(&mut self, alloc: Global, fault: &Fault<'_>) -> Result<(), AllocError>
        ensures ok { OnOk result (self.new ≡ message (seen_fault fault.now) ∷ self.old) }
        ensures err { OnErr result (self.new ≡ self.old) }
    {
        let entries = self.entries.get_or_insert_with(|| Vec::new(alloc));
        if entries.is_empty() {
            return push_error(alloc, entries, fault);
        }
        if self.room == 0 {
            let count = entries.len();
            widen(alloc, entries, count)?;
            self.room = count;
        }
        let first = self.room - 1;
        entries[first] = empty_error(alloc);
        set_error(alloc, &mut entries[first], fault)?;
        self.room = first;
        Ok(())
    }

    /// Adds the error of a fault at the back. Returns `Err` if an allocation fails, and the list is
    /// then unchanged.
    #[tactic(auto, using(crate::proofs::Readers::Errors::at_back))]
    pub fn push_back(&mut self, alloc: Global, fault: &Fault<'_>) -> Result<(), AllocError>
        ensures ok { OnOk result (self.new ≡ self.old ++ message (seen_fault fault.now) ∷ []) }
        ensures err { OnErr result (self.new ≡ self.old) }
    {
        let entries = self.entries.get_or_insert_with(|| Vec::new(alloc));
        push_error(alloc, entries, fault)
    }

    /// Keeps `count` errors after the first `front_count` ones, and drops all others.
    #[tactic(auto, using(crate::proofs::Readers::Errors::list_parts))]
    pub fn keep(&mut self, front_count: usize, count: usize)
        requires { front_count + count ≤ length self.old }
        ensures { self.new ≡ take count (drop front_count self.old) }
    {
        if let Some(entries) = &mut self.entries {
            self.room += front_count;
            entries.truncate(self.room + count);
        }
    }
}
