//! The call of the parser that found each error.

ghost use Rattle.std.specs.Prelude.{◌≡◌, ◌++◌, OnOk, replicate};

use std::alloc::{AllocError, Global};
use std::marker::Model;

/// A list of numbers. Most inputs with an error have one, so the first number takes no allocation.
#[derive(Drop)]
struct Numbers {
    first: Option<usize>,
    others: Vec<usize>,
}

impl Model for Numbers {
    ghost use Rattle.std.specs.Prelude.{◌≡◌, ◌∷◌, [], ℕ, List, None, option_map, unwrap_or};

    ghost Value = { List ℕ };

    ghost view = { λ l. unwrap_or (option_map (λ n. n ∷ l.others.items) l.first) [] };

    ghost invariant = { λ l. l.first ≡ None → l.others.items ≡ [] };
}

impl Numbers {
    ghost use Rattle.std.specs.Prelude.{◌≡◌, ◌<◌, ◌∷◌, ◌++◌, [], OnOk, length, slice_index};

    /// Creates an empty list. Does not allocate.
    fn new(alloc: Global) -> Numbers
        ensures { result ≡ [] }
    {
        Numbers {
            first: None,
            others: Vec::new(alloc),
        }
    }

    /// Appends a number. Returns `Err` if an allocation fails.
    fn push(&mut self, number: usize) -> Result<(), AllocError>
        ensures { OnOk result (self.new ≡ self.old ++ number ∷ []) }
    {
        if self.first.is_none() {
            self.first = Some(number);
            return Ok(());
        }
        Ok(self.others.push(number)?)
    }

    /// Returns how many numbers there are.
    fn len(&self) -> usize
        ensures { result ≡ length self.now }
    {
        match self.first {
            None => 0,
            Some(_) => self.others.len() + 1,
        }
    }

    /// Returns the number with this index.
    fn get(&self, index: usize) -> usize
        requires { index < length self.now }
        ensures { result ≡ slice_index self.now index }
    {
        match self.first {
            Some(number) if index == 0 => number,
            _ => self.others[index - 1],
        }
    }
}

/// Appends a number to a list, `times` times. Returns `Err` if an allocation fails.
fn repeat(list: &mut Numbers, number: usize, times: usize) -> Result<(), AllocError>
    ensures { OnOk result (list.new ≡ list.old ++ replicate times number) }
{
    for _ in 0..times {
        list.push(number)?;
    }
    Ok(())
}

/// The numbers of the calls that found the errors, in two lists.
#[derive(Drop)]
struct Lists {
    /// The numbers for the errors that were put at the front of the list of errors, in reverse
    /// order.
    front_calls: Numbers,
    /// The numbers for the errors after them.
    back_calls: Numbers,
}

impl Model for Lists {
    ghost use Rattle.std.specs.Prelude.{◌++◌, length, reverse};
    ghost use Rattle.flat_reading.specs.ErrorRecords.{FinderList};

    ghost Value = { FinderList };

    ghost view = { λ l. record {
      calls = reverse l.front_calls ++ l.back_calls;
      front_count = length l.front_calls;
    } };
}

impl Lists {
    ghost use Rattle.std.specs.Prelude.{◌≡◌, ◌+◌, ◌<◌, ◌++◌, [], OnOk, length, replicate};
    ghost use Rattle.std.specs.Prelude.{slice_index};

    /// Creates empty lists. Does not allocate.
    fn new(alloc: Global) -> Lists
        ensures { result ≡ record { calls = []; front_count = 0 } }
    {
        Lists {
            front_calls: Numbers::new(alloc),
            back_calls: Numbers::new(alloc),
        }
    }

    /// Adds the call `number`, which found `front_count` errors that were put at the front of the
    /// list and `back_count` others. Returns `Err` if an allocation fails.
    fn add(
        &mut self,
        number: usize,
        front_count: usize,
        back_count: usize,
    ) -> Result<(), AllocError>
        ensures calls { OnOk result (self.new.calls ≡ replicate front_count number
            ++ (self.old.calls ++ replicate back_count number)) }
        ensures front_count { OnOk result (self.new.front_count
            ≡ self.old.front_count + front_count) }
    {
        repeat(&mut self.front_calls, number, front_count)?;
        repeat(&mut self.back_calls, number, back_count)?;
        Ok(())
    }

    /// Returns the number of errors that were put at the front of the list.
    fn front_count(&self) -> usize
        ensures { result ≡ self.now.front_count }
    {
        self.front_calls.len()
    }

    /// Returns the number of the call that found the error with this index.
    fn get(&self, index: usize) -> usize
        requires { index < length self.now.calls }
        ensures { result ≡ slice_index self.now.calls index }
    {
        let front_count = self.front_calls.len();
        if index < front_count {
            self.front_calls.get(front_count - 1 - index)
        } else {
            self.back_calls.get(index - front_count)
        }
    }
}

/// The numbers of the calls that found the errors, in the order of the list of errors.
#[derive(Drop)]
pub struct Finders {
    /// The lists, which are made for the first error.
    lists: Option<Lists>,
}

impl Model for Finders {
    ghost use Rattle.std.specs.Prelude.{[], unwrap_or};
    ghost use Rattle.flat_reading.specs.ErrorRecords.{FinderList};

    ghost Value = { FinderList };

    ghost view = { λ f. unwrap_or f.lists (record { calls = []; front_count = 0 }) };
}

impl Finders {
    ghost use Rattle.std.specs.Prelude.{◌≡◌, ◌+◌, ◌-◌, ◌<◌, ◌≤◌, ◌++◌, [], OnOk, length, replicate};
    ghost use Rattle.std.specs.Prelude.{slice_index};

    /// Creates an empty list. Does not allocate.
    pub fn new() -> Finders
        ensures { result ≡ record { calls = []; front_count = 0 } }
    {
        Finders { lists: None }
    }

    /// Adds the call `number`, which found `front_count` errors that were put at the front of the
    /// list and `back_count` others. Returns `Err` if an allocation fails.
    #[cold]
    #[inline(never)]
    fn add_some(
        &mut self,
        alloc: Global,
        number: usize,
        front_count: usize,
        back_count: usize,
    ) -> Result<(), AllocError>
        ensures calls { OnOk result (self.new.calls ≡ replicate front_count number
            ++ (self.old.calls ++ replicate back_count number)) }
        ensures front_count { OnOk result (self.new.front_count
            ≡ self.old.front_count + front_count) }
    {
        if self.lists.is_none() {
            self.lists = Some(Lists::new(alloc));
        }
        match &mut self.lists {
            Some(lists) => lists.add(number, front_count, back_count),
            None => unreachable!(),
        }
    }

    /// Adds the call `number`, which found `count` errors, of which `front_count` were put at the
    /// front of the list. Returns `Err` if an allocation fails.
    #[inline(always)]
    pub fn add(
        &mut self,
        alloc: Global,
        number: usize,
        front_count: usize,
        count: usize,
    ) -> Result<(), AllocError>
        requires { front_count ≤ count }
        ensures calls { OnOk result (self.new.calls ≡ replicate front_count number
            ++ (self.old.calls ++ replicate (count - front_count) number)) }
        ensures front_count { OnOk result (self.new.front_count
            ≡ self.old.front_count + front_count) }
    {
        if count > 0 {
            self.add_some(alloc, number, front_count, count - front_count)?;
        }
        Ok(())
    }

    /// Returns the number of errors that were put at the front of the list.
    pub fn front_count(&self) -> usize
        ensures { result ≡ self.now.front_count }
    {
        match &self.lists {
            Some(lists) => lists.front_count(),
            None => 0,
        }
    }

    /// Returns the number of the call that found the error with this index.
    pub fn get(&self, index: usize) -> usize
        requires { index < length self.now.calls }
        ensures { result ≡ slice_index self.now.calls index }
    {
        match &self.lists {
            Some(lists) => lists.get(index),
            None => unreachable!(),
        }
    }
}
