//! Sets of indices of arguments. Most indices rise from 0 with the placeholders, so that they are
//! marked in a list; others are in a set. Lists are filled by `push`: `collect` allocates more room
//! first, and less if that fails.

ghost use Rattle.std.specs.Prelude.{◌≡◌, ℕ, ◌+◌, ◌<◌, ◌≤◌, ◌||◌, ◌==◌, ◌++◌, cond, nat_le, filter};
ghost use Rattle.std.specs.Prelude.{false, true, length, min, get_or, [], IfOk, IsOk, OnOk};
ghost use Rattle.std.specs.BTreeSet.{IsOrdered};
ghost use Rattle.std.specs.Ordering.{nat_cmp};
ghost use Rattle.placeholder_check.specs.Entries.{Lists};
ghost use Rattle.placeholder_check.specs.Collection.{is_noted};

use std::alloc::{AllocError, Global};
use std::collections::BTreeSet;

/// An index that is this far after the marks, or farther, is not marked.
const GAP: usize = 16;

/// A set of indices.
#[derive(Drop)]
pub struct Indices {
    /// Whether each of the first indices was marked.
    pub marks: Vec<bool>,
    /// The indices that were too far from the marked ones.
    pub others: BTreeSet<usize>,
    /// The number of indices.
    pub count: usize,
}

/// Returns the empty set. Allocates nothing.
pub fn no_indices(alloc: Global) -> Indices
    ensures { (result.marks.items ≡ []) × (result.others.keys ≡ []) × (result.count ≡ 0) }
{
    Indices {
        marks: Vec::new(alloc),
        others: BTreeSet::new(alloc),
        count: 0,
    }
}

/// Returns whether a set has an index.
pub fn has_index(set: &Indices, index: usize) -> bool
    ensures { result ≡ is_noted set.now index }
{
    match set.marks.get(index) {
        Some(true) => true,
        _ => set.others.contains(&index),
    }
}

/// Marks an index that is not far from those in the list. Returns `Err` if an allocation fails.
fn mark(marks: &mut Vec<bool>, index: usize) -> Result<(), AllocError>
    ensures { OnOk result ((n : ℕ) → get_or marks.new.items n false
        ≡ (get_or marks.old.items n false || index == n)) }
{
    for _ in marks.len()..index {
        marks.push(false)?;
    }
    if index < marks.len() {
        marks[index] = true;
    } else {
        marks.push(true)?;
    }
    Ok(())
}

/// Adds an index to a set. Returns `Err` if an allocation fails.
pub fn insert_index(set: &mut Indices, index: usize) -> Result<(), AllocError>
    ensures noted { OnOk result
        ((n : ℕ) → is_noted set.new n ≡ (is_noted set.old n || index == n)) }
    ensures counted { OnOk result (set.new.count
        ≡ cond (is_noted set.old index) set.old.count (min (set.old.count + 1) usize.MAX)) }
{
    let is_new = if index.saturating_sub(set.marks.len()) >= GAP {
        set.others.insert(index)?
    } else if has_index(set, index) {
        false
    } else {
        mark(&mut set.marks, index)?;
        true
    };
    if is_new {
        set.count = set.count.saturating_add(1);
    }
    Ok(())
}

/// Appends the numbers of a set that are at least `first` to a list, in ascending order. Returns
/// `Err` if an allocation fails.
fn push_from(list: &mut Vec<usize>, set: &BTreeSet<usize>, first: usize) -> Result<(), AllocError>
    ensures kept { OnOk result
        (list.new.items ≡ list.old.items ++ filter (λ n. nat_le first n) set.now.keys) }
    ensures ordered { IsOrdered nat_cmp set.now }
    ensures empty { set.now.keys ≡ [] → IsOk result }
{
    for n in set.iter() {
        if *n >= first {
            list.push(*n)?;
        }
    }
    Ok(())
}

/// Returns the indices of a set from `first` up to `end`, in ascending order. Returns `Err` if an
/// allocation fails.
fn members_between(
    alloc: Global,
    set: &Indices,
    first: usize,
    end: usize,
) -> Result<Vec<usize>, AllocError>
    ensures members { IfOk result
        (λ v. Lists (λ n. (n < end) × ((first ≤ n) × (is_noted set.now n ≡ true))) v.items) }
    ensures empty { end ≡ 0 → IsOk result }
{
    let mut members = Vec::new(alloc);
    for n in first..end {
        if has_index(set, n) {
            members.push(n)?;
        }
    }
    Ok(members)
}

/// Returns the indices of a set that are at least `first`, in ascending order. Returns `Err` if an
/// allocation fails.
pub fn members_from(alloc: Global, set: &Indices, first: usize) -> Result<Vec<usize>, AllocError>
    ensures members { IfOk result
        (λ v. Lists (λ n. (first ≤ n) × (is_noted set.now n ≡ true)) v.items) }
    ensures empty { set.now.marks.items ≡ [] → set.now.others.keys ≡ [] → IsOk result }
{
    let end = set.marks.len();
    let mut members = members_between(alloc, set, first, end)?;
    push_from(&mut members, &set.others, first.max(end))?;
    Ok(members)
}

/// Returns the indices below `end` that are not in a set, in ascending order. Allocates room for
/// `room` indices first, since `end` may be the greatest `usize`, and filling the memory before the
/// failure would take minutes. Returns `Err` if an allocation fails.
pub fn missing_indices(
    alloc: Global,
    set: &Indices,
    end: usize,
    room: usize,
) -> Result<Vec<usize>, AllocError>
    ensures lacked { IfOk result
        (λ v. Lists (λ n. (n < end) × (is_noted set.now n ≡ false)) v.items) }
    ensures empty { end ≡ 0 → room ≡ 0 → IsOk result }
{
    let mut missing_indices = Vec::with_capacity(alloc, room)?;
    for n in 0..end {
        if !has_index(set, n) {
            missing_indices.push(n)?;
        }
    }
    Ok(missing_indices)
}
