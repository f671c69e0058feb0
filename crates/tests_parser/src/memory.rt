//! Tests of calls of the library in which an allocation fails and which are made again.
//!
//! Each test passes whether or not an allocation fails. If a call returns an allocation failure,
//! the test prints a line `refused`; nothing has changed, and the same call then returns what the
//! row says. `.ci/refusals` runs each test with its first allocation failing, then with its second,
//! and so on.
//!
//! `rows` is the table of what is read, and `walks`, `taken`, `faults`, `items` and `whole` are the
//! ways to read it. `spare` has the calls that do not allocate, which are made before each other
//! call and after each allocation failure. `escape` is about the first allocation after that of a
//! snippet, `contents` and `copies` about the calls that read nothing. The tests themselves do not
//! allocate, except for snippets, for the errors of faults and for one allocation after calls that
//! make none: `sheet` keeps text without any, and `listing` writes on it.

#[cfg(test)]
mod contents;
#[cfg(test)]
mod copies;
#[cfg(test)]
mod escape;
#[cfg(test)]
mod faults;
#[cfg(test)]
mod items;
#[cfg(test)]
mod listing;
#[cfg(test)]
mod rows;
#[cfg(test)]
mod sheet;
#[cfg(test)]
mod spare;
#[cfg(test)]
mod start;
#[cfg(test)]
mod taken;
#[cfg(test)]
mod walks;
#[cfg(test)]
mod whole;
