//! Tests of `drawn_faults`: the drawings of faults, against those of rustc 1.95.
//!
//! `short_rows`, `line_rows` and `asm_rows` are the tables, `cut_rows` that of lines which are cut,
//! and `coloured_rows` that of drawings in colours; `drawings` draws each row. `misfits` has spans
//! that no parser gives, and `harmless` characters that a terminal obeys. In `memory` an allocation
//! fails. `several` draws diagnostics with several labels, `edits` and `line_edits` helps with
//! edits in one and in several lines, and `coloured` some of both in colours.

#[cfg(test)]
mod asm_rows;
#[cfg(test)]
mod coloured;
#[cfg(test)]
mod coloured_rows;
#[cfg(test)]
mod cut_rows;
#[cfg(test)]
mod drawings;
#[cfg(test)]
mod edits;
#[cfg(test)]
mod harmless;
#[cfg(test)]
mod line_edits;
#[cfg(test)]
mod line_rows;
#[cfg(test)]
mod memory;
#[cfg(test)]
mod misfits;
#[cfg(test)]
mod row;
#[cfg(test)]
mod several;
#[cfg(test)]
mod short_rows;
