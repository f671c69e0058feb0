//! Tests of `call_faults`: its words for calls, beside those of rustc 1.95.

mod missing_rows;
mod name_rows;
mod rows;
#[cfg(test)]
mod shown;
mod shown_rows;
mod string_rows;
#[cfg(test)]
mod tests;
mod unused_rows;
