//! Tests of `format_tokens`: a row for each kind of token, and the literals that hold them. The
//! expected values are worked out by hand from the rules of the grammar.

#[cfg(test)]
mod memory;
#[cfg(test)]
mod rows;
#[cfg(test)]
mod sources;
