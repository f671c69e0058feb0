//! Tests of `run` of `format_lint` with readers and writers: the output for literals and texts,
//! with each kind of token, and the result after a failing stream or allocation. The expected
//! values are worked out by hand from the rules of the grammar and of rustc's drawings.

#[cfg(test)]
mod memory;
#[cfg(test)]
mod rows;
#[cfg(test)]
mod streams;
