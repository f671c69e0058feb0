//! Tests of what the suggestions make of a literal. The expected results were worked out by hand
//! from the rules of the suggestions.

#[cfg(test)]
mod fixes;
#[cfg(test)]
mod memory;
