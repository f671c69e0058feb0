//! Tests of the library by the values that its calls take and return, where the tables and scripts
//! of `library_rows` show too little, and of `placeholder_check`.
//!
//! `values` has the exported names, `pieces` the pieces themselves, `ends` where a text ends,
//! `faults` very many errors, `literals` the calls that read literals without a parser, and
//! `reports` the reports of `placeholder_check` on texts.

#[cfg(test)]
mod ends;
#[cfg(test)]
mod faults;
#[cfg(test)]
mod literals;
#[cfg(test)]
mod pieces;
#[cfg(test)]
mod reports;
#[cfg(test)]
mod values;
