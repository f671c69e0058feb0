//! Tests of `asm_faults` and `message_faults`: their words for calls and for texts of attributes,
//! beside those of rustc 1.95.

mod operand_rows;
mod reference_rows;
mod rows;
mod template_rows;
#[cfg(test)]
mod tests;
mod text_rows;
#[cfg(test)]
mod texts;
