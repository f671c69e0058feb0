//! Tests of what is said of calls, of templates of assembly and of texts of attributes, and of
//! calls whose arguments are inlined.
#![tactic(auto)]

mod asm;
mod calls;
mod inlined;
