//! The faults of templates of inline assembly and of the operands of their call, as rustc reports
//! them.
#![tactic(auto)]

mod checker;
mod comparison;
mod faults;
mod labels;
mod lookups;
mod notes;
mod operands;
mod templates;
mod titles;

pub use checker::{AsmCall, asm_faults};
pub use faults::{AsmFault, AsmSpot};
pub use labels::AsmLabel;
pub use notes::AsmNote;
pub use operands::Operand;
pub use templates::Template;
