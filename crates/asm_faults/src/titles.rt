//! The ids and the titles of faults, in rustc's words. A function whose name begins with `put_`
//! appends to `out`, and returns `Err` if an allocation fails.

ghost use Rattle.std.specs.Prelude.{◌≡◌, ◌++◌, OnOk, chars, codes, decimal, map, option_map};
ghost use Rattle.std.specs.Prelude.{string_bytes};
ghost use Rattle.std.specs.List.{slice_get};
ghost use Rattle.rustc_parse_format.specs.Faults.{message};
ghost use Rattle.rustc_parse_format.specs.FaultViews.{seen_fault as seen_text_fault};
ghost use Rattle.text_faults.specs.Words.{quoted_name};
ghost use Rattle.asm_faults.specs.Views.{seen_fault, seen_operand};
ghost use Rattle.placeholder_check.specs.Views.{text};
ghost use Rattle.asm_faults.specs.Words.{asm_id, given_name, name_of, never_used, title};
ghost use Rattle.asm_faults.specs.Words.{unused_title};

use crate::checker::AsmCall;
use crate::faults::AsmFault;
use crate::operands::Operand;
use itoa::Buffer;
use rustc_parse_format::Fault;
use std::alloc::{AllocError, Global};

impl AsmFault<'_> {
    ghost use Rattle.std.specs.Prelude.{◌≡◌};
    ghost use Rattle.asm_faults.specs.Views.{seen_fault};
    ghost use Rattle.asm_faults.specs.Words.{asm_id};

    /// Returns the id of the fault in kebab case, as `wrong-operand`: the same for all faults of a
    /// kind. A fault of a template has the id of its [`Fault`]. Does not allocate.
    #[tactic(auto, unfolding(crate::specs::Words::asm_id))]
    pub fn id(&self) -> &'static str
        ensures { result.now ≡ asm_id (seen_fault self.now) }
    {
        match self {
            AsmFault::PositionalAfter { .. } => "operand-order",
            AsmFault::RepeatedName { .. } => "repeated-name",
            AsmFault::RegisterName { .. } => "register-name",
            AsmFault::WrongIndex { .. } => "wrong-operand",
            AsmFault::MissingName { .. } => "missing-name",
            AsmFault::LongModifier { .. } => "long-modifier",
            AsmFault::Text { fault, .. } => fault.id(),
            AsmFault::UnusedOperands(_) => "unused-argument",
        }
    }
}

/// Adds a number in decimal digits.
pub(crate) fn put_number(out: &mut String, number: usize) -> Result<(), AllocError>
    ensures { OnOk result (string_bytes out.new ≡ string_bytes out.old ++ decimal number) }
{
    let mut digits = Buffer::new();
    out.push_str(digits.format(number))?;
    Ok(())
}

/// Adds a text and a name between backquotes.
fn put_named(out: &mut String, text: &str, name: &str) -> Result<(), AllocError>
    ensures { OnOk result (string_bytes out.new
        ≡ string_bytes out.old ++ (text.now ++ quoted_name (chars name.now))) }
{
    out.push_str(text)?;
    out.push_str("`")?;
    out.push_str(name)?;
    out.push_str("`")?;
    Ok(())
}

/// Returns the name of an operand, or `None` if it has none or a register of its own.
pub(crate) fn given_name<'a>(operands: &[Operand<'a>], index: usize) -> Option<&'a str>
    ensures { option_map text result
        ≡ given_name (slice_get (map seen_operand operands.now) index) }
{
    match operands.get(index) {
        Some(Operand::Named(name)) => Some(*name),
        Some(Operand::Unnamed) | Some(Operand::Register { .. }) | None => None,
    }
}

/// Returns the name of an operand, or an empty text if it has none.
fn name_of<'a>(operands: &[Operand<'a>], index: usize) -> &'a str
    ensures { chars result.now ≡ name_of (slice_get (map seen_operand operands.now) index) }
{
    match given_name(operands, index) {
        Some(name) => name,
        None => "",
    }
}

/// Returns the label of an operand that is not used.
pub(crate) fn never_used(operands: &[Operand<'_>], index: usize) -> &'static str
    ensures { result.now ≡ never_used (slice_get (map seen_operand operands.now) index) }
{
    match operands.get(index) {
        Some(Operand::Named(_)) => "named argument never used",
        Some(Operand::Unnamed) | Some(Operand::Register { .. }) | None => "argument never used",
    }
}

/// Returns the title of operands that are not used.
fn unused_title(operands: &[Operand<'_>], unused_indices: &[usize]) -> &'static str
    ensures { result.now ≡ unused_title (map seen_operand operands.now) unused_indices.now }
{
    match unused_indices {
        [index] => never_used(operands, *index),
        _ => "multiple unused asm arguments",
    }
}

/// Adds the title of a fault of a template.
fn put_text_title(alloc: Global, out: &mut String, fault: &Fault<'_>) -> Result<(), AllocError>
    ensures { OnOk result (string_bytes out.new ≡ string_bytes out.old
        ++ (codes "invalid asm template string: "
        ++ (message (seen_text_fault fault.now)).description)) }
{
    let error = fault.error(alloc)?;
    out.push_str("invalid asm template string: ")?;
    out.push_str(&error.description)?;
    Ok(())
}

/// Adds the title of a wrong index.
fn put_index_title(out: &mut String, index: usize) -> Result<(), AllocError>
    ensures { OnOk result (string_bytes out.new ≡ string_bytes out.old
        ++ (codes "invalid reference to argument at index " ++ decimal index)) }
{
    out.push_str("invalid reference to argument at index ")?;
    put_number(out, index)?;
    Ok(())
}

impl<'a> AsmCall<'a> {
    ghost use Rattle.std.specs.Prelude.{◌≡◌, ◌++◌, OnOk, map, string_bytes};
    ghost use Rattle.asm_faults.specs.Views.{seen_fault, seen_operand};
    ghost use Rattle.asm_faults.specs.Words.{title};

    /// Adds the title of one of the faults to the end of `out`, as rustc has it. Returns `Err` if
    /// an allocation fails; a part may then be at the end of `out`.
    #[tactic(auto, unfolding(crate::specs::Words::title))]
    pub fn put_title(&self, out: &mut String, fault: &AsmFault<'a>) -> Result<(), AllocError>
        ensures { OnOk result (string_bytes out.new ≡ string_bytes out.old
            ++ title (map seen_operand self.now.operands.items) (seen_fault fault.now)) }
    {
        match fault {
            AsmFault::PositionalAfter { .. } => {
                out.push_str(
                    "positional arguments cannot follow named arguments or explicit register \
                     arguments",
                )?;
                Ok(())
            }
            AsmFault::RepeatedName { first_operand, .. } => {
                put_named(
                    out,
                    "duplicate argument named ",
                    name_of(&self.operands, *first_operand),
                )
            }
            AsmFault::RegisterName { .. } => {
                out.push_str("explicit register arguments cannot have names")?;
                Ok(())
            }
            AsmFault::WrongIndex { index, .. } => put_index_title(out, *index),
            AsmFault::MissingName { name, .. } => {
                put_named(out, "there is no argument named ", name)?;
                Ok(())
            }
            AsmFault::LongModifier { .. } => {
                out.push_str("asm template modifier must be a single character")?;
                Ok(())
            }
            AsmFault::Text { fault, .. } => { put_text_title(*self.faults.allocator(), out, fault) }
            AsmFault::UnusedOperands(unused_indices) => {
                out.push_str(unused_title(&self.operands, unused_indices))?;
                Ok(())
            }
        }
    }
}
