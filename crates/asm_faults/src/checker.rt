//! The check of a call.

ghost use Rattle.std.specs.Prelude.{◌≡◌, ◌+◌, ◌<◌, ◌^◌, ◌++◌, [], List, IfOk, OnOk, length, map};
ghost use Rattle.std.specs.List.{AllByRecursion};
ghost use Rattle.rustc_parse_format.specs.World.{hashes};
ghost use Rattle.asm_faults.specs.Calls.{asm_faults, comparison_faults};
ghost use Rattle.asm_faults.specs.Operands.{Operand as OperandValue, slots_after};
ghost use Rattle.asm_faults.specs.Views.{Holds, seen_fault, seen_operand, seen_template};
ghost use Rattle.asm_faults.specs.Templates.{lookups_from, template_fault};

use crate::comparison::{check_unused, look_up};
use crate::faults::AsmFault;
use crate::lookups::Walk;
use crate::operands::{Operand, Operands, operands_of};
use crate::templates::{Template, push_templates};
use std::alloc::{AllocError, Global};

/// A call that was checked.
#[derive(Drop)]
pub struct AsmCall<'a> {
    /// The operands that are given, of which those whose name is that of an earlier one count as
    /// unnamed.
    pub operands: Vec<Operand<'a>>,
    /// The faults, in the order in which rustc reports them.
    pub faults: Vec<AsmFault<'a>>,
}

/// Adds the faults of templates and operands. Returns `Err` if an allocation fails.
fn compare<'a>(
    alloc: Global,
    faults: &mut Vec<AsmFault<'a>>,
    templates: &[Template<'a>],
    operands: &Operands<'a>,
) -> Result<(), AllocError>
    requires { AllByRecursion (λ t. hashes t.style + length t.text.now + 2 < 2 ^ 64)
        templates.now }
    ensures { OnOk result ((ss : List OperandValue) → Holds ss operands.now
        → map seen_fault faults.new.items ≡ map seen_fault faults.old.items
        ++ comparison_faults ss (lookups_from 0 0 (map seen_template templates.now))
        (template_fault 0 (map seen_template templates.now))) }
{
    let mut walk = Walk {
        lookups: Vec::new(alloc),
        next: 0,
    };
    let fault = push_templates(alloc, &mut walk, templates)?;
    look_up(faults, operands, &walk.lookups)?;
    match fault {
        Some(fault) => faults.push(fault)?,
        None => check_unused(alloc, faults, operands, &walk.lookups)?,
    }
    Ok(())
}

/// Checks a call of a macro for inline assembly, as `asm!`: reads its templates, compares their
/// placeholders with the operands that are given, in the order of the source, and returns the
/// faults, as rustc reports them. Placeholders without a position count through all templates.
///
/// With `options(raw)` the templates have no placeholders, so none is to be given here. For each
/// template the number of hashes, the length of the text in bytes, and 2 must together fit into a
/// `usize`. Returns `Err` if an allocation fails.
pub fn asm_faults<'a>(
    alloc: Global,
    templates: &[Template<'a>],
    operands: &[Operand<'a>],
) -> Result<AsmCall<'a>, AllocError>
    requires { AllByRecursion (λ t. hashes t.style + length t.text.now + 2 < 2 ^ 64)
        templates.now }
    ensures operands { IfOk result (λ x. map seen_operand x.operands.items
        ≡ slots_after [] (map seen_operand operands.now)) }
    ensures faults { IfOk result (λ x. map seen_fault x.faults.items
        ≡ asm_faults (map seen_template templates.now) (map seen_operand operands.now)) }
{
    let mut faults = Vec::new(alloc);
    let operands = operands_of(alloc, &mut faults, operands)?;
    compare(alloc, &mut faults, templates, &operands)?;
    Ok(AsmCall {
        operands: operands.slots,
        faults,
    })
}
