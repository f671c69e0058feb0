//! The labels of faults, in rustc's words. A function whose name begins with `push_` adds to the
//! end of `labels`, and returns `Err` if an allocation fails.

ghost use Rattle.std.specs.Prelude.{◌≡◌, ◌++◌, ◌∷◌, [], IfOk, OnOk, codes, map, option_map};
ghost use Rattle.std.specs.Prelude.{string_bytes};
ghost use Rattle.std.specs.List.{slice_get};
ghost use Rattle.rustc_parse_format.specs.Faults.{message};
ghost use Rattle.rustc_parse_format.specs.Views.{seen_error};
ghost use Rattle.rustc_parse_format.specs.FaultViews.{seen_fault as seen_text_fault};
ghost use Rattle.asm_faults.specs.Labels.{kind_at, kind_label, kinds_at, label, late_labels};
ghost use Rattle.asm_faults.specs.Labels.{second_labels, text_labels, unused_labels, wrong_labels};
ghost use Rattle.asm_faults.specs.Views.{seen_label, seen_operand};

use crate::checker::AsmCall;
use crate::faults::{AsmFault, AsmSpot};
use crate::lookups::bytes_at;
use crate::operands::{Operand, operand_at};
use crate::titles::never_used;
use rustc_parse_format::{Fault, ParseError};
use std::alloc::{AllocError, Global};

/// A label under the source of a call.
#[derive(Debug, PartialEq, Drop)]
pub struct AsmLabel {
    /// Where it is.
    pub spot: AsmSpot,
    /// Whether the fault is about this place: it has the sign `^`, and the others have `-`.
    pub is_primary: bool,
    /// Its text, in rustc's words, or an empty one.
    pub text: String,
}

/// Adds a label.
fn push_label(
    labels: &mut Vec<AsmLabel>,
    spot: AsmSpot,
    is_primary: bool,
    text: &str,
) -> Result<(), AllocError>
    ensures { OnOk result (map seen_label labels.new.items
        ≡ map seen_label labels.old.items ++ label spot is_primary text.now ∷ []) }
{
    let text = String::from_str(*labels.allocator(), text)?;
    labels.push(AsmLabel {
        spot,
        is_primary,
        text,
    })?;
    Ok(())
}

/// Adds the label of an operand that an index does not mean.
fn push_kind(
    labels: &mut Vec<AsmLabel>,
    index: usize,
    operand: &Operand<'_>,
) -> Result<(), AllocError>
    ensures { OnOk result (map seen_label labels.new.items
        ≡ map seen_label labels.old.items ++ kind_label index (seen_operand operand.now)) }
{
    let spot = AsmSpot::Operand(index);
    match operand {
        Operand::Unnamed => {}
        Operand::Named(_) => push_label(labels, spot, false, "named argument")?,
        Operand::Register { .. } => push_label(labels, spot, false, "explicit register argument")?,
    }
    Ok(())
}

/// Adds the label of the operand of an index, if there is one, and an index does not mean it.
fn push_kind_at(
    labels: &mut Vec<AsmLabel>,
    index: usize,
    operand: Option<Operand<'_>>,
) -> Result<(), AllocError>
    ensures { OnOk result (map seen_label labels.new.items ≡ map seen_label labels.old.items
        ++ kind_at index (option_map seen_operand operand.entry)) }
{
    if let Some(operand) = operand {
        push_kind(labels, index, &operand)?;
    }
    Ok(())
}

/// Adds the labels of the operands of these indices that an index does not mean.
fn push_kinds(
    labels: &mut Vec<AsmLabel>,
    operands: &[Operand<'_>],
    indices: &[usize],
) -> Result<(), AllocError>
    ensures { OnOk result (map seen_label labels.new.items ≡ map seen_label labels.old.items
        ++ kinds_at (map seen_operand operands.now) indices.now) }
{
    let mut rest = indices;
    while let Some((index, others)) = rest.split_first() {
        push_kind_at(labels, *index, operand_at(operands, *index))?;
        rest = others;
    }
    Ok(())
}

/// Adds the labels of an operand without a name, which stands after these others.
fn push_late(
    labels: &mut Vec<AsmLabel>,
    operands: &[Operand<'_>],
    index: usize,
    earlier_operands: &[usize],
) -> Result<(), AllocError>
    ensures { OnOk result (map seen_label labels.new.items ≡ map seen_label labels.old.items
        ++ late_labels (map seen_operand operands.now) index earlier_operands.now) }
{
    push_label(labels, AsmSpot::Operand(index), true, "positional argument")?;
    push_kinds(labels, operands, earlier_operands)?;
    Ok(())
}

/// Adds the labels of a wrong index of the placeholder at `spot`.
fn push_wrong(
    labels: &mut Vec<AsmLabel>,
    operands: &[Operand<'_>],
    spot: AsmSpot,
    index: usize,
) -> Result<(), AllocError>
    ensures { OnOk result (map seen_label labels.new.items ≡ map seen_label labels.old.items
        ++ wrong_labels spot index (slice_get (map seen_operand operands.now) index)) }
{
    push_label(labels, spot, true, "from here")?;
    push_kind_at(labels, index, operand_at(operands, index))?;
    Ok(())
}

/// Adds the label of the second range of an error of a template, if it has one.
fn push_second(
    labels: &mut Vec<AsmLabel>,
    template: usize,
    error: &ParseError,
) -> Result<(), AllocError>
    ensures { OnOk result (map seen_label labels.new.items ≡ map seen_label labels.old.items
        ++ second_labels template (seen_error error.now).span (seen_error error.now).second) }
{
    if let Some((text, span)) = &error.secondary_label {
        let is_same = span.start == error.span.start && span.end == error.span.end;
        push_label(labels, bytes_at(template, span), is_same, text)?;
    }
    Ok(())
}

/// Returns the text of the place of an error of a template. Returns `Err` if an allocation
/// fails.
fn error_text(alloc: Global, error: &ParseError) -> Result<String, AllocError>
    ensures { IfOk result (λ t. string_bytes t
        ≡ (seen_error error.now).label ++ codes " in asm template string") }
{
    let mut text = String::from_str(alloc, &error.label)?;
    text.push_str(" in asm template string")?;
    Ok(text)
}

/// Adds the labels of an error of a template.
#[tactic(auto, using(std::proofs::Common::append_assoc))]
fn push_error(
    alloc: Global,
    labels: &mut Vec<AsmLabel>,
    template: usize,
    error: &ParseError,
) -> Result<(), AllocError>
    ensures { OnOk result (map seen_label labels.new.items ≡ map seen_label labels.old.items
        ++ text_labels template (seen_error error.now)) }
{
    let text = error_text(alloc, error)?;
    push_label(labels, bytes_at(template, &error.span), true, &text)?;
    push_second(labels, template, error)?;
    Ok(())
}

/// Adds the labels of a fault of a template.
fn push_text(
    alloc: Global,
    labels: &mut Vec<AsmLabel>,
    template: usize,
    fault: &Fault<'_>,
) -> Result<(), AllocError>
    ensures { OnOk result (map seen_label labels.new.items ≡ map seen_label labels.old.items
        ++ text_labels template (message (seen_text_fault fault.now))) }
{
    let error = fault.error(alloc)?;
    push_error(alloc, labels, template, &error)?;
    Ok(())
}

/// Adds the labels of operands that are not used.
fn push_unused(
    labels: &mut Vec<AsmLabel>,
    operands: &[Operand<'_>],
    unused_indices: &[usize],
) -> Result<(), AllocError>
    ensures { OnOk result (map seen_label labels.new.items ≡ map seen_label labels.old.items
        ++ unused_labels (map seen_operand operands.now) unused_indices.now) }
{
    let mut rest = unused_indices;
    while let Some((index, others)) = rest.split_first() {
        let text = never_used(operands, *index);
        push_label(labels, AsmSpot::Operand(*index), true, text)?;
        rest = others;
    }
    Ok(())
}

impl<'a> AsmCall<'a> {
    ghost use Rattle.std.specs.Prelude.{◌≡◌, IfOk, map};
    ghost use Rattle.asm_faults.specs.Labels.{labels};
    ghost use Rattle.asm_faults.specs.Views.{seen_fault, seen_label, seen_operand};

    /// Returns the labels of one of the faults, in rustc's order. Returns `Err` if an allocation
    /// fails.
    #[tactic(auto, unfolding(crate::specs::Labels::labels))]
    pub fn labels(&self, alloc: Global, fault: &AsmFault<'a>) -> Result<Vec<AsmLabel>, AllocError>
        ensures { IfOk result (λ v. map seen_label v.items
            ≡ labels (map seen_operand self.now.operands.items) (seen_fault fault.now)) }
    {
        let mut labels = Vec::new(alloc);
        match fault {
            AsmFault::PositionalAfter {
                operand,
                earlier_operands,
            } => {
                push_late(&mut labels, &self.operands, *operand, earlier_operands)?;
            }
            AsmFault::RepeatedName {
                operand,
                first_operand,
            } => {
                let spot = AsmSpot::Operand(*operand);
                push_label(&mut labels, spot, true, "duplicate argument")?;
                let spot = AsmSpot::Operand(*first_operand);
                push_label(&mut labels, spot, false, "previously here")?;
            }
            AsmFault::RegisterName { operand } => {
                push_label(&mut labels, AsmSpot::Operand(*operand), true, "")?;
            }
            AsmFault::WrongIndex { spot, index, .. } => {
                push_wrong(&mut labels, &self.operands, *spot, *index)?;
            }
            AsmFault::MissingName { spot, .. } | AsmFault::LongModifier { spot } => {
                push_label(&mut labels, *spot, true, "")?;
            }
            AsmFault::Text { template, fault } => {
                push_text(alloc, &mut labels, *template, fault)?;
            }
            AsmFault::UnusedOperands(unused_indices) => {
                push_unused(&mut labels, &self.operands, unused_indices)?;
            }
        }
        Ok(labels)
    }
}
