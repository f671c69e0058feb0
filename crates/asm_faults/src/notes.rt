//! The notes and helps of faults, in rustc's words. A function whose name begins with `push_` or
//! `put_` adds to the end of a list or a text, and returns `Err` if an allocation fails.

ghost use Rattle.std.specs.Prelude.{◌≡◌, ◌++◌, ◌∷◌, [], IfOk, OnOk, chars, encode_utf8_all, map};
ghost use Rattle.std.specs.Prelude.{option_map, string_bytes};
ghost use Rattle.std.specs.List.{slice_get};
ghost use Rattle.rustc_parse_format.specs.Faults.{message};
ghost use Rattle.rustc_parse_format.specs.FaultViews.{seen_fault as seen_text_fault};
ghost use Rattle.placeholder_check.specs.Views.{text};
ghost use Rattle.asm_faults.specs.Notes.{count_text, kind_notes, note};
ghost use Rattle.asm_faults.specs.Notes.{noun, placeholders, reference, text_notes, unused_help};
ghost use Rattle.asm_faults.specs.Notes.{unused_start, wrong_help, wrong_notes};
ghost use Rattle.asm_faults.specs.Views.{seen_note, seen_operand};

use crate::checker::AsmCall;
use crate::faults::{AsmFault, AsmSpot};
use crate::operands::{Operand, operand_at};
use crate::titles::{given_name, put_number};
use rustc_parse_format::Fault;
use std::alloc::{AllocError, Global};

/// A note or a help of a fault.
#[derive(Debug, PartialEq, Drop)]
pub struct AsmNote {
    /// Its text, in rustc's words.
    pub text: String,
    /// The place that it shows. A note without one is a row under the labels, and one with a place
    /// has a drawing of its own.
    pub spot: Option<AsmSpot>,
}

/// Adds a note.
fn push_note(notes: &mut Vec<AsmNote>, text: &str, spot: Option<AsmSpot>) -> Result<(), AllocError>
    ensures { OnOk result (map seen_note notes.new.items
        ≡ map seen_note notes.old.items ++ note text.now spot ∷ []) }
{
    let text = String::from_str(*notes.allocator(), text)?;
    notes.push(AsmNote { text, spot })?;
    Ok(())
}

/// Returns the noun for the operands that an index may mean, of which there are so many.
fn noun(operands: &[Operand<'_>], count: usize) -> &'static str
    ensures { result.now ≡ noun (map seen_operand operands.now) count }
{
    if count == operands.len() {
        "argument"
    } else {
        "positional argument"
    }
}

/// Adds so many operands in words.
fn put_count(out: &mut String, count: usize, word: &str) -> Result<(), AllocError>
    ensures { OnOk result (string_bytes out.new
        ≡ string_bytes out.old ++ count_text count word.now) }
{
    if count == 0 {
        out.push_str("no ")?;
        out.push_str(word)?;
        out.push_str("s were given")?;
        return Ok(());
    }
    if count == 1 {
        out.push_str("there is 1 ")?;
        out.push_str(word)?;
        return Ok(());
    }
    out.push_str("there are ")?;
    put_number(out, count)?;
    out.push_str(" ")?;
    out.push_str(word)?;
    out.push_str("s")?;
    Ok(())
}

/// Adds the note of the operand of an index, if there is one, and an index does not mean it.
#[tactic(auto, unfolding(crate::specs::Notes::kind_notes))]
fn push_kind(
    notes: &mut Vec<AsmNote>,
    index: usize,
    operand: Option<Operand<'_>>,
) -> Result<(), AllocError>
    ensures { OnOk result (map seen_note notes.new.items ≡ map seen_note notes.old.items
        ++ kind_notes index (option_map seen_operand operand.entry)) }
{
    let spot = Some(AsmSpot::Operand(index));
    match operand {
        Some(Operand::Named(_)) => {
            let text = "named arguments cannot be referenced by position";
            push_note(notes, text, spot)?;
        }
        Some(Operand::Register { .. }) => {
            let text = "explicit register arguments cannot be used in the asm template";
            push_note(notes, text, spot)?;
        }
        Some(Operand::Unnamed) | None => {}
    }
    Ok(())
}

/// Returns how many operands an index may mean, in words. Returns `Err` if an allocation fails.
fn count_text(alloc: Global, count: usize, word: &str) -> Result<String, AllocError>
    ensures { IfOk result (λ t. string_bytes t ≡ count_text count word.now) }
{
    let mut text = String::new(alloc);
    put_count(&mut text, count, word)?;
    Ok(text)
}

/// Adds the notes of a wrong index, where an index may mean so many operands.
fn push_wrong(
    alloc: Global,
    notes: &mut Vec<AsmNote>,
    operands: &[Operand<'_>],
    index: usize,
    count: usize,
) -> Result<(), AllocError>
    ensures { OnOk result (map seen_note notes.new.items ≡ map seen_note notes.old.items
        ++ wrong_notes (map seen_operand operands.now) index count) }
{
    let text = count_text(alloc, count, noun(operands, count))?;
    push_note(notes, &text, None)?;
    push_kind(notes, index, operand_at(operands, index))?;
    Ok(())
}

/// Returns the help of a wrong index, or `None` if there is none. Returns `Err` if an allocation
/// fails.
#[tactic(auto, unfolding(crate::specs::Notes::wrong_help))]
fn wrong_help(
    alloc: Global,
    operands: &[Operand<'_>],
    index: usize,
) -> Result<Option<AsmNote>, AllocError>
    ensures { IfOk result (λ o. option_map seen_note o
        ≡ wrong_help index (slice_get (map seen_operand operands.now) index)) }
{
    match operands.get(index) {
        Some(Operand::Register { .. }) => {
            let message = "use the register name directly in the assembly code";
            let text = String::from_str(alloc, message)?;
            let spot = Some(AsmSpot::Operand(index));
            Ok(Some(AsmNote { text, spot }))
        }
        Some(Operand::Unnamed) | Some(Operand::Named(_)) | None => Ok(None),
    }
}

/// Adds the note of a fault of a template, if it has one.
fn push_text(alloc: Global, notes: &mut Vec<AsmNote>, fault: &Fault<'_>) -> Result<(), AllocError>
    ensures { OnOk result (map seen_note notes.new.items ≡ map seen_note notes.old.items
        ++ text_notes (message (seen_text_fault fault.now)).note) }
{
    let error = fault.error(alloc)?;
    if let Some(note) = &error.note {
        push_note(notes, note, None)?;
    }
    Ok(())
}

/// Adds a name.
fn put_name(out: &mut String, name: &str) -> Result<(), AllocError>
    ensures { OnOk result (string_bytes out.new
        ≡ string_bytes out.old ++ encode_utf8_all (chars name.now)) }
{
    out.push_str(name)?;
    Ok(())
}

/// Adds the position of a placeholder for an operand with this name or this index.
fn put_reference(out: &mut String, index: usize, name: Option<&str>) -> Result<(), AllocError>
    ensures { OnOk result (string_bytes out.new ≡ string_bytes out.old
        ++ reference index (option_map text name.entry)) }
{
    match name {
        Some(name) => put_name(out, name),
        None => put_number(out, index),
    }
}

/// Adds placeholders of operands.
fn put_placeholders(
    out: &mut String,
    operands: &[Operand<'_>],
    indices: &[usize],
) -> Result<(), AllocError>
    ensures { OnOk result (string_bytes out.new ≡ string_bytes out.old
        ++ placeholders (map seen_operand operands.now) indices.now) }
{
    let mut rest = indices;
    while let Some((index, others)) = rest.split_first() {
        out.push_str(" {")?;
        put_reference(out, *index, given_name(operands, *index))?;
        out.push_str("}")?;
        rest = others;
    }
    Ok(())
}

/// Returns how the help of so many operands that are not used begins.
#[tactic(auto, unfolding(crate::specs::Notes::unused_start))]
fn unused_start(count: usize) -> &'static str
    ensures { result.now ≡ unused_start count }
{
    if count == 1 {
        "if this argument is intentionally unused, consider using it in an asm comment: `\"/*"
    } else {
        "if these arguments are intentionally unused, consider using them in an asm comment: `\"/*"
    }
}

/// Returns the help of operands that are not used. Returns `Err` if an allocation fails.
fn unused_help(
    alloc: Global,
    operands: &[Operand<'_>],
    unused_indices: &[usize],
) -> Result<AsmNote, AllocError>
    ensures { IfOk result (λ n. seen_note n
        ≡ unused_help (map seen_operand operands.now) unused_indices.now) }
{
    let mut text = String::from_str(alloc, unused_start(unused_indices.len()))?;
    put_placeholders(&mut text, operands, unused_indices)?;
    text.push_str(" */\"`")?;
    Ok(AsmNote { text, spot: None })
}

impl<'a> AsmCall<'a> {
    ghost use Rattle.std.specs.Prelude.{◌≡◌, IfOk, map, option_map};
    ghost use Rattle.asm_faults.specs.Notes.{help, notes};
    ghost use Rattle.asm_faults.specs.Views.{seen_fault, seen_note, seen_operand};

    /// Returns the notes of one of the faults, in rustc's order. Returns `Err` if an allocation
    /// fails.
    #[tactic(auto, unfolding(crate::specs::Notes::notes))]
    pub fn notes(&self, alloc: Global, fault: &AsmFault<'a>) -> Result<Vec<AsmNote>, AllocError>
        ensures { IfOk result (λ v. map seen_note v.items
            ≡ notes (map seen_operand self.now.operands.items) (seen_fault fault.now)) }
    {
        let mut notes = Vec::new(alloc);
        match fault {
            AsmFault::WrongIndex {
                index,
                positional_count,
                ..
            } => {
                push_wrong(alloc, &mut notes, &self.operands, *index, *positional_count)?;
            }
            AsmFault::Text { fault, .. } => push_text(alloc, &mut notes, fault)?,
            AsmFault::PositionalAfter { .. }
            | AsmFault::RepeatedName { .. }
            | AsmFault::RegisterName { .. }
            | AsmFault::MissingName { .. }
            | AsmFault::LongModifier { .. }
            | AsmFault::UnusedOperands(_) => {}
        }
        Ok(notes)
    }

    /// Returns the help of one of the faults, or `None` if it has none. rustc says it after the
    /// notes. Returns `Err` if an allocation fails.
    #[tactic(auto, unfolding(crate::specs::Notes::help))]
    pub fn help(&self, alloc: Global, fault: &AsmFault<'a>) -> Result<Option<AsmNote>, AllocError>
        ensures { IfOk result (λ o. option_map seen_note o
            ≡ help (map seen_operand self.now.operands.items) (seen_fault fault.now)) }
    {
        match fault {
            AsmFault::WrongIndex { index, .. } => wrong_help(alloc, &self.operands, *index),
            AsmFault::UnusedOperands(unused_indices) => {
                let help = unused_help(alloc, &self.operands, unused_indices)?;
                Ok(Some(help))
            }
            AsmFault::PositionalAfter { .. }
            | AsmFault::RepeatedName { .. }
            | AsmFault::RegisterName { .. }
            | AsmFault::MissingName { .. }
            | AsmFault::LongModifier { .. }
            | AsmFault::Text { .. } => Ok(None),
        }
    }
}
