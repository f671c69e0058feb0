//! The templates of a call, one after the other.

ghost use Rattle.std.specs.Prelude.{◌≡◌, ◌+◌, ◌<◌, ◌≤◌, ◌^◌, ◌++◌, IfOk, OnOk, length, map};
ghost use Rattle.std.specs.Prelude.{option_map};
ghost use Rattle.std.specs.List.{AllByRecursion};
ghost use Rattle.rustc_parse_format.specs.Views.{seen_snippet};
ghost use Rattle.rustc_parse_format.specs.FaultViews.{seen_fault as seen_text_fault};
ghost use Rattle.rustc_parse_format.specs.World.{hashes};
ghost use Rattle.placeholder_check.specs.Views.{text as seen_text};
ghost use Rattle.text_faults.specs.Texts.{text_fault};
ghost use Rattle.asm_faults.specs.Views.{seen_fault, seen_lookup, seen_template};
ghost use Rattle.asm_faults.specs.Templates.{lookups_from, next_after_template, start};
ghost use Rattle.asm_faults.specs.Templates.{template_fault, template_lookups};

use crate::faults::AsmFault;
use crate::lookups::{Walk, push_pieces};
use rustc_parse_format::{Fault, ParseMode, Parser, Reading, read_all};
use std::alloc::{AllocError, Global};
use text_faults::text_fault;

/// A template of a call.
#[derive(Clone, Copy)]
pub struct Template<'a> {
    /// The text that it stands for.
    pub text: &'a str,
    /// `None` for an ordinary literal, and `Some` of the number of hashes for a raw one.
    pub style: Option<usize>,
    /// The literal as it is in the source, if it is known.
    pub snippet: Option<&'a str>,
}

/// Returns a text as a string. Returns `Err` if an allocation fails.
fn owned_string(alloc: Global, text: Option<&str>) -> Result<Option<String>, AllocError>
    ensures { IfOk result (λ o. seen_snippet o ≡ option_map seen_text text.entry) }
{
    match text {
        None => Ok(None),
        Some(text) => Ok(Some(String::from_str(alloc, text)?)),
    }
}

/// Returns the fault of a template that rustc shows, or `None` if it is in the grammar. Returns
/// `Err` if an allocation fails.
fn fault_of<'a>(alloc: Global, template: Template<'a>) -> Result<Option<Fault<'a>>, AllocError>
    requires { hashes template.style + length template.text.now + 2 < 2 ^ 64 }
    ensures { IfOk result (λ o. option_map seen_text_fault o
        ≡ text_fault (start (seen_template template.entry))) }
{
    let snippet = owned_string(alloc, template.snippet)?;
    let mut parser = Parser::new(
        alloc,
        template.text,
        template.style,
        snippet,
        false,
        ParseMode::InlineAsm,
    )?;
    text_fault(alloc, &mut parser)
}

/// Adds the lookups for the placeholders of a template. Returns `Err` if an allocation fails.
fn push_template<'a>(
    alloc: Global,
    walk: &mut Walk<'a>,
    index: usize,
    template: Template<'a>,
) -> Result<(), AllocError>
    requires fits { hashes template.style + length template.text.now + 2 < 2 ^ 64 }
    requires few { walk.old.next ≤ length walk.old.lookups.items }
    ensures lookups { OnOk result (map seen_lookup walk.new.lookups.items
        ≡ map seen_lookup walk.old.lookups.items
        ++ template_lookups index walk.old.next (seen_template template.entry)) }
    ensures next { OnOk result (walk.new.next
        ≡ next_after_template walk.old.next (seen_template template.entry)) }
    ensures few { OnOk result (walk.new.next ≤ length walk.new.lookups.items) }
{
    let snippet = owned_string(alloc, template.snippet)?;
    let Reading { pieces, parser } = read_all(
        alloc,
        template.text,
        template.style,
        snippet,
        false,
        ParseMode::InlineAsm,
    )?;
    push_pieces(walk, index, &pieces, parser.arg_places())?;
    Ok(())
}

/// Adds the lookups for the placeholders of templates, up to the first that is not in the grammar,
/// and returns its fault, or `None` if there is none. Returns `Err` if an allocation fails.
pub(crate) fn push_templates<'a>(
    alloc: Global,
    walk: &mut Walk<'a>,
    templates: &[Template<'a>],
) -> Result<Option<AsmFault<'a>>, AllocError>
    requires fits { AllByRecursion (λ t. hashes t.style + length t.text.now + 2 < 2 ^ 64)
        templates.now }
    requires few { walk.old.next ≤ length walk.old.lookups.items }
    ensures lookups { OnOk result (map seen_lookup walk.new.lookups.items
        ≡ map seen_lookup walk.old.lookups.items
        ++ lookups_from 0 walk.old.next (map seen_template templates.now)) }
    ensures fault { IfOk result (λ o. option_map seen_fault o
        ≡ template_fault 0 (map seen_template templates.now)) }
{
    for (index, template) in templates.iter().enumerate() {
        if let Some(fault) = fault_of(alloc, *template)? {
            return Ok(Some(AsmFault::Text {
                template: index,
                fault,
            }));
        }
        push_template(alloc, walk, index, *template)?;
    }
    Ok(None)
}
