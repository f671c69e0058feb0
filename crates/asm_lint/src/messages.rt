//! The findings in the texts of attributes: their faults, in words and with their places in the
//! file.

ghost use Rattle.std.specs.Prelude.{◌≡◌, ◌++◌, List, IfOk, OnOk, chars, map};
ghost use Rattle.std.specs.List.{All};
ghost use Rattle.message_faults.specs.Diagnostics.{diagnostic};
ghost use Rattle.message_faults.specs.Views.{HasNames, seen_fault};
ghost use Rattle.asm_lint.specs.Attributes.{ReadsText, TellMessages};
ghost use Rattle.asm_lint.specs.Findings.{said, said_by};
ghost use Rattle.asm_lint.specs.Spans.{HasSpans};
ghost use Rattle.asm_lint.specs.Literals.{without_crs};
ghost use Rattle.source_report.specs.declared.report.Finding.{Finding as FindingValue};

use crate::literals::{dropped_crs, read_literal};
use crate::placing::finding_of;
use crate::spans::Site;
use message_faults::{Message, MessageFault, message_faults};
use rust_trees::Token;
use source_report::Finding;
use std::alloc::{AllocError, Global};
use std::collections::BTreeSet;

/// A trait that an attribute stands before.
#[derive(Clone, Copy)]
pub struct Item<'s, 'a> {
    /// Its name.
    pub name: &'a str,
    /// Its parameters that are types or constants.
    pub parameters: &'s [&'a str],
    /// The set of their names.
    pub names: &'s BTreeSet<&'a str>,
}

/// Returns the finding of a fault, for a trait of this name. Returns `Err` if an allocation fails.
fn finding(
    alloc: Global,
    site: Site<'_, '_>,
    name: &str,
    fault: &MessageFault<'_>,
) -> Result<Finding, AllocError>
    ensures said { IfOk result (λ x. said x
        ≡ said_by (diagnostic (chars name.now) (seen_fault fault.now))) }
    ensures spans { IfOk result (λ x. HasSpans site.entry.text.now x) }
{
    let diagnostic = fault.diagnostic(alloc, name)?;
    finding_of(alloc, site, diagnostic)
}

/// Adds the findings of faults, for a trait of this name. Returns `Err` if an allocation fails.
fn put_findings(
    alloc: Global,
    findings: &mut Vec<Finding>,
    site: Site<'_, '_>,
    name: &str,
    faults: &[MessageFault<'_>],
) -> Result<(), AllocError>
    ensures outcome { OnOk result ((xs : List FindingValue)
        × (findings.new.items ≡ findings.old.items ++ xs)
        × TellMessages (chars name.now) (map seen_fault faults.now) xs) }
    ensures spans { OnOk result (All (HasSpans site.entry.text.now) findings.old.items
        → All (HasSpans site.entry.text.now) findings.new.items) }
{
    for fault in faults {
        findings.push(finding(alloc, site, name, fault)?)?;
    }
    Ok(())
}

/// Reads the text that a literal stands for, before a trait, and adds its findings. Returns `Err`
/// if an allocation fails.
pub fn read_text<'a>(
    alloc: Global,
    findings: &mut Vec<Finding>,
    text: &'a str,
    item: Item<'_, '_>,
    token: &Token<'a>,
) -> Result<(), AllocError>
    requires { HasNames (map (λ p. p.now) item.parameters.now) item.names.now }
    ensures read { OnOk result ((xs : List FindingValue)
        × (findings.new.items ≡ findings.old.items ++ xs)
        × ReadsText (chars item.entry.name.now) (map (λ p. p.now) item.entry.parameters.now)
        (without_crs (chars token.now.text.now)) xs) }
    ensures spans { OnOk result (All (HasSpans text.now) findings.old.items
        → All (HasSpans text.now) findings.new.items) }
{
    let Some(literal) = read_literal(alloc, token.text, false)? else {
        return Ok(());
    };
    let crs = dropped_crs(alloc, token.text)?;
    let site = Site {
        text,
        tokens: &[],
        literal: *token,
        crs: &crs,
        arguments: &[],
        name: 0,
        close: 0,
    };
    let message = Message {
        text: literal.text.as_str(),
        snippet: Some(literal.snippet.as_str()),
        parameters: Some(item.names),
    };
    let faults = message_faults(alloc, message)?;
    put_findings(alloc, findings, site, item.name, &faults)?;
    Ok(())
}
