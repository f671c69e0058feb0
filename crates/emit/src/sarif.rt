//! The form of SARIF 2.1.0. A function whose name begins with `put_` appends to `out`, and returns
//! `Err` if an allocation fails.

ghost use Rattle.std.specs.Prelude.{◌≡◌, ◌++◌, Bool, IfOk, OnOk, codes, false, not, string_bytes};
ghost use Rattle.std.specs.Prelude.{true};
ghost use Rattle.fault_rules.specs.Rules.{explanation_text};
ghost use Rattle.serde_json.specs.Data.{Items, Members, array, item, member, no_items};
ghost use Rattle.emit.specs.Escapes.{uri};
ghost use Rattle.emit.specs.Sarif.{artifact, driver, invocation, location, log_end};
ghost use Rattle.emit.specs.Sarif.{log_json, physical_location, plain_message, region};
ghost use Rattle.emit.specs.Sarif.{result_json};
ghost use Rattle.emit.specs.Sarif.{rule_json, run_end, run_json, tool};
ghost use Rattle.emit.specs.Texts.{array_text, items_of, json_text, object_text};

use crate::escapes::put_uri;
use crate::members::{put_comma, put_count, put_end, put_key, put_text, put_truth};
use crate::message::{Message, Span, level_name};
use fault_rules::{Rule, put_explanation};
use std::alloc::{AllocError, Global};

/// Adds a plain text as a message.
fn put_plain(out: &mut String, text: &str) -> Result<(), AllocError>
    ensures { OnOk result (string_bytes out.new
        ≡ string_bytes out.old ++ json_text (plain_message text.now)) }
{
    put_text(out, false, "text", text)?;
    put_end(out)?;
    Ok(())
}

/// Adds a member with a plain text as a message, after another one.
fn put_plain_member(out: &mut String, key: &str, text: &str) -> Result<(), AllocError>
    ensures { OnOk result ((ms : Members) → string_bytes out.new ++ object_text true ms
        ≡ string_bytes out.old ++ object_text true (member key.now (plain_message text.now) ms)) }
{
    put_key(out, true, key)?;
    put_plain(out, text)?;
    Ok(())
}

/// Adds a region.
fn put_region(out: &mut String, span: &Span<'_>) -> Result<(), AllocError>
    ensures { OnOk result (string_bytes out.new
        ≡ string_bytes out.old ++ json_text (region span.now)) }
{
    put_count(out, false, "startLine", span.start.line)?;
    put_count(out, true, "startColumn", span.start.column)?;
    put_count(out, true, "endLine", span.end.line)?;
    put_count(out, true, "endColumn", span.end.column)?;
    put_end(out)?;
    Ok(())
}

/// Returns a path as a URI. Returns `Err` if an allocation fails.
fn uri_of(alloc: Global, path: &str) -> Result<String, AllocError>
    ensures { IfOk result (λ s. string_bytes s ≡ uri path.now) }
{
    let mut text = String::new(alloc);
    put_uri(&mut text, path)?;
    Ok(text)
}

/// Adds a file.
fn put_artifact(out: &mut String, path: &str) -> Result<(), AllocError>
    ensures { OnOk result (string_bytes out.new
        ≡ string_bytes out.old ++ json_text (artifact path.now)) }
{
    let text = uri_of(*out.allocator(), path)?;
    put_text(out, false, "uri", text.as_str())?;
    put_end(out)?;
    Ok(())
}

/// Adds a range of a file.
fn put_physical(out: &mut String, path: &str, span: &Span<'_>) -> Result<(), AllocError>
    ensures { OnOk result (string_bytes out.new
        ≡ string_bytes out.old ++ json_text (physical_location path.now span.now)) }
{
    put_key(out, false, "artifactLocation")?;
    put_artifact(out, path)?;
    put_key(out, true, "region")?;
    put_region(out, span)?;
    put_end(out)?;
    Ok(())
}

/// Adds a range of a file as a location.
fn put_location(out: &mut String, path: &str, span: &Span<'_>) -> Result<(), AllocError>
    ensures { OnOk result (string_bytes out.new
        ≡ string_bytes out.old ++ json_text (location path.now span.now)) }
{
    put_key(out, false, "physicalLocation")?;
    put_physical(out, path, span)?;
    put_end(out)?;
    Ok(())
}

/// Adds a range of a file as the only location.
fn put_locations(out: &mut String, path: &str, span: &Span<'_>) -> Result<(), AllocError>
    ensures { OnOk result (string_bytes out.new
        ≡ string_bytes out.old ++ json_text (array (item (location path.now span.now) no_items))) }
{
    out.push_str("[")?;
    put_location(out, path, span)?;
    out.push_str("]")?;
    Ok(())
}

/// Adds a message as a result.
fn put_result(out: &mut String, message: &Message<'_>) -> Result<(), AllocError>
    ensures { OnOk result (string_bytes out.new
        ≡ string_bytes out.old ++ json_text (result_json message.now)) }
{
    put_text(out, false, "ruleId", message.id)?;
    put_text(out, true, "level", level_name(message.level))?;
    put_plain_member(out, "message", message.title)?;
    put_key(out, true, "locations")?;
    put_locations(out, message.path, &message.primary)?;
    put_end(out)?;
    Ok(())
}

/// Appends a message as a result of a log. Another result comes before it unless `is_first` is
/// true. Returns `Err` if an allocation fails, and a part of it may then be appended.
pub fn put_sarif_result(
    out: &mut String,
    is_first: bool,
    message: &Message<'_>,
) -> Result<(), AllocError>
    ensures { OnOk result ((more : Items) → string_bytes out.new ++ array_text true more
        ≡ string_bytes out.old ++ array_text (not is_first) (item (result_json message.now) more)) }
{
    put_comma(out, !is_first)?;
    put_result(out, message)?;
    Ok(())
}

/// Returns the text of a rule. Returns `Err` if an allocation fails.
fn explanation(alloc: Global, rule: &Rule) -> Result<String, AllocError>
    ensures { IfOk result (λ s. string_bytes s ≡ explanation_text rule.now) }
{
    let mut text = String::new(alloc);
    put_explanation(&mut text, rule)?;
    Ok(text)
}

/// Adds a rule.
fn put_rule(out: &mut String, rule: &Rule) -> Result<(), AllocError>
    ensures { OnOk result (string_bytes out.new
        ≡ string_bytes out.old ++ json_text (rule_json rule.now)) }
{
    let text = explanation(*out.allocator(), rule)?;
    put_text(out, false, "id", rule.id)?;
    put_plain_member(out, "shortDescription", rule.summary)?;
    put_plain_member(out, "fullDescription", rule.explanation)?;
    put_plain_member(out, "help", text.as_str())?;
    put_end(out)?;
    Ok(())
}

/// Adds rules.
fn put_rules(out: &mut String, rules: &[Rule]) -> Result<(), AllocError>
    ensures { OnOk result (string_bytes out.new
        ≡ string_bytes out.old ++ json_text (array (items_of rule_json rules.now))) }
{
    out.push_str("[")?;
    let mut is_later = false;
    for rule in rules {
        put_comma(out, is_later)?;
        put_rule(out, rule)?;
        is_later = true;
    }
    out.push_str("]")?;
    Ok(())
}

/// Adds the program of this version.
fn put_driver(out: &mut String, version: &str, rules: &[Rule]) -> Result<(), AllocError>
    ensures { OnOk result (string_bytes out.new
        ≡ string_bytes out.old ++ json_text (driver version.now rules.now)) }
{
    put_text(out, false, "name", "formatlint")?;
    put_text(out, true, "version", version)?;
    put_key(out, true, "rules")?;
    put_rules(out, rules)?;
    put_end(out)?;
    Ok(())
}

/// Adds the program as a tool.
fn put_tool(out: &mut String, version: &str, rules: &[Rule]) -> Result<(), AllocError>
    ensures { OnOk result (string_bytes out.new
        ≡ string_bytes out.old ++ json_text (tool version.now rules.now)) }
{
    put_key(out, false, "driver")?;
    put_driver(out, version, rules)?;
    put_end(out)?;
    Ok(())
}

/// Adds the start of a run, up to its results.
fn put_run_start(out: &mut String, version: &str, rules: &[Rule]) -> Result<(), AllocError>
    ensures { OnOk result ((results : Items) (whole : Bool) → string_bytes out.new
        ++ (array_text false results ++ object_text true (run_end whole))
        ≡ string_bytes out.old ++ json_text (run_json version.now rules.now results whole)) }
{
    put_key(out, false, "tool")?;
    put_tool(out, version, rules)?;
    put_text(out, true, "columnKind", "unicodeCodePoints")?;
    put_key(out, true, "results")?;
    out.push_str("[")?;
    Ok(())
}

/// Appends the start of a log, up to its results, which [`put_sarif_result`] appends; after them
/// [`put_sarif_end`] ends it. Returns `Err` if an allocation fails, and a part of it may then be
/// appended.
pub fn put_sarif_start(out: &mut String, version: &str, rules: &[Rule]) -> Result<(), AllocError>
    // With the results and an end it is a log.
    ensures { OnOk result ((results : Items) (whole : Bool)
        → string_bytes out.new ++ (array_text false results ++ log_end whole)
        ≡ string_bytes out.old ++ json_text (log_json version.now rules.now results whole)) }
{
    put_text(
        out,
        false,
        "$schema",
        "https://json.schemastore.org/sarif-2.1.0.json",
    )?;
    put_text(out, true, "version", "2.1.0")?;
    put_key(out, true, "runs")?;
    out.push_str("[")?;
    put_run_start(out, version, rules)?;
    Ok(())
}

/// Adds an invocation: whether the program could read all files.
fn put_invocation(out: &mut String, is_whole: bool) -> Result<(), AllocError>
    ensures { OnOk result (string_bytes out.new
        ≡ string_bytes out.old ++ json_text (invocation is_whole)) }
{
    put_truth(out, false, "executionSuccessful", is_whole)?;
    put_end(out)?;
    Ok(())
}

/// Adds the only invocation: whether the program could read all files.
fn put_invocations(out: &mut String, is_whole: bool) -> Result<(), AllocError>
    ensures { OnOk result (string_bytes out.new
        ≡ string_bytes out.old ++ json_text (array (item (invocation is_whole) no_items))) }
{
    out.push_str("[")?;
    put_invocation(out, is_whole)?;
    out.push_str("]")?;
    Ok(())
}

/// Appends the end of a log, from the end of its results on: whether the program could read all
/// files (`is_whole`), and a line end. Returns `Err` if an allocation fails, and a part of it may
/// then be appended.
pub fn put_sarif_end(out: &mut String, is_whole: bool) -> Result<(), AllocError>
    ensures { OnOk result (string_bytes out.new ≡ string_bytes out.old
        ++ (array_text true no_items ++ (log_end is_whole ++ codes "\n"))) }
{
    out.push_str("]")?;
    put_key(out, true, "invocations")?;
    put_invocations(out, is_whole)?;
    put_end(out)?;
    out.push_str("]")?;
    put_end(out)?;
    out.push_str("\n")?;
    Ok(())
}
