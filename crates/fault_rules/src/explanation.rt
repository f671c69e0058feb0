//! The text of a rule.

ghost use Rattle.std.specs.Prelude.{◌≡◌, ◌++◌, OnOk, string_bytes};
ghost use Rattle.fault_rules.specs.Rules.{example_text, explanation_text};

use crate::rules::Rule;
use std::alloc::AllocError;

/// Appends a line that says which example follows, and the example.
fn put_example(out: &mut String, heading: &str, example: &str) -> Result<(), AllocError>
    ensures { OnOk result (string_bytes out.new
        ≡ string_bytes out.old ++ example_text heading.now example.now) }
{
    out.push_str("\n")?;
    out.push_str(heading)?;
    out.push_str(":\n\n    ")?;
    out.push_str(example)?;
    out.push_str("\n")?;
    Ok(())
}

/// Appends the text of a rule: its id and its summary, its explanation, and the example with and
/// without the fault. Returns `Err` if an allocation fails, and a part of the text may then be
/// appended.
pub fn put_explanation(out: &mut String, rule: &Rule) -> Result<(), AllocError>
    ensures { OnOk result (string_bytes out.new
        ≡ string_bytes out.old ++ explanation_text rule.now) }
{
    out.push_str(rule.id)?;
    out.push_str(": ")?;
    out.push_str(rule.summary)?;
    out.push_str("\n\n")?;
    out.push_str(rule.explanation)?;
    out.push_str("\n")?;
    put_example(out, "With the fault", rule.example)?;
    put_example(out, "Without it", rule.correction)?;
    Ok(())
}
