//! Calls that are checked, and the words for their faults.

use super::operand_rows::OPERANDS;
use super::reference_rows::REFERENCES;
use super::template_rows::TEMPLATES;
use asm_faults::{AsmCall, AsmFault, AsmLabel, AsmNote, AsmSpot, Operand, Template, asm_faults};
use std::alloc::{AllocError, Global};
use std::test::Fail;

/// The arguments of a call, and the byte ranges where they are.
#[derive(Drop)]
struct Parts<'a> {
    templates: Vec<Template<'a>>,
    operands: Vec<Operand<'a>>,
    /// The start of each template.
    template_starts: Vec<usize>,
    /// The start of each operand, and after it its end.
    operand_ends: Vec<(usize, usize)>,
}

/// Returns the operand that an argument is.
fn operand(argument: &str) -> Operand<'_> {
    let name = argument.split_once(" = ").map(|(name, _)| name);
    if argument.contains("(\"") {
        let has_name = name.is_some();
        return Operand::Register { has_name };
    }
    match name {
        Some(name) => Operand::Named(name.strip_prefix("r#").unwrap_or(name)),
        None => Operand::Unnamed,
    }
}

/// Returns the arguments of a call.
fn parts_of<'a>(alloc: Global, call: &'a str) -> Result<Parts<'a>, AllocError> {
    let mut found = Parts {
        templates: Vec::new(alloc),
        operands: Vec::new(alloc),
        template_starts: Vec::new(alloc),
        operand_ends: Vec::new(alloc),
    };
    let mut at = 0;
    for argument in call.split(", ") {
        if argument.starts_with('"') {
            found.templates.push(Template {
                text: &argument[1..argument.len() - 1],
                style: None,
                snippet: Some(argument),
            })?;
            found.template_starts.push(at)?;
        } else {
            found.operands.push(operand(argument))?;
            found.operand_ends.push((at, at + argument.len()))?;
        }
        at += argument.len() + 2;
    }
    Ok(found)
}

/// Adds a place as a byte range.
fn put_spot(out: &mut String, parts: &Parts<'_>, spot: AsmSpot) -> Result<(), AllocError> {
    let (start, end) = match spot {
        AsmSpot::Operand(index) => parts.operand_ends[index],
        AsmSpot::Template(index) => {
            let start = parts.template_starts[index];
            (start, start + parts.templates[index].text.len() + 2)
        }
        AsmSpot::Bytes {
            template,
            start,
            end,
        } => {
            let from = parts.template_starts[template];
            (from + start, from + end)
        }
    };
    write!(out, "{start}..{end}")?;
    Ok(())
}

/// Adds the lines of labels, sorted.
fn put_labels(out: &mut String, parts: &Parts<'_>, labels: &[AsmLabel]) -> Result<(), AllocError> {
    let alloc = *out.allocator();
    let mut lines = Vec::new(alloc);
    for label in labels {
        let mut line = String::new(alloc);
        line.push(if label.is_primary { '^' } else { '-' })?;
        put_spot(&mut line, parts, label.spot)?;
        write!(&mut line, " {}\n", label.text)?;
        lines.push(line)?;
    }
    lines.sort()?;
    for line in &lines {
        out.push_str(line)?;
    }
    Ok(())
}

/// Adds a note or a help, after this sign.
fn put_note(
    out: &mut String,
    parts: &Parts<'_>,
    sign: &str,
    note: &AsmNote,
) -> Result<(), AllocError> {
    out.push_str(sign)?;
    out.push_str(&note.text)?;
    if let Some(spot) = note.spot {
        out.push(' ')?;
        put_spot(out, parts, spot)?;
    }
    out.push('\n')?;
    Ok(())
}

/// Adds the words for a fault.
fn put_fault<'a>(
    out: &mut String,
    parts: &Parts<'_>,
    call: &AsmCall<'a>,
    fault: &AsmFault<'a>,
) -> Result<(), AllocError> {
    let alloc = *out.allocator();
    call.put_title(out, fault)?;
    out.push('\n')?;
    put_labels(out, parts, &call.labels(alloc, fault)?)?;
    for note in &call.notes(alloc, fault)? {
        put_note(out, parts, "= ", note)?;
    }
    if let Some(help) = &call.help(alloc, fault)? {
        put_note(out, parts, "? ", help)?;
    }
    Ok(())
}

/// Returns the words for a call.
fn output_of(alloc: Global, call: &str) -> Result<String, AllocError> {
    let parts = parts_of(alloc, call)?;
    let report = asm_faults(alloc, &parts.templates, &parts.operands)?;
    let mut out = String::new(alloc);
    for fault in &report.faults {
        put_fault(&mut out, &parts, &report, fault)?;
    }
    Ok(out)
}

/// Returns the ids of the faults of a call, each on a line.
fn ids(alloc: Global, call: &str) -> Result<String, AllocError> {
    let parts = parts_of(alloc, call)?;
    let mut out = String::new(alloc);
    for fault in &asm_faults(alloc, &parts.templates, &parts.operands)?.faults {
        if !out.is_empty() {
            out.push('\n')?;
        }
        out.push_str(fault.id())?;
    }
    Ok(out)
}

#[test]
fn calls_are_as_rustc_says(rt: HostRuntime) -> Result<(), Fail> {
    let alloc = rt.alloc();
    for rows in [REFERENCES, OPERANDS, TEMPLATES] {
        for row in rows {
            let output = output_of(alloc, row.call)?;
            assert_eq!(&rt; output.as_str(), row.output, "{}", row.call);
        }
    }
    Ok(())
}

/// Every eighth row, since each of their requests for memory is refused once.
#[test]
fn calls_out_of_memory_are_said_again(rt: HostRuntime) -> Result<(), Fail> {
    let alloc = rt.alloc();
    for rows in [REFERENCES, OPERANDS, TEMPLATES] {
        for (index, row) in rows.iter().enumerate() {
            if index % 8 != 0 {
                continue;
            }
            let output = match output_of(alloc, row.call) {
                Ok(output) => output,
                Err(_) => {
                    println!(rt; "refused")?;
                    output_of(alloc, row.call)?
                }
            };
            assert_eq!(&rt; output.as_str(), row.output, "{}", row.call);
        }
    }
    Ok(())
}

#[test]
fn each_kind_has_its_id(rt: HostRuntime) -> Result<(), Fail> {
    let alloc = rt.alloc();
    // the call, and the ids
    let rows = [
        (
            "\"{a}{0}\", a = in(reg) x, in(reg) y",
            "operand-order\nwrong-operand\nunused-argument",
        ),
        ("\"{a}{1}\", a = in(reg) x, a = in(reg) y", "repeated-name"),
        ("\"{a}\", a = in(\"eax\") x", "register-name\nmissing-name"),
        ("\"{0:eax}\", in(reg) x", "long-modifier"),
        ("\"{\", in(reg) x", "missing-closing-brace"),
    ];
    for (call, expected) in rows {
        let output = ids(alloc, call)?;
        assert_eq!(&rt; output.as_str(), expected, "{}", call);
    }
    Ok(())
}
