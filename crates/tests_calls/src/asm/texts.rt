//! Texts of attributes that are checked, and the words for their faults.

use super::text_rows::TEXT_ROWS;
use diagnostic::{Diagnostic, Label, NoteLevel};
use message_faults::{Message, MessageFault, message_faults, names_of};
use std::alloc::{AllocError, Global};
use std::collections::BTreeSet;
use std::test::Fail;
use text_faults::Spot;

/// Adds the lines of labels in a literal of this length, sorted.
fn put_labels(out: &mut String, length: usize, labels: &[Label<Spot>]) -> Result<(), AllocError> {
    let alloc = *out.allocator();
    let mut lines = Vec::new(alloc);
    for label in labels {
        let mut line = String::new(alloc);
        line.push(if label.is_primary { '^' } else { '-' })?;
        match label.place {
            Spot::Bytes { start, end } => write!(&mut line, "{start}..{end}")?,
            _ => write!(&mut line, "0..{length}")?,
        }
        write!(&mut line, " {}\n", label.text)?;
        lines.push(line)?;
    }
    lines.sort()?;
    for line in &lines {
        out.push_str(line)?;
    }
    Ok(())
}

/// Adds what is said of a fault in a literal of this length.
fn put_diagnostic(
    out: &mut String,
    length: usize,
    diagnostic: &Diagnostic<Spot>,
) -> Result<(), AllocError> {
    out.push_str(diagnostic.title.as_str())?;
    out.push('\n')?;
    put_labels(out, length, &diagnostic.labels)?;
    for note in &diagnostic.notes {
        out.push_str(match note.level {
            NoteLevel::Note => "= ",
            NoteLevel::Help => "? ",
        })?;
        out.push_str(note.text.as_str())?;
        out.push('\n')?;
    }
    Ok(())
}

/// Returns the faults of a text with this literal.
fn faults<'a>(
    alloc: Global,
    text: &'a str,
    literal: &'a str,
    parameters: Option<&BTreeSet<&str>>,
) -> Result<Vec<MessageFault<'a>>, AllocError> {
    let message = Message {
        text,
        snippet: Some(literal),
        parameters,
    };
    message_faults(alloc, message)
}

/// Returns the words for a text with this literal: for each fault, sorted.
fn output_of(alloc: Global, text: &str, literal: &str) -> Result<String, AllocError> {
    let names = names_of(alloc, &["A", "B", "N"])?;
    let mut parts = Vec::new(alloc);
    for fault in &faults(alloc, text, literal, Some(&names))? {
        let mut part = String::new(alloc);
        put_diagnostic(&mut part, literal.len(), &fault.diagnostic(alloc, "T")?)?;
        parts.push(part)?;
    }
    parts.sort()?;
    let mut output = String::new(alloc);
    for part in &parts {
        output.push_str(part)?;
    }
    Ok(output)
}

#[test]
fn texts_are_as_rustc_says(rt: HostRuntime) -> Result<(), Fail> {
    let alloc = rt.alloc();
    for row in TEXT_ROWS {
        let output = output_of(alloc, row.text, row.literal)?;
        assert_eq!(&rt; output.as_str(), row.output, "{}", row.literal);
    }
    Ok(())
}

/// Every fifth row, since each of their requests for memory is refused once.
#[test]
fn texts_out_of_memory_are_said_again(rt: HostRuntime) -> Result<(), Fail> {
    let alloc = rt.alloc();
    for index in 0..5 {
        let row = &TEXT_ROWS[5 * index];
        let output = match output_of(alloc, row.text, row.literal) {
            Ok(output) => output,
            Err(_) => {
                println!(rt; "refused")?;
                output_of(alloc, row.text, row.literal)?
            }
        };
        assert_eq!(&rt; output.as_str(), row.output, "{}", row.literal);
    }
    Ok(())
}

#[test]
fn each_kind_of_text_has_its_id(rt: HostRuntime) -> Result<(), Fail> {
    let alloc = rt.alloc();
    // the text and its literal, and the ids
    let rows = [
        (
            "{A:?}{}{Z}",
            "\"{A:?}{}{Z}\"",
            "specifier-in-message positional-in-message missing-parameter ",
        ),
        ("}", "\"}\"", "unmatched-closing-brace "),
    ];
    let names = names_of(alloc, &["A"])?;
    for (text, literal, expected) in rows {
        let mut output = String::new(alloc);
        for fault in &faults(alloc, text, literal, Some(&names))? {
            write!(&mut output, "{} ", fault.diagnostic(alloc, "T")?.id.name())?;
        }
        assert_eq!(&rt; output.as_str(), expected, "{}", literal);
    }
    Ok(())
}

#[test]
fn each_name_may_mean_something(rt: HostRuntime) -> Result<(), Fail> {
    let alloc = rt.alloc();
    assert_eq!(&rt; faults(alloc, "{Z}", "\"{Z}\"", None)?.len(), 0);
    assert_eq!(&rt; faults(alloc, "{Z}{}", "\"{Z}{}\"", None)?.len(), 1);
    Ok(())
}
