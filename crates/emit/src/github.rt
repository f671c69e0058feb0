//! The form for the workflows of GitHub.

ghost use Rattle.std.specs.Prelude.{◌≡◌, ◌++◌, OnOk, decimal, string_bytes};
ghost use Rattle.emit.specs.Lines.{command, command_places};
ghost use Rattle.shown_text.specs.Shown.{IsLine};

use crate::escapes::put_number;
use crate::message::{Message, Span, level_name};
use shown_text::{Kind, put_shown};
use std::alloc::AllocError;

/// Appends a property with a number.
fn put_property(out: &mut String, opening: &str, number: usize) -> Result<(), AllocError>
    ensures { OnOk result (string_bytes out.new
        ≡ string_bytes out.old ++ (opening.now ++ decimal number)) }
{
    out.push_str(opening)?;
    put_number(out, number)?;
    Ok(())
}

/// Appends the properties that say where a span is. Columns are only written where it is in one
/// line.
fn put_places(out: &mut String, span: &Span<'_>) -> Result<(), AllocError>
    ensures { OnOk result (string_bytes out.new ≡ string_bytes out.old ++ command_places span.now) }
{
    put_property(out, ",line=", span.start.line)?;
    if span.start.line == span.end.line {
        put_property(out, ",col=", span.start.column)?;
        put_property(out, ",endColumn=", span.end.column)?;
    } else {
        put_property(out, ",endLine=", span.end.line)?;
    }
    Ok(())
}

/// Appends a message as a workflow command of GitHub Actions, which shows it beside the source:
/// `::LEVEL file=PATH,line=LINE,col=COLUMN,endColumn=COLUMN::TITLE [ID]`. Returns `Err` if an
/// allocation fails, and a part of the line may then be appended.
#[tactic(auto, using(crate::proofs::Harmless::one_line))]
pub fn put_github(out: &mut String, message: &Message<'_>) -> Result<(), AllocError>
    ensures written { OnOk result (string_bytes out.new
        ≡ string_bytes out.old ++ command message.now) }
    ensures line { IsLine (command message.now) }
{
    out.push_str("::")?;
    out.push_str(level_name(message.level))?;
    out.push_str(" file=")?;
    put_shown(out, Kind::Property, message.path)?;
    put_places(out, &message.primary)?;
    out.push_str("::")?;
    put_shown(out, Kind::Message, message.title)?;
    out.push_str(" [")?;
    put_shown(out, Kind::Message, message.id)?;
    out.push_str("]\n")?;
    Ok(())
}
