//! The program over any reader and writer: its input and its output.

ghost use Rattle.std.specs.Prelude.{◌≡◌, ◌≢◌, ◌↔◌, List, [], ℕ, IfErr, IfOk, IfSome, IsErrOf};
ghost use Rattle.std.specs.Prelude.{Err, Ok, Result};
ghost use Rattle.std.specs.Io.KnownBytes.{Appends};
ghost use Rattle.piece_listing.specs.declared.verdict.RunFault.TheVariants.{Words, TooLong};
ghost use Rattle.piece_listing.specs.declared.verdict.RunFault.TheVariants.{NotText, NotLiteral};
ghost use Rattle.piece_listing.specs.declared.verdict.RunFault.TheVariants.{Write as WriteFault};
ghost use Rattle.rustc_parse_format.specs.Types.{Mode};
ghost use Rattle.format_lint.specs.Findings.{mistake_count};
ghost use Rattle.format_lint.specs.Lint.{IsHarmlessFor, IsOwed, Outputs, Source, Task as TaskValue};
ghost use Rattle.format_lint.specs.Lint.{errors, findings};
ghost use Rattle.piece_listing.specs.declared.verdict.RunFault.{RunFault as FaultValue};
ghost use Rattle.format_lint.specs.SeenLint.{seen_task};

use super::outputs::outputs_of_input;
use super::task::Task;
use piece_listing::run::{read_input, write_whole};
use piece_listing::verdict::RunFault;
use std::alloc::Global;
use std::io::{Read, Write};

/// Reads an input from `reader` up to its end, and writes the output of `task` for it to `writer`
/// and then the error output to `error_writer`: the drawing of a fault, where the output is tokens
/// or a literal. Returns the number of faults that are left as mistakes of their own and follow
/// from no other one: of the input, or of the literal with its fixes.
///
/// The input may have at most 1,048,576 bytes. Returns `Err` if a read, a write or an allocation
/// fails, or if the input is too long, not UTF-8, or not a string literal although the task needs
/// one (`RunFault`, but never `Words`). A read or a write that fails is not tried again. After an
/// error nothing is written, except that after a failed write a part may be.
pub fn run<R: Read, W: Write, E: Write>(
    alloc: Global,
    reader: &mut R,
    writer: &mut W,
    error_writer: &mut E,
    task: Task<'_>,
) -> Result<usize, RunFault>
    // Both outputs and the result are those of the definition `IsOwed`.
    ensures outputs { IfOk result (λ report. IfSome (R.remaining reader.old) (λ input. (x : Outputs)
        × IsOwed (seen_task task.entry) input (Ok x) × (report ≡ x.mistake_count)
        × Appends (W.contents writer.old) (W.contents writer.new) x.output
        × Appends (E.contents error_writer.old) (E.contents error_writer.new) x.error_output)) }
    // A terminal obeys nothing of them but the colours of the task; with fixes the literal, which
    // is to be read again, is written as it is.
    ensures harmless { IfOk result (λ report. IfSome (R.remaining reader.old)
        (λ input. (x : Outputs) × IsHarmlessFor (seen_task task.entry) input x
        × Appends (W.contents writer.old) (W.contents writer.new) x.output
        × Appends (E.contents error_writer.old) (E.contents error_writer.new) x.error_output)) }
    // The definition has only one result.
    ensures one_answer { (a : TaskValue) (input : List ℕ) (x y : Result Outputs FaultValue)
        → IsOwed a input x → IsOwed a input y → x ≡ y }
    // There is a mistake exactly if a parser has an error.
    ensures mistake_count { (mode : Mode) (s : Source)
        → (mistake_count (findings mode s) ≡ 0) ↔ (errors mode s ≡ []) }
    ensures not_words { IfErr result (λ fault. fault ≢ Words) }
    ensures too_long { IsErrOf result TooLong → IfSome (R.remaining reader.old)
        (λ input. IsOwed (seen_task task.entry) input (Err TooLong)) }
    ensures not_text { IsErrOf result NotText → IfSome (R.remaining reader.old)
        (λ input. IsOwed (seen_task task.entry) input (Err NotText)) }
    ensures not_literal { IsErrOf result NotLiteral → IfSome (R.remaining reader.old)
        (λ input. IsOwed (seen_task task.entry) input (Err NotLiteral)) }
    // After any error other than a failed write, nothing is written.
    ensures unwritten { IfErr result (λ fault. fault ≢ WriteFault
        → (writer.new ≡ writer.old) × (error_writer.new ≡ error_writer.old)) }
{
    let input = read_input(alloc, reader)?;
    let Ok(text) = str::from_utf8(input.as_slice()) else {
        return Err(RunFault::NotText);
    };
    let outputs = outputs_of_input(alloc, text, task)?;
    write_whole(writer, outputs.output.as_bytes())?;
    write_whole(error_writer, outputs.error_output.as_bytes())?;
    Ok(outputs.mistake_count)
}
