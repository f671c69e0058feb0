//! Reads a whole input at once.

ghost use Rattle.std.specs.Prelude.{◌≡◌, ◌≤◌, IfNone, IfOk, IfSome, None, OnErr, OnOk, Some, chars};
ghost use Rattle.std.specs.Prelude.{drop, length, map, option_map, string_bytes, take};
ghost use Rattle.rustc_parse_format.specs.Views.{pair, seen_mode};
ghost use Rattle.rustc_parse_format.specs.World.{hashes};
ghost use Rattle.flat_reading.specs.Interface.{Fits, IsCounted, IsDescribed, IsKept, SameBuffers};
ghost use Rattle.flat_reading.specs.Interface.{asked_state, contents, limit};
ghost use Rattle.flat_reading.specs.Meaning.{place};
ghost use Rattle.flat_reading.specs.Progress.{IsPlain};

use crate::errors::put_errors;
use crate::fields::{flag, put_extent};
use crate::finders::Finders;
use crate::reading::{Reading, mode_with_escapes, offset_of};
use crate::records::{Answer, Extent, Fault, Peek, Spec, Step};
use crate::specification::SpecBuffer;
use crate::task::Task;
use crate::walk::walk;
use rustc_parse_format::{ParseMode, Parser};
use std::alloc::{AllocError, Global};
use std::ops::Range;

/// The buffers into which the results are written.
#[repr(C)]
#[derive(Drop)]
pub struct Buffers<'a> {
    /// The calls of the parser, in order.
    pub steps: &'a mut [Step],
    /// The specifications that the steps refer to.
    pub specs: &'a mut [Spec],
    /// The errors in the input.
    pub faults: &'a mut [Fault],
    /// The texts of the errors, in UTF-8.
    pub texts: &'a mut [u8],
    /// The byte ranges of the lines in the source.
    pub lines: &'a mut [Extent],
    /// For each step, the two characters that come next before its call. If it is empty, none are
    /// looked for.
    pub peeks: &'a mut [Peek],
}

impl Buffers<'_> {
    ghost use Rattle.std.specs.Prelude.{IsFalse, IsTrue};
    ghost use Rattle.flat_reading.specs.Interface.{Fits, contents};

    /// Returns whether there is room for all results that an answer counts.
    pub fn has_room_for(&self, answer: &Answer) -> bool
        ensures yes { IsTrue result → Fits (contents self.now) answer.now }
        ensures no { IsFalse result → ¬ (Fits (contents self.now) answer.now) }
    {
        answer.steps <= self.steps.len()
            && answer.specs <= self.specs.len()
            && answer.faults <= self.faults.len()
            && answer.texts <= self.texts.len()
            && answer.lines <= self.lines.len()
            && (self.peeks.is_empty() || answer.steps <= self.peeks.len())
    }
}

/// Returns a copy of a snippet. Returns `Err` if an allocation fails.
fn owned_snippet(alloc: Global, snippet: Option<&str>) -> Result<Option<String>, AllocError>
    ensures { IfOk result (λ s. option_map (λ t. chars (string_bytes t)) s
        ≡ option_map (λ t. chars t.now) snippet.entry) }
{
    match snippet {
        Some(text) => Ok(Some(String::from_str(alloc, text)?)),
        None => Ok(None),
    }
}

/// Writes the byte ranges of the lines, as far as they fit.
fn put_lines(spans: &[Range<usize>], lines: &mut [Extent])
    ensures held { length spans.now ≤ length lines.old
        → map place (take (length spans.now) lines.new) ≡ map pair spans.now }
    ensures kept { drop (length spans.now) lines.new ≡ drop (length spans.now) lines.old }
{
    for i in 0..spans.len() {
        if i < lines.len() {
            put_extent(&spans[i], &mut lines[i]);
        }
    }
}

/// Reads an input to its end with a parser that is at its start, and writes the results as `read`
/// does. `offset` and `escapes` are those of a `Reading`. They are given, as the parser is, so that
/// no branch comes before it is in its place: the compiler then writes each of its fields once.
/// Returns `Err` if an allocation fails, and `answer` is then unchanged.
#[inline(always)]
fn read_by<'a>(
    alloc: Global,
    start: Parser<'a>,
    task: Task<'a>,
    offset: usize,
    escapes: Option<ParseMode>,
    buffers: &mut Buffers<'_>,
    answer: &mut Answer,
) -> Result<(), AllocError>
    requires input_length { length task.input.now ≤ limit }
    requires hashes { hashes task.style ≤ limit }
    requires start { start ≡ asked_state task }
    requires plain { IfNone escapes (IsPlain start offset) }
    requires mode { IfSome escapes (λ m. seen_mode m ≡ start.mode) }
    requires short { length start.rest ≤ length task.input.now }
    ensures counted { OnOk result (IsCounted (asked_state task.entry) answer.new) }
    ensures described { OnOk result
        (Fits (contents buffers.old) answer.new → IsDescribed (asked_state task.entry)
        task.entry.input.now (contents buffers.new) answer.new) }
    ensures kept { OnOk result (IsKept answer.new (contents buffers.old) (contents buffers.new)) }
    ensures same { SameBuffers buffers.old buffers.new }
    ensures err { OnErr result (answer.new ≡ answer.old) }
{
    let is_source_literal = flag(start.is_source_literal());
    let mut parser = start;
    let mut finders = Finders::new();
    let reading = Reading::new(task.input, offset, escapes);
    let mut specs = SpecBuffer::new(buffers.specs);
    let count = walk(
        alloc,
        &mut parser,
        &mut finders,
        &reading,
        buffers.steps,
        &mut specs,
        buffers.peeks,
    )?;
    let errors = parser.errors();
    let spans = parser.line_spans();
    put_lines(spans, buffers.lines);
    // (field by field, since a copy of a record also copies what lies between its fields)
    answer.steps = count;
    answer.specs = specs.count();
    answer.faults = errors.len();
    answer.texts = put_errors(errors, &finders, buffers.faults, buffers.texts);
    answer.lines = spans.len();
    answer.front_faults = finders.front_count();
    answer.is_source_literal = is_source_literal;
    Ok(())
}

/// Reads an input as `read` does, with or without a snippet.
#[inline(always)]
fn read_with_snippet(
    alloc: Global,
    task: Task<'_>,
    buffers: &mut Buffers<'_>,
    answer: &mut Answer,
) -> Result<(), AllocError>
    requires input_length { length task.input.now ≤ limit }
    requires hashes { hashes task.style ≤ limit }
    ensures counted { OnOk result (IsCounted (asked_state task.entry) answer.new) }
    ensures described { OnOk result
        (Fits (contents buffers.old) answer.new → IsDescribed (asked_state task.entry)
        task.entry.input.now (contents buffers.new) answer.new) }
    ensures kept { OnOk result (IsKept answer.new (contents buffers.old) (contents buffers.new)) }
    ensures same { SameBuffers buffers.old buffers.new }
    ensures err { OnErr result (answer.new ≡ answer.old) }
{
    let literal = owned_snippet(alloc, task.snippet)?;
    let start = Parser::new(
        alloc,
        task.input,
        task.style,
        literal,
        task.appended_newline,
        task.mode,
    )?;
    let escapes = mode_with_escapes(&start, &task);
    let offset = offset_of(task.style);
    read_by(alloc, start, task, offset, escapes, buffers, answer)
}

/// Reads an input, up to and including the call at its end, and writes the results into buffers of
/// the caller.
///
/// The input may have at most 10^12 bytes, and a raw literal at most 10^12 hashes, as in each
/// `Task` that `task_of` returns. `answer` has the lengths of all results, in records and, for
/// `texts`, in bytes, even if they do not fit; if they all fit, they are all written. Returns `Err`
/// if an allocation fails: `answer` is then unchanged, and the contents of the buffers are
/// unspecified.
pub fn read(
    alloc: Global,
    task: Task<'_>,
    buffers: &mut Buffers<'_>,
    answer: &mut Answer,
) -> Result<(), AllocError>
    requires input_length { length task.input.now ≤ limit }
    requires hashes { hashes task.style ≤ limit }
    ensures counted { OnOk result (IsCounted (asked_state task.entry) answer.new) }
    ensures described { OnOk result
        (Fits (contents buffers.old) answer.new → IsDescribed (asked_state task.entry)
        task.entry.input.now (contents buffers.new) answer.new) }
    ensures kept { OnOk result (IsKept answer.new (contents buffers.old) (contents buffers.new)) }
    ensures same { SameBuffers buffers.old buffers.new }
    ensures err { OnErr result (answer.new ≡ answer.old) }
{
    match task.snippet {
        Some(_) => read_with_snippet(alloc, task, buffers, answer),
        // (without a snippet, the compiler leaves out most of what `Parser::new` does)
        None => {
            let start = Parser::new(
                alloc,
                task.input,
                task.style,
                None,
                task.appended_newline,
                task.mode,
            )?;
            let escapes = mode_with_escapes(&start, &task);
            let offset = offset_of(task.style);
            read_by(alloc, start, task, offset, escapes, buffers, answer)
        }
    }
}
