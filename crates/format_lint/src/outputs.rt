//! The result of a task for an input in UTF-8.

ghost use Rattle.std.specs.Prelude.{◌≡◌, ◌≢◌, ◌≤◌, ◌++◌, List, [], IfErr, IfOk, IsErrOf, OnOk};
ghost use Rattle.std.specs.Prelude.{None, codes, flat_map, if◌then◌else◌, map, string_bytes};
ghost use Rattle.rustc_parse_format.specs.FaultIds.{fault_id};
ghost use Rattle.rustc_parse_format.specs.Faults.{message};
ghost use Rattle.rustc_parse_format.specs.Views.{seen_mode};
ghost use Rattle.rustc_parse_format.specs.FaultViews.{seen_fault};
ghost use Rattle.rustc_parse_format.specs.World.{hashes};
ghost use Rattle.piece_listing.specs.declared.verdict.RunFault.TheVariants.{Memory, NotLiteral};
ghost use Rattle.piece_listing.specs.Program.{IsShort, limit};
ghost use Rattle.drawn_faults.specs.Drawing.{drawing};
ghost use Rattle.drawn_lines.specs.Places.{seen_picture};
ghost use Rattle.format_lint.specs.Lint.{IsHarmlessFor, IsLiteralIn, IsMended, IsShown};
ghost use Rattle.format_lint.specs.Lint.{IsSourceIn, source_of_text};
ghost use Rattle.format_lint.specs.Findings.{mistake_count};
ghost use Rattle.format_lint.specs.Lint.{Source as SourceValue, drawing_of, drawn_source};
ghost use Rattle.format_lint.specs.Lint.{drawn_finding};
ghost use Rattle.format_lint.specs.Lint.{findings, first_drawing, id_line, kept_source};
ghost use Rattle.format_lint.specs.Lint.{lexed_source, more_line};
ghost use Rattle.format_lint.specs.Lint.{with_drawing};
ghost use Rattle.format_lint.specs.SeenLint.{Keeps, seen_finding, seen_outputs, seen_source};
ghost use Rattle.format_lint.specs.SeenLint.{seen_task};

use super::faults::{Source, Tokens, faults_in, tokens_in};
use super::findings::{Finding, Findings};
use super::task::{OutputKind, Task};
use super::tokens::put_tokens;
use drawn_faults::put_drawing;
use drawn_lines::Picture;
use fault_fixes::fix;
use literal_faults::snippet_of;
use piece_listing::literal::{LiteralText, literal_text};
use piece_listing::verdict::RunFault;
use rustc_parse_format::ParseMode;
use std::alloc::{AllocError, Global};

/// The result of a task for an input.
#[derive(Drop)]
pub struct Outputs {
    /// The text for the output.
    pub output: String,
    /// The drawing for the error output, where the output is no drawing.
    pub error_output: String,
    /// The number of mistakes that are left.
    pub mistake_count: usize,
}

/// Appends a line with the id of a fault, which says whether it follows from the one before.
/// Returns `Err` if an allocation fails.
fn put_id(out: &mut String, finding: &Finding<'_>) -> Result<(), AllocError>
    ensures { OnOk result (string_bytes out.new ≡ string_bytes out.old
        ++ id_line finding.now.is_consequence (fault_id (seen_fault finding.now.fault))) }
{
    out.push_str(if finding.is_consequence {
        "follows: "
    } else {
        "fault: "
    })?;
    out.push_str(finding.fault.id())?;
    out.push('\n')?;
    Ok(())
}

/// Appends the drawing of a fault to a text. Returns `Err` if an allocation fails.
fn put_finding(
    alloc: Global,
    out: &mut String,
    mode: ParseMode,
    picture: &Picture<'_>,
    finding: &Finding<'_>,
) -> Result<(), AllocError>
    ensures { OnOk result (string_bytes out.new ≡ string_bytes out.old ++ drawing (seen_mode mode)
        (seen_picture picture.now) (message (seen_finding finding.now).fault)) }
{
    let error = finding.fault.error(alloc)?;
    put_drawing(out, mode, picture, &error)?;
    Ok(())
}

/// Appends the drawings of faults to a text, each after a line with its id. Returns `Err` if an
/// allocation fails.
fn put_each_finding(
    alloc: Global,
    out: &mut String,
    mode: ParseMode,
    picture: &Picture<'_>,
    findings: &[Finding<'_>],
) -> Result<(), AllocError>
    ensures { OnOk result (string_bytes out.new ≡ string_bytes out.old
        ++ flat_map (drawn_finding (seen_mode mode) (seen_picture picture.now))
        (map seen_finding findings.now)) }
{
    for finding in findings {
        put_id(out, finding)?;
        put_finding(alloc, out, mode, picture, finding)?;
    }
    Ok(())
}

/// Appends a line that says how many faults are not drawn, if there are any. Returns `Err` if an
/// allocation fails.
fn put_more_line(alloc: Global, out: &mut String, count: usize) -> Result<(), AllocError>
    ensures { OnOk result (string_bytes out.new ≡ string_bytes out.old ++ more_line count) }
{
    if count == 0 {
        return Ok(());
    }
    let line = format!(in alloc; "and {count} more\n")?;
    out.push_str(line.as_str())?;
    Ok(())
}

/// Appends the drawing of the first of these faults to a text, if there is one. Returns `Err` if an
/// allocation fails.
fn put_first(
    alloc: Global,
    out: &mut String,
    mode: ParseMode,
    picture: &Picture<'_>,
    findings: &[Finding<'_>],
) -> Result<(), AllocError>
    ensures { OnOk result (string_bytes out.new ≡ string_bytes out.old
        ++ first_drawing (seen_mode mode) (seen_picture picture.now)
        (map seen_finding findings.now)) }
{
    if !findings.is_empty() {
        put_finding(alloc, out, mode, picture, &findings[0])?;
    }
    Ok(())
}

/// Appends the drawing of the first fault to a text, or the drawings of those that are kept and the
/// number of others. Returns how many faults are mistakes of their own, and `Err` if an allocation
/// fails.
fn put_drawings(
    alloc: Global,
    out: &mut String,
    all: bool,
    mode: ParseMode,
    picture: &Picture<'_>,
    faults: &Findings<'_>,
) -> Result<usize, AllocError>
    ensures drawn { OnOk result (string_bytes out.new ≡ string_bytes out.old
        ++ (if all then flat_map (drawn_finding (seen_mode mode) (seen_picture picture.now))
        (map seen_finding faults.now.first.items) ++ more_line faults.now.others
        else first_drawing (seen_mode mode) (seen_picture picture.now)
        (map seen_finding faults.now.first.items))) }
    ensures report { IfOk result (λ report. report ≡ faults.now.mistake_count) }
{
    if all {
        put_each_finding(alloc, out, mode, picture, faults.first.as_slice())?;
        put_more_line(alloc, out, faults.others)?;
    } else {
        put_first(alloc, out, mode, picture, faults.first.as_slice())?;
    }
    Ok(faults.mistake_count)
}

/// Appends the drawing of a source with these faults to a text. Returns how many of them are
/// mistakes of their own, and `Err` if an allocation fails.
fn put_faults(
    alloc: Global,
    out: &mut String,
    all: bool,
    task: Task<'_>,
    source: Source<'_>,
    faults: &Findings<'_>,
) -> Result<usize, AllocError>
    requires { Keeps faults.now (findings (seen_mode task.mode) (seen_source source)) }
    ensures drawn { OnOk result (string_bytes out.new ≡ string_bytes out.old
        ++ drawing_of all (seen_task task.entry) (seen_source source.entry)) }
    ensures report { IfOk result (λ report. report
        ≡ mistake_count (findings (seen_mode task.entry.mode) (seen_source source.entry))) }
{
    let picture = Picture {
        path: task.path,
        source: source.lines,
        line_start: source.line_start,
        literal_start: source.start,
        width: task.width,
        colours: task.colours,
    };
    put_drawings(alloc, out, all, task.mode, &picture, faults)
}

/// Returns the drawing of a source as the output. Returns `Err` if an allocation fails.
fn drawn_output(
    alloc: Global,
    all: bool,
    task: Task<'_>,
    source: Source<'_>,
) -> Result<Outputs, AllocError>
    requires { hashes source.style ≤ limit }
    ensures { IfOk result (λ x. seen_outputs x
        ≡ drawn_source all (seen_task task.entry) (seen_source source.entry)) }
{
    let faults = faults_in(alloc, task.mode, source)?;
    let mut output = String::new(alloc);
    let mistake_count = put_faults(alloc, &mut output, all, task, source, &faults)?;
    Ok(Outputs {
        output,
        error_output: String::new(alloc),
        mistake_count,
    })
}

/// Returns an output with the drawing of the first of a source's faults as the error output.
/// Returns `Err` if an allocation fails.
fn with_drawing(
    alloc: Global,
    output: String,
    task: Task<'_>,
    source: Source<'_>,
    faults: &Findings<'_>,
) -> Result<Outputs, AllocError>
    requires { Keeps faults.now (findings (seen_mode task.mode) (seen_source source)) }
    ensures { IfOk result (λ x. seen_outputs x
        ≡ with_drawing (string_bytes output) (seen_task task.entry) (seen_source source.entry)) }
{
    let mut error_output = String::new(alloc);
    let mistake_count = put_faults(alloc, &mut error_output, false, task, source, faults)?;
    Ok(Outputs {
        output,
        error_output,
        mistake_count,
    })
}

/// Returns a source as it is written and a line end, with the drawing of its first fault. Returns
/// `Err` if an allocation fails.
fn kept_output(alloc: Global, task: Task<'_>, source: Source<'_>) -> Result<Outputs, AllocError>
    requires { hashes source.style ≤ limit }
    ensures { IfOk result (λ x. seen_outputs x
        ≡ kept_source (seen_task task.entry) (seen_source source.entry)) }
{
    let mut output = String::new(alloc);
    output.push_str(source.literal.unwrap_or(source.text))?;
    output.push_str("\n")?;
    let faults = faults_in(alloc, task.mode, source)?;
    Ok(with_drawing(alloc, output, task, source, &faults)?)
}

/// Returns the literal of a source with the edits that its faults suggest, with the drawing of the
/// first fault that it then has. Returns `Err` if an allocation fails.
fn fixed_output(alloc: Global, task: Task<'_>, source: Source<'_>) -> Result<Outputs, AllocError>
    requires { hashes source.style ≤ limit }
    ensures { IfOk result (λ x. (r : SourceValue)
        × IsMended (seen_mode task.entry.mode) (seen_source source.entry) r
        × (seen_outputs x ≡ kept_source (seen_task task.entry) r)) }
{
    let Some(literal) = source.literal else {
        return Ok(kept_output(alloc, task, source)?);
    };
    match fix(alloc, source.text, source.style, literal, false, task.mode)? {
        Some(fixed_literal) => {
            let fixed_source = Source {
                text: fixed_literal.text.as_str(),
                style: source.style,
                literal: Some(fixed_literal.snippet.as_str()),
                lines: fixed_literal.snippet.as_str(),
                line_start: 1,
                start: 0,
            };
            Ok(kept_output(alloc, task, fixed_source)?)
        }
        None => Ok(kept_output(alloc, task, source)?),
    }
}

/// Returns the tokens of a source, in colours with a line end after them or each in a line, with
/// the drawing of its first fault. Returns `Err` if an allocation fails.
fn token_output(alloc: Global, task: Task<'_>, source: Source<'_>) -> Result<Outputs, AllocError>
    requires { hashes source.style ≤ limit }
    ensures { IfOk result (λ x. seen_outputs x
        ≡ lexed_source (seen_task task.entry) (seen_source source.entry)) }
{
    let source_text = source.literal.unwrap_or(source.text);
    let Tokens { tokens, faults } = tokens_in(alloc, task.mode, source)?;
    let mut output = String::new(alloc);
    put_tokens(&mut output, task.colours, source_text, tokens.as_slice())?;
    if task.colours {
        output.push_str("\n")?;
    }
    Ok(with_drawing(alloc, output, task, source, &faults)?)
}

/// Returns the result of a task for a source. Returns `Err` if an allocation fails.
fn outputs_of(alloc: Global, source: Source<'_>, task: Task<'_>) -> Result<Outputs, AllocError>
    requires { hashes source.style ≤ limit }
    ensures { IfOk result (λ x. IsShown (seen_task task.entry) (seen_source source.entry)
        (seen_outputs x)) }
{
    match task.output_kind {
        OutputKind::Fault => drawn_output(alloc, false, task, source),
        OutputKind::All => drawn_output(alloc, true, task, source),
        OutputKind::Tokens => token_output(alloc, task, source),
        OutputKind::Fix => fixed_output(alloc, task, source),
    }
}

/// Returns the result of a task for the input as a string literal, perhaps with a byte order mark
/// before it and white space around it. Returns `Err` if the input is not a string literal or an
/// allocation fails.
fn outputs_of_literal(alloc: Global, input: &str, task: Task<'_>) -> Result<Outputs, RunFault>
    requires { IsShort input.now }
    ensures outputs { IfOk result (λ x. (s : SourceValue) × IsLiteralIn input.now s
        × IsShown (seen_task task.entry) s (seen_outputs x)) }
    ensures not_literal { IsErrOf result NotLiteral → (s : SourceValue) → IsLiteralIn input.now s
        → ⊥ }
    ensures others { IfErr result (λ fault. fault ≢ NotLiteral → fault ≡ Memory) }
{
    let snippet = snippet_of(input);
    let Some(LiteralText { text, style }) = literal_text(alloc, snippet.text)? else {
        return Err(RunFault::NotLiteral);
    };
    let source = Source {
        text: text.as_str(),
        style,
        literal: Some(snippet.text),
        lines: snippet.source,
        line_start: 1,
        start: snippet.start,
    };
    Ok(outputs_of(alloc, source, task)?)
}

/// Returns a text that is in no literal, with the lines that it is drawn in.
fn text_source<'a>(text: &'a str, lines: &'a str) -> Source<'a>
    ensures value { lines.now ≡ codes "\n" ++ text.now
        → seen_source result ≡ source_of_text text.now }
    ensures style { result.style ≡ None }
{
    Source {
        text,
        style: None,
        literal: None,
        lines,
        line_start: 0,
        start: 0,
    }
}

/// Returns the result of a task for an input. Returns `Err` if the task needs a string literal and
/// the input is none, or if an allocation fails.
pub fn outputs_of_input(alloc: Global, input: &str, task: Task<'_>) -> Result<Outputs, RunFault>
    requires { IsShort input.now }
    ensures outputs { IfOk result (λ x. (s : SourceValue)
        × IsSourceIn task.entry.is_literal input.now s
        × IsShown (seen_task task.entry) s (seen_outputs x)) }
    ensures harmless { IfOk result (λ x. IsHarmlessFor (seen_task task.entry) input.now
        (seen_outputs x)) }
    ensures not_literal { IsErrOf result NotLiteral → (s : SourceValue)
        → IsSourceIn task.entry.is_literal input.now s → ⊥ }
    ensures others { IfErr result (λ fault. fault ≢ NotLiteral → fault ≡ Memory) }
{
    if task.is_literal {
        return outputs_of_literal(alloc, input, task);
    }
    // without a literal a span is one more than in the text, and so is the place in these lines
    let lines = format!(in alloc; "\n{input}")?;
    Ok(outputs_of(alloc, text_source(input, lines.as_str()), task)?)
}
