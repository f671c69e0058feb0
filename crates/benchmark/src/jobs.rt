//! Jobs over many short inputs: the string literals of a large project.

use crate::digest::Digest;
use crate::inputs::literal;
use crate::random::Random;
use flat_reading::read::{Buffers, read};
use flat_reading::records::{
    Answer, COUNT_IMPLIED, COUNT_IS_NAME, Extent, Fault, PIECE_ARGUMENT, PIECE_TEXT,
    POSITION_NAMED, Spec, Step, TYPE_TEXT,
};
use flat_reading::task::Task as FlatTask;
use format_lint::run::run;
use format_lint::task::{OutputKind, Task};
use piece_listing::literal::{LiteralText, literal_text};
use placeholder_check::{Report, read_and_check};
use rustc_parse_format::{
    Argument, Count, FormatSpec, ParseError, ParseMode, Parser, Piece, Position,
};
use std::alloc::{AllocError, Global};
use std::ops::Range;

/// Adds a range that may be absent.
fn add_optional(digest: &mut Digest, range: &Option<Range<usize>>) {
    match range {
        Some(range) => digest.add_range(range),
        None => digest.add(1),
    }
}

/// Adds a width or a precision.
fn add_count(digest: &mut Digest, count: &Count<'_>) {
    match count {
        Count::CountIs(number) => digest.add(u64::from(*number) << 3),
        Count::CountIsName(name, span) => {
            digest.add_bytes(name.as_bytes());
            digest.add_range(span);
        }
        Count::CountIsParam(index) => digest.add_size(*index),
        Count::CountIsStar(index) => digest.add_size(*index),
        Count::CountImplied => digest.add(2),
    }
}

/// Adds a specification.
fn add_spec(digest: &mut Digest, spec: &FormatSpec<'_>) {
    match spec.fill {
        Some(fill) => digest.add(u64::from(fill)),
        None => digest.add(3),
    }
    add_optional(digest, &spec.fill_span);
    digest.add(u64::from(spec.alternate));
    digest.add(u64::from(spec.zero_pad));
    add_count(digest, &spec.precision);
    add_optional(digest, &spec.precision_span);
    add_count(digest, &spec.width);
    add_optional(digest, &spec.width_span);
    digest.add_bytes(spec.ty.as_bytes());
    add_optional(digest, &spec.ty_span);
}

/// Adds an argument.
fn add_argument(digest: &mut Digest, argument: &Argument<'_>) {
    match argument.position {
        Position::ArgumentImplicitlyIs(index) => digest.add_size(index),
        Position::ArgumentIs(index) => digest.add(!(index as u64)),
        Position::ArgumentNamed(name) => digest.add_bytes(name.as_bytes()),
    }
    digest.add_range(&argument.position_span);
    add_spec(digest, &argument.format);
}

/// Adds a piece.
fn add_piece(digest: &mut Digest, piece: &Piece<'_>) {
    match piece {
        Piece::Lit(text) => digest.add_bytes(text.as_bytes()),
        Piece::NextArgument(argument) => add_argument(digest, argument),
    }
}

/// Adds an error.
fn add_error(digest: &mut Digest, error: &ParseError) {
    digest.add_bytes(error.description.as_bytes());
    digest.add_bytes(error.label.as_bytes());
    digest.add_range(&error.span);
}

/// Adds the findings of a parser at its end.
fn add_parser(digest: &mut Digest, parser: &Parser<'_>) {
    digest.add(u64::from(parser.is_source_literal()));
    for error in parser.errors() {
        add_error(digest, error);
    }
    for place in parser.arg_places() {
        digest.add_range(place);
    }
    for line in parser.line_spans() {
        digest.add_range(line);
    }
}

/// Adds a report.
fn add_report(digest: &mut Digest, report: &Report<'_>) {
    for index in &report.missing_index {
        digest.add_size(*index);
    }
    for name in &report.missing_name {
        digest.add_bytes(name.as_bytes());
    }
    for index in &report.unused_index {
        digest.add_size(*index);
    }
    for name in &report.unused_name {
        digest.add_bytes(name.as_bytes());
    }
}

/// Reads a literal and checks its arguments.
fn check(alloc: Global, literal: String, digest: &mut Digest) -> Result<(), AllocError> {
    let Some(LiteralText { text, style }) = literal_text(alloc, literal.as_str())? else {
        digest.add(4);
        return Ok(());
    };
    let (input, mode) = (text.as_str(), ParseMode::Format);
    if input.len() > 100_000 || style.unwrap_or(0) > 100_000 {
        return Ok(());
    }
    let names = ["name", "value", "err", "path"];
    let read = read_and_check(alloc, input, style, Some(literal), false, mode, 2, &names)?;
    for piece in &read.pieces {
        add_piece(digest, piece);
    }
    add_parser(digest, &read.parser);
    add_report(digest, &read.report);
    Ok(())
}

/// Reads and checks as many literals.
pub fn check_each(
    alloc: Global,
    count: usize,
    random: &mut Random,
    digest: &mut Digest,
) -> Result<(), AllocError> {
    for number in 0..count {
        let literal = literal(alloc, random, number, 0)?;
        check(alloc, literal, digest)?;
    }
    Ok(())
}

/// Draws the faults of as many literals, shows their tokens, in a list or in colours, and fixes
/// them, by turns.
pub fn lint_each(
    alloc: Global,
    count: usize,
    random: &mut Random,
    digest: &mut Digest,
) -> Result<(), AllocError> {
    for number in 0..count {
        let literal = literal(alloc, random, number, 3)?;
        let output_kind = match number % 4 {
            0 | 1 => OutputKind::Tokens,
            2 => OutputKind::Fix,
            _ => OutputKind::Fault,
        };
        let task = Task {
            mode: ParseMode::Format,
            is_literal: true,
            path: "src/main.rs",
            output_kind,
            width: 140,
            colours: number % 4 == 1,
        };
        let mut reader = literal.as_bytes();
        let mut written = Vec::new(alloc);
        let mut drawn = Vec::new(alloc);
        let answer = run(alloc, &mut reader, &mut written, &mut drawn, task);
        written.extend_from_slice(drawn.as_slice())?;
        digest.add(u64::from(matches!(answer, Ok(1..))));
        digest.add_bytes(written.as_slice());
    }
    Ok(())
}

const NO_EXTENT: Extent = Extent { start: 0, end: 0 };

const NO_SPEC: Spec = Spec {
    fill: 0,
    align: 0,
    sign: 0,
    debug_hex: 0,
    alternate: 0,
    zero_pad: 0,
    type_kind: 0,
    width_kind: 0,
    precision_kind: 0,
    has_fill_span: 0,
    has_width_span: 0,
    has_precision_span: 0,
    has_ty_span: 0,
    width_number: 0,
    precision_number: 0,
    width_span: NO_EXTENT,
    precision_span: NO_EXTENT,
    ty: NO_EXTENT,
    ty_span: NO_EXTENT,
    fill_span: NO_EXTENT,
    width_name: NO_EXTENT,
    width_name_span: NO_EXTENT,
    precision_name: NO_EXTENT,
    precision_name_span: NO_EXTENT,
};

const NO_STEP: Step = Step {
    kind: 0,
    position: 0,
    has_place: 0,
    number: 0,
    text: NO_EXTENT,
    position_span: NO_EXTENT,
    spec: 0,
    place: NO_EXTENT,
    offset: 0,
    next_index: 0,
    lines: 0,
};

const NO_FAULT: Fault = Fault {
    has_note: 0,
    has_second_label: 0,
    suggestion: 0,
    description: NO_EXTENT,
    note: NO_EXTENT,
    label: NO_EXTENT,
    span: NO_EXTENT,
    second_label: NO_EXTENT,
    second_span: NO_EXTENT,
    suggestion_span: NO_EXTENT,
    suggestion_text: NO_EXTENT,
    step: 0,
};

const NO_ANSWER: Answer = Answer {
    steps: 0,
    specs: 0,
    faults: 0,
    texts: 0,
    lines: 0,
    front_faults: 0,
    is_source_literal: 0,
};

/// Adds a byte range, or zeros if the record does not use it.
fn add_extent(digest: &mut Digest, is_used: bool, extent: &Extent) {
    digest.add_size(if is_used { extent.start } else { 0 });
    digest.add_size(if is_used { extent.end } else { 0 });
}

/// Adds the end of a byte range, or 0 if the number before it is 0.
fn add_end(digest: &mut Digest, has_range: u8, extent: &Extent) {
    digest.add_size(if has_range == 0 { 0 } else { extent.end });
}

/// Adds the number in a count of this kind, or 0 if it has none.
fn add_number(digest: &mut Digest, kind: u8, number: usize) {
    let has_number = !matches!(kind, COUNT_IMPLIED | COUNT_IS_NAME);
    digest.add_size(if has_number { number } else { 0 });
}

/// Adds the record of a step.
fn add_step_record(digest: &mut Digest, step: &Step) {
    let is_argument = step.kind == PIECE_ARGUMENT;
    let has_name = is_argument && step.position == POSITION_NAMED;
    let has_number = is_argument && !has_name;
    digest.add(u64::from(step.kind));
    digest.add_size(if has_number { step.number } else { 0 });
    add_extent(digest, has_name || step.kind == PIECE_TEXT, &step.text);
    add_extent(digest, is_argument, &step.position_span);
    add_end(digest, step.has_place, &step.place);
    digest.add_size(step.offset);
}

/// Adds the record of a specification.
fn add_spec_record(digest: &mut Digest, spec: &Spec) {
    digest.add(u64::from(spec.fill));
    digest.add(u64::from(spec.align));
    add_extent(digest, spec.type_kind == TYPE_TEXT, &spec.ty);
    add_number(digest, spec.width_kind, spec.width_number);
    add_extent(digest, spec.width_kind == COUNT_IS_NAME, &spec.width_name);
    add_number(digest, spec.precision_kind, spec.precision_number);
    add_end(digest, spec.has_precision_span, &spec.precision_span);
}

/// Adds the records that a call has written.
fn add_records(digest: &mut Digest, buffers: &Buffers<'_>, answer: &Answer) {
    digest.add_size(answer.texts);
    digest.add(u64::from(answer.is_source_literal));
    for step in buffers.steps.iter().take(answer.steps) {
        add_step_record(digest, step);
    }
    for spec in buffers.specs.iter().take(answer.specs) {
        add_spec_record(digest, spec);
    }
    for fault in buffers.faults.iter().take(answer.faults) {
        add_extent(digest, true, &fault.description);
        add_extent(digest, true, &fault.span);
        digest.add_size(fault.step);
    }
    for line in buffers.lines.iter().take(answer.lines) {
        add_extent(digest, true, line);
    }
}

/// Reads a literal into records.
fn record(
    alloc: Global,
    literal: &str,
    buffers: &mut Buffers<'_>,
    digest: &mut Digest,
) -> Result<(), AllocError> {
    let Some(LiteralText { text, style }) = literal_text(alloc, literal)? else {
        digest.add(5);
        return Ok(());
    };
    let input = text.as_str();
    if input.len() > 100_000 || style.unwrap_or(0) > 100_000 {
        return Ok(());
    }
    let task = FlatTask {
        mode: ParseMode::Format,
        input,
        style,
        snippet: Some(literal),
        appended_newline: false,
    };
    let mut answer = NO_ANSWER;
    read(alloc, task, buffers, &mut answer)?;
    add_records(digest, buffers, &answer);
    Ok(())
}

/// Reads as many literals into records, as a program in C does.
pub fn record_each(
    alloc: Global,
    count: usize,
    random: &mut Random,
    digest: &mut Digest,
) -> Result<(), AllocError> {
    // (long enough for a string of a program)
    let mut steps = vec![in alloc; NO_STEP; 100]?;
    let mut specs = vec![in alloc; NO_SPEC; 100]?;
    let mut faults = vec![in alloc; NO_FAULT; 100]?;
    let mut texts = vec![in alloc; 0; 10_000]?;
    let mut lines = vec![in alloc; NO_EXTENT; 100]?;
    let mut buffers = Buffers {
        steps: steps.as_mut_slice(),
        specs: specs.as_mut_slice(),
        faults: faults.as_mut_slice(),
        texts: texts.as_mut_slice(),
        lines: lines.as_mut_slice(),
        peeks: &mut [],
    };
    for number in 0..count {
        let literal = literal(alloc, random, number, 30)?;
        record(alloc, literal.as_str(), &mut buffers, digest)?;
    }
    Ok(())
}
