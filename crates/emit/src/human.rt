//! The form for people: a finding drawn under the lines of its file.

ghost use Rattle.std.specs.Prelude.{◌≡◌};

use crate::file::File;
use crate::message::Message;
use crate::short::put_short;
use drawn_faults::{Diagnostic, Level, SourceHelp, SourceLabel, SourceNote, put_labels};
use drawn_lines::Picture;
use fault_fixes::Edit;
use source_report::Finding;
use std::alloc::{AllocError, Global};
use std::ops::Range;

/// The most bytes of a file that a drawing is about, and the most bytes of a line of it.
pub const MOST: usize = 4096;
/// The most labels of a drawing.
const MOST_LABELS: usize = 20;

/// Lines of a file, as a drawing shows them.
#[derive(Drop)]
struct Excerpt<'a> {
    /// The lines as they are in the file, without the last line end.
    lines: &'a str,
    /// The byte offset in the file at which they start.
    start: usize,
    /// The number of the first line.
    number: u32,
    /// The lines, with LF for CRLF.
    source: String,
}

/// Returns the smallest range that has two others.
fn join_ranges(one: &Range<usize>, other: &Range<usize>) -> Range<usize> {
    let start = if one.start < other.start {
        one.start
    } else {
        other.start
    };
    let end = if one.end < other.end {
        other.end
    } else {
        one.end
    };
    start..end
}

/// Returns the smallest range of a file that has all ranges of a finding.
fn extent(finding: &Finding) -> Range<usize> {
    let mut extent = finding.span.start..finding.span.end;
    for label in &finding.labels {
        extent = join_ranges(&extent, &label.range);
    }
    for note in &finding.notes {
        for range in &note.ranges {
            extent = join_ranges(&extent, range);
        }
    }
    if let Some(help) = &finding.help {
        for edit in &help.edits {
            extent = join_ranges(&extent, &edit.range);
        }
    }
    extent
}

/// Returns the byte offset at which the line of an offset starts, after a byte order mark at the
/// start of the file.
fn line_start(text: &str, offset: usize) -> usize {
    let (front, _) = text.split_at(text.floor_char_boundary(offset));
    match front.rsplit_once('\n') {
        Some((head, _)) => head.len() + 1,
        None => text.len() - text.strip_prefix('\u{feff}').unwrap_or(text).len(),
    }
}

/// Returns the byte offset at which the line of an offset ends, without its line end, or `None` if
/// that is too far.
fn line_end(text: &str, offset: usize) -> Option<usize> {
    let (_, rest) = text.split_at(text.floor_char_boundary(offset));
    let (window, remainder) = rest.split_at(rest.floor_char_boundary(MOST + 2));
    let length = match window.split_once('\n') {
        Some((line, _)) => line.strip_suffix('\r').unwrap_or(line).len(),
        None if remainder.is_empty() => window.len(),
        None => return None,
    };
    Some(offset.saturating_add(length))
}

/// Returns the lines of a range of a file, or `None` if they are too long for a drawing.
fn excerpt_of<'a>(
    alloc: Global,
    file: &File<'a>,
    range: &Range<usize>,
) -> Result<Option<Excerpt<'a>>, AllocError>
    requires { file.now.places ≡ file.now.text.now }
{
    let offset = file.text.floor_char_boundary(range.start);
    let place = file.places.place_of(offset);
    if range.end.saturating_sub(range.start) > MOST || place.column > MOST {
        return Ok(None);
    }
    let start = line_start(file.text, offset);
    let Some(end) = line_end(file.text, range.end) else {
        return Ok(None);
    };
    let lines = file.text.get(start..end).unwrap_or("");
    let mut source = String::new(alloc);
    for line in lines.split('\n') {
        if line.len() > MOST {
            return Ok(None);
        }
        source.push_str(line.strip_suffix('\r').unwrap_or(line))?;
        source.push('\n')?;
    }
    let number = if place.line < 1 << 32 {
        place.line as u32
    } else {
        u32::MAX
    };
    Ok(Some(Excerpt {
        lines,
        start,
        number,
        source,
    }))
}

impl<'a> Excerpt<'a> {
    /// Returns the byte offset in the source of an offset of the file.
    fn offset(&self, offset: usize) -> usize {
        let at = offset.saturating_sub(self.start);
        let (front, _) = self.lines.split_at(self.lines.floor_char_boundary(at));
        let mut crs = 0usize;
        for line in front.split('\n') {
            if line.ends_with('\r') {
                crs = crs.saturating_add(1);
            }
        }
        front.len().saturating_sub(crs)
    }

    /// Returns the byte range in the source of a range of the file.
    fn range(&self, range: &Range<usize>) -> Range<usize> {
        self.offset(range.start)..self.offset(range.end)
    }

    /// Returns the labels of a finding. Returns `Err` if an allocation fails.
    fn labels<'f>(
        &self,
        alloc: Global,
        finding: &'f Finding,
    ) -> Result<Vec<SourceLabel<'f>>, AllocError> {
        let mut labels = Vec::new(alloc);
        for label in &finding.labels {
            labels.push(SourceLabel {
                span: self.range(&label.range),
                is_primary: label.is_primary,
                text: label.text.as_str(),
            })?;
        }
        Ok(labels)
    }

    /// Returns the ranges of the notes of a finding. Returns `Err` if an allocation fails.
    fn note_ranges(
        &self,
        alloc: Global,
        finding: &Finding,
    ) -> Result<Vec<Vec<Range<usize>>>, AllocError> {
        let mut all = Vec::new(alloc);
        for note in &finding.notes {
            let mut ranges = Vec::new(alloc);
            for range in &note.ranges {
                ranges.push(self.range(range))?;
            }
            all.push(ranges)?;
        }
        Ok(all)
    }

    /// Returns the edits of the help of a finding with these texts, or none. Returns `Err` if an
    /// allocation fails.
    fn edits<'f>(
        &self,
        alloc: Global,
        finding: &Finding,
        texts: &'f [String],
    ) -> Result<Vec<Edit<'f>>, AllocError> {
        let mut edits = Vec::new(alloc);
        if let Some(help) = &finding.help {
            for (edit, text) in help.edits.iter().zip(texts) {
                edits.push(Edit {
                    span: self.range(&edit.range),
                    text: text.as_str(),
                })?;
            }
        }
        Ok(edits)
    }
}

/// Returns a text with LF for CRLF. Returns `Err` if an allocation fails.
fn with_line_feeds(alloc: Global, text: &str) -> Result<String, AllocError> {
    let mut out = String::new(alloc);
    let mut is_first = true;
    for part in text.split("\r\n") {
        if !is_first {
            out.push('\n')?;
        }
        is_first = false;
        out.push_str(part)?;
    }
    Ok(out)
}

/// Returns the new texts of the help of a finding, with LF for CRLF, or none. Returns `Err` if an
/// allocation fails.
fn edit_texts(alloc: Global, finding: &Finding) -> Result<Vec<String>, AllocError> {
    let mut texts = Vec::new(alloc);
    if let Some(help) = &finding.help {
        for edit in &help.edits {
            texts.push(with_line_feeds(alloc, edit.text.as_str())?)?;
        }
    }
    Ok(texts)
}

/// Returns the notes of a finding, with these ranges. Returns `Err` if an allocation fails.
fn notes<'f>(
    alloc: Global,
    finding: &'f Finding,
    ranges: &'f [Vec<Range<usize>>],
) -> Result<Vec<SourceNote<'f>>, AllocError> {
    let mut notes = Vec::new(alloc);
    for (note, spans) in finding.notes.iter().zip(ranges) {
        notes.push(SourceNote {
            text: note.text.as_str(),
            spans: spans.as_slice(),
        })?;
    }
    Ok(notes)
}

/// Returns the help of a finding, with these edits, or none. Returns `Err` if an allocation fails.
fn helps<'f>(
    alloc: Global,
    finding: &'f Finding,
    edits: &'f [Edit<'f>],
) -> Result<Vec<SourceHelp<'f>>, AllocError> {
    let mut helps = Vec::new(alloc);
    if let Some(help) = &finding.help {
        helps.push(SourceHelp {
            text: help.text.as_str(),
            edits,
        })?;
    }
    Ok(helps)
}

/// Returns the level of a finding.
fn level(finding: &Finding) -> Level {
    if finding.is_warning {
        Level::Warning
    } else {
        Level::Error
    }
}

/// Appends the drawing of a finding under these lines. Returns `Err` if an allocation fails.
fn put_drawn<'x>(
    out: &mut String,
    colours: bool,
    width: usize,
    path: &'x str,
    excerpt: &'x Excerpt<'_>,
    finding: &'x Finding,
) -> Result<(), AllocError> {
    let alloc = *out.allocator();
    let labels = excerpt.labels(alloc, finding)?;
    let ranges = excerpt.note_ranges(alloc, finding)?;
    let notes = notes(alloc, finding, ranges.as_slice())?;
    let texts = edit_texts(alloc, finding)?;
    let edits = excerpt.edits(alloc, finding, texts.as_slice())?;
    let helps = helps(alloc, finding, edits.as_slice())?;
    let picture = Picture {
        path,
        source: excerpt.source.as_str(),
        line_start: excerpt.number,
        literal_start: 0,
        width,
        colours,
    };
    let diagnostic = Diagnostic {
        level: level(finding),
        title: finding.title.as_str(),
        labels: labels.as_slice(),
        notes: notes.as_slice(),
        helps: helps.as_slice(),
    };
    put_labels(out, &picture, &diagnostic)
}

/// Appends the drawing of a finding, maybe in colours, and returns whether there is one: none is
/// made of more than 20 labels, of more than 4,096 bytes, or of a line with more than that. Returns
/// `Err` if an allocation fails.
fn put_drawing(
    out: &mut String,
    colours: bool,
    width: usize,
    file: &File<'_>,
    finding: &Finding,
) -> Result<bool, AllocError>
    requires { file.now.places ≡ file.now.text.now }
{
    if finding.labels.len() > MOST_LABELS {
        return Ok(false);
    }
    let Some(excerpt) = excerpt_of(*out.allocator(), file, &extent(finding))? else {
        return Ok(false);
    };
    put_drawn(out, colours, width, file.path, &excerpt, finding)?;
    Ok(true)
}

/// Appends a message in the form for people: drawn, maybe in colours, or else in a line. Returns
/// `Err` if an allocation fails.
pub fn put_human(
    out: &mut String,
    colours: bool,
    width: usize,
    file: &File<'_>,
    finding: &Finding,
    message: &Message<'_>,
) -> Result<(), AllocError>
    requires { file.now.places ≡ file.now.text.now }
{
    if put_drawing(out, colours, width, file, finding)? {
        return Ok(());
    }
    put_short(out, message)
}
