//! Diagnostics with their ranges in the file.

ghost use Rattle.std.specs.Prelude.{◌≡◌, [], IfOk, IfSome, None, map, option_map};
ghost use Rattle.std.specs.List.{All, filter_map};
ghost use Rattle.diagnostic.specs.Parts.{seen_diagnostic, seen_label, seen_note, seen_suggestion};
ghost use Rattle.asm_lint.specs.Findings.{found_help, found_label, found_note, help_among, nowhere};
ghost use Rattle.asm_lint.specs.Findings.{is_warning, said, said_by, said_label, said_note};
ghost use Rattle.asm_lint.specs.Spans.{HasSpans, IsSpan};

use crate::finding_labels::primary_span;
use crate::spans::{Site, spot_range};
use diagnostic::{Diagnostic, Label, Level, Note, NoteLevel};
use source_report::{Finding, Help, Label as FoundLabel, Note as FoundNote};
use std::alloc::{AllocError, Global};
use std::ops::Range;
use text_faults::Spot;

/// Returns labels with their ranges. Returns `Err` if an allocation fails.
fn labels(
    alloc: Global,
    site: Site<'_, '_>,
    labels: Vec<Label<Spot>>,
) -> Result<Vec<FoundLabel>, AllocError>
    ensures said { IfOk result (λ v. map found_label v.items
        ≡ map said_label (map seen_label labels.items)) }
    ensures spans { IfOk result (λ v. All (λ x. IsSpan site.entry.text.now x.range) v.items) }
{
    let mut list = Vec::new(alloc);
    for label in labels {
        list.push(FoundLabel {
            range: spot_range(site, label.place),
            is_primary: label.is_primary,
            text: label.text,
        })?;
    }
    Ok(list)
}

/// Returns the ranges of places. Returns `Err` if an allocation fails.
fn ranges(
    alloc: Global,
    site: Site<'_, '_>,
    places: Vec<Spot>,
) -> Result<Vec<Range<usize>>, AllocError>
    ensures shown { IfOk result (λ v. map nowhere v.items ≡ map nowhere places.items) }
    ensures spans { IfOk result (λ v. All (λ r. IsSpan site.entry.text.now r) v.items) }
{
    let mut list = Vec::new(alloc);
    for place in places {
        list.push(spot_range(site, place))?;
    }
    Ok(list)
}

/// The notes of a diagnostic in its file, and its help.
struct FoundNotes {
    notes: Vec<FoundNote>,
    help: Option<Help>,
}

/// Returns notes with the ranges that they show, and the last help among them. Returns `Err` if an
/// allocation fails.
fn notes(
    alloc: Global,
    site: Site<'_, '_>,
    notes: Vec<Note<Spot>>,
) -> Result<FoundNotes, AllocError>
    ensures notes { IfOk result (λ v. map found_note v.notes.items
        ≡ filter_map said_note (map seen_note notes.items)) }
    ensures help { IfOk result (λ v. option_map found_help v.help
        ≡ help_among None (map seen_note notes.items)) }
    ensures spans { IfOk result (λ v. All (λ x. All (λ r. IsSpan site.entry.text.now r)
        x.ranges.items) v.notes.items) }
    ensures no_edits { IfOk result (λ v. IfSome v.help (λ h. h.edits.items ≡ [])) }
{
    let mut list = Vec::new(alloc);
    let mut help = None;
    for note in notes {
        match note.level {
            NoteLevel::Note => {
                let ranges = ranges(alloc, site, note.places)?;
                list.push(FoundNote {
                    text: note.text,
                    ranges,
                })?;
            }
            NoteLevel::Help => {
                help = Some(Help {
                    text: note.text,
                    edits: Vec::new(alloc),
                });
            }
        }
    }
    Ok(FoundNotes { notes: list, help })
}

/// Returns whether a level is that of a warning.
fn is_warning(level: Level) -> bool
    ensures { result ≡ is_warning level }
{
    matches!(level, Level::Warning)
}

/// Returns a diagnostic without suggestions as a finding. Returns `Err` if an allocation fails.
pub fn finding_of(
    alloc: Global,
    site: Site<'_, '_>,
    diagnostic: Diagnostic<Spot>,
) -> Result<Finding, AllocError>
    requires { map seen_suggestion diagnostic.suggestions.items ≡ [] }
    ensures said { IfOk result (λ x. said x ≡ said_by (seen_diagnostic diagnostic)) }
    ensures spans { IfOk result (λ x. HasSpans site.entry.text.now x) }
{
    let labels = labels(alloc, site, diagnostic.labels)?;
    let span = primary_span(site, &labels);
    let FoundNotes { notes, help } = notes(alloc, site, diagnostic.notes)?;
    Ok(Finding {
        is_warning: is_warning(diagnostic.level),
        id: diagnostic.id.name(),
        title: diagnostic.title,
        span,
        labels,
        notes,
        help,
    })
}
