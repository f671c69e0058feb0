//! The notes of faults, in rustc's words. A function whose name begins with `push_` adds to the end
//! of a list, and returns `Err` if an allocation fails.

ghost use Rattle.std.specs.Prelude.{◌≡◌, ◌++◌, ◌∷◌, [], IfOk, OnOk, chars, is_some, map};
ghost use Rattle.std.specs.Prelude.{option_map, string_bytes};
ghost use Rattle.std.specs.List.{list_any};
ghost use Rattle.rustc_parse_format.specs.Characters.{Text};
ghost use Rattle.rustc_parse_format.specs.Faults.{message};
ghost use Rattle.rustc_parse_format.specs.Views.{seen_piece, seen_alignment, seen_count};
ghost use Rattle.rustc_parse_format.specs.Views.{seen_position};
ghost use Rattle.rustc_parse_format.specs.Views.{seen_spec};
ghost use Rattle.rustc_parse_format.specs.FaultViews.{seen_fault as seen_text_fault};
ghost use Rattle.call_faults.specs.Notes.{ambiguity_text, are_missing, capture_text, count_note};
ghost use Rattle.call_faults.specs.Notes.{flags_note, has_flags};
ghost use Rattle.call_faults.specs.Notes.{has_star, is_aligned, is_flagged, is_given, is_name};
ghost use Rattle.call_faults.specs.Notes.{is_variable, missing_notes, named_position};
ghost use Rattle.call_faults.specs.Notes.{named_positions, note_if, redundant_note};
ghost use Rattle.call_faults.specs.Notes.{redundant_text, specifiers, text_notes, traits_text};
ghost use Rattle.call_faults.specs.Notes.{unused_notes, variable_of};
ghost use Rattle.placeholder_check.specs.Views.{text};
ghost use Rattle.call_faults.specs.Views.{found_in, seen_call, seen_fault, seen_given, seen_note};
ghost use Rattle.call_faults.specs.Spots.{plain_note};

use crate::arguments::{FormatArgument, index_of, insert};
use crate::checker::CallReport;
use crate::faults::CallFault;
use crate::missing_labels::star_of;
use crate::spots::{CallNote, bytes_at};
use crate::titles::{have_numbers, put_name_between, put_number};
use rustc_parse_format::{Alignment, Count, Fault, FormatSpec, Piece, Position};
use std::alloc::{AllocError, Global};
use std::collections::BTreeMap;
use text_faults::Spot;

/// Adds a note that shows no place.
fn push_plain(notes: &mut Vec<CallNote>, text: &str) -> Result<(), AllocError>
    ensures { OnOk result (map seen_note notes.new.items
        ≡ map seen_note notes.old.items ++ plain_note text.now ∷ []) }
{
    let alloc = *notes.allocator();
    let text = String::from_str(alloc, text)?;
    let spots = Vec::new(alloc);
    notes.push(CallNote { text, spots })?;
    Ok(())
}

/// Adds a note that shows no place, if a test holds.
fn push_if(notes: &mut Vec<CallNote>, has_note: bool, text: &str) -> Result<(), AllocError>
    ensures { OnOk result (map seen_note notes.new.items
        ≡ map seen_note notes.old.items ++ note_if has_note text.now) }
{
    if has_note {
        push_plain(notes, text)?;
    }
    Ok(())
}

/// Adds the note of a fault of the string.
fn push_text(alloc: Global, notes: &mut Vec<CallNote>, fault: &Fault<'_>) -> Result<(), AllocError>
    ensures { OnOk result (map seen_note notes.new.items ≡ map seen_note notes.old.items
        ++ text_notes (message (seen_text_fault fault.now)).note) }
{
    let error = fault.error(alloc)?;
    if let Some(note) = &error.note {
        push_plain(notes, note)?;
    }
    Ok(())
}

/// Returns the first note of a name that no argument has. Returns `Err` if an allocation fails.
#[tactic(auto, unfolding(crate::specs::Notes::capture_text))]
fn capture_text(alloc: Global, name: &str) -> Result<String, AllocError>
    ensures { IfOk result (λ s. string_bytes s ≡ capture_text (chars name.now)) }
{
    let mut text = String::new(alloc);
    let front = "did you intend to capture a variable ";
    put_name_between(&mut text, front, name, " from the surrounding scope?")?;
    Ok(text)
}

/// Returns the note of a name, where no variable is captured.
#[tactic(auto, unfolding(crate::specs::Notes::ambiguity_text))]
fn ambiguity_text() -> &'static str
    ensures { result.now ≡ ambiguity_text }
{
    "to avoid ambiguity, `format_args!` cannot capture variables when the format string is expanded from a macro"
}

/// Adds the notes of a name that no argument has.
#[tactic(auto, using(std::proofs::Common::append_assoc))]
fn push_name(notes: &mut Vec<CallNote>, name: &str) -> Result<(), AllocError>
    ensures { OnOk result (map seen_note notes.new.items ≡ map seen_note notes.old.items
        ++ plain_note (capture_text (chars name.now)) ∷ plain_note ambiguity_text ∷ []) }
{
    let text = capture_text(*notes.allocator(), name)?;
    push_plain(notes, &text)?;
    push_plain(notes, ambiguity_text())?;
    Ok(())
}

/// Returns the note on the traits that a placeholder may want, each on a line.
#[tactic(auto, unfolding(crate::specs::Notes::traits_text))]
fn traits_text() -> &'static str
    ensures { result.now ≡ traits_text }
{
    "the only appropriate formatting traits are:\n\
    - ``, which uses the `Display` trait\n\
    - `?`, which uses the `Debug` trait\n\
    - `e`, which uses the `LowerExp` trait\n\
    - `E`, which uses the `UpperExp` trait\n\
    - `o`, which uses the `Octal` trait\n\
    - `p`, which uses the `Pointer` trait\n\
    - `b`, which uses the `Binary` trait\n\
    - `x`, which uses the `LowerHex` trait\n\
    - `X`, which uses the `UpperHex` trait"
}

/// Returns whether a width or a precision is given.
fn is_given(count: &Count<'_>) -> bool
    ensures { result ≡ is_given (seen_count count.now) }
{
    !matches!(count, Count::CountImplied)
}

/// Returns whether an alignment is given.
fn is_aligned(align: Alignment) -> bool
    ensures { result ≡ is_aligned (seen_alignment align) }
{
    !matches!(align, Alignment::AlignUnknown)
}

/// Returns whether a specification has more than a trait.
fn has_flags(format: &FormatSpec<'_>) -> bool
    ensures { result ≡ has_flags (seen_spec format.now) }
{
    ((format.fill.is_some() || is_aligned(format.align))
        || (format.sign.is_some() || format.alternate))
        || ((format.zero_pad || format.debug_hex.is_some())
            || (is_given(&format.width) || is_given(&format.precision)))
}

/// Returns whether a piece has more than a trait.
fn is_flagged(piece: &Piece<'_>) -> bool
    ensures { result ≡ is_flagged (seen_piece piece.now) }
{
    match piece {
        Piece::Lit(_) => false,
        Piece::NextArgument(argument) => has_flags(&argument.format),
    }
}

/// Returns whether one of these pieces has more than a trait.
fn are_flagged(pieces: &[Piece<'_>]) -> bool
    ensures { result ≡ list_any is_flagged (map seen_piece pieces.now) }
{
    for piece in pieces {
        if is_flagged(piece) {
            return true;
        }
    }
    false
}

/// Returns whether a piece takes an argument by `*`.
fn has_star(piece: &Piece<'_>) -> bool
    ensures { result ≡ has_star (seen_piece piece.now) }
{
    match piece {
        Piece::Lit(_) => false,
        Piece::NextArgument(argument) => star_of(&argument.format.precision).is_some(),
    }
}

/// Returns whether one of these pieces takes an argument by `*`.
fn have_stars(pieces: &[Piece<'_>]) -> bool
    ensures { result ≡ list_any has_star (map seen_piece pieces.now) }
{
    for piece in pieces {
        if has_star(piece) {
            return true;
        }
    }
    false
}

/// Returns the note on how arguments are counted.
#[tactic(auto, unfolding(crate::specs::Notes::count_note))]
fn count_note() -> &'static str
    ensures { result.now ≡ count_note }
{
    "positional arguments are zero-based"
}

/// Returns the note on the flags that a placeholder may have.
#[tactic(auto, unfolding(crate::specs::Notes::flags_note))]
fn flags_note() -> &'static str
    ensures { result.now ≡ flags_note }
{
    "for information about formatting flags, visit https://doc.rust-lang.org/std/fmt/index.html"
}

/// Adds the notes of missing arguments.
#[tactic(auto, using(std::proofs::Common::append_assoc))]
fn push_missing(notes: &mut Vec<CallNote>, pieces: &[Piece<'_>]) -> Result<(), AllocError>
    ensures { OnOk result (map seen_note notes.new.items
        ≡ map seen_note notes.old.items ++ missing_notes (map seen_piece pieces.now)) }
{
    let is_counted = have_numbers(pieces) || have_stars(pieces);
    push_if(notes, is_counted, count_note())?;
    push_if(notes, are_flagged(pieces), flags_note())?;
    Ok(())
}

/// Returns whether one of these faults is that arguments are missing.
pub(crate) fn are_missing(faults: &[CallFault<'_>]) -> bool
    ensures { result ≡ list_any are_missing (map seen_fault faults.now) }
{
    for fault in faults {
        if let CallFault::MissingArguments(_) = fault {
            return true;
        }
    }
    false
}

/// Adds so many placeholders, in words.
pub(crate) fn put_specifiers(out: &mut String, count: usize) -> Result<(), AllocError>
    ensures { OnOk result (string_bytes out.new ≡ string_bytes out.old ++ specifiers count) }
{
    if count == 1 {
        out.push_str("a format specifier")?;
        return Ok(());
    }
    put_number(out, count)?;
    out.push_str(" format specifiers")?;
    Ok(())
}

/// Adds the note of so many unused arguments, if there is one.
fn push_unused(
    notes: &mut Vec<CallNote>,
    call: &CallReport<'_>,
    count: usize,
) -> Result<(), AllocError>
    ensures { OnOk result (map seen_note notes.new.items
        ≡ map seen_note notes.old.items ++ unused_notes (seen_call call.now) count) }
{
    if are_missing(&call.faults) || count == call.indices.len() || count <= 1 {
        return Ok(());
    }
    let mut text = String::from_str(*notes.allocator(), "consider adding ")?;
    put_specifiers(&mut text, count)?;
    push_plain(notes, &text)?;
    Ok(())
}

/// Returns the variable that an argument is, or `None` if it is no variable.
fn variable_of<'a>(arguments: &[FormatArgument<'a>], index: usize) -> Option<&'a str>
    ensures { option_map text result ≡ variable_of (map seen_given arguments.now) index }
{
    match arguments.get(index) {
        Some(argument) => argument.variable,
        None => None,
    }
}

/// Returns the variables that arguments are, as the names that a map has. Returns `Err` if an
/// allocation fails.
fn variables_of<'a>(
    alloc: Global,
    arguments: &[FormatArgument<'a>],
    indices: &[usize],
) -> Result<BTreeMap<&'a str, usize>, AllocError>
    ensures { IfOk result (λ m. (w : Text) → is_some (found_in m w)
        ≡ list_any (is_variable (map seen_given arguments.now) w) indices.now) }
{
    let mut names = BTreeMap::new(alloc);
    for index in indices {
        if let Some(variable) = variable_of(arguments, *index) {
            insert(&mut names, variable, 0)?;
        }
    }
    Ok(names)
}

/// Returns whether a position is a name that a map has.
fn is_name<'a>(names: &BTreeMap<&'a str, usize>, position: &Position<'a>) -> bool
    ensures { result ≡ is_name (λ w. is_some (found_in names.now w))
        (seen_position position.now) }
{
    match position {
        Position::ArgumentNamed(name) => index_of(names, name).is_some(),
        Position::ArgumentImplicitlyIs(_) | Position::ArgumentIs(_) => false,
    }
}

/// Adds the place of the position of a piece, if that is a name that a map has.
fn push_position<'a>(
    spots: &mut Vec<Spot>,
    names: &BTreeMap<&'a str, usize>,
    piece: &Piece<'a>,
) -> Result<(), AllocError>
    ensures { OnOk result (spots.new.items ≡ spots.old.items
        ++ named_position (λ w. is_some (found_in names.now w)) (seen_piece piece.now)) }
{
    if let Piece::NextArgument(argument) = piece {
        if is_name(names, &argument.position) {
            spots.push(bytes_at(&argument.position_span))?;
        }
    }
    Ok(())
}

/// Returns the places of the positions of pieces that are names which a map has. Returns `Err` if
/// an allocation fails.
fn named_positions<'a>(
    alloc: Global,
    names: &BTreeMap<&'a str, usize>,
    pieces: &[Piece<'a>],
) -> Result<Vec<Spot>, AllocError>
    ensures { IfOk result (λ v. v.items
        ≡ named_positions (λ w. is_some (found_in names.now w)) (map seen_piece pieces.now)) }
{
    let mut spots = Vec::new(alloc);
    for piece in pieces {
        push_position(&mut spots, names, piece)?;
    }
    Ok(spots)
}

/// Returns the text of the note of so many redundant arguments.
fn redundant_text(count: usize) -> &'static str
    ensures { result.now ≡ redundant_text count }
{
    if count == 1 {
        "the formatting specifier is referencing the binding already"
    } else {
        "the formatting specifiers are referencing the bindings already"
    }
}

/// Adds the note of redundant arguments.
fn push_redundant<'a>(
    alloc: Global,
    notes: &mut Vec<CallNote>,
    call: &CallReport<'a>,
    redundant_indices: &[usize],
) -> Result<(), AllocError>
    ensures { OnOk result (map seen_note notes.new.items ≡ map seen_note notes.old.items
        ++ redundant_note (seen_call call.now) redundant_indices.now ∷ []) }
{
    let names = variables_of(alloc, call.arguments, redundant_indices)?;
    let spots = named_positions(alloc, &names, &call.pieces)?;
    let text = String::from_str(alloc, redundant_text(redundant_indices.len()))?;
    notes.push(CallNote { text, spots })?;
    Ok(())
}

impl<'a> CallReport<'a> {
    ghost use Rattle.std.specs.Prelude.{◌≡◌, IfOk, map};
    ghost use Rattle.call_faults.specs.Notes.{notes};
    ghost use Rattle.call_faults.specs.Views.{seen_call, seen_fault, seen_note};

    /// Returns the notes of one of the faults, as rustc has them, but for the note of a warning
    /// which says that it is on by default. A fault of the string has the note of its error.
    /// Returns `Err` if an allocation fails.
    #[tactic(auto, unfolding(crate::specs::Notes::notes))]
    pub fn notes(&self, alloc: Global, fault: &CallFault<'a>) -> Result<Vec<CallNote>, AllocError>
        ensures { IfOk result (λ v. map seen_note v.items
            ≡ notes (seen_call self.now) (seen_fault fault.now)) }
    {
        let mut notes = Vec::new(alloc);
        match fault {
            CallFault::PositionalAfterNamed { .. }
            | CallFault::RepeatedName { .. }
            | CallFault::NameUsedByIndex { .. } => {}
            CallFault::Text(fault) => push_text(alloc, &mut notes, fault)?,
            CallFault::MissingName { name, .. } => push_name(&mut notes, name)?,
            CallFault::UnknownTrait { .. } => push_plain(&mut notes, traits_text())?,
            CallFault::MissingArguments(_) => push_missing(&mut notes, &self.pieces)?,
            CallFault::UnusedArguments(unused_indices) => push_unused(
                &mut notes,
                self,
                unused_indices.len(),
            )?,
            CallFault::RedundantArguments(redundant_indices) => {
                push_redundant(alloc, &mut notes, self, redundant_indices)?;
            }
        }
        Ok(notes)
    }
}
