//! The check of a text.

ghost use Rattle.std.specs.Prelude.{◌≡◌, ◌+◌, ◌<◌, ◌^◌, ◌++◌, ◌||◌, ℕ, IfOk, List, None, OnOk};
ghost use Rattle.std.specs.Prelude.{Option, chars, codes, encode_utf8_all, length, map, option_map};
ghost use Rattle.std.specs.Str.{bytes_eq};
ghost use Rattle.rustc_parse_format.specs.Characters.{Text};
ghost use Rattle.rustc_parse_format.specs.Views.{pair, seen_piece, seen_argument, seen_snippet};
ghost use Rattle.rustc_parse_format.specs.FaultViews.{seen_fault as seen_text_fault};
ghost use Rattle.placeholder_check.specs.Collection.{has_text};
ghost use Rattle.placeholder_check.specs.Views.{text as seen_text};
ghost use Rattle.text_faults.specs.Texts.{text_fault};
ghost use Rattle.message_faults.specs.Messages.{faults_of, faults_or, message_faults, name_faults};
ghost use Rattle.message_faults.specs.Messages.{piece_faults, placeholder_faults};
ghost use Rattle.message_faults.specs.Messages.{specifier_faults, spot_of};
ghost use Rattle.message_faults.specs.Views.{HasNames, HasParameters, known_names, seen_fault};
ghost use Rattle.message_faults.specs.Views.{start};

use crate::faults::MessageFault;
use rustc_parse_format::{Argument, Fault, ParseMode, Parser, Piece, Position, Reading, read_all};
use std::alloc::{AllocError, Global};
use std::collections::BTreeSet;
use std::ops::Range;
use text_faults::{Spot, text_fault};

/// A text of an attribute.
#[derive(Clone, Copy)]
pub struct Message<'a, 's, 'p> {
    /// The text that its literal stands for.
    pub text: &'a str,
    /// The literal as it is in the source, if it is known. In a raw one no place is shown: rustc
    /// takes it for an ordinary one.
    pub snippet: Option<&'a str>,
    /// The names of the parameters of the trait that are types or constants, or `None` if other
    /// names mean something too, as in the attribute of the compiler itself.
    pub parameters: Option<&'s BTreeSet<&'p str>>,
}

/// Returns a text as a string. Returns `Err` if an allocation fails.
fn owned_string(alloc: Global, text: Option<&str>) -> Result<Option<String>, AllocError>
    ensures { IfOk result (λ o. seen_snippet o ≡ option_map seen_text text.entry) }
{
    match text {
        None => Ok(None),
        Some(text) => Ok(Some(String::from_str(alloc, text)?)),
    }
}

/// Returns the fault of a text that rustc shows, or `None` if it is in the grammar. Returns `Err`
/// if an allocation fails.
fn fault_of<'a>(
    alloc: Global,
    message: Message<'a, '_, '_>,
) -> Result<Option<Fault<'a>>, AllocError>
    requires { length message.text.now + 2 < 2 ^ 64 }
    ensures { IfOk result (λ o. option_map seen_text_fault o
        ≡ text_fault (start message.entry)) }
{
    let snippet = owned_string(alloc, message.snippet)?;
    let mut parser = Parser::new(
        alloc,
        message.text,
        None,
        snippet,
        false,
        ParseMode::Diagnostic,
    )?;
    text_fault(alloc, &mut parser)
}

/// Puts a name into a set. Returns `Err` if an allocation fails.
fn insert<'a>(names: &mut BTreeSet<&'a str>, name: &'a str) -> Result<(), AllocError>
    ensures { OnOk result ((w : Text) → has_text names.new w
        ≡ (bytes_eq w (chars name.now) || has_text names.old w)) }
{
    names.insert(name)?;
    Ok(())
}

/// Returns the set of the names of parameters, for [`Message::parameters`]. Returns `Err` if an
/// allocation fails.
pub fn names_of<'a>(alloc: Global, parameters: &[&'a str]) -> Result<BTreeSet<&'a str>, AllocError>
    ensures { IfOk result (λ s. HasNames (map (λ p. p.now) parameters.now) s) }
{
    let mut names = BTreeSet::new(alloc);
    for parameter in parameters {
        insert(&mut names, parameter)?;
    }
    Ok(names)
}

/// Returns whether a set has a name.
fn has_name(names: &BTreeSet<&str>, name: &str) -> bool
    ensures { result ≡ has_text names.now (chars name.now) }
{
    names.contains(name)
}

/// Returns whether a name is `Self`.
fn is_self(name: &str) -> bool
    ensures { result ≡ bytes_eq (encode_utf8_all (chars name.now)) (codes "Self") }
{
    name == "Self"
}

/// Returns a range of the literal, or all of it where its ranges are not known.
fn spot_of(is_known: bool, span: &Range<usize>) -> Spot
    ensures { result ≡ spot_of is_known (pair span.now) }
{
    if !is_known {
        return Spot::Literal;
    }
    Spot::Bytes {
        start: span.start,
        end: span.end,
    }
}

/// Adds the fault of the specification of a placeholder, if it has one. Returns `Err` if an
/// allocation fails.
fn push_specifier<'a>(
    faults: &mut Vec<MessageFault<'a>>,
    is_known: bool,
    span: &Option<Range<usize>>,
) -> Result<(), AllocError>
    ensures { OnOk result (map seen_fault faults.new.items ≡ map seen_fault faults.old.items
        ++ specifier_faults is_known (option_map pair span.now)) }
{
    if let Some(span) = span {
        faults.push(MessageFault::Specifier {
            spot: spot_of(is_known, span),
        })?;
    }
    Ok(())
}

/// Adds the fault of a name, if it is that of no parameter. Returns `Err` if an allocation fails.
fn push_name<'a>(
    faults: &mut Vec<MessageFault<'a>>,
    names: Option<&BTreeSet<&str>>,
    spot: Spot,
    name: &'a str,
) -> Result<(), AllocError>
    ensures { OnOk result (map seen_fault faults.new.items ≡ map seen_fault faults.old.items
        ++ name_faults (known_names names.entry) spot (chars name.now)) }
{
    if let Some(names) = names {
        if !is_self(name) && !has_name(names, name) {
            faults.push(MessageFault::MissingParameter { spot, name })?;
        }
    }
    Ok(())
}

/// Adds the faults of a placeholder. Returns `Err` if an allocation fails.
fn push_placeholder<'a>(
    faults: &mut Vec<MessageFault<'a>>,
    names: Option<&BTreeSet<&str>>,
    is_known: bool,
    argument: &Argument<'a>,
) -> Result<(), AllocError>
    ensures { OnOk result (map seen_fault faults.new.items ≡ map seen_fault faults.old.items
        ++ placeholder_faults (known_names names.entry) is_known
        (seen_argument argument.now)) }
{
    push_specifier(faults, is_known, &argument.format.ty_span)?;
    let spot = spot_of(is_known, &argument.position_span);
    match argument.position {
        Position::ArgumentNamed(name) => push_name(faults, names, spot, name)?,
        Position::ArgumentIs(_) | Position::ArgumentImplicitlyIs(_) => {
            faults.push(MessageFault::Positional { spot })?;
        }
    }
    Ok(())
}

/// Adds the faults of a piece. Returns `Err` if an allocation fails.
fn push_piece<'a>(
    faults: &mut Vec<MessageFault<'a>>,
    names: Option<&BTreeSet<&str>>,
    is_known: bool,
    piece: &Piece<'a>,
) -> Result<(), AllocError>
    ensures { OnOk result (map seen_fault faults.new.items ≡ map seen_fault faults.old.items
        ++ piece_faults (known_names names.entry) is_known (seen_piece piece.now)) }
{
    match piece {
        Piece::Lit(_) => Ok(()),
        Piece::NextArgument(argument) => push_placeholder(faults, names, is_known, argument),
    }
}

/// Adds the faults of pieces. Returns `Err` if an allocation fails.
fn push_pieces<'a>(
    faults: &mut Vec<MessageFault<'a>>,
    names: Option<&BTreeSet<&str>>,
    is_known: bool,
    pieces: &[Piece<'a>],
) -> Result<(), AllocError>
    ensures { OnOk result (map seen_fault faults.new.items ≡ map seen_fault faults.old.items
        ++ faults_of (known_names names.entry) is_known (map seen_piece pieces.now)) }
{
    for piece in pieces {
        push_piece(faults, names, is_known, piece)?;
    }
    Ok(())
}

/// Adds the faults of the placeholders of a text. Returns `Err` if an allocation fails.
fn push_placeholders<'a>(
    alloc: Global,
    faults: &mut Vec<MessageFault<'a>>,
    message: Message<'a, '_, '_>,
) -> Result<(), AllocError>
    requires { length message.text.now + 2 < 2 ^ 64 }
    ensures { OnOk result (map seen_fault faults.new.items ≡ map seen_fault faults.old.items
        ++ faults_or (known_names message.entry.parameters) (start message.entry) None) }
{
    let snippet = owned_string(alloc, message.snippet)?;
    let Reading { pieces, parser } = read_all(
        alloc,
        message.text,
        None,
        snippet,
        false,
        ParseMode::Diagnostic,
    )?;
    let is_known = parser.is_source_literal();
    push_pieces(faults, message.parameters, is_known, &pieces)?;
    Ok(())
}

/// Returns the faults of a text. Returns `Err` if an allocation fails.
fn faults_of<'a>(
    alloc: Global,
    message: Message<'a, '_, '_>,
) -> Result<Vec<MessageFault<'a>>, AllocError>
    requires { length message.text.now + 2 < 2 ^ 64 }
    ensures { IfOk result (λ v. map seen_fault v.items ≡ faults_or
        (known_names message.entry.parameters) (start message.entry)
        (text_fault (start message.entry))) }
{
    let mut faults = Vec::new(alloc);
    match fault_of(alloc, message)? {
        Some(fault) => faults.push(MessageFault::Text(fault))?,
        None => push_placeholders(alloc, &mut faults, message)?,
    }
    Ok(faults)
}

/// Checks a text of the attribute `diagnostic::on_unimplemented`, and returns its faults in the
/// order of its placeholders, of which the specifications and the positions are looked at.
///
/// The length of the text in bytes and 2 must together be less than 2^64. Returns `Err` if an
/// allocation fails.
pub fn message_faults<'a>(
    alloc: Global,
    message: Message<'a, '_, '_>,
) -> Result<Vec<MessageFault<'a>>, AllocError>
    requires { length message.text.now + 2 < 2 ^ 64 }
    ensures { IfOk result (λ v. (ps : Option (List (List ℕ)))
        → HasParameters ps message.entry.parameters
        → map seen_fault v.items ≡ message_faults ps (start message.entry)) }
{
    faults_of(alloc, message)
}
