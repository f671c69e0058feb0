//! The texts of the attributes `diagnostic::on_unimplemented` of a file.

ghost use Rattle.std.specs.Prelude.{◌≡◌, ◌+◌, ◌<◌, ◌≤◌, ◌++◌, ℕ, List, IfOk, IfSome, IsNone};
ghost use Rattle.std.specs.Prelude.{IsTrue, OnOk, chars, false, length, map, option_map};
ghost use Rattle.std.specs.Prelude.{slice_get};
ghost use Rattle.std.specs.List.{All, AllByRecursion};
ghost use Rattle.message_faults.specs.Views.{HasNames};
ghost use Rattle.rust_trees.specs.Forests.{IsPair};
ghost use Rattle.rust_trees.specs.Leaves.{leaf};
ghost use Rattle.asm_lint.specs.Attributes.{IsAttribute, IsFront, IsItem, ReadsAt, ReadsFronts};
ghost use Rattle.asm_lint.specs.Attributes.{ReadsItem, ReadsItems, ReadsTexts};
ghost use Rattle.asm_lint.specs.Attributes.{begins_attribute, is_effective, is_modifier};
ghost use Rattle.asm_lint.specs.Attributes.{has_word_at, literal_list, literal_of, name_text};
ghost use Rattle.asm_lint.specs.Attributes.{opens_front, sets_word, texts_from};
ghost use Rattle.asm_lint.specs.Spans.{HasSpans};
ghost use Rattle.source_report.specs.declared.report.Finding.{Finding as FindingValue};

use crate::messages::{Item, read_text};
use call_forms::parameters;
use format_calls::{Argument, arguments, closing_token, is_mark, is_text, is_text_leaf, token_at};
use message_faults::names_of;
use rust_trees::{Source, Token};
use source_report::Finding;
use std::alloc::{AllocError, Global};

/// Returns whether the token of an index is this word.
fn has_word_at(tokens: &[Token<'_>], index: usize, word: &str) -> bool
    ensures value { result ≡ has_word_at (map leaf tokens.now) index word.now }
    ensures within { IsTrue result → index < length tokens.now }
{
    match token_at(tokens, index) {
        Some(token) => is_text(&token, word),
        None => false,
    }
}

/// Returns whether `#[diagnostic::on_unimplemented(` stands from a token on.
fn begins_attribute(tokens: &[Token<'_>], index: usize) -> bool
    ensures value { result ≡ begins_attribute (map leaf tokens.now) index }
    ensures within { IsTrue result → index + 6 < length tokens.now }
{
    is_mark(tokens, index, b'#')
        && is_mark(tokens, index + 1, b'[')
        && has_word_at(tokens, index + 2, "diagnostic")
        && is_mark(tokens, index + 3, b':')
        && is_mark(tokens, index + 4, b':')
        && has_word_at(tokens, index + 5, "on_unimplemented")
        && is_mark(tokens, index + 6, b'(')
}

/// Returns the token that closes the list of the attribute that stands at a token, or `None` if no
/// attribute does.
fn attribute_at(source: &Source<'_>, index: usize) -> Option<usize>
    ensures some { IfSome result (λ c. IsAttribute source.now index c) }
    ensures none { IsNone result → (c : ℕ) → IsAttribute source.now index c → ⊥ }
{
    if !begins_attribute(source.tokens(), index) {
        return None;
    }
    closing_token(source, index + 6)
}

/// Returns whether two tokens from one on are of the front of an item, of which the second opens a
/// pair.
fn opens_front(tokens: &[Token<'_>], index: usize) -> bool
    ensures value { result ≡ opens_front (map leaf tokens.now) index }
    ensures within { IsTrue result → index + 1 < length tokens.now }
{
    is_mark(tokens, index, b'#') && is_mark(tokens, index + 1, b'[')
        || has_word_at(tokens, index, "pub") && is_mark(tokens, index + 1, b'(')
}

/// Returns whether a token is a word of the front of an item.
fn is_modifier(tokens: &[Token<'_>], index: usize) -> bool
    ensures value { result ≡ is_modifier (map leaf tokens.now) index }
    ensures within { IsTrue result → index < length tokens.now }
{
    has_word_at(tokens, index, "pub")
        || has_word_at(tokens, index, "unsafe")
        || has_word_at(tokens, index, "auto")
        || has_word_at(tokens, index, "const")
}

/// Returns the token after the part of the front of an item that stands at a token, or `None` if no
/// such part does.
fn after_front(source: &Source<'_>, index: usize) -> Option<usize>
    ensures some { IfSome result (λ j. IsFront source.now index j) }
    ensures forward { IfSome result (λ j. (index < j) × (j ≤ length source.now)) }
    ensures none { IsNone result → (j : ℕ) → IsFront source.now index j → ⊥ }
{
    let tokens = source.tokens();
    if opens_front(tokens, index) {
        return match closing_token(source, index + 1) {
            Some(close) => Some(close + 1),
            None => None,
        };
    }
    if is_modifier(tokens, index) {
        return Some(index + 1);
    }
    None
}

/// The front of an item.
#[derive(Drop)]
struct Front {
    /// The tokens at which its parts start.
    starts: Vec<usize>,
    /// The token after it.
    end: usize,
}

/// Returns the front of the item that starts at a token. Returns `Err` if an allocation fails.
fn front_at(alloc: Global, source: &Source<'_>, start: usize) -> Result<Front, AllocError>
    requires { start ≤ length source.now }
    ensures item { IfOk result (λ f. IsItem source.now start f.starts.items f.end) }
    ensures forward { IfOk result (λ f. (start ≤ f.end) × (f.end ≤ length source.now)) }
{
    let mut starts = Vec::new(alloc);
    let mut end = start;
    while let Some(next_end) = after_front(source, end) {
        starts.push(end)?;
        end = next_end;
    }
    Ok(Front { starts, end })
}

/// Returns whether an option sets this word.
fn sets_word(tokens: &[Token<'_>], option: &Argument, word: &str) -> bool
    ensures { result ≡ sets_word (map leaf tokens.now) option.now word.now }
{
    option.is_named && has_word_at(tokens, option.start, word)
}

/// Returns the literal that an option sets, or `None` if it sets none.
fn literal_of<'a>(tokens: &[Token<'a>], option: &Argument) -> Option<Token<'a>>
    requires { option.now.start < length tokens.now }
    ensures { option_map leaf result ≡ literal_of (map leaf tokens.now) option.now }
{
    match token_at(tokens, option.start + 2) {
        Some(token) if option.end == option.start + 3 && is_text_leaf(&token) => Some(token),
        _ => None,
    }
}

/// Returns whether an option counts, where a message and a label have been there or not.
fn is_effective(tokens: &[Token<'_>], has_message: bool, has_label: bool, option: &Argument) -> bool
    ensures { result ≡ is_effective (map leaf tokens.now) has_message has_label option.now }
{
    sets_word(tokens, option, "message") && !has_message
        || sets_word(tokens, option, "label") && !has_label
        || sets_word(tokens, option, "note")
}

/// Adds the literal that an option sets, if it counts. Returns `Err` if an allocation fails.
fn put_literal<'a>(
    literals: &mut Vec<Token<'a>>,
    tokens: &[Token<'a>],
    has_message: bool,
    has_label: bool,
    option: &Argument,
) -> Result<(), AllocError>
    requires { option.now.start < length tokens.now }
    ensures { OnOk result (map leaf literals.new.items ≡ map leaf literals.old.items
        ++ literal_list (is_effective (map leaf tokens.now) has_message has_label option.now)
        (literal_of (map leaf tokens.now) option.now)) }
{
    if let Some(literal) = literal_of(tokens, option) {
        if is_effective(tokens, has_message, has_label, option) {
            literals.push(literal)?;
        }
    }
    Ok(())
}

/// Reads these literals before a trait, and adds their findings. Returns `Err` if an allocation
/// fails.
fn read_texts<'a>(
    alloc: Global,
    findings: &mut Vec<Finding>,
    text: &'a str,
    item: Item<'_, '_>,
    literals: &[Token<'a>],
) -> Result<(), AllocError>
    requires { HasNames (map (λ p. p.now) item.parameters.now) item.names.now }
    ensures read { OnOk result ((xs : List FindingValue)
        × (findings.new.items ≡ findings.old.items ++ xs) × ReadsTexts (chars item.entry.name.now)
        (map (λ p. p.now) item.entry.parameters.now) (map leaf literals.now) xs) }
    ensures spans { OnOk result (All (HasSpans text.now) findings.old.items
        → All (HasSpans text.now) findings.new.items) }
{
    for literal in literals {
        read_text(alloc, findings, text, item, literal)?;
    }
    Ok(())
}

/// Returns the literals of the options that count, in their order. Returns `Err` if an allocation
/// fails.
fn literals<'a>(
    alloc: Global,
    tokens: &[Token<'a>],
    options: &[Argument],
) -> Result<Vec<Token<'a>>, AllocError>
    requires { AllByRecursion (λ a. a.start < length tokens.now) options.now }
    ensures { IfOk result (λ v. map leaf v.items
        ≡ texts_from (map leaf tokens.now) false false options.now) }
{
    let mut literals = Vec::new(alloc);
    let mut has_message = false;
    let mut has_label = false;
    for option in options {
        put_literal(&mut literals, tokens, has_message, has_label, option)?;
        has_message = has_message || sets_word(tokens, option, "message");
        has_label = has_label || sets_word(tokens, option, "label");
    }
    Ok(literals)
}

/// Reads the attribute of a trait that stands at a token, if one does, and adds its findings.
/// Returns `Err` if an allocation fails.
fn read_at<'a>(
    alloc: Global,
    findings: &mut Vec<Finding>,
    text: &'a str,
    source: &Source<'a>,
    item: Item<'_, '_>,
    index: usize,
) -> Result<(), AllocError>
    requires { HasNames (map (λ p. p.now) item.parameters.now) item.names.now }
    ensures read { OnOk result ((xs : List FindingValue)
        × (findings.new.items ≡ findings.old.items ++ xs) × ReadsAt (chars item.entry.name.now)
        (map (λ p. p.now) item.entry.parameters.now) source.now index xs) }
    ensures spans { OnOk result (All (HasSpans text.now) findings.old.items
        → All (HasSpans text.now) findings.new.items) }
{
    let Some(close) = attribute_at(source, index) else {
        return Ok(());
    };
    let Some(options) = arguments(alloc, source, close)? else {
        return Ok(());
    };
    let literals = literals(alloc, source.tokens(), &options)?;
    read_texts(alloc, findings, text, item, &literals)?;
    Ok(())
}

/// Reads the attributes among the parts of the front of a trait, which start at these tokens, and
/// adds their findings. Returns `Err` if an allocation fails.
fn read_fronts<'a>(
    alloc: Global,
    findings: &mut Vec<Finding>,
    text: &'a str,
    source: &Source<'a>,
    item: Item<'_, '_>,
    starts: &[usize],
) -> Result<(), AllocError>
    requires { HasNames (map (λ p. p.now) item.parameters.now) item.names.now }
    ensures read { OnOk result ((xs : List FindingValue)
        × (findings.new.items ≡ findings.old.items ++ xs) × ReadsFronts (chars item.entry.name.now)
        (map (λ p. p.now) item.entry.parameters.now) source.now starts.now xs) }
    ensures spans { OnOk result (All (HasSpans text.now) findings.old.items
        → All (HasSpans text.now) findings.new.items) }
{
    for start in starts {
        read_at(alloc, findings, text, source, item, *start)?;
    }
    Ok(())
}

/// Returns the text of a token, or an empty one if there is no such token.
fn text_at<'a>(tokens: &[Token<'a>], index: usize) -> &'a str
    ensures { chars result.now ≡ name_text (slice_get (map leaf tokens.now) index) }
{
    match token_at(tokens, index) {
        Some(token) => token.text,
        None => "",
    }
}

/// Reads the attributes of an item with this front, and adds their findings. Returns `Err` if an
/// allocation fails.
fn read_item<'a>(
    alloc: Global,
    findings: &mut Vec<Finding>,
    text: &'a str,
    source: &Source<'a>,
    front: &Front,
) -> Result<(), AllocError>
    ensures read { OnOk result ((xs : List FindingValue)
        × (findings.new.items ≡ findings.old.items ++ xs)
        × ReadsItem source.now front.now.starts.items front.now.end xs) }
    ensures spans { OnOk result (All (HasSpans text.now) findings.old.items
        → All (HasSpans text.now) findings.new.items) }
{
    let tokens = source.tokens();
    if !has_word_at(tokens, front.end, "trait") {
        return Ok(());
    }
    let parameters = parameters(alloc, tokens, front.end + 2)?;
    let names = names_of(alloc, &parameters)?;
    let item = Item {
        name: text_at(tokens, front.end + 1),
        parameters: &parameters,
        names: &names,
    };
    read_fronts(alloc, findings, text, source, item, &front.starts)?;
    Ok(())
}

/// Reads the attributes of a file, which has these tokens, and adds their findings. Returns `Err`
/// if an allocation fails.
pub fn read_attributes<'a>(
    alloc: Global,
    findings: &mut Vec<Finding>,
    text: &'a str,
    source: &Source<'a>,
) -> Result<(), AllocError>
    ensures read { OnOk result ((ks : List ℕ) × (xs : List FindingValue)
        × (findings.new.items ≡ findings.old.items ++ xs) × ReadsItems source.now 0 ks xs) }
    ensures spans { OnOk result (All (HasSpans text.now) findings.old.items
        → All (HasSpans text.now) findings.new.items) }
{
    let count = source.tokens().len();
    let mut index = 0;
    while index < count {
        let front = front_at(alloc, source, index)?;
        read_item(alloc, findings, text, source, &front)?;
        index = front.end + 1;
    }
    Ok(())
}
