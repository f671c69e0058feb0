//! The macros that a file defines by `macro_rules!`, and calls of others than those of the table.

ghost use Rattle.std.specs.Prelude.{◌≡◌, ◌||◌, ℕ, List, IfOk, OnOk, map, option_map, slice_get};
ghost use Rattle.std.specs.List.{list_any};
ghost use Rattle.std.specs.Str.{bytes_eq};
ghost use Rattle.source_lint.specs.Macros.{begins_definition, definition, is_macro_rules};
ghost use Rattle.source_lint.specs.Macros.{macro_names, names_in, newline_by, own};
ghost use Rattle.source_lint.specs.Readings.{is_log, is_own, name_at, newline_of};
ghost use Rattle.source_lint.specs.Readings.{offset_of_leaf, scope, skipped_reading};
ghost use Rattle.source_lint.specs.Files.{AreLeaves};
ghost use Rattle.rust_trees.specs.Leaves.{Leaf, leaf};

use asm_lint::appends_newline;
use call_forms::is_foreign;
use format_calls::{Call, Rule, is_mark_of, is_of_crates, is_word, token_at, word};
use rust_tokens::Kind;
use rust_trees::{Token, Tokens};
use source_report::CallReading;
use std::alloc::{AllocError, Global};
use std::collections::BTreeSet;

/// A macro that a file defines, and of which the table says how its calls are read.
#[derive(Clone, Copy)]
pub struct OwnMacro<'a> {
    /// Its name.
    pub name: &'a str,
    /// Whether it appends a newline to its format string.
    pub appends_newline: bool,
}

/// A file, with what its calls are read by.
#[derive(Clone, Copy)]
pub struct File<'s, 'a> {
    /// The text.
    pub text: &'a str,
    /// The names of the macros that it defines.
    pub macros: &'s BTreeSet<&'a [u8]>,
    /// Those of these macros of which the table says how their calls are read.
    pub own_macros: &'s [OwnMacro<'s>],
    /// Whether its edition is 2021 or a later one.
    pub is_from_2021: bool,
}

/// Returns whether a token is the word `macro_rules`.
fn is_macro_rules(token: &Token<'_>) -> bool
    ensures { result ≡ is_macro_rules (leaf token.now) }
{
    matches!(token.kind, Kind::Ident) && token.text == "macro_rules"
}

/// Returns whether two tokens, one after the other, are `macro_rules` and `!`.
fn begins_definition(word: Option<Token<'_>>, bang: Option<Token<'_>>) -> bool
    ensures { result ≡ begins_definition (option_map leaf word.entry) (option_map leaf bang.entry) }
{
    match (word, bang) {
        (Some(word), Some(bang)) => is_macro_rules(&word) && is_mark_of(&bang, b'!'),
        _ => false,
    }
}

/// Adds the name of the macro that a token defines after two others, if it does. Returns `Err` if
/// an allocation fails.
fn put_definition<'a>(
    names: &mut BTreeSet<&'a [u8]>,
    previous: Option<Token<'a>>,
    last: Option<Token<'a>>,
    token: &Token<'a>,
) -> Result<(), AllocError>
    ensures { OnOk result ((n : List ℕ) → list_any (bytes_eq n) (names_in names.new)
        ≡ (list_any (bytes_eq n) (names_in names.old) || list_any (bytes_eq n)
        (definition (option_map leaf previous.entry) (option_map leaf last.entry)
        (leaf token.now)))) }
{
    if begins_definition(previous, last) && is_word(token) {
        names.insert(word(token))?;
    }
    Ok(())
}

/// Returns the names of the macros that a file defines by `macro_rules!`, without `r#`. Returns
/// `Err` if an allocation fails.
pub fn macro_names<'a>(alloc: Global, text: &'a str) -> Result<BTreeSet<&'a [u8]>, AllocError>
    ensures { IfOk result (λ s. (ls : List Leaf) × AreLeaves text.now ls
        × ((n : List ℕ) → list_any (bytes_eq n) (names_in s)
        ≡ list_any (bytes_eq n) (macro_names ls))) }
{
    let mut names = BTreeSet::new(alloc);
    if !text.contains("macro_rules") {
        return Ok(names);
    }
    let mut rest = Tokens::new(text);
    let mut previous = None;
    let mut last = None;
    while let Some(token) = rest.next() {
        put_definition(&mut names, previous, last, &token)?;
        previous = last;
        last = Some(token);
    }
    Ok(names)
}

/// Returns whether a word is one of these names.
fn is_defined<'a>(names: &BTreeSet<&'a [u8]>, word: &'a [u8]) -> bool
    ensures { result ≡ list_any (bytes_eq word.now) (names_in names.now) }
{
    names.contains(&word)
}

/// Returns whether the first of these macros that has a name appends a newline to its format
/// string, or `None` if none has it.
fn newline_by(own_macros: &[OwnMacro<'_>], name: &[u8]) -> Option<bool>
    ensures { result ≡ newline_by (map own own_macros.now) name.now }
{
    for own_macro in own_macros {
        if own_macro.name.as_bytes() == name {
            return Some(own_macro.appends_newline);
        }
    }
    None
}

/// Returns whether the table says how calls of the macro of a name are read, which a file defines.
fn is_own(file: File<'_, '_>, name: &[u8]) -> bool
    ensures { result ≡ is_own (scope file.entry) name.now }
{
    newline_by(file.own_macros, name).is_some()
}

/// Returns whether a macro of this name appends a newline to its format string in a file.
pub(crate) fn newline_of(file: File<'_, '_>, name: &[u8]) -> bool
    ensures { result ≡ newline_of (scope file.entry) name.now }
{
    match newline_by(file.own_macros, name) {
        Some(appended_newline) => appended_newline,
        None => appends_newline(name),
    }
}

/// Returns the name of a call, without `r#`.
pub fn name_at<'a>(tokens: &[Token<'a>], name: usize) -> &'a [u8]
    ensures { result.now ≡ name_at (map leaf tokens.now) name }
{
    match token_at(tokens, name) {
        Some(token) => word(&token),
        None => b"",
    }
}

/// Returns the offset of the name of a call in its file.
fn offset_at(tokens: &[Token<'_>], name: usize) -> usize
    ensures { result ≡ offset_of_leaf (slice_get (map leaf tokens.now) name) }
{
    match token_at(tokens, name) {
        Some(token) => token.start,
        None => 0,
    }
}

/// Returns whether a macro with this rule and this name is one of log, tracing or slog, if no path
/// says otherwise.
fn is_log(rule: Rule, name: &[u8]) -> bool
    ensures { result ≡ is_log rule name.now }
{
    matches!(rule, Rule::FirstLiteral) && is_of_crates(name)
}

/// Returns the reading of a call whose macro is another one than that of the table, or `None` if it
/// is that one, as far as the file shows.
pub fn other_macro<'a>(file: File<'_, 'a>, tokens: &[Token<'a>], call: &Call) -> Option<CallReading>
    ensures { result ≡ skipped_reading (scope file.entry) call.now.rule
        (slice_get (map leaf tokens.now) call.now.name) }
{
    let name = name_at(tokens, call.name);
    if is_defined(file.macros, name) && !is_own(file, name) {
        return Some(CallReading::RedefinedMacro);
    }
    if is_log(call.rule, name) && is_foreign(file.text, offset_at(tokens, call.name)) {
        return Some(CallReading::ForeignMacro);
    }
    None
}
