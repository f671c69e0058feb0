//! What stands before a token, as far as it matters to names of macros.

ghost use Rattle.std.specs.Prelude.{◌≡◌, IsTrue, option_map};
ghost use Rattle.rust_trees.specs.Leaves.{leaf};
ghost use Rattle.macro_owners.specs.Contexts.{after, depth_after, first, goes_on, import_after};
ghost use Rattle.macro_owners.specs.Contexts.{defines, ends_item, exports, opens_macro};
ghost use Rattle.macro_owners.specs.Contexts.{path_after, seen, starts_import, uses_macros};
ghost use Rattle.macro_owners.specs.Quiet.{is_plain, is_quiet};

use crate::names::is_hygienic;
use crate::words::{is_mark, is_named, is_notable, word_of};
use format_calls::is_word;
use rust_trees::{Side, Token};

/// What stands before a token.
#[derive(Clone, Copy)]
pub struct Context<'a> {
    /// The token before the last one.
    pub previous: Option<Token<'a>>,
    /// The last token.
    pub last: Option<Token<'a>>,
    /// Whether an import begins, and its crate is still to come.
    pub starts_import: bool,
    /// The first token of the import that is not over yet.
    pub import_root: Option<Token<'a>>,
    /// The first word of the path that ends with the last token.
    pub path_root: Option<Token<'a>>,
    /// Whether the last token is a word of this path, and not the first one.
    pub goes_on: bool,
    /// Whether `macro_use` was read in the item that is not over yet.
    pub uses_macros: bool,
    /// Whether a macro that the file defines is exported.
    pub exports: bool,
    /// Whether the last token is the name of a macro that `macro_rules!` defines.
    pub defines: bool,
    /// The number of delimiters that are open, from that of a macro on which may define others.
    pub depth: usize,
}

/// Returns what stands before the first token of a file.
pub fn first_context<'a>() -> Context<'a>
    ensures { seen result ≡ first }
{
    Context {
        previous: None,
        last: None,
        starts_import: false,
        import_root: None,
        path_root: None,
        goes_on: false,
        uses_macros: false,
        exports: false,
        defines: false,
        depth: 0,
    }
}

/// Returns whether a token goes on with the path before it.
#[inline(always)]
fn goes_on(context: Context<'_>, token: Token<'_>) -> bool
    ensures { result ≡ goes_on (seen context.entry) (leaf token.entry) }
{
    is_word(&token)
        && is_mark(context.last, b':')
        && is_mark(context.previous, b':')
        && context.path_root.is_some()
}

/// Returns the first word of the path that ends with a token, or `None` if none does.
#[inline(always)]
fn path_after<'a>(context: Context<'a>, token: Token<'a>) -> Option<Token<'a>>
    ensures { option_map leaf result ≡ path_after (seen context.entry) (leaf token.entry) }
{
    if goes_on(context, token) || is_mark(Some(token), b':') {
        context.path_root
    } else if is_word(&token) {
        Some(token)
    } else {
        None
    }
}

/// Returns the first token of the import that goes on after a token, or `None` if none does.
fn import_after<'a>(context: Context<'a>, token: Token<'a>) -> Option<Token<'a>>
    ensures { option_map leaf result ≡ import_after (seen context.entry) (leaf token.entry) }
{
    if is_named(Some(token), "use") || is_mark(Some(token), b';') {
        return None;
    }
    if !context.starts_import {
        return context.import_root;
    }
    if is_mark(Some(token), b':') || is_mark(Some(token), b'<') {
        return None;
    }
    Some(token)
}

/// Returns whether a delimiter after this opens the arguments of a macro that may define others, or
/// the arms of a definition.
#[inline(always)]
fn opens_macro(context: Context<'_>) -> bool
    ensures { result ≡ opens_macro (seen context.entry) }
{
    let name = word_of(context.previous);
    context.defines || is_mark(context.last, b'!') && name != b"".as_slice() && !is_hygienic(name)
}

/// Returns the number of delimiters that are open after a token.
#[inline(always)]
fn depth_after(context: Context<'_>, token: Token<'_>) -> usize
    ensures { result ≡ depth_after (seen context.entry) (leaf token.entry) }
{
    match token.side() {
        Side::Opens(_) if context.depth > 0 => context.depth.saturating_add(1),
        Side::Opens(_) if opens_macro(context) => 1,
        Side::Opens(_) => 0,
        Side::Closes(_) => context.depth.saturating_sub(1),
        Side::Neither => context.depth,
    }
}

/// Returns whether an import begins with a token or goes on to begin after it.
fn starts_import(context: Context<'_>, token: Token<'_>) -> bool
    ensures { result ≡ starts_import (seen context.entry) (leaf token.entry) }
{
    is_named(Some(token), "use") || context.starts_import && is_mark(Some(token), b':')
}

/// Returns whether a token ends an item or begins its body.
fn ends_item(token: Token<'_>) -> bool
    ensures { result ≡ ends_item (leaf token.entry) }
{
    is_mark(Some(token), b';') || is_mark(Some(token), b'{') || is_mark(Some(token), b'}')
}

/// Returns whether `macro_use` was read in the item that goes on after a token.
fn uses_macros(context: Context<'_>, token: Token<'_>) -> bool
    ensures { result ≡ uses_macros (seen context.entry) (leaf token.entry) }
{
    is_named(Some(token), "macro_use") || context.uses_macros && !ends_item(token)
}

/// Returns whether `macro_export` was read with this token.
fn exports(context: Context<'_>, token: Token<'_>) -> bool
    ensures { result ≡ exports (seen context.entry) (leaf token.entry) }
{
    context.exports || is_named(Some(token), "macro_export")
}

/// Returns whether the next token is the name of a macro that `macro_rules!` defines.
pub fn defines(context: Context<'_>) -> bool
    ensures { result ≡ defines (seen context.entry) }
{
    is_mark(context.last, b'!') && is_named(context.previous, "macro_rules")
}

impl<'a> Context<'a> {
    /// Returns what stands before the token after this one.
    fn after(self, token: Token<'a>) -> Context<'a>
        ensures { seen result ≡ after (seen self.entry) (leaf token.entry) }
    {
        Context {
            previous: self.last,
            last: Some(token),
            starts_import: starts_import(self, token),
            import_root: import_after(self, token),
            path_root: path_after(self, token),
            goes_on: goes_on(self, token),
            uses_macros: uses_macros(self, token),
            exports: exports(self, token),
            defines: defines(self),
            depth: depth_after(self, token),
        }
    }

    /// Returns whether a plain token after this only spoils names.
    pub fn is_quiet(&self) -> bool
        ensures { result ≡ is_quiet (seen self.now) }
    {
        !(is_named(self.previous, "as")
            || is_notable(self.last)
            || self.starts_import
            || self.uses_macros
            || self.defines)
    }

    /// Counts the delimiters that are open after a token, which opens no macro.
    #[inline(always)]
    fn count_delimiter(&mut self, token: Token<'a>)
        requires { IsTrue (is_quiet (seen self.old)) }
        ensures { seen self.new ≡ record (seen self.old) {
          depth = depth_after (seen self.old) (leaf token.entry);
        } }
    {
        if self.depth == 0 {
            return;
        }
        self.depth = depth_after(*self, token);
    }

    /// Goes on with the path before a token, ends it, or begins another one with the token.
    #[inline(always)]
    fn follow_path(&mut self, token: Token<'a>)
        ensures { seen self.new ≡ record (seen self.old) {
          path_root = path_after (seen self.old) (leaf token.entry);
          goes_on = goes_on (seen self.old) (leaf token.entry);
        } }
    {
        if is_word(&token) {
            self.goes_on = goes_on(*self, token);
            if !self.goes_on {
                self.path_root = Some(token);
            }
        } else {
            self.goes_on = false;
            if !is_mark(Some(token), b':') {
                self.path_root = None;
            }
        }
    }

    /// Passes a plain token where it only spoils names.
    #[inline(always)]
    pub fn pass_quietly(&mut self, token: Token<'a>)
        requires quiet { IsTrue (is_quiet (seen self.old)) }
        requires plain { IsTrue (is_plain (seen self.old) (leaf token)) }
        ensures after { seen self.new ≡ after (seen self.old) (leaf token.entry) }
        ensures quiet { IsTrue (is_quiet (seen self.new)) }
    {
        self.count_delimiter(token);
        self.follow_path(token);
        self.previous = self.last;
        self.last = Some(token);
    }

    /// Passes a token.
    pub fn pass(&mut self, token: Token<'a>)
        ensures { seen self.new ≡ after (seen self.old) (leaf token.entry) }
    {
        *self = self.after(token);
    }
}
