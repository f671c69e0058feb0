//! A token without its suffix, and the rest after it.

ghost use Rattle.std.specs.Prelude.{◌≡◌, chars, false, true};
ghost use Rattle.rust_tokens.specs.Views.{seen_body};

use crate::kinds::Kind;

/// A token without its suffix.
#[derive(Clone, Copy)]
pub struct Body<'a> {
    /// The kind.
    pub kind: Kind,
    /// Whether it has its end.
    pub is_ended: bool,
    /// The rest after it: its suffix, and the text that follows.
    pub rest: &'a str,
}

/// Returns the token of this kind after which `rest` is left.
pub fn ended_token(kind: Kind, rest: &str) -> Body<'_>
    ensures { seen_body result ≡ (kind, true, chars rest.now) }
{
    Body {
        kind,
        is_ended: true,
        rest,
    }
}

/// Returns the token of this kind without its end after which `rest` is left.
pub fn unended_token(kind: Kind, rest: &str) -> Body<'_>
    ensures { seen_body result ≡ (kind, false, chars rest.now) }
{
    Body {
        kind,
        is_ended: false,
        rest,
    }
}
