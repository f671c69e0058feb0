//! The keywords of Rust.

ghost use Rattle.std.specs.Prelude.{◌≡◌};
ghost use Rattle.call_forms.specs.Keywords.{is_control, is_keyword, is_modifier, is_reserved};
ghost use Rattle.call_forms.specs.Keywords.{is_special, kind_word};

/// Returns whether a word is a keyword around which expressions may stand.
pub fn is_control(word: &str) -> bool
    ensures { result ≡ is_control word.now }
{
    word == "as"
        || word == "break"
        || word == "continue"
        || word == "else"
        || word == "for"
        || word == "if"
        || word == "in"
        || word == "let"
        || word == "loop"
        || word == "match"
        || word == "return"
        || word == "while"
        || word == "yield"
}

/// Returns whether a word is a keyword in front of an expression, a pattern or a type.
pub fn is_modifier(word: &str) -> bool
    ensures { result ≡ is_modifier word.now }
{
    word == "async"
        || word == "const"
        || word == "dyn"
        || word == "extern"
        || word == "fn"
        || word == "impl"
        || word == "move"
        || word == "mut"
        || word == "ref"
        || word == "static"
        || word == "unsafe"
}

/// Returns whether a word is a keyword that is an expression or begins a path.
pub fn is_special(word: &str) -> bool
    ensures { result ≡ is_special word.now }
{
    word == "_"
        || word == "crate"
        || word == "false"
        || word == "self"
        || word == "Self"
        || word == "super"
        || word == "true"
}

/// Returns whether a word is a keyword that has no use so far.
fn is_reserved(word: &str) -> bool
    ensures { result ≡ is_reserved word.now }
{
    word == "abstract"
        || word == "become"
        || word == "box"
        || word == "do"
        || word == "final"
        || word == "macro"
        || word == "override"
        || word == "priv"
        || word == "try"
        || word == "typeof"
        || word == "unsized"
        || word == "virtual"
        || word == "yield"
}

/// Returns whether a word that is not reserved is a keyword.
fn is_keyword(word: &str) -> bool
    ensures { result ≡ is_keyword word.now }
{
    is_control(word)
        || is_modifier(word)
        || is_special(word)
        || word == "await"
        || word == "enum"
        || word == "mod"
        || word == "pub"
        || word == "struct"
        || word == "trait"
        || word == "type"
        || word == "use"
        || word == "where"
}

/// Returns the words of rustc before a token in a title, with the space after them.
#[tactic(auto, unfolding(crate::specs::Keywords::kind_word))]
pub fn kind_word(text: &str) -> &'static str
    ensures { result.now ≡ kind_word text.now }
{
    if text == "_" {
        "reserved identifier "
    } else if is_reserved(text) {
        "reserved keyword "
    } else if is_keyword(text) {
        "keyword "
    } else {
        ""
    }
}
