//! Laws of the tokens of texts and files: each is the contract of a function that does nothing.

ghost use Rattle.std.specs.Prelude.{◌≡◌, ◌≤◌, ◌++◌, ◌∷◌, ℕ, Bool, IsTrue, List, length};
ghost use Rattle.std.specs.List.{list_all};
ghost use Rattle.rust_tokens.specs.Files.{ReadsFile};
ghost use Rattle.rust_tokens.specs.Fronts.{EndsWithBarrier, ReadsBeforeWords};
ghost use Rattle.rust_tokens.specs.Runs.{is_id_start};
ghost use Rattle.rust_tokens.specs.Texts.{Text};
ghost use Rattle.rust_tokens.specs.Tokens.{Begins, Lexeme, Reads, ReadsTo, Stands, is_allowed};
ghost use Rattle.rust_tokens.specs.declared.kinds.Kind.{Kind};

/// A text, and a file, read as tokens in at most one way.
pub fn one_reading()
    ensures text { (whole : Text) (xs ys : List Lexeme) → Reads whole xs → Reads whole ys
        → xs ≡ ys }
    ensures file { (whole : Text) (xs ys : List Lexeme) → ReadsFile whole xs → ReadsFile whole ys
        → xs ≡ ys }
{}

/// Each text reads as tokens, and so does each file.
pub fn every_text_reads()
    ensures text { (whole : Text) → (xs : List Lexeme) × Reads whole xs }
    ensures file { (whole : Text) → (xs : List Lexeme) × ReadsFile whole xs }
{}

/// The token that a text begins with is the longest, suffixes aside: no longer front of the text is
/// a token of any kind that may stand before the text after that front.
pub fn longest_token()
    ensures { (x : Lexeme) (whole r : Text) (k : Kind) (e : Bool) (b a s : Text)
        → Begins x whole r → Stands k e b a → whole ≡ b ++ s → IsTrue (is_allowed k b s)
        → length b ≤ length x.body }
{}

/// A front of a text that ends with a barrier, and reads as tokens that have their ends, up to a
/// word, reads as these tokens before each word.
pub fn front_before_words()
    ensures { (u t : Text) (c : ℕ) (xs : List Lexeme) → EndsWithBarrier u → IsTrue (is_id_start c)
        → IsTrue (list_all (λ x. x.is_ended) xs) → ReadsTo (u ++ c ∷ t) xs (c ∷ t)
        → ReadsBeforeWords u xs }
{}
