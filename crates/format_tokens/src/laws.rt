//! Theorems about the definitions alone, each as the contract of a function that does nothing.

ghost use Rattle.std.specs.Prelude.{◌≡◌, ℕ, Bool, List, Option, false, flat_map, map};
ghost use Rattle.std.specs.List.{AllByRecursion};
ghost use Rattle.rustc_parse_format.specs.Characters.{Text};
ghost use Rattle.rustc_parse_format.specs.Grammar.{Reads, piece_values};
ghost use Rattle.rustc_parse_format.specs.Source.{unappended_input};
ghost use Rattle.rustc_parse_format.specs.Syntax.{PieceText};
ghost use Rattle.rustc_parse_format.specs.Types.{Mode, Piece, wants_names};
ghost use Rattle.format_tokens.specs.Culprits.{marked_tokens};
ghost use Rattle.format_tokens.specs.Escapes.{Placed, parts};
ghost use Rattle.format_tokens.specs.Spans.{input_tokens, tokens};
ghost use Rattle.format_tokens.specs.Sections.{HasAppended, Section, faults_of, has_fault};
ghost use Rattle.format_tokens.specs.Sections.{has_mark, sections};
ghost use Rattle.format_tokens.specs.Sequences.{apart_escapes, is_sequence, sequence, sequences};
ghost use Rattle.format_tokens.specs.Tokens.{joined_text, pieces_tokens};
ghost use Rattle.format_tokens.specs.Walk.{IsWritten, tokens_of};

/// States that the characters of the tokens of an input, one after the other, are the input without
/// an appended newline, even if it has faults. Does nothing.
pub fn tokens_join()
    ensures { (mode : Mode) (input : Text) (appended : Bool)
        → joined_text (input_tokens mode input appended) ≡ unappended_input appended input }
{}

/// States that the tokens of a text that is in the grammar are its parts as they are written: of
/// any pieces that it is written as, which need not be clean, and so of those of its reading. Does
/// nothing.
pub fn tokens_are_parts()
    ensures written { (mode : Mode) (t : Text) (xs : List PieceText) → IsWritten mode t xs
        → tokens_of mode t ≡ marked_tokens (wants_names mode) false (pieces_tokens xs) }
    ensures reading { (mode : Mode) (t : Text) (ps : List (Piece (Unit {0}))) → Reads mode 0 t ps
        → (xs : List PieceText) × IsWritten mode t xs × (piece_values 0 xs ≡ ps) }
{}

/// States that the tokens of kind `EscapeSequence` are the escapes of the literal: a token of
/// another kind, over this source text, is cut so that each escape in it that is in text or
/// continues a line is such a token, over the bytes of this escape, and there are no others. Does
/// nothing.
pub fn escapes()
    ensures { (x : Placed) (t : Text) → is_sequence x.0 ≡ false
        → sequences (parts x t) ≡ map (sequence x.1.1) (apart_escapes x.0 t) }
{}

/// States that each fault of a text has a mark, and each mark a fault, between the same two
/// placeholders: a section of the text, from an opening brace that stands alone up to the next one,
/// has a token that is `Unexpected` or a `RawPrefix` exactly if calls find a fault in it. The
/// sections have the tokens and the faults of the text, in order. The tokens of the text in its
/// literal, cut at escapes there, have a mark exactly if the text has a fault. Does nothing.
pub fn marks()
    ensures tokens { (mode : Mode) (t : Text)
        → tokens_of mode t ≡ flat_map (λ (s : Section). s.tokens) (sections mode t) }
    ensures faults { (mode : Mode) (t : Text)
        → faults_of mode t ≡ flat_map (λ (s : Section). s.faults) (sections mode t) }
    ensures marks { (mode : Mode) (t : Text)
        → AllByRecursion (λ (s : Section). has_mark s.tokens ≡ has_fault s.faults)
        (sections mode t) }
    ensures literals { (mode : Mode) (input : Text) (style : Option ℕ) (snippet : Option Text)
        (appended : Bool) → HasAppended appended input
        → has_mark (tokens mode input style snippet appended) ≡ has_fault (faults_of mode input) }
{}
