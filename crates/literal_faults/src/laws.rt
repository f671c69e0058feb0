//! Laws of faults and of files: each is the contract of a function that does nothing.

ghost use Rattle.std.specs.Prelude.{◌≡◌, List, ℕ};
ghost use Rattle.rustc_parse_format.specs.Characters.{Text};
ghost use Rattle.literal_faults.specs.Faults.{IsFault};
ghost use Rattle.literal_faults.specs.Margins.{IsSnippet};
ghost use Rattle.literal_faults.specs.declared.fault.LiteralFault.{LiteralFault};

/// A text is no string literal because of one fault, at one place.
pub fn fault_is_unique()
    ensures { (t : Text) (f g : LiteralFault) → IsFault t f → IsFault t g → f ≡ g }
{}

/// A file has one text without its margins, at one place.
pub fn snippet_is_unique()
    ensures { (file a b s t : List ℕ) (m n : ℕ) → IsSnippet file a s m → IsSnippet file b t n
        → (a ≡ b) × (s ≡ t) × (m ≡ n) }
{}
