//! Laws of token trees: each is the contract of a function that does nothing.

ghost use Rattle.std.specs.Prelude.{◌≡◌, List, Option};
ghost use Rattle.rust_trees.specs.Breaks.{Breaks};
ghost use Rattle.rust_trees.specs.Forests.{Forest, IsWell, spelling};
ghost use Rattle.rust_trees.specs.Leaves.{Leaf};
ghost use Rattle.rust_trees.specs.declared.matching.DelimiterBreak.{DelimiterBreak};

/// Tokens are a forest in at most one way.
pub fn one_forest()
    ensures { (f g : Forest) → IsWell f → IsWell g → spelling f ≡ spelling g → f ≡ g }
{}

/// Tokens are a forest, or they break at one place.
pub fn one_break()
    ensures { (xs : List Leaf) (a b : Option DelimiterBreak) → Breaks xs a → Breaks xs b → a ≡ b }
{}
