//! A law of macros that hand their tokens on: the contract of a function that does nothing.

ghost use Rattle.std.specs.Prelude.{List};
ghost use Rattle.format_calls.specs.Rows.{Entry};
ghost use Rattle.macro_owners.specs.Expansions.{ForwardsAll};

/// Whichever arm of a definition takes the tokens of a call, those after its arguments stand in its
/// expansion as all tokens of a call of a known macro.
pub fn forwards_all()
    ensures { (es : List Entry) → ForwardsAll es }
{}
