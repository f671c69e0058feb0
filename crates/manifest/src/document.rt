//! The text of a manifest, read as TOML.

ghost use Rattle.std.specs.Prelude.{◌≡◌, Some, None, option_map, IfOk, IfErr};
ghost use Rattle.toml.specs.Data.{table};
ghost use Rattle.toml.specs.Parse.{parse_document};
ghost use Rattle.toml.specs.View.{view};

use std::alloc::Global;
use toml::{Value, table_from_str};

/// The reason why a text has no value.
#[derive(Clone, Copy)]
pub enum Refusal {
    /// An allocation failed.
    Memory,
    /// The text is no TOML, which shows at this byte offset.
    Syntax(usize),
}

/// Returns the table that a text is in TOML 1.1, which cargo reads. A byte order mark is passed
/// over. Returns `Err` if it is no TOML, or an allocation fails.
pub fn read_toml(alloc: Global, text: &str) -> Result<Value, Refusal>
    ensures value { IfOk result
        (λ v. option_map table (parse_document text.now) ≡ Some (view v)) }
    ensures refused { IfErr result
        (λ e. ¬ (e ≡ Refusal.Memory) → parse_document text.now ≡ None) }
{
    match table_from_str(alloc, text) {
        Ok(members) => Ok(Value::Table(members)),
        Err(error) => match error.span() {
            Some(range) => Err(Refusal::Syntax(range.start)),
            None => Err(Refusal::Memory),
        },
    }
}
