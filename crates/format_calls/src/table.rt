//! Macros that take a format string.

ghost use Rattle.std.specs.Prelude.{◌≡◌, ◌∷◌, ◌++◌, IfOk, OnErr, OnOk, is_some, map};
ghost use Rattle.format_calls.specs.Rows.{entry, rule_of};
ghost use Rattle.format_calls.specs.Standard.{standard, with_crate_macros};

use std::alloc::{AllocError, Global};

/// The rule for the argument of a macro that is its format string. The arguments after it are
/// formatted.
#[derive(Clone, Copy)]
pub enum Rule {
    /// The argument with this index.
    Index(usize),
    /// The argument with this index. Before the edition 2021 it is any expression if it is the
    /// last.
    IndexByEdition(usize),
    /// The first argument that is a string literal: fields may stand before it.
    FirstLiteral,
    /// The first argument, and the string literals that follow it, are templates of inline
    /// assembly. Operands follow.
    Templates,
}

/// A macro of a table.
#[derive(Clone, Copy)]
pub struct Row<'a> {
    /// Its name.
    pub name: &'a str,
    /// Its rule.
    pub rule: Rule,
}

/// A table of macros. Of several macros with one name the first counts.
#[derive(Drop)]
pub struct Table<'a> {
    /// The macros.
    pub rows: Vec<Row<'a>>,
}

/// The macros of the standard library.
const STANDARD: [Row<'static>; 23] = [
    Row {
        name: "format",
        rule: Rule::Index(0),
    },
    Row {
        name: "format_args",
        rule: Rule::Index(0),
    },
    Row {
        name: "print",
        rule: Rule::Index(0),
    },
    Row {
        name: "println",
        rule: Rule::Index(0),
    },
    Row {
        name: "eprint",
        rule: Rule::Index(0),
    },
    Row {
        name: "eprintln",
        rule: Rule::Index(0),
    },
    Row {
        name: "write",
        rule: Rule::Index(1),
    },
    Row {
        name: "writeln",
        rule: Rule::Index(1),
    },
    Row {
        name: "panic",
        rule: Rule::IndexByEdition(0),
    },
    Row {
        name: "unreachable",
        rule: Rule::IndexByEdition(0),
    },
    Row {
        name: "todo",
        rule: Rule::Index(0),
    },
    Row {
        name: "unimplemented",
        rule: Rule::Index(0),
    },
    Row {
        name: "assert",
        rule: Rule::IndexByEdition(1),
    },
    Row {
        name: "debug_assert",
        rule: Rule::IndexByEdition(1),
    },
    Row {
        name: "assert_eq",
        rule: Rule::Index(2),
    },
    Row {
        name: "assert_ne",
        rule: Rule::Index(2),
    },
    Row {
        name: "debug_assert_eq",
        rule: Rule::Index(2),
    },
    Row {
        name: "debug_assert_ne",
        rule: Rule::Index(2),
    },
    Row {
        name: "assert_matches",
        rule: Rule::Index(2),
    },
    Row {
        name: "debug_assert_matches",
        rule: Rule::Index(2),
    },
    Row {
        name: "asm",
        rule: Rule::Templates,
    },
    Row {
        name: "global_asm",
        rule: Rule::Templates,
    },
    Row {
        name: "naked_asm",
        rule: Rule::Templates,
    },
];

/// Macros of the crates log, tracing, slog, anyhow and eyre.
const CRATES: [Row<'static>; 13] = [
    Row {
        name: "error",
        rule: Rule::FirstLiteral,
    },
    Row {
        name: "warn",
        rule: Rule::FirstLiteral,
    },
    Row {
        name: "info",
        rule: Rule::FirstLiteral,
    },
    Row {
        name: "debug",
        rule: Rule::FirstLiteral,
    },
    Row {
        name: "trace",
        rule: Rule::FirstLiteral,
    },
    Row {
        name: "crit",
        rule: Rule::FirstLiteral,
    },
    Row {
        name: "log",
        rule: Rule::FirstLiteral,
    },
    Row {
        name: "event",
        rule: Rule::FirstLiteral,
    },
    Row {
        name: "anyhow",
        rule: Rule::Index(0),
    },
    Row {
        name: "eyre",
        rule: Rule::Index(0),
    },
    Row {
        name: "format_err",
        rule: Rule::Index(0),
    },
    Row {
        name: "bail",
        rule: Rule::Index(0),
    },
    Row {
        name: "ensure",
        rule: Rule::Index(1),
    },
];

/// Adds rows to the end of a list. Returns `Err` if an allocation fails.
fn push_rows<'a>(rows: &mut Vec<Row<'a>>, new_rows: &[Row<'static>]) -> Result<(), AllocError>
    ensures { OnOk result (rows.new.items ≡ rows.old.items ++ new_rows.now) }
{
    for row in new_rows {
        rows.push(*row)?;
    }
    Ok(())
}

impl<'a> Table<'a> {
    /// Returns the macros of the standard library. Returns `Err` if an allocation fails.
    pub fn standard(alloc: Global) -> Result<Self, AllocError>
        ensures { IfOk result (λ t. map entry t.rows.items ≡ standard) }
    {
        let mut rows = Vec::new(alloc);
        push_rows(&mut rows, STANDARD.as_slice())?;
        Ok(Table { rows })
    }

    /// Returns macros of the crates log, tracing, slog, anyhow and eyre. Returns `Err` if an
    /// allocation fails.
    pub fn with_crate_macros(alloc: Global) -> Result<Self, AllocError>
        ensures { IfOk result (λ t. map entry t.rows.items ≡ with_crate_macros) }
    {
        let mut rows = Vec::new(alloc);
        push_rows(&mut rows, CRATES.as_slice())?;
        Ok(Table { rows })
    }

    /// Adds a macro before the others. Returns `Err` if an allocation fails; the table is then as
    /// it was.
    pub fn add(&mut self, row: Row<'a>) -> Result<(), AllocError>
        ensures ok { OnOk result (map entry self.new.rows.items
            ≡ entry row.entry ∷ map entry self.old.rows.items) }
        ensures err { OnErr result (map entry self.new.rows.items
            ≡ map entry self.old.rows.items) }
    {
        self.rows.insert(0, row)?;
        Ok(())
    }
}

/// Returns the rule of the first macro of this name, or `None` if there is none.
pub fn rule_of(rows: &[Row<'_>], word: &[u8]) -> Option<Rule>
    ensures { result ≡ rule_of (map entry rows.now) word.now }
{
    for row in rows {
        if row.name.as_bytes() == word {
            return Some(row.rule);
        }
    }
    None
}

/// Returns whether a macro of this name is one of the standard library that takes a format string.
pub fn is_standard(word: &[u8]) -> bool
    ensures { result ≡ is_some (rule_of standard word.now) }
{
    rule_of(&STANDARD, word).is_some()
}

/// Returns whether a macro of this name is one of log, tracing, slog, anyhow or eyre.
pub fn is_of_crates(word: &[u8]) -> bool
    ensures { result ≡ is_some (rule_of with_crate_macros word.now) }
{
    rule_of(&CRATES, word).is_some()
}
