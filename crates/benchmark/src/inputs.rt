//! String literals as programs have them, put together from parts. Each has a number of its own, so
//! that no two are the same.

use crate::random::Random;
use std::alloc::{AllocError, Global};

/// Parts of string literals.
const PARTS: &[&str] = &[
    "{}",
    "{}: {}",
    "{:?}",
    "{name}",
    "`{}`",
    "{0} and {1}",
    "{err:#?}",
    "{path}:{line}:{column}",
    "{:>8}",
    "{:08x}",
    "{value:.3}",
    "{count:>width$}",
    "{:>1$}",
    "{:.*}",
    "{:#010b}",
    "{name:<20} {value:>+12.precision$}",
    "expected {}, found {}",
    "cannot open {path:?}: {err}",
    "connection to {host}:{port} was closed after {:.1} seconds",
    "could not resolve path `{}` in this scope",
    "the type of this field is not known",
    "argument for --color must be auto, always or never (was {value})",
    "{} of {} files were read, {} were changed",
    "{{ {} }}",
    "fn {name}({args}) -> {output} {{",
    "thread {id} has overflowed its stack: size {size:#x}, limit {limit:#x}",
    "warning: unused variable: `{name}`",
    "<td class=row>{cell}</td>",
    "{:?} = {:?}, ",
    " -> ",
    "total: ",
    " \u{2192} {target}",
    "na\u{ef}ve caf\u{e9} {} \u{2713}",
    "\\n",
    "\\n    {}",
    "\\t{:>5}%\\n",
    "name = \\\"{}\\\"",
    "'{}' is not in the list",
    "\\u{1b}[1m{}\\u{1b}[0m",
    "first line \\\n        and its second: {}",
    "C:\\\\{dir}\\\\{file}",
    "{0:1$} - {2}",
];

/// Parts with faults.
const FAULTS: &[&str] = &[
    "{",
    "}",
    "{}}",
    "{name",
    "{a.b}",
    "{point.x:?} is far from {point.y:?}",
    "{_}",
    "{r#type}",
    "{name!}",
    "{0x}",
    "{:?#}",
    "{value:.}",
    "{ 0}",
    "{,}",
    "{:99999}",
    "{count:>}",
    "{foo(1)}",
    "\\n{\\n",
    "{\\\"name\\\"}",
    "{a-b}",
    "{na\u{ef}ve caf\u{e9}}",
    "{?}",
    "{:x?x}",
    "{}{",
];

/// Makes the ordinary literal `"E<number>: .."` of as many parts as there are, some of them with
/// faults where `faults` is not 0: one in so many.
fn put_parts(
    out: &mut String,
    random: &mut Random,
    number: usize,
    parts: u64,
    faults: u64,
) -> Result<(), AllocError> {
    write!(out, "E{number}: ")?;
    for _ in 0..parts {
        let list = if faults != 0 && random.below(faults) == 0 {
            FAULTS
        } else {
            PARTS
        };
        out.push_str(random.pick(list))?;
    }
    Ok(())
}

/// Returns a literal with this number: mostly an ordinary one, else a raw one.
pub fn literal(
    alloc: Global,
    random: &mut Random,
    number: usize,
    faults: u64,
) -> Result<String, AllocError> {
    let mut out = String::new(alloc);
    let is_raw = random.below(12) == 0;
    let parts = random.below(5).saturating_add(1);
    out.push_str(if is_raw { "r#\"" } else { "\"" })?;
    put_parts(&mut out, random, number, parts, faults)?;
    out.push_str(if is_raw { "\"#" } else { "\"" })?;
    Ok(out)
}

/// Returns an ordinary literal of about `size` bytes with lines of parts.
pub fn lines(alloc: Global, random: &mut Random, size: usize) -> Result<String, AllocError> {
    let mut out = String::from_str(alloc, "\"")?;
    for number in 0..size {
        if out.len() >= size {
            break;
        }
        put_parts(&mut out, random, number, 3, 0)?;
        out.push_str("\n")?;
    }
    out.push_str("\"")?;
    Ok(out)
}

/// The parts of which long inputs that are hard to read are made, one kind in each.
const KINDS: &[&str] = &[
    "}",
    "{+",
    "{_} ",
    "{a.b} ",
    "{}",
    "{{",
    "{name:>8.3} ",
    "{:w$.p$}",
    "\u{e9}\u{20ac}\u{1f600} ",
    "\\u{7b}name\\x7d\\n",
    "{r#a}\\t",
    "{a:<} \u{301}",
    "{name!}\\n",
    "{",
    "words and words of text, ",
    "{long_name_of_an_argument_that_is_given} \\\n    ",
];

/// Parts that stand among them.
const OTHERS: &[&str] = &[
    "{name}",
    " text ",
    "{0:>1$}",
    "\\n",
    "\u{e9}",
    "{a-b}",
    "{value:?} and \\\"{{{}}}\\\"",
];

/// Adds a part of kind `kind`, or one time in thirty another.
fn put_part(out: &mut String, random: &mut Random, kind: usize) -> Result<(), AllocError> {
    if random.below(30) == 0 {
        out.push_str(random.pick(OTHERS))?;
    } else if let Some(part) = KINDS.get(kind) {
        out.push_str(part)?;
    }
    Ok(())
}

/// Returns the ordinary literal of about `size` bytes with parts of kind `kind`.
pub fn hard(
    alloc: Global,
    random: &mut Random,
    kind: usize,
    size: usize,
) -> Result<String, AllocError> {
    let mut out = String::from_str(alloc, "\"")?;
    for _ in 0..size {
        if out.len() >= size {
            break;
        }
        put_part(&mut out, random, kind)?;
    }
    out.push_str("\"")?;
    Ok(out)
}

/// Returns how many kinds of long inputs there are.
pub fn kinds() -> usize {
    KINDS.len()
}
