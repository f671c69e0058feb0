//! Jobs over Rust source text.

use crate::digest::Digest;
use crate::random::Random;
use format_calls::Table;
use rust_tokens::tokens;
use source_lint::file_faults;
use source_report::{CallReading, Options};
use std::alloc::{AllocError, Global};

/// The number of bytes of a file.
const SIZE: usize = 100_000;

/// Lines of programs.
const LINES: &[&str] = &[
    "use std::collections::{BTreeMap, HashMap};\n",
    "\n",
    "/// Returns the number of entries that are not empty.\n",
    "//! A module of its own.\n",
    "    // An entry is empty if it has no bytes.\n",
    "pub fn entries<'a, T: Iterator<Item = &'a str>>(list: T) -> Result<usize, Error> {\n",
    "    let mut count = 0usize;\n",
    "    for (index, entry) in list.enumerate() {\n",
    "        if !entry.is_empty() && index < 0xff_ff {\n",
    "            count += 1;\n",
    "        }\n",
    "    }\n",
    "}\n",
    "    println!(\"{index:>4} {}: {count}\\n\", self.name);\n",
    "    let path = r#\"C:\\dir\\\"file\"\"#;\n",
    "    match c { 'a'..='z' | '\\n' | '\\u{e9}' => true, _ => false }\n",
    "    let half = 1.5e-3_f64 * x.powi(2) + 0b1010 as f64;\n",
    "    assert_eq!(bytes, b\"abc\\x00\", \"wrong bytes: {:?}\", bytes);\n",
    "impl<T> fmt::Display for Wrapper<T> where T: fmt::Display + 'static {\n",
    "    /* A comment /* with one inside */ and more. */\n",
    "#[derive(Clone, Copy, Debug, Eq, PartialEq)]\n",
    "pub struct Point { pub x: i32, pub y: i32 }\n",
    "    'outer: loop { break 'outer; }\n",
    "        return Err(Error::new(ErrorKind::Other, format!(\"no such entry: {name}\")));\n",
    "    let na\u{ef}ve = \"caf\u{e9} \u{2192} \u{1f600}\";\n",
    "    self.items.iter().filter(|it| it.len() >= 2).map(|it| it.trim()).collect::<Vec<_>>()\n",
    "const TABLE: [u8; 4] = [b'a', b'\\'', 10, 0o17];\n",
    "    unsafe { *ptr.add(offset as usize) = value; }\n",
    "macro_rules! max { ($a:expr, $($rest:expr),+) => {{ let b = max!($($rest),+); b }} }\n",
    "    let r#type = c\"text\"; // kept\n",
];

/// Returns a file.
fn file(alloc: Global, random: &mut Random, number: usize) -> Result<String, AllocError> {
    let mut out = String::new(alloc);
    for line in 0..SIZE {
        if out.len() >= SIZE {
            break;
        }
        out.push_str(random.pick(LINES))?;
        if line % 10 == 0 {
            let value = random.below(1_000_000);
            write!(out, "static ITEM_{number}_{value}: u64 = {value};\n")?;
        }
    }
    Ok(out)
}

/// Reads the tokens of as many files.
pub fn lex_each(
    alloc: Global,
    count: usize,
    random: &mut Random,
    digest: &mut Digest,
) -> Result<(), AllocError> {
    for number in 0..count {
        let file = file(alloc, random, number)?;
        for token in &tokens(alloc, file.as_str())? {
            digest.add(token.kind as u64);
            digest.add_range(&token.span);
            digest.add_size(token.suffix_start);
            digest.add(u64::from(token.is_ended));
        }
    }
    Ok(())
}

/// Reads the calls of as many files, and finds their faults.
pub fn read_each(
    alloc: Global,
    count: usize,
    random: &mut Random,
    digest: &mut Digest,
) -> Result<(), AllocError> {
    let options = Options {
        table: Table::standard(alloc)?,
        is_from_2021: true,
    };
    for number in 0..count {
        let file = file(alloc, random, number)?;
        let report = file_faults(alloc, file.as_str(), &options)?;
        for call in &report.calls {
            digest.add(u64::from(matches!(call, CallReading::Whole)));
        }
        for finding in &report.findings {
            digest.add_bytes(finding.title.as_bytes());
            digest.add_range(&finding.span);
        }
    }
    Ok(())
}
