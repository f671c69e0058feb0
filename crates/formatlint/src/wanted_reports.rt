//! The faults of a file that are reported: those of the macros that are meant, and no warning that
//! the project allows.

use crate::attributes::{Lint, allowed_parts};
use crate::files::Run;
use crate::own_rows::file_report;
use crate::reading::Origin;
use crate::rewrites::may_call_others;
use format_calls::Table;
use macro_owners::{Facts, certain_table, likely_table};
use manifest::{FileRules, Package, Packages};
use source_report::{Finding, Options, Report};
use std::alloc::{AllocError, Global};

/// The id of the warning that a named argument is used by its index.
const POSITION_ID: &str = "name-used-by-index";

/// Parts of the words without which a text gives no name of a macro or of a crate.
const GIVING: [&str; 4] = ["use", "mod", "macro", "as"];

/// Returns whether a text may give the name of a macro, or of a crate that owns macros.
fn may_give(text: &str) -> bool {
    for word in &GIVING {
        if text.contains(*word) {
            return true;
        }
    }
    false
}

/// Takes the faults out of a report on a text that are of other macros than those of a table: those
/// of whose names no other macro is in sight. Returns `Err` if an allocation fails.
fn drop_unlikely<'a>(
    alloc: Global,
    text: &str,
    options: &Options<'a>,
    table: Table<'a>,
    report: &mut Report,
) -> Result<(), AllocError> {
    if may_call_others(text, &options.table, &table) {
        let likely_options = Options {
            table,
            is_from_2021: options.is_from_2021,
        };
        let likely_report = file_report(alloc, text, &likely_options)?;
        report.findings = likely_report.findings;
    }
    Ok(())
}

/// Returns the package of a file of which the project says this, or `None` if it is of none.
fn package_of(packages: &Packages, rules: FileRules) -> Option<&Package> {
    packages.package(rules.package?)
}

/// Returns whether one of these is a warning that a named argument is used by its index.
fn has_position(findings: &[Finding]) -> bool {
    for finding in findings {
        if finding.id == POSITION_ID {
            return true;
        }
    }
    false
}

impl<'a> Run<'a> {
    /// Reads what the sources of the package of a file say, which has this text.
    pub fn read_sources(
        &mut self,
        rt: &HostRuntime,
        text: &str,
        origin: Origin<'_>,
        rules: FileRules,
    ) -> Result<(), AllocError> {
        let package = package_of(&self.packages, rules);
        if matches!(origin, Origin::Stdin) {
            self.sources.read_with(rt, package, text)?;
        } else if self.sources.is_of(package) {
            return Ok(());
        } else {
            self.sources.read(rt, package, text)?;
        }
        let no_facts = Facts::new(rt.alloc());
        let facts = &self.sources.facts;
        self.certain = certain_table(rt.alloc(), &self.options.table, facts, &no_facts)?;
        Ok(())
    }

    /// Returns whether the sources of the package of a file are read, allow no lint that asks for
    /// inlining, and leave a macro in doubt that the text may call.
    pub fn leaves_doubt(&self, text: &str, rules: FileRules) -> bool {
        self.sources.is_of(package_of(&self.packages, rules))
            && !self.sources.allows_arguments
            && may_call_others(text, &self.options.table, &self.certain)
    }

    /// Takes the faults out of a report on a file that are of other macros. Without a package its
    /// text alone can give a name to one.
    fn drop_others(
        &mut self,
        rt: &HostRuntime,
        text: &str,
        origin: Origin<'_>,
        rules: FileRules,
        report: &mut Report,
    ) -> Result<(), AllocError> {
        let may_give = may_give(text);
        if rules.package.is_none() && !may_give {
            return self.sources.read_attributes(rt, text);
        }
        self.read_sources(rt, text, origin, rules)?;
        let (options, facts) = (&self.options, &self.sources.facts);
        let mut table = likely_table(rt.alloc(), &options.table, facts, facts)?;
        if rules.package.is_some() {
            let mut file_facts = Facts::new(rt.alloc());
            if may_give {
                file_facts = file_facts.with_file(text)?;
            }
            table = likely_table(rt.alloc(), &options.table, facts, &file_facts)?;
        }
        drop_unlikely(rt.alloc(), text, options, table, report)
    }

    /// Takes the faults out of a report on a file that are not to be reported. The sources of the
    /// package are read only if there are faults.
    pub fn drop_unwanted(
        &mut self,
        rt: &HostRuntime,
        text: &str,
        origin: Origin<'_>,
        rules: FileRules,
        report: &mut Report,
    ) -> Result<(), AllocError> {
        if !rules.warns_of_positions {
            report.findings.retain(|finding| finding.id != POSITION_ID);
        }
        if report.findings.is_empty() {
            return Ok(());
        }
        self.drop_others(rt, text, origin, rules, report)?;
        if self.sources.allows_positions {
            report.findings.retain(|finding| finding.id != POSITION_ID);
        }
        if has_position(&report.findings) {
            let parts = allowed_parts(rt.alloc(), text, Lint::Positions)?;
            report.findings.retain(|finding| finding.id != POSITION_ID
                || !parts.has(finding.span.start));
        }
        Ok(())
    }
}
