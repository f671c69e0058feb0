//! The Cargo.toml and the clippy.toml above a file, and what these say of it: its edition, versions
//! of Rust, levels of lints, targets and dependencies.
#![tactic(auto)]

mod dependencies;
mod document;
mod facts;
mod lints;
mod packages;
mod settings;
mod targets;
mod versions;

pub use dependencies::{Dependency, package_dependencies};
pub use document::{Refusal, read_toml};
pub use facts::{Misfit, PackageFacts, clippy_version, package_facts};
pub use packages::{FileRules, ManifestFailure, ManifestFault, Package, Packages};
pub use settings::{Setting, package_setting, package_table, workspace_table};
pub use targets::target_edition;
pub use versions::{Edition, RustVersion, captures_variables, edition_named, version_named};
