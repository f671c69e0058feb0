//! What the manifest of a package, with that of its workspace, says of all of its files.

ghost use Rattle.std.specs.Prelude.{◌≡◌, Some, None, option_map, IfOk, IfErr};
ghost use Rattle.toml.specs.View.{view};
ghost use Rattle.manifest.specs.Manifest.{package_text, package_edition};

use crate::lints::{is_allowed, package_lints};
use crate::settings::{Setting, package_setting, workspace_setting};
use crate::targets::target_edition;
use crate::versions::{Edition, RustVersion, edition_named, version_named};
use toml::Value;

/// What a manifest says of all files of its package.
#[derive(Clone, Copy)]
pub struct PackageFacts {
    /// The edition, if a target has no other one.
    pub edition: Edition,
    /// The oldest version of Rust that the package supports, or `None` if it names none.
    pub rust_version: Option<RustVersion>,
    /// Whether the lint `clippy::uninlined_format_args` is allowed.
    pub allows_arguments: bool,
    /// Whether the lint `named_arguments_used_positionally` is allowed.
    pub allows_positions: bool,
}

/// A key of a package whose value is none that cargo takes.
#[derive(Clone, Copy)]
pub enum Misfit {
    /// The edition is unknown.
    Edition,
    /// The version of Rust is none.
    RustVersion,
    /// The value is that of the workspace, which has none.
    Workspace,
}

/// Returns the text of a key of a package, which may be that of its workspace, or `None` if the key
/// is absent. Returns `Err` if the value is none, with this reason if it is not the workspace's.
fn text_of<'a>(
    manifest: &'a Value,
    workspace: Option<&'a Value>,
    key: &str,
    reason: Misfit,
) -> Result<Option<&'a str>, Misfit>
    ensures ok { IfOk result (λ t. package_text key.now (view manifest.now)
        (option_map (λ w. view w.now) workspace.entry) ≡ Some (option_map (λ s. s.now) t)) }
    ensures err { IfErr result (λ _. package_text key.now (view manifest.now)
        (option_map (λ w. view w.now) workspace.entry) ≡ None) }
{
    match package_setting(manifest, key) {
        Setting::Absent => Ok(None),
        Setting::Text(text) => Ok(Some(text)),
        Setting::Unknown => Err(reason),
        Setting::Inherited => {
            let Some(workspace) = workspace else {
                return Err(Misfit::Workspace);
            };
            match workspace_setting(workspace, key) {
                Setting::Text(text) => Ok(Some(text)),
                _ => Err(Misfit::Workspace),
            }
        }
    }
}

/// Returns the edition of a package.
fn edition_of(manifest: &Value, workspace: Option<&Value>) -> Result<Edition, Misfit>
    ensures ok { IfOk result (λ e. package_edition (view manifest.now)
        (option_map (λ w. view w.now) workspace.entry) ≡ Some e) }
    ensures err { IfErr result (λ _. package_edition (view manifest.now)
        (option_map (λ w. view w.now) workspace.entry) ≡ None) }
{
    match text_of(manifest, workspace, "edition", Misfit::Edition)? {
        None => Ok(Edition::Of2015),
        Some(name) => match edition_named(name) {
            Some(edition) => Ok(edition),
            None => Err(Misfit::Edition),
        },
    }
}

/// Returns the oldest version of Rust that a package supports, or `None` if it names none.
fn version_of(manifest: &Value, workspace: Option<&Value>) -> Result<Option<RustVersion>, Misfit> {
    match text_of(manifest, workspace, "rust-version", Misfit::RustVersion)? {
        None => Ok(None),
        Some(name) => match version_named(name) {
            Some(version) => Ok(Some(version)),
            None => Err(Misfit::RustVersion),
        },
    }
}

/// Returns what a manifest says of its package, whose workspace has this manifest, or the key that
/// has no value that cargo takes.
pub fn package_facts(manifest: &Value, workspace: Option<&Value>) -> Result<PackageFacts, Misfit>
    ensures { IfOk result (λ f. package_edition (view manifest.now)
        (option_map (λ w. view w.now) workspace.entry) ≡ Some f.edition) }
{
    let edition = edition_of(manifest, workspace)?;
    // (whichever file it is, the editions of all targets are looked at)
    if target_edition(manifest, "", edition).is_none() {
        return Err(Misfit::Edition);
    }
    let rust_version = version_of(manifest, workspace)?;
    let (allows_arguments, allows_positions) = match package_lints(manifest, workspace) {
        Some(lints) => {
            let allows_warnings = is_allowed(lints, "rust", &["warnings"]);
            (
                allows_warnings
                    || is_allowed(lints, "clippy", &["pedantic", "uninlined_format_args"]),
                allows_warnings
                    || is_allowed(lints, "rust", &["named_arguments_used_positionally"]),
            )
        }
        None => (false, false),
    };
    Ok(PackageFacts {
        edition,
        rust_version,
        allows_arguments,
        allows_positions,
    })
}

/// Returns the version of Rust that a clippy.toml names, or `None` if it names none. Returns `Err`
/// if the name is no version.
pub fn clippy_version(manifest: &Value) -> Result<Option<RustVersion>, Misfit> {
    let Some(value) = manifest.get("msrv") else {
        return Ok(None);
    };
    if let Some(name) = value.as_str() {
        if let Some(version) = version_named(name) {
            return Ok(Some(version));
        }
    }
    Err(Misfit::RustVersion)
}
