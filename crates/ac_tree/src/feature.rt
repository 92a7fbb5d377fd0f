//! Names of optional features and packages, in AC_ARG_ENABLE, AC_ARG_WITH and command lines.

ghost use Rattle.std.specs.Prelude.{◌≡◌, IfOk};
ghost use Rattle.std.specs.List.{list_all};
ghost use Rattle.ac_tree.specs.Feature as words;

use deftable::Bytes;
use std::alloc::{AllocError, Global};

/// What an option is for.
#[derive(Clone, Copy)]
pub enum OptionKind {
    /// A feature: `--enable-NAME`, `--disable-NAME`.
    Feature,
    /// A package: `--with-NAME`, `--without-NAME`.
    Package,
}

fn is_feature_byte(byte: u8) -> bool
    ensures { result ≡ words.is_feature_byte byte }
{
    byte.is_ascii_alphanumeric() || byte == b'-' || byte == b'+' || byte == b'.' || byte == b'_'
}

fn are_feature_bytes(name: &[u8]) -> bool
    ensures { result ≡ list_all words.is_feature_byte name.now }
{
    name.iter().all(|byte| is_feature_byte(*byte))
}

/// Returns whether a text can name a feature or a package: it is not empty, and has only letters,
/// digits, `-`, `+`, `.` and `_` (Autoconf's manual, "Choosing Package Options"; that it is not
/// empty is own).
pub fn is_feature(name: &[u8]) -> bool
    ensures { result ≡ words.is_feature name.now }
{
    match name {
        [] => false,
        _ => are_feature_bytes(name),
    }
}

fn variable_byte(byte: u8) -> u8
    ensures { result ≡ words.variable_byte byte }
{
    if byte == b'-' || byte == b'+' || byte == b'.' {
        b'_'
    } else {
        byte
    }
}

/// Returns the variable that an option sets: `enable_` or `with_`, and the name with `_` for each
/// `-`, `+` and `.` (Autoconf's manual, "Choosing Package Options" and "External Software").
pub fn option_variable(alloc: Global, kind: OptionKind, name: &[u8]) -> Result<Bytes, AllocError>
    ensures { IfOk result (λ v. v ≡ words.option_variable kind name.now) }
{
    let prefix = match kind {
        OptionKind::Feature => b"enable_".as_slice(),
        OptionKind::Package => b"with_".as_slice(),
    };
    let rest: Vec<u8> = name.iter().map(|byte| variable_byte(*byte)).collect(alloc)?;
    let mut variable = Vec::from_slice(alloc, prefix)?;
    variable.extend_from_slice(rest.as_slice())?;
    Ok(Bytes::from_vec(variable))
}
