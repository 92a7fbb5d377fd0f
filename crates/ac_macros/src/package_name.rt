//! The name of a package's archive, if AC_INIT names none.

ghost use Rattle.std.specs.Prelude.{◌≡◌, IfOk};
ghost use Rattle.ac_macros.specs.PackageName as package_names;

use deftable::Bytes;
use std::alloc::{AllocError, Global};

/// Returns a byte of the archive's name: a letter in lower case, a digit or `_`, and `-` for any
/// other byte.
fn tar_byte(byte: u8) -> u8
    ensures { result ≡ package_names.tar_byte byte }
{
    if byte.is_ascii_alphanumeric() || byte == b'_' {
        byte.to_ascii_lowercase()
    } else {
        b'-'
    }
}

/// Returns the title without `GNU ` at its front.
fn without_gnu(title: &[u8]) -> &[u8]
    ensures { result.now ≡ package_names.without_gnu title.now }
{
    if title.starts_with(b"GNU ") {
        &title[4..]
    } else {
        title
    }
}

/// Returns the name of the archive that is derived from the package's name.
#[tactic(auto, unfolding(crate::specs::PackageName::tar_name))]
pub(crate) fn tar_name(alloc: Global, title: &[u8]) -> Result<Bytes, AllocError>
    ensures { IfOk result (λ v. v ≡ package_names.tar_name title.now) }
{
    let name = without_gnu(title)
        .iter()
        .map(|byte| tar_byte(*byte))
        .collect(alloc)?;
    Ok(Bytes::from_vec(name))
}
