//! The variables and definitions of AC_INIT (Autoconf's manual, "Initializing configure").

ghost use Rattle.std.specs.Prelude.{◌≡◌, OnOk, IfOk, codes};
ghost use Rattle.deftable.specs.ShellName.{IsShellName};
ghost use Rattle.meaning.specs.Package as packages;

use crate::literal::literal;
use crate::store::Store;
use std::alloc::{AllocError, Global};

/// Returns a package's title and version, separated by a space.
fn package_string(alloc: Global, title: &[u8], version: &[u8]) -> Result<Vec<u8>, AllocError>
    ensures { IfOk result (λ v. v.items ≡ packages.package_string title.now version.now) }
{
    let mut out = Vec::from_slice(alloc, title)?;
    out.push(b' ')?;
    out.extend_from_slice(version)?;
    Ok(out)
}

/// Sets an output variable of the package, and defines it as a string literal.
fn set_package(
    alloc: Global,
    store: &mut Store,
    name: &[u8],
    value: &[u8],
) -> Result<(), AllocError>
    requires { IsShellName name.now }
    ensures { OnOk result (store.new ≡ packages.with_package store.old name.now value.now) }
{
    let literal = literal(alloc, value)?;
    store.set(name, value)?;
    store.define(name, literal.as_slice())
}

/// Sets and defines the package's title and version as PACKAGE_STRING.
fn set_package_string(
    alloc: Global,
    store: &mut Store,
    title: &[u8],
    version: &[u8],
) -> Result<(), AllocError>
    ensures { OnOk result (
        store.new
        ≡ packages.with_package store.old (codes "PACKAGE_STRING")
        (packages.package_string title.now version.now)) }
{
    let string = package_string(alloc, title, version)?;
    set_package(alloc, store, b"PACKAGE_STRING", string.as_slice())
}

/// Sets the package's six variables and definitions.
#[tactic(auto, unfolding(meaning::specs::Package::initialised))]
pub fn initialise(
    alloc: Global,
    store: &mut Store,
    title: &[u8],
    version: &[u8],
    bug: &[u8],
    tarname: &[u8],
    url: &[u8],
) -> Result<(), AllocError>
    ensures { OnOk result (
        store.new
        ≡ packages.initialised title.now version.now bug.now tarname.now url.now store.old) }
{
    set_package(alloc, store, b"PACKAGE_NAME", title)?;
    set_package(alloc, store, b"PACKAGE_TARNAME", tarname)?;
    set_package(alloc, store, b"PACKAGE_VERSION", version)?;
    set_package_string(alloc, store, title, version)?;
    set_package(alloc, store, b"PACKAGE_BUGREPORT", bug)?;
    set_package(alloc, store, b"PACKAGE_URL", url)
}
