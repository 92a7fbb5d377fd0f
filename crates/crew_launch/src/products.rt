//! What a compiler makes of a conftest: an object file and a program.

ghost use Rattle.std.specs.Prelude.{◌≡◌, [], ◌∷◌, ◌++◌, codes, string_bytes, IfOk, OnErr, OnOk};
ghost use Rattle.file_disk.specs.Clearing as meant;
ghost use Rattle.file_disk.specs.Known.{Adds, Does, Removed};
ghost use Rattle.crew_launch.specs.Fresh.{DoesFront, Frees, FreesOne, IsFreeable, clearing_each, made_of, products_of};

use file_disk::{Disk, Found};
use std::alloc::{AllocError, Global};
use std::io::{self, ErrorKind};

/// What a compiler makes of a conftest.
#[derive(Clone, Copy)]
enum Product {
    /// `conftest1.o` of `conftest1.c`.
    Object,
    /// `conftest1` of `conftest1.c`.
    Program,
}

/// Removes what a compiler made of the text in a file of this name: of `conftest1.c` the object
/// file `conftest1.o` and the program `conftest1`, if they are regular files or links. If the name
/// doesn't end in `.c`, there is nothing to remove.
///
/// # Errors
///
/// Fails if one of them is something else or can't be removed, if the system refuses to look at it,
/// or if memory runs out. The error says which of the two it is about. What was removed before is
/// gone.
pub(crate) fn free_products<D: Disk>(alloc: Global, disk: &mut D, name: &str) -> io::Result<()>
    ensures freed { OnOk result (
        Does (D.known disk.old) (D.known disk.new) (Frees (products_of name.now))) }
    ensures refused { OnErr result (
        DoesFront (D.known disk.old) (D.known disk.new) (clearing_each (products_of name.now))) }
{
    match name.strip_suffix(".c") {
        Some(program) => free_both(alloc, disk, program),
        None => Ok(()),
    }
}

/// Removes the object file and the program, in this order.
#[tactic(auto, using(crate::proofs::Freeing::frees_both, crate::proofs::Freeing::refused_second, crate::proofs::Freeing::refused_none))]
fn free_both<D: Disk>(alloc: Global, disk: &mut D, program: &str) -> io::Result<()>
    ensures freed { OnOk result (
        Does (D.known disk.old) (D.known disk.new) (Frees (made_of program.now))) }
    ensures refused { OnErr result (
        DoesFront (D.known disk.old) (D.known disk.new) (clearing_each (made_of program.now))) }
{
    match free_object(alloc, disk, program) {
        Ok(()) => free(disk, program, Product::Program),
        Err(e) => Err(e),
    }
}

/// Removes the object file of a program.
fn free_object<D: Disk>(alloc: Global, disk: &mut D, program: &str) -> io::Result<()>
    ensures freed { OnOk result (
        Does (D.known disk.old) (D.known disk.new) (FreesOne (program.now ++ codes ".o"))) }
    ensures refused { OnErr result (Adds (D.known disk.old) (D.known disk.new) []) }
{
    let object = object_of(alloc, program)?;
    free(disk, object.as_str(), Product::Object)
}

/// Returns the name of the object file of a program.
fn object_of(alloc: Global, program: &str) -> Result<String, AllocError>
    ensures { IfOk result (λ name. string_bytes name ≡ program.now ++ codes ".o") }
{
    let mut name = String::new(alloc);
    name.push_str(program)?;
    name.push_str(".o")?;
    Ok(name)
}

/// Removes a regular file or a link of this name, if there is one.
#[tactic(auto, using(crate::proofs::Freeing::frees_one))]
fn free<D: Disk>(disk: &mut D, name: &str, product: Product) -> io::Result<()>
    ensures freed { OnOk result (
        Does (D.known disk.old) (D.known disk.new) (FreesOne name.now)) }
    ensures refused { OnErr result (Adds (D.known disk.old) (D.known disk.new) []) }
{
    match disk.look(name) {
        Ok(found) => free_found(disk, name, found, product),
        Err(e) => Err(e),
    }
}

/// Removes what is found under this name.
fn free_found<D: Disk>(disk: &mut D, name: &str, found: Found, product: Product) -> io::Result<()>
    ensures removed { OnOk result (
        Adds (D.known disk.old) (D.known disk.new) (meant.clearing name.now found)) }
    ensures freeable { OnOk result (IsFreeable found) }
    ensures refused { OnErr result (Adds (D.known disk.old) (D.known disk.new) []) }
{
    match found {
        Found::Nothing => Ok(()),
        Found::File { .. } => remove(disk, name, product),
        Found::Link => remove(disk, name, product),
        Found::Directory => Err(directory_error(product)),
        Found::Special => Err(special_error(product)),
    }
}

fn remove<D: Disk>(disk: &mut D, name: &str, product: Product) -> io::Result<()>
    ensures removed { OnOk result (
        Adds (D.known disk.old) (D.known disk.new) (Removed name.now ∷ [])) }
    ensures refused { OnErr result (Adds (D.known disk.old) (D.known disk.new) []) }
{
    match disk.remove(name) {
        Ok(()) => Ok(()),
        Err(e) => Err(kept_error(product, e.kind())),
    }
}

// A start names its conftest, so each error says which product it is about.

fn directory_error(product: Product) -> io::Error {
    let text = match product {
        Product::Object => "its object file is a directory",
        Product::Program => "its program is a directory",
    };
    io::Error::new(ErrorKind::IsADirectory, text)
}

fn special_error(product: Product) -> io::Error {
    let text = match product {
        Product::Object => "its object file is a pipe, a socket or a device",
        Product::Program => "its program is a pipe, a socket or a device",
    };
    io::Error::new(ErrorKind::Unsupported, text)
}

fn kept_error(product: Product, kind: ErrorKind) -> io::Error {
    let text = match product {
        Product::Object => "its object file can't be removed",
        Product::Program => "its program can't be removed",
    };
    io::Error::new(kind, text)
}
