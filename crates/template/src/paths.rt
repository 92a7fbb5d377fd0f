//! The variables that differ between output files: the names of directories, and the name of the
//! template.

ghost use Rattle.std.specs.Prelude.{◌≡◌, ◌++◌, ◌<◌, IfOk, codes};
ghost use Rattle.template.specs.Place as words;
ghost use Rattle.template.specs.Place.{directories_of, configure_input_of, header_note_of};

use deftable::Bytes;
use memchr::memrchr;
use std::alloc::{AllocError, Global};

/// The variables of one output file that name directories (Autoconf's manual, "Preset Output
/// Variables").
///
/// A relative name is relative to the directory of the output file.
#[derive(Drop)]
pub struct FileDirectories {
    /// The source directory that corresponds to the directory of the output file.
    pub srcdir: Bytes,
    /// The top directory of the sources.
    pub top_srcdir: Bytes,
    /// The directory of the output file, which is always `.`.
    pub builddir: Bytes,
    /// The top directory of the build.
    pub top_builddir: Bytes,
}

/// Returns the directory variables of the output file `file` (Autoconf's manual, "Preset Output
/// Variables"). Its name is relative to the top directory of the build, with one slash after each
/// directory.
///
/// `srcdir` is the top directory of the sources, either absolute or relative to the top directory
/// of the build. No name is simplified: for `a/f` and `../s`, the top directory of the sources is
/// `../../s`.
#[tactic(auto, unfolding(crate::specs::Place::directories_of))]
pub fn place_vars(alloc: Global, file: &[u8], srcdir: &[u8]) -> Result<FileDirectories, AllocError>
    ensures { IfOk result (λ place. place ≡ directories_of file.now srcdir.now) }
{
    let top_builddir = up(alloc, directory_count(file))?;
    let top_srcdir = seen_from(alloc, file, srcdir)?;
    let srcdir = sources_beside(alloc, file, srcdir)?;
    let builddir = Bytes::from_slice(alloc, b".")?;
    Ok(FileDirectories {
        srcdir: Bytes::from_vec(srcdir),
        top_srcdir: Bytes::from_vec(top_srcdir),
        builddir,
        top_builddir: Bytes::from_vec(top_builddir),
    })
}

/// Returns the value of `configure_input`: `FILE.  Generated from TEMPLATE by configure.`, with the
/// template's name without its directories (Autoconf's manual, "Preset Output Variables").
#[tactic(auto, unfolding(crate::specs::Place::configure_input_of))]
pub fn configure_input(alloc: Global, file: &[u8], template: &[u8]) -> Result<Bytes, AllocError>
    ensures { IfOk result (λ text. text ≡ configure_input_of file.now template.now) }
{
    let mut text = Vec::from_slice(alloc, file)?;
    text.extend_from_slice(b".  Generated from ")?;
    text.extend_from_slice(base_name(template))?;
    text.extend_from_slice(b" by configure.")?;
    Ok(Bytes::from_vec(text))
}

/// Returns the first line of a header, with its newline:
/// `/* FILE.  Generated from TEMPLATE by configure.  */`, with the template's name without its
/// directories (Autoconf's manual, "Configuration Header Files").
#[tactic(auto, unfolding(crate::specs::Place::header_note_of))]
pub fn header_note(alloc: Global, file: &[u8], template: &[u8]) -> Result<Bytes, AllocError>
    ensures { IfOk result (λ text. text ≡ header_note_of file.now template.now) }
{
    let input = configure_input(alloc, file, template)?;
    let mut text = Vec::from_slice(alloc, b"/* ")?;
    text.extend_from_slice(input.as_slice())?;
    text.extend_from_slice(b"  */\n")?;
    Ok(Bytes::from_vec(text))
}

/// Returns the number of directories in the file's name.
fn directory_count(file: &[u8]) -> usize
    ensures { result ≡ words.directory_count file.now }
{
    file.iter().filter(|byte| **byte == b'/').count()
}

/// Returns the directory of the file, without the slash after it, or the empty text if it has none.
fn directory_of(file: &[u8]) -> &[u8]
    ensures { result.now ≡ words.directory_of file.now }
{
    match memrchr(b'/', file) {
        Some(at) => &file[..at],
        None => &file[..0],
    }
}

/// Returns the file's name without its directories.
fn base_name(file: &[u8]) -> &[u8]
    ensures { result.now ≡ words.base_name file.now }
{
    match memrchr(b'/', file) {
        Some(at) => &file[at + 1..],
        None => file,
    }
}

/// Returns the relative name of the directory that is n levels up.
fn up(alloc: Global, directories: usize) -> Result<Vec<u8>, AllocError>
    ensures { IfOk result (λ way. way.items ≡ words.up directories) }
{
    if directories == 0 {
        return Vec::from_slice(alloc, b".");
    }
    let mut way = Vec::from_slice(alloc, b"..")?;
    for _i in 1..directories {
        way.extend_from_slice(b"/..")?;
    }
    Ok(way)
}

/// Returns a directory's name, given relative to the top, as it is relative to the file's
/// directory.
#[tactic(auto, unfolding(crate::specs::Place::seen_from))]
fn seen_from(alloc: Global, file: &[u8], directory: &[u8]) -> Result<Vec<u8>, AllocError>
    ensures { IfOk result (λ way. way.items ≡ words.seen_from file.now directory.now) }
{
    let directories = directory_count(file);
    if directory == b".".as_slice() {
        return up(alloc, directories);
    }
    if directory.starts_with(b"/") || directories == 0 {
        return Vec::from_slice(alloc, directory);
    }
    let mut way = up(alloc, directories)?;
    way.extend_from_slice(b"/")?;
    way.extend_from_slice(directory)?;
    Ok(way)
}

/// Returns the source directory that corresponds to the file's directory.
#[tactic(auto, unfolding(crate::specs::Place::sources_beside))]
fn sources_beside(alloc: Global, file: &[u8], srcdir: &[u8]) -> Result<Vec<u8>, AllocError>
    ensures { IfOk result (λ way. way.items ≡ words.sources_beside file.now srcdir.now) }
{
    if srcdir == b".".as_slice() {
        return Vec::from_slice(alloc, b".");
    }
    let mut way = seen_from(alloc, file, srcdir)?;
    if directory_count(file) == 0 {
        return Ok(way);
    }
    way.extend_from_slice(b"/")?;
    way.extend_from_slice(directory_of(file))?;
    Ok(way)
}
