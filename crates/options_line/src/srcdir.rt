//! The directory of the source.

ghost use Rattle.std.specs.Prelude.{◌≡◌, ℕ, List, None, codes};
ghost use Rattle.options_line.specs.Argument.{argument_of};
ghost use Rattle.options_line.specs.Srcdir as words;

use crate::argument::{Argument, Target, read_argument};
use crate::awaiting::awaited_after;
use crate::slashes::without_slashes;
use deftable::Bytes;

/// Returns the directory after an option with this value.
fn srcdir_of_value<'a>(target: Target, value: &'a [u8], srcdir: &'a [u8]) -> &'a [u8]
    ensures { result.now ≡ words.srcdir_of_value target value.now srcdir.now }
{
    match target {
        Target::Srcdir => value,
        Target::CacheFile | Target::InstallDirectory(_) => srcdir,
    }
}

fn srcdir_said<'a>(said: Argument<'a>, srcdir: &'a [u8]) -> &'a [u8]
    ensures { result.now ≡ words.srcdir_said (argument_of said.entry) srcdir.now }
{
    match said {
        Argument::OptionValue(target, value) => srcdir_of_value(target, value, srcdir),
        _ => srcdir,
    }
}

/// Returns the directory after an argument that may be the value of the option before it.
fn srcdir_after<'a>(awaited: Option<Target>, argument: &'a Bytes, srcdir: &'a [u8]) -> &'a [u8]
    ensures { result.now ≡ words.srcdir_after awaited argument.now srcdir.now }
{
    match awaited {
        Some(target) => srcdir_of_value(target, argument.as_slice(), srcdir),
        None => srcdir_said(read_argument(argument.as_slice()), srcdir),
    }
}

/// Returns the directory that the arguments name, with its final slashes.
fn srcdir_named(args: &[Bytes]) -> &[u8]
    ensures { result.now ≡ words.srcdir_from None (codes ".") args.now }
{
    let mut awaited = None;
    let mut srcdir = b".".as_slice();
    for argument in args {
        srcdir = srcdir_after(awaited, argument, srcdir);
        awaited = awaited_after(awaited, argument);
    }
    srcdir
}

/// Returns the directory of the source that the arguments of a command line name, without final
/// slashes, or `.` if they name none (Autoconf's manual, "configure Invocation").
///
/// Arguments with errors are passed over, so the directory is known before anything else is read.
/// If all arguments are right, `srcdir` of a run's settings is the same.
#[tactic(auto, unfolding(crate::specs::Srcdir::srcdir_of))]
pub fn srcdir_of(args: &[Bytes]) -> &[u8]
    // The arguments name what is returned, and no other directory.
    ensures sound { words.NamesDirectory args.now result.now }
    ensures complete { (directory : List ℕ) → words.NamesDirectory args.now directory
        → result.now ≡ directory }
    ensures exact { result.now ≡ words.srcdir_of args.now }
{
    without_slashes(srcdir_named(args))
}
