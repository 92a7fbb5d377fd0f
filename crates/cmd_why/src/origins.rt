//! Where an answer is from that was there before its check.

ghost use Rattle.std.specs.Prelude.{◌≡◌, ◌++◌, IfOk, OnOk, flat_map, map, option_map};
ghost use Rattle.options_line.specs.Argument.{argument_of};
ghost use Rattle.options_line.specs.Arguments as arguments;
ghost use Rattle.options.specs.Opening.{cache_named as cache_named_by};
ghost use Rattle.cmd_why.specs.Origins as specs;
ghost use Rattle.cmd_why.specs.Quoting.{shell_word};
ghost use Rattle.text_cut.specs.Cuts.{parts as parts_of};
ghost use Rattle.cmd_why.specs.Lines as lines_specs;

use crate::lines::after_front;
use crate::names::{cache_names, put_cache_name};
use crate::record::put_word;
use crate::seen::Seen;
use crate::subject::subject_of;
use deftable::Bytes;
use options_line::argument::{Argument, Switch, Target, read_argument};
use std::alloc::{AllocError, Global};
use text_cut::parts;

/// Returns the cache of this name, or `None` if the name is empty or `/dev/null`.
#[tactic(auto, unfolding(options::specs::Opening::cache_named))]
fn cache_named(name: &[u8]) -> Option<&[u8]>
    ensures { option_map (λ name. name.now) result ≡ cache_named_by name.now }
{
    if name == b"".as_slice() || name == b"/dev/null".as_slice() {
        return None;
    }
    Some(name)
}

/// Returns the cache after an option with this value.
fn cache_of_value<'a>(target: Target, value: &'a [u8], cache: Option<&'a [u8]>) -> Option<&'a [u8]>
    ensures { option_map (λ name. name.now) result
        ≡ specs.cache_of_value target value.now (option_map (λ name. name.now) cache.entry) }
{
    match target {
        Target::CacheFile => cache_named(value),
        Target::Srcdir => cache,
        Target::InstallDirectory(_) => cache,
    }
}

/// Returns the cache after an argument with this reading.
fn cache_said<'a>(said: Argument<'a>, cache: Option<&'a [u8]>) -> Option<&'a [u8]>
    ensures { option_map (λ name. name.now) result
        ≡ specs.cache_said (argument_of said.entry) (option_map (λ name. name.now) cache.entry) }
{
    match said {
        Argument::Flag(Switch::ConfigCache) => Some(b"config.cache"),
        Argument::OptionValue(target, value) => cache_of_value(target, value, cache),
        _ => cache,
    }
}

/// Returns the cache after an argument, which may be the value of the option before it.
#[tactic(auto, unfolding(crate::specs::Origins::cache_after))]
fn cache_after<'a>(
    awaited: Option<Target>,
    argument: &'a Bytes,
    cache: Option<&'a [u8]>,
) -> Option<&'a [u8]>
    ensures { option_map (λ name. name.now) result
        ≡ specs.cache_after awaited argument.now (option_map (λ name. name.now) cache.entry) }
{
    match awaited {
        Some(target) => cache_of_value(target, argument.as_slice(), cache),
        None => cache_said(read_argument(argument.as_slice()), cache),
    }
}

/// Returns the option that needs the next argument as its value, after an argument with this
/// reading.
fn awaited_by(said: Argument<'_>) -> Option<Target>
    ensures { result ≡ arguments.awaited_by (argument_of said.entry) }
{
    match said {
        Argument::OptionName(target) => Some(target),
        _ => None,
    }
}

/// Returns the option that needs the next argument as its value, after an argument that may be such
/// a value itself.
fn awaited_after(awaited: Option<Target>, argument: &Bytes) -> Option<Target>
    ensures { result ≡ arguments.awaited_after awaited argument.now }
{
    match awaited {
        Some(_) => None,
        None => awaited_by(read_argument(argument.as_slice())),
    }
}

/// Returns the name of the cache that arguments name, if they name one.
pub(crate) fn cache_of(args: &[Bytes]) -> Option<&[u8]>
    ensures { option_map (λ name. name.now) result ≡ specs.cache_of args.now }
{
    let mut awaited = None;
    let mut cache = None;
    for argument in args {
        cache = cache_after(awaited, argument, cache);
        awaited = awaited_after(awaited, argument);
    }
    cache
}

/// Returns whether the name is one of these.
fn is_one_of(names: &[Bytes], name: &[u8]) -> bool
    ensures { result ≡ specs.is_one_of name.now names.now }
{
    for known in names {
        if known.as_slice() == name {
            return true;
        }
    }
    false
}

/// Returns whether an argument with this reading sets one of these names.
fn sets_said(names: &[Bytes], said: Argument<'_>) -> bool
    ensures { result ≡ specs.sets_said names.now (argument_of said.entry) }
{
    match said {
        Argument::VariableValue(name, _) => is_one_of(names, name),
        _ => false,
    }
}

/// Returns whether an argument, which may be the value of the option before it, sets one of these
/// names.
#[tactic(auto, unfolding(crate::specs::Origins::sets_after))]
fn sets_after(names: &[Bytes], awaited: Option<Target>, argument: &Bytes) -> bool
    ensures { result ≡ specs.sets_after names.now awaited argument.now }
{
    match awaited {
        Some(_) => false,
        None => sets_said(names, read_argument(argument.as_slice())),
    }
}

/// Returns the argument, if it sets one of these names, or else the one before.
fn setter_after<'a>(
    names: &[Bytes],
    awaited: Option<Target>,
    argument: &'a Bytes,
    setter: Option<&'a [u8]>,
) -> Option<&'a [u8]>
    ensures { option_map (λ argument. argument.now) result
        ≡ specs.setter_after names.now awaited argument.now
        (option_map (λ argument. argument.now) setter.entry) }
{
    if sets_after(names, awaited, argument) {
        Some(argument.as_slice())
    } else {
        setter
    }
}

/// Returns the last argument that sets one of these names, if one does.
fn setter_of<'a>(names: &[Bytes], args: &'a [Bytes]) -> Option<&'a [u8]>
    ensures { option_map (λ argument. argument.now) result ≡ specs.setter_of names.now args.now }
{
    let mut awaited = None;
    let mut setter = None;
    for argument in args {
        setter = setter_after(names, awaited, argument, setter);
        awaited = awaited_after(awaited, argument);
    }
    setter
}

/// Returns whether a text begins with a name and this text.
fn follows(name: &[u8], next: &[u8], text: &[u8]) -> bool
    ensures { result ≡ specs.follows name.now next.now text.now }
{
    match after_front(name, text) {
        Some(rest) => rest.starts_with(next),
        None => false,
    }
}

/// Returns whether a line begins with a text and then with a name and `+`.
fn tests_name(line: &[u8], front: &[u8], name: &[u8]) -> bool
    ensures { result ≡ specs.tests_in name.now (lines_specs.after_front front.now line.now) }
{
    match after_front(front, line) {
        Some(rest) => follows(name, b"+", rest),
        None => false,
    }
}

/// Returns whether a line of a cache sets this name.
#[tactic(auto, unfolding(crate::specs::Origins::sets_name))]
fn sets_name(line: &[u8], name: &Bytes) -> bool
    ensures { result ≡ specs.sets_name line.now name.now }
{
    let name = name.as_slice();
    follows(name, b"=", line)
        || (tests_name(line, b"test ${", name) || tests_name(line, b"test \"${", name))
}

/// Returns whether a line of a cache sets one of these names.
fn sets_one(names: &[Bytes], line: &[u8]) -> bool
    ensures { result ≡ specs.sets_one names.now line.now }
{
    for name in names {
        if sets_name(line, name) {
            return true;
        }
    }
    false
}

/// Returns those of these lines of a cache that set one of these names.
fn lines_setting<'a>(
    alloc: Global,
    names: &[Bytes],
    lines: &[&'a [u8]],
) -> Result<Vec<&'a [u8]>, AllocError>
    ensures { IfOk result (λ v.
        map (λ line. line.now) v.items
        ≡ specs.lines_setting names.now (map (λ line. line.now) lines.now)) }
{
    let mut setting = Vec::new(alloc);
    for line in lines {
        if sets_one(names, *line) {
            setting.push(*line)?;
        }
    }
    Ok(setting)
}

/// Appends what is said before an argument that sets the name.
#[tactic(auto, unfolding(crate::specs::Origins::setter_front))]
fn put_setter_front(out: &mut Vec<u8>) -> Result<(), AllocError>
    ensures { OnOk result (out.new.items ≡ out.old.items ++ specs.setter_front) }
{
    out.extend_from_slice(b"config.status keeps an argument that sets it: ")
}

/// Appends what is said after it.
#[tactic(auto, unfolding(crate::specs::Origins::setter_end))]
fn put_setter_end(out: &mut Vec<u8>) -> Result<(), AllocError>
    ensures { OnOk result (out.new.items ≡ out.old.items ++ specs.setter_end) }
{
    out.extend_from_slice(b"\nTo ask again, leave that argument out.\n")
}

/// Appends what is said of an argument that sets the name.
fn put_argument(alloc: Global, out: &mut Vec<u8>, argument: &[u8]) -> Result<(), AllocError>
    ensures { OnOk result (
        out.new.items
        ≡ out.old.items
        ++ (specs.setter_front ++ (shell_word argument.now ++ specs.setter_end))) }
{
    put_setter_front(out)?;
    put_word(alloc, out, argument)?;
    put_setter_end(out)
}

/// Appends what is said of the last argument that sets the name.
fn put_setter(alloc: Global, out: &mut Vec<u8>, setter: Option<&[u8]>) -> Result<(), AllocError>
    ensures { OnOk result (
        out.new.items
        ≡ out.old.items
        ++ specs.setter_text (option_map (λ argument. argument.now) setter.entry)) }
{
    match setter {
        Some(argument) => put_argument(alloc, out, argument),
        None => Ok(()),
    }
}

/// Appends a line of a cache.
#[tactic(auto, unfolding(crate::specs::Origins::cache_line))]
fn put_cache_line(out: &mut Vec<u8>, line: &[u8]) -> Result<(), AllocError>
    ensures { OnOk result (out.new.items ≡ out.old.items ++ specs.cache_line line.now) }
{
    out.extend_from_slice(b"  ")?;
    out.extend_from_slice(line)?;
    out.extend_from_slice(b"\n")
}

/// Appends lines of a cache.
fn put_cache_lines(out: &mut Vec<u8>, lines: &[&[u8]]) -> Result<(), AllocError>
    ensures { OnOk result (
        out.new.items
        ≡ out.old.items ++ flat_map specs.cache_line (map (λ line. line.now) lines.now)) }
{
    for line in lines {
        put_cache_line(out, *line)?;
    }
    Ok(())
}

/// Appends what is said between the name of a cache and its lines.
#[tactic(auto, unfolding(crate::specs::Origins::lines_heading))]
fn put_lines_heading(out: &mut Vec<u8>) -> Result<(), AllocError>
    ensures { OnOk result (out.new.items ≡ out.old.items ++ specs.lines_heading) }
{
    out.extend_from_slice(b" has it now. To ask again, remove there:\n")
}

/// Appends lines of the cache of this name, with what is said before them.
fn put_headed_lines(out: &mut Vec<u8>, name: &[u8], lines: &[&[u8]]) -> Result<(), AllocError>
    ensures { OnOk result (
        out.new.items
        ≡ out.old.items ++ specs.headed_lines name.now (map (λ line. line.now) lines.now)) }
{
    out.extend_from_slice(b"The cache ")?;
    out.extend_from_slice(name)?;
    put_lines_heading(out)?;
    put_cache_lines(out, lines)
}

/// Appends what is said of the lines that set the name in the cache of this name.
#[tactic(auto, unfolding(crate::specs::Origins::lines_text))]
fn put_lines_setting(out: &mut Vec<u8>, name: &[u8], lines: &[&[u8]]) -> Result<(), AllocError>
    ensures { OnOk result (
        out.new.items
        ≡ out.old.items ++ specs.lines_text name.now (map (λ line. line.now) lines.now)) }
{
    if lines.is_empty() {
        return Ok(());
    }
    put_headed_lines(out, name, lines)
}

/// Appends what is said of a cache with this name and this text.
fn put_cache_text(
    alloc: Global,
    out: &mut Vec<u8>,
    names: &[Bytes],
    name: &[u8],
    text: &[u8],
) -> Result<(), AllocError>
    ensures { OnOk result (
        out.new.items
        ≡ out.old.items
        ++ specs.lines_text name.now
        (specs.lines_setting names.now (parts_of 10 text.now))) }
{
    let lines = parts(alloc, text, b'\n')?;
    let setting = lines_setting(alloc, names, lines.as_slice())?;
    put_lines_setting(out, name, setting.as_slice())
}

/// Appends what is said of a cache, if one can be read.
#[tactic(auto, unfolding(crate::specs::Origins::cache_text))]
fn put_cache(
    alloc: Global,
    out: &mut Vec<u8>,
    names: &[Bytes],
    cache: &Option<(Bytes, Bytes)>,
) -> Result<(), AllocError>
    ensures { OnOk result (out.new.items ≡ out.old.items ++ specs.cache_text names.now cache.now) }
{
    match cache {
        Some((name, text)) => put_cache_text(alloc, out, names, name.as_slice(), text.as_slice()),
        None => Ok(()),
    }
}

/// Returns what is said of arguments and of the cache that they name.
fn found_text(
    alloc: Global,
    names: &[Bytes],
    args: &[Bytes],
    cache: &Option<(Bytes, Bytes)>,
) -> Result<Vec<u8>, AllocError>
    ensures { IfOk result (λ v.
        v.items
        ≡ specs.setter_text (specs.setter_of names.now args.now)
        ++ specs.cache_text names.now cache.now) }
{
    let mut text = Vec::new(alloc);
    put_setter(alloc, &mut text, setter_of(names, args))?;
    put_cache(alloc, &mut text, names, cache)?;
    Ok(text)
}

/// Appends a text, or what is said if there is nothing to say.
#[tactic(auto, unfolding(crate::specs::Origins::or_nothing))]
fn put_or_nothing(out: &mut Vec<u8>, text: &[u8]) -> Result<(), AllocError>
    ensures { OnOk result (out.new.items ≡ out.old.items ++ specs.or_nothing text.now) }
{
    if text.is_empty() {
        return out.extend_from_slice(
            b"No argument in config.status sets a name that the log gives, and no cache that they name has one. It may be from the environment, from the source, or from a cache that isn't there now, or its name is not in the log.\n",
        );
    }
    out.extend_from_slice(text)
}

/// Appends what is said of arguments and of the cache that they name, or that they show nothing.
fn put_found(
    alloc: Global,
    out: &mut Vec<u8>,
    names: &[Bytes],
    args: &[Bytes],
    cache: &Option<(Bytes, Bytes)>,
) -> Result<(), AllocError>
    ensures { OnOk result (
        out.new.items
        ≡ out.old.items
        ++ specs.or_nothing (
        specs.setter_text (specs.setter_of names.now args.now)
        ++ specs.cache_text names.now cache.now)) }
{
    let text = found_text(alloc, names, args, cache)?;
    put_or_nothing(out, text.as_slice())
}

/// Appends where the values of these names may be from, by what is seen.
#[tactic(auto, unfolding(crate::specs::Origins::source_text))]
fn put_source(
    alloc: Global,
    out: &mut Vec<u8>,
    names: &[Bytes],
    seen: &Seen,
) -> Result<(), AllocError>
    ensures { OnOk result (out.new.items ≡ out.old.items ++ specs.source_text names.now seen.now) }
{
    match seen {
        Seen::Unlooked => out.extend_from_slice(
            b"It may be from an argument, a cache, the environment or the source: config.status is read only for config.log.\n",
        ),
        Seen::Unrecorded => out.extend_from_slice(
            b"It may be from an argument, a cache, the environment or the source: there is no config.status with arguments.\n",
        ),
        Seen::Recorded(args, cache, _defs) => put_found(alloc, out, names, args.as_slice(), cache),
    }
}

/// Appends the front of what is said of an answer that was there before its check.
#[tactic(auto, unfolding(crate::specs::Origins::cached_front))]
fn put_cached_front(out: &mut Vec<u8>) -> Result<(), AllocError>
    ensures { OnOk result (out.new.items ≡ out.old.items ++ specs.cached_front) }
{
    out.extend_from_slice(b"This answer was there before the check was made, as the value of ")
}

/// Appends what is said of an answer that was there before its check.
#[tactic(auto, unfolding(crate::specs::Origins::cached_text))]
pub(crate) fn put_cached(
    alloc: Global,
    out: &mut Vec<u8>,
    seen: &Seen,
    message: &[u8],
) -> Result<(), AllocError>
    ensures { OnOk result (
        out.new.items ≡ out.old.items ++ specs.cached_text seen.now message.now) }
{
    put_cached_front(out)?;
    put_cache_name(alloc, out, subject_of(message))?;
    out.extend_from_slice(b".\n")?;
    let names = cache_names(alloc, subject_of(message))?;
    put_source(alloc, out, names.as_slice(), seen)
}
