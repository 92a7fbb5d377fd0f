//! Writes the name and the version of AM_INIT_AUTOMAKE into AC_INIT, if all idioms are wanted.

ghost use Rattle.std.specs.Prelude.{◌≡◌, ◌∷◌, ◌++◌, true, Some, map, slice_get, slice_range, codes, Contains, IfOk, IfSome, OnOk, IsTrue};
ghost use Rattle.std.specs.List.{list_all};
ghost use Rattle.ac_calls.specs.Calls.{calls_in, macro_call_of};
ghost use Rattle.lint_macros.specs.Entries.{entry_of};
ghost use Rattle.lint_macros.specs.declared.text.TheConstants.{TABLE};
ghost use Rattle.port_idioms.specs.Filled.{text_of};
ghost use Rattle.port_idioms.specs.Rows.{put_by, Differs};
ghost use Rattle.port_idioms.specs.declared.idioms.Idioms.TheVariants.{All};
ghost use Rattle.port_spots.specs.Put.{arg_text, count_of, below, is_space_or_return};
ghost use Rattle.port_passes.specs.Making as specs;
ghost use Rattle.port_passes.specs.Rewritten as rewritten;

use ac_calls::{CallAt, Extent};
use lint_text::{is_word_byte, part};
use port_definitions::argument;
use port_idioms::{Idioms, Other, is_call_of, other_of, text_of};
use port_passes::{Pass, can_be_made, is_init, lacks_version, put_made};
use port_spots::{Known, Spot, TitleSpot, count_of, difference, line_indent, put_idiom, texts};
use std::alloc::{AllocError, Global};

/// Returns whether the byte may be in the name or the version of a package.
fn is_title_byte(byte: u8) -> bool
    ensures { result ≡ specs.is_title_byte byte }
{
    byte.is_ascii_alphanumeric()
        || byte == b'_'
        || byte == b'.'
        || byte == b'-'
        || byte == b'+'
        || byte == b'~'
}

/// Returns whether a text has nothing but such bytes.
fn are_title_bytes(text: &[u8]) -> bool
    ensures { result ≡ list_all specs.is_title_byte text.now }
{
    text.iter().all(|byte| is_title_byte(*byte))
}

/// Returns whether a text is a plain word.
fn is_title(word: &[u8]) -> bool
    ensures { result ≡ specs.is_title word.now }
{
    0 < word.len() && are_title_bytes(word)
}

/// Returns whether an argument is a plain word.
fn is_titled(text: &[u8], arg: Extent) -> bool
    ensures { IsTrue result → specs.is_title (text_of (Some (arg_text text.now arg))) ≡ true }
{
    match text_of(part(text, arg.start, arg.end)) {
        Some(inner) => is_title(inner),
        None => false,
    }
}

/// Returns whether the call is one of AM_INIT_AUTOMAKE.
fn is_automake(text: &[u8], call: &CallAt) -> bool
    ensures { IsTrue result
        → slice_range text.now (macro_call_of call.now).start (macro_call_of call.now).name_end
        ≡ codes "AM_INIT_AUTOMAKE" }
{
    is_call_of(text, call, b"AM_INIT_AUTOMAKE")
}

/// The arguments of a call of AM_INIT_AUTOMAKE that are the name and the version of the package.
#[derive(Clone, Copy)]
pub struct Title {
    pub name: Extent,
    pub version: Extent,
}

/// Returns the first two arguments of a call.
pub fn first_two(call: &CallAt) -> Option<Title>
    ensures { IfSome result (λ t.
        (slice_get (macro_call_of call.now).args 0 ≡ Some t.name)
        × (slice_get (macro_call_of call.now).args 1 ≡ Some t.version)) }
{
    let name = argument(call, 0)?;
    let version = argument(call, 1)?;
    Some(Title { name, version })
}

/// Returns whether both are plain words.
fn are_titles(text: &[u8], title: Title) -> bool
    ensures { IsTrue result
        → (specs.is_title (text_of (Some (arg_text text.now title.name))) ≡ true)
        × (specs.is_title (text_of (Some (arg_text text.now title.version))) ≡ true) }
{
    is_titled(text, title.name) && is_titled(text, title.version)
}

/// Returns whether a word of an argument is the name of a macro that the source defines.
fn is_defined(known: &Known, text: &[u8], arg: Extent) -> bool {
    part(text, arg.start, arg.end)
        .split(|byte| !is_word_byte(*byte))
        .any(|word| known.defined.contains(word))
}

/// Returns whether a word of the name or the version is that of a macro that the source defines.
fn has_defined(known: &Known, text: &[u8], title: Title) -> bool {
    is_defined(known, text, title.name) || is_defined(known, text, title.version)
}

/// Returns the name and the version of the package, if the call is AM_INIT_AUTOMAKE with both, and
/// they are plain words.
#[tactic(auto, using(crate::proofs::Made::names_package))]
fn title_of(known: &Known, text: &[u8], call: &CallAt) -> Option<Title>
    ensures { IfSome result (λ t.
        specs.NamesPackage text.now (macro_call_of call.now) t.name t.version) }
{
    if !is_automake(text, call) {
        return None;
    }
    let title = first_two(call)?;
    if are_titles(text, title) && !has_defined(known, text, title) {
        Some(title)
    } else {
        None
    }
}

/// Returns where AC_INIT is to get the name and the version of the first call of AM_INIT_AUTOMAKE
/// that has both. Calls in the arguments of others don't count.
pub fn title_in(text: &[u8], calls: &[CallAt]) -> Option<TitleSpot> {
    let mut reach: usize = 0;
    let mut init: Option<usize> = None;
    for i in 0..calls.len() {
        let call = &calls[i];
        let is_at_top = reach <= call.start;
        if is_at_top && init.is_none() && is_init(text, call) {
            init = Some(call.start);
        }
        if is_at_top && is_automake(text, call) && call.args.len() >= 2 {
            return Some(TitleSpot {
                init: init?,
                index: i,
            });
        }
        reach = reach.max(call.end);
    }
    None
}

/// Returns the arguments of the idiom: the name, the version and others.
fn with_title<'a>(
    alloc: Global,
    name: &'a [u8],
    version: &'a [u8],
    more: &[&'a [u8]],
) -> Result<Vec<&'a [u8]>, AllocError>
    ensures { IfOk result (λ v.
        map (λ a. a.now) v.items ≡ name.now ∷ version.now ∷ map (λ a. a.now) more.now) }
{
    let mut out = Vec::new(alloc);
    out.push(name)?;
    out.push(version)?;
    out.extend_from_slice(more)?;
    Ok(out)
}

/// Appends the idiom with a name, a version and others. Returns whether they could be put there.
fn put_with(
    alloc: Global,
    out: &mut Vec<u8>,
    idiom: &[u8],
    name: &[u8],
    version: &[u8],
    more: &[&[u8]],
    indent: &[u8],
) -> Result<bool, AllocError>
    ensures { IfOk result (λ b.
        IsTrue b
        → out.new.items
        ≡ out.old.items
        ++ below indent.now idiom.now (name.now ∷ version.now ∷ map (λ a. a.now) more.now)) }
{
    let args = with_title(alloc, name, version, more)?;
    put_idiom(alloc, out, idiom, args.as_slice(), indent)
}

/// Appends the idiom with a name, a version and the arguments of a call. Returns whether they could
/// be put there.
fn put_args(
    alloc: Global,
    out: &mut Vec<u8>,
    idiom: &[u8],
    text: &[u8],
    title: Title,
    args: &[Extent],
    indent: &[u8],
) -> Result<bool, AllocError>
    ensures { IfOk result (λ b.
        IsTrue b
        → out.new.items
        ≡ out.old.items
        ++ below indent.now idiom.now
        (arg_text text.now title.name ∷ arg_text text.now title.version
        ∷ map (arg_text text.now) args.now)) }
{
    let more = texts(alloc, text, args)?;
    put_with(
        alloc,
        out,
        idiom,
        part(text, title.name.start, title.name.end),
        part(text, title.version.start, title.version.end),
        more.as_slice(),
        indent,
    )
}

/// Returns what is put in the place of AC_INIT: the idiom below a comment, unless an argument can't
/// be put into it.
#[tactic(auto, using(crate::proofs::Made::titled))]
fn title_text(
    alloc: Global,
    text: &[u8],
    indent: &[u8],
    call: &CallAt,
    named: &CallAt,
    title: Title,
    other: &Other,
) -> Result<Option<Vec<u8>>, AllocError>
    requires lacks { specs.LacksVersion text.now (macro_call_of call.now) }
    requires indent { list_all is_space_or_return indent.now ≡ true }
    requires there { Contains (calls_in text.now) (macro_call_of named.now) }
    requires title { specs.NamesPackage text.now (macro_call_of named.now) title.name title.version }
    requires has { put_by (entry_of (specs.titled_row (count_of text.now (macro_call_of call.now).args)) TABLE.now)
        ≡ Some other.now.idiom.now }
    requires differs { Differs (specs.titled_row (count_of text.now (macro_call_of call.now).args)) 0
        other.now.said.now }
    ensures { IfOk result (λ o.
        IfSome o (λ v. specs.IsMade text.now (macro_call_of call.now) v.items)) }
{
    let mut out = difference(alloc, b"AC_INIT", other.said)?;
    if put_args(
        alloc,
        &mut out,
        other.idiom,
        text,
        title,
        call.args.as_slice(),
        indent,
    )? {
        Ok(Some(out))
    } else {
        Ok(None)
    }
}

/// Returns the name that the table has for AC_INIT with so many arguments, if it gets a name and a
/// version.
fn titled_row(count: usize) -> &'static [u8]
    ensures { result.now ≡ specs.titled_row count }
{
    if count == 0 {
        b"AC_INIT(package)"
    } else {
        b"AC_INIT(package,file)"
    }
}

/// Writes AC_INIT with a name and a version in the place of a call without a version.
fn put_titled(
    alloc: Global,
    idioms: Idioms,
    text: &[u8],
    indent: &[u8],
    call: &CallAt,
    named: &CallAt,
    title: Title,
    other: &Other,
    pass: &mut Pass,
) -> Result<(), AllocError>
    requires call { Contains (calls_in text.now) (macro_call_of call.now) }
    requires all { idioms ≡ All }
    requires lacks { specs.LacksVersion text.now (macro_call_of call.now) }
    requires indent { list_all is_space_or_return indent.now ≡ true }
    requires there { Contains (calls_in text.now) (macro_call_of named.now) }
    requires title { specs.NamesPackage text.now (macro_call_of named.now) title.name title.version }
    requires has { put_by (entry_of (specs.titled_row (count_of text.now (macro_call_of call.now).args)) TABLE.now)
        ≡ Some other.now.idiom.now }
    requires differs { Differs (specs.titled_row (count_of text.now (macro_call_of call.now).args)) 0
        other.now.said.now }
    requires begun { rewritten.IsPass idioms text.now pass.old.at pass.old.out.items }
    ensures { OnOk result (rewritten.IsPass idioms text.now pass.new.at pass.new.out.items) }
{
    match title_text(alloc, text, indent, call, named, title, other)? {
        Some(put) => put_made(idioms, text, call, put.as_slice(), pass),
        None => Ok(()),
    }
}

/// Writes AC_INIT with the name and the version of another call in the place of a call without a
/// version, if that has them.
fn put_title(
    alloc: Global,
    idioms: Idioms,
    known: &Known,
    text: &[u8],
    indent: &[u8],
    call: &CallAt,
    named: &CallAt,
    pass: &mut Pass,
) -> Result<(), AllocError>
    requires call { Contains (calls_in text.now) (macro_call_of call.now) }
    requires all { idioms ≡ All }
    requires lacks { specs.LacksVersion text.now (macro_call_of call.now) }
    requires indent { list_all is_space_or_return indent.now ≡ true }
    requires there { Contains (calls_in text.now) (macro_call_of named.now) }
    requires begun { rewritten.IsPass idioms text.now pass.old.at pass.old.out.items }
    ensures { OnOk result (rewritten.IsPass idioms text.now pass.new.at pass.new.out.items) }
{
    let Some(title) = title_of(known, text, named) else {
        return Ok(());
    };
    let row = titled_row(count_of(text, call.args.as_slice()));
    match other_of(alloc, &known.index, row, 0)? {
        Some(other) => put_titled(
            alloc, idioms, text, indent, call, named, title, &other, pass,
        ),
        None => Ok(()),
    }
}

/// Writes AC_INIT with the name and the version of AM_INIT_AUTOMAKE in the place of the first call, if
/// there is such a name.
fn put_found_title(
    alloc: Global,
    idioms: Idioms,
    known: &Known,
    text: &[u8],
    calls: &[CallAt],
    indent: &[u8],
    call: &CallAt,
    pass: &mut Pass,
) -> Result<(), AllocError>
    requires calls { map macro_call_of calls.now ≡ calls_in text.now }
    requires call { Contains (calls_in text.now) (macro_call_of call.now) }
    requires all { idioms ≡ All }
    requires lacks { specs.LacksVersion text.now (macro_call_of call.now) }
    requires indent { list_all is_space_or_return indent.now ≡ true }
    requires begun { rewritten.IsPass idioms text.now pass.old.at pass.old.out.items }
    ensures { OnOk result (rewritten.IsPass idioms text.now pass.new.at pass.new.out.items) }
{
    let Some(spot) = known.at_title else {
        return Ok(());
    };
    let i = spot.index;
    if spot.init != call.start || calls.len() <= i {
        return Ok(());
    }
    put_title(alloc, idioms, known, text, indent, call, &calls[i], pass)
}

/// Writes AC_INIT with the name and the version of AM_INIT_AUTOMAKE in the place of a call without a
/// version, if all idioms are wanted.
pub fn pass_title(
    alloc: Global,
    idioms: Idioms,
    known: &Known,
    text: &[u8],
    calls: &[CallAt],
    spot: Spot,
    call: &CallAt,
    pass: &mut Pass,
) -> Result<(), AllocError>
    requires calls { map macro_call_of calls.now ≡ calls_in text.now }
    requires call { Contains (calls_in text.now) (macro_call_of call.now) }
    requires begun { rewritten.IsPass idioms text.now pass.old.at pass.old.out.items }
    ensures { OnOk result (rewritten.IsPass idioms text.now pass.new.at pass.new.out.items) }
{
    if !spot.is_at_top || !lacks_version(text, call) || !can_be_made(known, text, spot, call) {
        return Ok(());
    }
    let indent = line_indent(text, spot);
    match idioms {
        Idioms::Exact => Ok(()),
        Idioms::All => put_found_title(alloc, idioms, known, text, calls, indent, call, pass),
    }
}
