//! What is wrong with a list of outputs.

use ac_calls::{CallAt, Extent};
use lint_table::{Key, Page, WordPart, keys};
use lint_text::{before, part};
use std::alloc::{AllocError, Global};
use std::collections::BTreeSet;

/// The macros whose first argument is a list of outputs.
const MACROS: [&[u8]; 2] = [b"AC_CONFIG_FILES", b"AC_CONFIG_HEADERS"];

/// Returns whether the byte is before or after an entry of a list.
fn is_border(byte: u8) -> bool {
    matches!(byte, b' ' | b'\t' | b'\n' | b'[' | b']')
}

/// Returns the name of the output of an entry: what is before the template.
fn name_of(entry: &[u8]) -> &[u8] {
    let len = entry.iter().take_while(|byte| **byte != b':').count();
    before(entry, len)
}

/// Returns whether a path is not below a directory.
fn is_outside(path: &[u8]) -> bool {
    path.starts_with(b"/")
        || path
            .split(|byte| *byte == b'/')
            .any(|step| step == b"..".as_slice())
}

/// Returns what is wrong with an entry, if that is seen in the entry alone.
fn wrong_form(entry: &[u8]) -> Option<Key> {
    if entry.contains(&b'$') {
        return Some(keys::VARIABLE_IN_NAME);
    }
    if entry.iter().filter(|byte| **byte == b':').count() > 1 {
        return Some(keys::SEVERAL_TEMPLATES);
    }
    if entry.split(|byte| *byte == b':').any(is_outside) {
        return Some(keys::OUTSIDE_DIRECTORY);
    }
    None
}

/// Returns where the list of outputs of a call is, if it has one.
fn list_in(text: &[u8], call: &CallAt) -> Option<Extent> {
    let name = part(text, call.start, call.name_end);
    if MACROS.iter().any(|other| *other == name) {
        call.args.first().copied()
    } else {
        None
    }
}

/// Adds the names of a list. Returns the first one that was there before, if one was.
fn add_names<'a>(
    alloc: Global,
    list: &'a [u8],
    seen: &mut BTreeSet<Vec<u8>>,
) -> Result<Option<&'a [u8]>, AllocError> {
    for entry in list.split(|byte| is_border(*byte)) {
        let name = name_of(entry);
        let key = Vec::from_slice(alloc, name)?;
        if !name.is_empty() && !seen.insert(key)? {
            return Ok(Some(name));
        }
    }
    Ok(None)
}

/// Returns the first output of the list that begins at this offset that is named before.
fn named_before<'a>(
    alloc: Global,
    text: &'a [u8],
    calls: &[CallAt],
    at: usize,
) -> Result<Option<&'a [u8]>, AllocError> {
    let mut seen = BTreeSet::new(alloc);
    for call in calls {
        if let Some(list) = list_in(text, call) {
            let found = add_names(alloc, part(text, list.start, list.end), &mut seen)?;
            if list.start == at {
                return Ok(found);
            }
        }
    }
    Ok(None)
}

/// Writes what is wrong with an entry of a list, if that is seen in the entry alone. Returns
/// whether it is.
fn put_wrong_form(page: &mut Page, list: &[u8], name: &[u8]) -> bool {
    for entry in list.split(|byte| is_border(*byte)) {
        if let Some(key) = wrong_form(entry) {
            page.put(key, &[WordPart::Quoted(entry), WordPart::AsItIs(name)]);
            return true;
        }
    }
    false
}

/// Writes what is wrong with the list of outputs that begins at this offset, which is an argument of
/// the macro of this name. Returns whether that is known.
pub(crate) fn put_bad_outputs<'a>(
    alloc: Global,
    page: &mut Page,
    text: &'a [u8],
    calls: &[CallAt],
    at: usize,
    list: &[u8],
    name: &'a [u8],
) -> Result<bool, AllocError> {
    if !MACROS.iter().any(|other| *other == name) {
        return Ok(false);
    }
    if put_wrong_form(page, list, name) {
        return Ok(true);
    }
    let Some(file) = named_before(alloc, text, calls, at)? else {
        return Ok(false);
    };
    page.put(
        keys::NAMED_TWICE,
        &[WordPart::Quoted(file), WordPart::AsItIs(name)],
    );
    Ok(true)
}
