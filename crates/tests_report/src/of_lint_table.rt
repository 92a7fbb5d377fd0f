//! Parts in the places of words. The words may change, so a row of them is looked for, and no whole
//! message.

use bstr::ByteSlice;
use lint_table::{Page, WordPart, is_difference, keys};
use std::alloc::Global;

/// Returns whether a message with this part has these words.
fn says(alloc: Global, part: WordPart<'_>, words: &[u8]) -> bool {
    let mut page = Page::new(alloc);
    page.put(keys::NO_COMMAND, &[part]);
    match page.words() {
        Ok(said) => said.message.as_slice().contains_str(words) && said.help.is_empty(),
        Err(_) => false,
    }
}

#[test]
fn forms_of_parts(rt: HostRuntime) {
    let alloc = rt.alloc();
    let long = [b'x'; 61];
    let is_plain = says(alloc, WordPart::AsItIs(b"%1 \x01\x02"), b"%1 \x01\x02 ");
    let is_quoted = says(alloc, WordPart::Quoted(b"a\x01\x7fb"), b"`a\\x01\\x7fb`");
    let is_cut = says(alloc, WordPart::Quoted(&long), b"x..`")
        && !says(alloc, WordPart::Quoted(&long[1..]), b"..");
    let is_value = says(alloc, WordPart::Value(&long), b"x`");
    let is_number = says(alloc, WordPart::Number(1024), b"1024 ");
    assert!(rt; is_plain && is_quoted && is_cut && is_value && is_number);
}

#[test]
fn codes_of_differences(rt: HostRuntime) {
    let is_mark = is_difference(keys::TILDE.name());
    let is_list = is_difference(keys::DEFAULT_HEADERS.name());
    let is_other = is_difference(keys::NEVER_DEFINED.name()) || is_difference(b"");
    assert!(rt; is_mark && is_list && !is_other);
}
