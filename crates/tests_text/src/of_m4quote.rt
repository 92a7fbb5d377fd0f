//! m4quote: a source as items, and what arguments and bare text mean.

use m4quote::{
    Arg, Item, QuoteFault, bare_value, cpp_name, read_items, read_items_at, sh_name, used_text,
};
use std::alloc::AllocError;
use test_rows::{Page, RowCall, cut};

fn put_place(page: &mut Page, at: usize) {
    page.put(b" at ");
    page.put_number(at);
}

fn put_arguments(page: &mut Page, args: &[Arg<'_>]) {
    for arg in args {
        page.put(b" (");
        page.put_text(arg.text);
        put_place(page, arg.at);
        page.put(b")");
    }
}

fn put_items(page: &mut Page, items: &[Item<'_>]) {
    for item in items {
        match item {
            Item::Call { name, args, at } => {
                page.put(name);
                put_place(page, *at);
                put_arguments(page, args.as_slice());
            }
            Item::Bare { text, at } => {
                page.put_text(text);
                put_place(page, *at);
            }
        }
        page.put(b";");
    }
}

fn put_count(page: &mut Page, count: usize) {
    page.put_number(count);
    page.put(b" items");
}

fn put_read(page: &mut Page, items: Result<Vec<Item<'_>>, QuoteFault>, is_counted: bool) {
    match items {
        Ok(items) if is_counted => put_count(page, items.len()),
        Ok(items) => put_items(page, items.as_slice()),
        Err(fault) => page.put_shown(&fault),
    }
}

pub struct Items;

impl RowCall for Items {
    fn put(&self, page: &mut Page, given: &[u8]) {
        let alloc = page.alloc();
        let (call, text) = cut(given, b" ");
        match call.first() {
            Some(b'a') => put_read(page, read_items_at(alloc, text, 100), false),
            Some(b'c') => put_read(page, read_items(alloc, text), true),
            _ => put_read(page, read_items(alloc, text), false),
        }
    }
}

fn put_name(page: &mut Page, name: Result<Vec<u8>, AllocError>) {
    if let Some(name) = page.given(name) {
        page.put(name.as_slice());
    }
}

fn put_names(page: &mut Page, text: &[u8]) {
    put_name(page, sh_name(page.alloc(), text));
    page.put(b" ");
    put_name(page, cpp_name(page.alloc(), text));
}

fn put_faults(page: &mut Page) {
    for fault in [
        QuoteFault::UnclosedQuote(3),
        QuoteFault::UnclosedParen(12),
        QuoteFault::StrayClose(0),
        QuoteFault::Nul(7),
        QuoteFault::TooLarge,
        QuoteFault::TooDeep,
        QuoteFault::OutOfMemory,
    ] {
        page.put_shown(&fault);
        page.put(b";");
    }
}

fn put_meaning(page: &mut Page, meaning: Result<Vec<u8>, QuoteFault>) {
    match meaning {
        Ok(text) => page.put_text(text.as_slice()),
        Err(fault) => page.put_shown(&fault),
    }
}

pub struct Meanings;

impl RowCall for Meanings {
    fn put(&self, page: &mut Page, given: &[u8]) {
        let (call, text) = cut(given, b" ");
        match call.first() {
            Some(b'u') => put_meaning(page, used_text(page.alloc(), text)),
            Some(b'v') => put_meaning(page, bare_value(page.alloc(), text)),
            Some(b'n') => put_names(page, text),
            _ => put_faults(page),
        }
    }
}
