//! The replies and the order of ends that a test gives, in the words of `test_rows`.

use crew::{Order, Reply, SlotList};
use deftable::Bytes;
use test_rows::{EndOrder, Page, ReplyWord, end_order, number_of, reply_word};
use text_cut::fields;

/// Adds an item to a list.
pub fn add<T: Drop>(page: &mut Page, list: &mut Vec<T>, item: T) {
    if list.push(item).is_err() {
        page.cut();
    }
}

/// Returns the text: nothing if memory runs out.
pub fn bytes_of(page: &mut Page, text: &[u8]) -> Bytes {
    let alloc = page.alloc();
    page.given(Bytes::from_slice(alloc, text))
        .unwrap_or(Bytes::new(alloc))
}

/// Returns the reply of a word. If it is none, that is put.
fn reply_of(page: &mut Page, word: &[u8]) -> Reply {
    match reply_word(word) {
        Some(ReplyWord::Answer { status, text }) => Reply::Answer {
            status,
            text: bytes_of(page, text),
        },
        Some(ReplyWord::StartRefused) => Reply::StartRefused,
        Some(ReplyWord::EndRefused) => Reply::EndRefused,
        None => {
            page.put(b"no reply: ");
            page.put(word);
            Reply::EndRefused
        }
    }
}

/// Returns the replies in a text, with blanks or newlines between them.
pub fn replies_in(page: &mut Page, text: &[u8]) -> Vec<Reply> {
    let alloc = page.alloc();
    let mut replies = Vec::new(alloc);
    if let Some(words) = page.given(fields(alloc, text)) {
        for word in words.as_slice() {
            let reply = reply_of(page, word);
            add(page, &mut replies, reply);
        }
    }
    replies
}

/// Returns slots with blanks between them.
fn slots_in(page: &mut Page, text: &[u8]) -> SlotList {
    let alloc = page.alloc();
    let mut slots = Vec::new(alloc);
    if let Some(words) = page.given(fields(alloc, text)) {
        for word in words.as_slice() {
            add(page, &mut slots, number_of(word));
        }
    }
    SlotList::from_vec(slots)
}

/// Returns the order of ends that a text is.
pub fn order_in(page: &mut Page, text: &[u8]) -> Order {
    match end_order(text) {
        EndOrder::Oldest => Order::Oldest,
        EndOrder::Youngest => Order::Youngest,
        EndOrder::Slots(slots) => Order::Slots(slots_in(page, slots)),
    }
}
