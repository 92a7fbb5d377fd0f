//! What calls are given.

use crew::Reply;
use deftable::Bytes;
use std::alloc::{AllocError, Global};

/// A name and a text.
pub type Pair<'a> = (&'a [u8], &'a [u8]);

/// Returns the text of these parts.
pub fn joined(alloc: Global, parts: &[&[u8]]) -> Result<Vec<u8>, AllocError> {
    let mut text = Vec::new(alloc);
    for part in parts {
        text.extend_from_slice(part)?;
    }
    Ok(text)
}

/// Returns a list of one text, or of none if it is empty.
pub fn texts_of(alloc: Global, text: &[u8]) -> Result<Vec<Bytes>, AllocError> {
    let mut texts = Vec::new(alloc);
    if !text.is_empty() {
        texts.push(Bytes::from_slice(alloc, text)?)?;
    }
    Ok(texts)
}

fn pair_of(alloc: Global, pair: &Pair) -> Result<(Bytes, Bytes), AllocError> {
    let name = Bytes::from_slice(alloc, pair.0)?;
    let text = Bytes::from_slice(alloc, pair.1)?;
    Ok((name, text))
}

pub fn pairs_of(alloc: Global, pairs: &[Pair]) -> Result<Vec<(Bytes, Bytes)>, AllocError> {
    let mut list = Vec::new(alloc);
    for pair in pairs {
        list.push(pair_of(alloc, pair)?)?;
    }
    Ok(list)
}

/// Returns the replies of a text: `0` for a child that succeeds, and `S` for a start that is
/// refused.
pub fn replies_of(alloc: Global, text: &[u8]) -> Result<Vec<Reply>, AllocError> {
    let mut replies = Vec::new(alloc);
    for byte in text {
        let reply = match *byte {
            b'S' => Reply::StartRefused,
            _ => Reply::Answer {
                status: 0,
                text: Bytes::new(alloc),
            },
        };
        replies.push(reply)?;
    }
    Ok(replies)
}
