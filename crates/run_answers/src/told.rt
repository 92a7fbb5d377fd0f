//! What a run is given, kept until its first child.

use crew_resume::Givens;
use deftable::Bytes;
use std::alloc::{AllocError, Global};

/// How many bytes what a run is given usually has at most.
const USUAL_BYTES: usize = 16_384;

/// What a run is given.
#[derive(Drop)]
pub(crate) struct Told {
    // The source, the cache, the arguments, and the names and values of the environment, one after the
    // other. Most runs with a cache start no child, and one text is made faster than many.
    texts: Vec<u8>,
    // How long each of them is.
    source: usize,
    cache: Option<usize>,
    arguments: Vec<usize>,
    environment: Vec<(usize, usize)>,
}

/// The arguments and the environment, each text with its own memory.
#[derive(Drop)]
pub(crate) struct Words {
    arguments: Vec<Bytes>,
    environment: Vec<(Bytes, Bytes)>,
}

/// Returns the first bytes of a text, this many if there are, and the others.
fn parted(text: &[u8], length: usize) -> (&[u8], &[u8]) {
    text.split_at(length.min(text.len()))
}

/// Appends a text, and returns how long it is.
fn put(texts: &mut Vec<u8>, text: &[u8]) -> Result<usize, AllocError> {
    texts.extend_from_slice(text)?;
    Ok(text.len())
}

/// Appends a text, if there is one, and returns how long it is.
fn put_if(texts: &mut Vec<u8>, text: Option<&[u8]>) -> Result<Option<usize>, AllocError> {
    match text {
        Some(text) => Ok(Some(put(texts, text)?)),
        None => Ok(None),
    }
}

impl Told {
    /// Returns equal givens that have their own memory.
    pub(crate) fn of(alloc: Global, givens: &Givens<'_>) -> Result<Told, AllocError> {
        let mut texts = Vec::with_capacity(alloc, USUAL_BYTES)?;
        let source = put(&mut texts, givens.source)?;
        let cache = put_if(&mut texts, givens.cache)?;
        let mut arguments = Vec::with_capacity(alloc, givens.arguments.len())?;
        for argument in givens.arguments {
            arguments.push(put(&mut texts, argument.as_slice())?)?;
        }
        let mut environment = Vec::with_capacity(alloc, givens.environment.len())?;
        for entry in givens.environment {
            let name = put(&mut texts, entry.0.as_slice())?;
            let value = put(&mut texts, entry.1.as_slice())?;
            environment.push((name, value))?;
        }
        Ok(Told {
            texts,
            source,
            cache,
            arguments,
            environment,
        })
    }

    /// Returns the arguments and the environment.
    pub(crate) fn words(&self, alloc: Global) -> Result<Words, AllocError> {
        let (_, after) = parted(self.texts.as_slice(), self.source);
        let (_, after) = parted(after, self.cache.unwrap_or(0));
        let mut rest = after;
        let mut arguments = Vec::with_capacity(alloc, self.arguments.len())?;
        for length in &self.arguments {
            let (argument, others) = parted(rest, *length);
            arguments.push(Bytes::from_slice(alloc, argument)?)?;
            rest = others;
        }
        let mut environment = Vec::with_capacity(alloc, self.environment.len())?;
        for lengths in &self.environment {
            let (name, after) = parted(rest, lengths.0);
            let (value, others) = parted(after, lengths.1);
            environment.push((
                Bytes::from_slice(alloc, name)?,
                Bytes::from_slice(alloc, value)?,
            ))?;
            rest = others;
        }
        Ok(Words {
            arguments,
            environment,
        })
    }

    /// Returns what the run is given, with these arguments and this environment.
    pub(crate) fn givens<'a>(&'a self, words: &'a Words) -> Givens<'a> {
        let (source, rest) = parted(self.texts.as_slice(), self.source);
        Givens {
            source,
            arguments: words.arguments.as_slice(),
            environment: words.environment.as_slice(),
            cache: match self.cache {
                Some(length) => Some(parted(rest, length).0),
                None => None,
            },
        }
    }
}
