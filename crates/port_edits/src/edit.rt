//! What takes the place of a part of a text.

ghost use Rattle.std.specs.Prelude.{◌≡◌, [], IfOk};

use std::alloc::{AllocError, Global};

/// What takes the place of a part of a text.
#[derive(Drop)]
pub struct Edit {
    /// The offset of the first byte that is left out.
    pub start: usize,
    /// The offset after the last byte that is left out.
    pub end: usize,
    /// What is put there.
    pub put: Vec<u8>,
}

impl Edit {
    /// Returns an edit that puts nothing.
    pub fn without(alloc: Global, start: usize, end: usize) -> Edit
        ensures place { (result.start ≡ start) × (result.end ≡ end) }
        ensures put { result.put.items ≡ [] }
    {
        Edit {
            start,
            end,
            put: Vec::new(alloc),
        }
    }

    /// Returns an edit that puts a copy of a text.
    ///
    /// # Errors
    ///
    /// Fails only if memory runs out.
    pub fn with(alloc: Global, start: usize, end: usize, put: &[u8]) -> Result<Edit, AllocError>
        ensures place { IfOk result (λ e. (e.start ≡ start) × (e.end ≡ end)) }
        ensures put { IfOk result (λ e. e.put.items ≡ put.now) }
    {
        let put = Vec::from_slice(alloc, put)?;
        Ok(Edit { start, end, put })
    }
}
