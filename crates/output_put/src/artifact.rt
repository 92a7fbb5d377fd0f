//! The artifacts that a run hands over.

ghost use Rattle.std.specs.Prelude.{◌≡◌, List, [], ◌∷◌, ◌++◌, IfOk, OnOk, OnErr};
ghost use Rattle.output_put.specs.declared.artifact.Artifact.{Artifact};

use deftable::Bytes;
use std::alloc::{AllocError, Global};
use std::marker::Model;

/// What an artifact is.
#[derive(Clone, Copy, PartialEq, Eq)]
pub enum Kind {
    /// The text of the cache file.
    Cache,
    /// The record of the run, from which its files and headers can be made again.
    Record,
    /// A file that is made of its template.
    File,
    /// A header that is made of its template.
    Header,
}

/// A text that is handed over, with its kind and its name.
#[derive(Drop)]
pub struct Artifact {
    /// What the artifact is.
    pub kind: Kind,
    /// The name of the artifact, such as the name of an output file.
    pub name: Bytes,
    /// The whole text of the artifact.
    pub text: Bytes,
}

impl Artifact {
    /// Returns an artifact with copies of `name` and `text`.
    ///
    /// # Errors
    ///
    /// Fails only if memory runs out.
    pub fn from_slices(
        alloc: Global,
        kind: Kind,
        name: &[u8],
        text: &[u8],
    ) -> Result<Artifact, AllocError>
        ensures { IfOk result (λ artifact.
            artifact ≡ record { kind = kind; name = name.now; text = text.now }) }
    {
        let name = Bytes::from_slice(alloc, name)?;
        let text = Bytes::from_slice(alloc, text)?;
        Ok(Artifact { kind, name, text })
    }
}

/// Artifacts, in the order in which they are handed over.
pub struct Artifacts {
    artifacts: Vec<Artifact>,
}

impl Drop for Artifacts {
    fn drop(self) {
        let Artifacts {
            artifacts: _artifacts,
        } = self;
    }
}

impl Model for Artifacts {
    ghost Value = { List Artifact };

    ghost view = { λ t. t.artifacts.items };
}

impl Artifacts {
    /// Returns a list of no artifacts.
    pub fn new(alloc: Global) -> Artifacts
        ensures { result ≡ [] }
    {
        Artifacts {
            artifacts: Vec::new(alloc),
        }
    }

    /// Appends an artifact.
    ///
    /// # Errors
    ///
    /// Fails only if memory runs out, and then drops the artifact.
    pub fn push(&mut self, artifact: Artifact) -> Result<(), AllocError>
        ensures ok { OnOk result (self.new ≡ self.old ++ artifact ∷ []) }
        ensures err { OnErr result (self.new ≡ self.old) }
    {
        self.artifacts.push(artifact)?;
        Ok(())
    }

    /// Returns the artifacts, in order.
    pub fn as_slice(&self) -> &[Artifact]
        ensures { result.now ≡ self.now }
    {
        self.artifacts.as_slice()
    }
}
