//! Files and headers to be made, and lists of them.

ghost use Rattle.std.specs.Prelude.{◌≡◌, ℕ, List, [], length, IfOk, OnOk, OnErr, ◌++◌, ◌∷◌, ◌==◌, bytes_eq};
ghost use Rattle.std.specs.List.{list_any};
ghost use Rattle.output_list.specs.declared.output.Output.{Output};
ghost use Rattle.output_list.specs.Output as specs;

use deftable::Bytes;
use std::alloc::{AllocError, AllocFailed, Global};
use std::marker::Model;

/// A file or a header to be made, and its template (Autoconf's manual, "Configuration Files" and
/// "Configuration Headers").
#[derive(Drop)]
pub struct Output {
    pub name: Bytes,
    pub template: Bytes,
}

impl Output {
    /// Copies the output.
    pub fn copy(&self, alloc: Global) -> Result<Output, AllocError>
        ensures { IfOk result (λ o. o ≡ self.now) }
    {
        let name = self.name.copy(alloc)?;
        let template = self.template.copy(alloc)?;
        Ok(Output { name, template })
    }
}

/// A list of outputs.
pub struct OutputList {
    outputs: Vec<Output>,
}

impl Drop for OutputList {
    fn drop(self) {
        let OutputList { outputs: _outputs } = self;
    }
}

impl Model for OutputList {
    ghost Value = { List Output };

    ghost view = { λ t. t.outputs.items };
}

impl OutputList {
    /// Returns an empty list.
    pub fn new(alloc: Global) -> Self
        ensures { result ≡ [] }
    {
        OutputList {
            outputs: Vec::new(alloc),
        }
    }

    /// Returns the outputs, in order.
    pub fn as_slice(&self) -> &[Output]
        ensures { result.now ≡ self.now }
    {
        self.outputs.as_slice()
    }

    /// Returns the number of outputs.
    pub fn len(&self) -> usize
        ensures { result ≡ length self.now }
    {
        self.outputs.len()
    }

    /// Returns whether there is no output.
    pub fn is_empty(&self) -> bool
        ensures { result ≡ (length self.now == 0) }
    {
        self.outputs.is_empty()
    }

    /// Returns whether an output has this name.
    #[tactic(auto, using(crate::proofs::Names::named))]
    pub fn has(&self, name: &[u8]) -> bool
        ensures { result ≡ specs.has_output self.now name.now }
    {
        is_any(self.outputs.as_slice(), name)
    }

    /// Appends an output. If memory runs out, the output is dropped.
    pub fn push(&mut self, output: Output) -> Result<(), AllocError>
        ensures ok { OnOk result (self.new ≡ self.old ++ output ∷ []) }
        ensures err { OnErr result (self.new ≡ self.old) }
    {
        self.outputs.push(output)?;
        Ok(())
    }

    /// Appends copies of the outputs. If memory runs out, some of them may have been appended.
    pub fn push_copies(&mut self, alloc: Global, outputs: &[Output]) -> Result<(), AllocError>
        ensures { OnOk result (self.new ≡ self.old ++ outputs.now) }
    {
        for output in outputs {
            self.outputs.push(output.copy(alloc)?)?;
        }
        Ok(())
    }
}

fn is_any(outputs: &[Output], name: &[u8]) -> bool
    ensures { result ≡ list_any (λ o. bytes_eq name.now o.name) outputs.now }
{
    outputs.iter().any(|o| name == o.name.as_slice())
}
