//! The source of a run.

ghost use Rattle.std.specs.Prelude.{◌≡◌, IfOk};
ghost use Rattle.acparse.specs.Profile.{source_of};
ghost use Rattle.engine_frame.specs.Faults.{Gives, named, of_parse};
ghost use Rattle.output_list.specs.Output.{AreOutputs};
ghost use Rattle.ac_tree.specs.Lists.{lists_of};
ghost use Rattle.ac_tree.specs.Script.{script_of};

use ac_tree::Source;
use acparse::parse;
use engine_frame::Fault;
use std::alloc::Global;

/// Reads the source.
pub(crate) fn parsed(alloc: Global, text: &[u8]) -> Result<Source, Fault>
    ensures exact { Gives script_of result (named of_parse (source_of text.now)) }
    ensures outputs { IfOk result (λ s.
        AreOutputs (lists_of (script_of s)).files (lists_of (script_of s)).headers) }
{
    Ok(parse(alloc, text)?)
}
