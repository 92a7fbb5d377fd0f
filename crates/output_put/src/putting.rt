//! Hands over artifacts, one after the other.

ghost use Rattle.std.specs.Prelude.{◌≡◌, ◌+◌, ◌^◌, ◌<◌, OnOk, OnErr, IfErr};
ghost use Rattle.output_put.specs.Receipt.{with_artifact, with_artifacts, with_refusal, IsCutAt};

use crate::artifact::Artifact;
use crate::receiver::{Outputs, PutRefused};

/// Hands over an artifact.
fn put_one<O: Outputs>(outputs: &mut O, artifact: &Artifact) -> Result<(), PutRefused>
    requires { (O.receipt outputs.old).failures < 2 ^ 62 }
    ensures taken { OnOk result (
        O.receipt outputs.new ≡ with_artifact (O.receipt outputs.old) artifact.now) }
    ensures refused { OnErr result (O.receipt outputs.new ≡ with_refusal (O.receipt outputs.old)) }
    ensures kept { O.kept outputs.new ≡ O.kept outputs.old }
{
    outputs.put(
        artifact.kind,
        artifact.name.as_slice(),
        artifact.text.as_slice(),
    )
}

/// Hands over artifacts in order, up to the first that is refused. It doesn't allocate.
///
/// # Errors
///
/// If a put is refused, returns its number, counted from 1. The artifacts before it were handed
/// over, each whole, and nothing after it.
pub fn put_all<O: Outputs>(outputs: &mut O, artifacts: &[Artifact]) -> Result<(), u64>
    requires { (O.receipt outputs.old).failures < 2 ^ 62 }
    ensures handed_over { OnOk result (
        O.receipt outputs.new ≡ with_artifacts (O.receipt outputs.old) artifacts.now) }
    ensures cut { IfErr result (
        IsCutAt artifacts.now (O.receipt outputs.old) (O.receipt outputs.new)) }
    ensures kept { O.kept outputs.new ≡ O.kept outputs.old }
{
    let mut number = 0u64;
    'artifacts: for artifact in artifacts {
        number += 1;
        if put_one(outputs, artifact).is_err() {
            return Err(number);
        }
    }
    Ok(())
}
