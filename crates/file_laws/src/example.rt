//! Examples in which all premises of the laws hold together.
//!
//! There is no code here. The disk is that of `specs/Example.antt`: it lacks the directory of an
//! output, which the run makes, and it has a link. The package is that of `specs/Package.antt`.

ghost use Rattle.std.specs.Prelude.{◌≡◌, ◌≢◌, true, [], Some, None, All, codes};
ghost use Rattle.file_disk.specs.Known.{text_under};
ghost use Rattle.file_laws.specs.Example.{all_deeds, disk, guards, handed, log, log_place, template, template_place};
ghost use Rattle.file_laws.specs.Package.{IsMadeTwice, outputs};
ghost use Rattle.file_laws.specs.Rerun.{AreNeverLinks, IsNeverLink, IsOver};
ghost use Rattle.file_texts.specs.Coherent.{after, IsCoherent, ReadsAt};
ghost use Rattle.file_texts.specs.Places.{is_place_guarded};

use crate::again::status_makes_the_same;
use crate::rerun::{inputs_are_kept, outputs_are_read};
use engine::remakes_agree;

/// On a disk without the directory `src`, a run puts a record, `src/Makefile` and a header, and
/// writes its log. All premises of [`outputs_are_read`] and of [`inputs_are_kept`] hold, and each
/// output has its text.
#[tactic(auto, using(crate::proofs::Examples::example_is_coherent, crate::proofs::Examples::example_is_plain, crate::proofs::Examples::example_log, crate::proofs::Examples::example_is_over, crate::proofs::Examples::example_input, crate::proofs::Examples::example_guarded, crate::proofs::Examples::example_apart, crate::proofs::Examples::example_lacks, crate::proofs::Examples::example_reads, crate::proofs::Examples::example_last, crate::proofs::Examples::example_keeps))]
pub fn premises_can_be_met()
    ensures coherent { IsCoherent disk }
    ensures lacks { disk.directories [] (codes "src/") ≡ None }
    ensures plain { AreNeverLinks disk handed }
    ensures plain_log { IsNeverLink disk log }
    ensures over { IsOver disk guards handed log (codes "l") log_place all_deeds }
    ensures guarded { is_place_guarded template_place guards ≡ true }
    ensures apart { template_place ≢ log_place }
    ensures input { ReadsAt (after disk []) template template_place (codes "NAME = @PACKAGE_NAME@\n") }
    ensures outputs { All
        (λ artifact. text_under (after disk all_deeds) artifact.name ≡ Some artifact.text) handed }
    ensures last { text_under (after disk all_deeds) log ≡ Some (codes "l") }
    ensures kept { text_under (after disk all_deeds) template ≡ Some (codes "NAME = @PACKAGE_NAME@\n") }
{
    outputs_are_read();
    inputs_are_kept();
}

/// On that disk a package is configured, which has no directory `src` yet for its `src/Makefile`,
/// and then `status` makes its outputs again. All premises of [`status_makes_the_same`] hold. What
/// is made again is `src/Makefile` and the header, each with its text, and that is what the run
/// left on the disk.
pub fn packages_can_be_made_again()
    ensures { (made : IsMadeTwice) × (made.again.made ≡ outputs)
        × All (λ artifact. text_under made.left artifact.name ≡ Some artifact.text) outputs }
{
    remakes_agree();
    status_makes_the_same();
}
