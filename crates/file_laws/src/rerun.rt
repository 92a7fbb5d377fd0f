//! Laws of what is read of a disk after a run, if nobody else changes its files.
//!
//! There is no code here. Each function does nothing, and its contract is a theorem on the
//! definitions of `file_texts`: what a receiver did for what was handed over, and which names it
//! guarded. "own" marks a rule that no manual gives.
//!
//! For example, a run writes `config.status` and `Makefile`, and then `config.log`. It guards
//! `Makefile.in`. So what is read afterwards under `Makefile.in` is what was read before the run,
//! and under each other name what was written.
//!
//! Read `specs/Rerun.antt`, and then `specs/Tree.antt`, a disk of directories, files and a link, to
//! which the laws apply, as they do to that of `specs/Flat.antt`, which has one directory. What can't
//! be said of such a disk is in `specs/Absent.antt`.

ghost use Rattle.std.specs.Prelude.{◌≡◌, ◌≢◌, ℕ, true, false, List, [], None};
ghost use Rattle.file_disk.specs.Known.{Files, Deed, kind_under};
ghost use Rattle.file_laws.specs.Absent.{ReadsEachFile, RenamesEachFile};
ghost use Rattle.file_laws.specs.Flat.{Texts, flat};
ghost use Rattle.file_laws.specs.Rerun.{InputsAreKept, IsNeverLink, LastIsRead, OutputsAreRead};
ghost use Rattle.file_laws.specs.Tree.{Link, State, end_of, tree};
ghost use Rattle.file_texts.specs.Coherent.{after, IsCoherent};
ghost use Rattle.file_texts.specs.Links.{is_link};
ghost use Rattle.file_texts.specs.Names.{home_of};

use file_texts::laws::{last_files_are_read, puts_are_read, puts_leave_others};

/// What is read after a run under the name of an output is its text, and under the name of the last
/// file that file's text.
#[tactic(auto, using(crate::proofs::Reruns::outputs_read, crate::proofs::Reruns::last_read))]
pub fn outputs_are_read()
    ensures outputs { OutputsAreRead }
    ensures last { LastIsRead }
{
    puts_are_read();
    puts_leave_others();
    last_files_are_read();
}

/// What is read after a run under a name that was guarded is what was read before it.
#[tactic(auto, using(crate::proofs::Reruns::inputs_kept))]
pub fn inputs_are_kept()
    ensures { InputsAreKept }
{
    puts_leave_others();
    last_files_are_read();
}

/// A disk of one directory, whatever texts are in it at first, is changed by what is done to it,
/// and by nothing else. So there are disks to which these laws apply.
#[tactic(auto, using(crate::proofs::Flats::is_coherent))]
pub fn flat_disks_are_coherent()
    ensures { (start : Texts) → IsCoherent (flat start) }
{}

/// So is a disk of directories that are there or not, with a link to another file, whatever is on
/// it at first. No other name is ever that of a link.
#[tactic(auto, using(crate::proofs::Trees::tree_is_coherent, crate::proofs::Trees::never_linked))]
pub fn trees_are_coherent()
    ensures coherent { (link : Link) (start : State) → end_of link ≢ link.name
        → IsCoherent (tree link start) }
    ensures plain { (link : Link) (start : State) (name : List ℕ) → name ≢ link.name
        → IsNeverLink (tree link start) name }
{}

/// On a coherent disk that lacks a directory, not each file that is written is read, whatever its
/// name. If what is renamed is under the other name whatever it is, then on a disk with a link each
/// name may become that of a link.
#[tactic(auto, using(crate::proofs::Absents::none_lacks, crate::proofs::Absents::each_links))]
pub fn real_disks_need_premises()
    ensures directories { (files : Files) → IsCoherent files → ReadsEachFile files
        → (d : List Deed) (name : List ℕ) → files.directories d (home_of name) ≡ None → ⊥ }
    ensures links { (files : Files) → RenamesEachFile files → (link name : List ℕ)
        → is_link (kind_under (after files []) link) ≡ true
        → ((d : List Deed) → is_link (kind_under (after files d) name) ≡ false) → ⊥ }
{}
