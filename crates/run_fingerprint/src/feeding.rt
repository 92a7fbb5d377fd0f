//! Feeds a hasher with what a run rests on.

ghost use Rattle.std.specs.Prelude.{◌≡◌, ◌++◌, ℕ, List, map, nat_eq, option_map};
ghost use Rattle.std.specs.List.{flat_map, list_any, starts_with};
ghost use Rattle.sha2.specs.Hashers.{Holds256};
ghost use Rattle.sha2.specs.Sha256.{sha256};
ghost use Rattle.answers_text.specs.Texts.{number, sized};
ghost use Rattle.run_fingerprint.specs.Fingerprint as specs;

use crate::inputs::{ProgramAt, RunInputs};
use deftable::Bytes;
use sha2::{Digest, Sha256};

/// What the variables that don't count begin with.
#[rattlefmt::skip]
const PASSED_OVER: [&[u8]; 6] = [b"_=", b"SHLVL=", b"PWD=", b"OLDPWD=", b"ACRUN_PROGRESS=", b"ACRUN_WHY="];

/// Returns what the variables that don't count begin with.
#[tactic(auto, unfolding(crate::specs::Fingerprint::passed_over))]
fn passed_over() -> &'static [&'static [u8]]
    ensures { map (λ front. front.now) result.now ≡ specs.passed_over }
{
    &PASSED_OVER
}

/// Returns whether a variable of the environment begins with one of these.
fn begins_with_any(fronts: &[&[u8]], variable: &[u8]) -> bool
    ensures { result
        ≡ list_any (λ front. starts_with nat_eq variable.now front) (map (λ front. front.now) fronts.now) }
{
    for front in fronts {
        if variable.starts_with(*front) {
            return true;
        }
    }
    false
}

/// Returns whether a variable of the environment counts.
fn counts(variable: &[u8]) -> bool
    ensures { result ≡ specs.counts variable.now }
{
    !begins_with_any(passed_over(), variable)
}

/// Feeds a number.
#[tactic(auto, unfolding(answers_text::specs::Texts::number))]
fn feed_number(hasher: &mut Sha256, value: u64)
    ensures { (m : List ℕ) → Holds256 hasher.old m → Holds256 hasher.new (m ++ number value) }
{
    hasher.update(&value.to_be_bytes());
}

/// Feeds a text after its length.
#[tactic(auto, unfolding(answers_text::specs::Texts::sized), using(std::proofs::lemmas::List::append_assoc))]
fn feed_sized(hasher: &mut Sha256, text: &[u8])
    ensures { (m : List ℕ) → Holds256 hasher.old m → Holds256 hasher.new (m ++ sized text.now) }
{
    feed_number(hasher, text.len() as u64);
    hasher.update(text);
}

/// Feeds a text of a list.
#[tactic(auto, using(std::proofs::lemmas::List::append_assoc))]
fn feed_item(hasher: &mut Sha256, text: &[u8])
    ensures { (m : List ℕ)
        → Holds256 hasher.old m → Holds256 hasher.new (m ++ specs.item sized text.now) }
{
    feed_number(hasher, 1);
    feed_sized(hasher, text);
}

/// Feeds a list of texts.
fn feed_texts(hasher: &mut Sha256, texts: &[Bytes])
    ensures { (m : List ℕ)
        → Holds256 hasher.old m → Holds256 hasher.new (m ++ specs.listed sized texts.now) }
{
    for text in texts {
        feed_item(hasher, text.as_slice());
    }
    feed_number(hasher, 0);
}

/// Feeds a variable of the environment, if it counts.
fn feed_variable(hasher: &mut Sha256, variable: &[u8])
    ensures { (m : List ℕ)
        → Holds256 hasher.old m
        → Holds256 hasher.new (m ++ flat_map (specs.item sized) (specs.counted_one variable.now)) }
{
    if counts(variable) {
        feed_item(hasher, variable);
    }
}

/// Feeds those variables of the environment that count.
fn feed_environment(hasher: &mut Sha256, variables: &[Bytes])
    ensures { (m : List ℕ)
        → Holds256 hasher.old m
        → Holds256 hasher.new (m ++ specs.listed sized (specs.counted variables.now)) }
{
    for variable in variables {
        feed_variable(hasher, variable.as_slice());
    }
    feed_number(hasher, 0);
}

/// Feeds a text that may be missing.
#[tactic(auto, using(std::proofs::lemmas::List::append_assoc))]
fn feed_optional(hasher: &mut Sha256, text: Option<&[u8]>)
    ensures { (m : List ℕ)
        → Holds256 hasher.old m
        → Holds256 hasher.new (m ++ specs.optional (option_map (λ t. t.now) text.entry)) }
{
    match text {
        Some(text) => feed_item(hasher, text),
        None => feed_number(hasher, 0),
    }
}

/// Feeds a program.
#[tactic(auto, using(std::proofs::lemmas::List::append_assoc))]
fn feed_program(hasher: &mut Sha256, program: &ProgramAt)
    ensures { (m : List ℕ)
        → Holds256 hasher.old m → Holds256 hasher.new (m ++ specs.program_text program.now) }
{
    feed_sized(hasher, program.path.as_slice());
    feed_number(hasher, program.size);
    feed_number(hasher, program.changed);
    feed_number(hasher, program.inode);
}

/// Feeds a program of a list.
#[tactic(auto, using(std::proofs::lemmas::List::append_assoc))]
fn feed_program_item(hasher: &mut Sha256, program: &ProgramAt)
    ensures { (m : List ℕ)
        → Holds256 hasher.old m
        → Holds256 hasher.new (m ++ specs.item specs.program_text program.now) }
{
    feed_number(hasher, 1);
    feed_program(hasher, program);
}

/// Feeds a list of programs.
fn feed_programs(hasher: &mut Sha256, programs: &[ProgramAt])
    ensures { (m : List ℕ)
        → Holds256 hasher.old m → Holds256 hasher.new (m ++ specs.listed specs.program_text programs.now) }
{
    for program in programs {
        feed_program_item(hasher, program);
    }
    feed_number(hasher, 0);
}

/// Feeds the first half of what a run rests on: what it was given.
#[tactic(auto, using(std::proofs::lemmas::List::append_assoc))]
fn feed_given(hasher: &mut Sha256, run: &RunInputs<'_>)
    ensures { (m : List ℕ)
        → Holds256 hasher.old m
        → Holds256 hasher.new (m
        ++ specs.given_text run.now.version.now run.now.source.now run.now.arguments.now
        (specs.counted run.now.environment.now)) }
{
    feed_sized(hasher, run.version);
    feed_sized(hasher, run.source);
    feed_texts(hasher, run.arguments);
    feed_environment(hasher, run.environment);
}

/// Feeds the second half of what a run rests on: what it finds.
#[tactic(auto, using(std::proofs::lemmas::List::append_assoc))]
fn feed_found(hasher: &mut Sha256, run: &RunInputs<'_>)
    ensures { (m : List ℕ)
        → Holds256 hasher.old m
        → Holds256 hasher.new (m
        ++ specs.found_text run.now.directory.now run.now.mask
        (option_map (λ t. t.now) run.now.cache) run.now.programs.now) }
{
    feed_sized(hasher, run.directory);
    feed_number(hasher, u64::from(run.mask));
    feed_optional(hasher, run.cache);
    feed_programs(hasher, run.programs);
}

/// Returns the fingerprint of a run: the SHA-256 digest of what it rests on (own).
///
/// Of the environment the variables `_`, SHLVL, PWD, OLDPWD, ACRUN_PROGRESS and ACRUN_WHY don't
/// count.
#[tactic(auto, unfolding(crate::specs::Fingerprint::run_text))]
pub fn fingerprint_of(run: &RunInputs<'_>) -> [u8; 32]
    ensures { result
        ≡ sha256 (specs.run_text (record {
          version = run.now.version.now;
          source = run.now.source.now;
          arguments = run.now.arguments.now;
          environment = specs.counted run.now.environment.now;
          directory = run.now.directory.now;
          mask = run.now.mask;
          cache = option_map (λ t. t.now) run.now.cache;
          programs = run.now.programs.now;
        })) }
{
    let mut hasher = Sha256::new();
    feed_given(&mut hasher, run);
    feed_found(&mut hasher, run);
    hasher.finalize()
}
