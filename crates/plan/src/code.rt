//! Steps that are written from the last to the first.

ghost use Rattle.std.specs.Prelude.{◌≡◌, [], ◌∷◌, OnOk, length, map};
ghost use Rattle.plan.specs.Inside.{IsShort, AreShort};
ghost use Rattle.plan.specs.Names.{DefinesIn, DefinesNames};
ghost use Rattle.plan.specs.Walk.{Does, instruction_of};

use crate::step::Step;
use ac_tree::Effect;
use std::alloc::{AllocError, Global};
use std::marker::Model;

/// Steps, with each further one put at the front. Contracts see them from the first on.
#[derive(Drop)]
pub(crate) struct Code<'a> {
    /// The last step comes first.
    steps: Vec<Step<'a>>,
}

impl<'a> Model for Code<'a> {
    ghost use Rattle.std.specs.Prelude.{List, map, reverse};
    ghost use Rattle.std.specs.Coded.{codes};
    ghost use Rattle.ac_tree.specs.contracts.statement.Effect as effect;
    ghost use Rattle.ac_tree.specs.contracts.tree.Subject as subject;
    ghost use Rattle.ac_tree.specs.contracts.tree.When as when;
    ghost use Rattle.plan.specs.Inside.{AreShort};
    ghost use Rattle.plan.specs.Names.{DefinesNames};
    ghost use Rattle.plan.specs.Walk.{Instruction, instruction_of};

    ghost Value = { List Instruction };

    ghost coded = { Prim.hlevel (codes, effect.the_row.coded, subject.the_row.coded, when.the_row.coded) };

    ghost view = { λ c. map instruction_of (reverse c.steps.items) };

    ghost invariant = { λ c. DefinesNames (map instruction_of (reverse c.steps.items)) × AreShort (map instruction_of (reverse c.steps.items)) };
}

impl<'a> Code<'a> {
    /// Returns an empty list.
    pub(crate) fn new(alloc: Global) -> Code<'a>
        ensures { result ≡ [] }
    {
        Code {
            steps: Vec::new(alloc),
        }
    }

    /// Puts a step at the front. It defines nothing, or a name that has the form of one, and a list
    /// whose entries it tests at once has at most 256.
    pub(crate) fn put(&mut self, step: Step<'a>) -> Result<(), AllocError>
        requires names { DefinesIn (instruction_of step) }
        requires short { IsShort (instruction_of step) }
        ensures { OnOk result (self.new ≡ instruction_of step.entry ∷ self.old) }
    {
        self.steps.push(step)?;
        Ok(())
    }

    /// Puts the own step of an effect at the front.
    #[tactic(auto, using(crate::proofs::Symbols::package_defines), unfolding(crate::specs::Names::DefinesName))]
    pub(crate) fn put_effect(&mut self, effect: &'a Effect) -> Result<(), AllocError>
        ensures { OnOk result (self.new ≡ Does effect.now ∷ self.old) }
    {
        // Each `as_slice` is for the proof only: a name has the form of one, and a list is short.
        match effect {
            Effect::Define { name, .. } | Effect::DefineText { name, .. } => {
                let _ = name.as_slice();
                self.put(Step::Do(effect))
            }
            Effect::Batch { entries, .. } => {
                let _ = entries.as_slice();
                self.put(Step::Do(effect))
            }
            _ => self.put(Step::Do(effect)),
        }
    }

    /// Returns the number of steps.
    pub(crate) fn len(&self) -> usize
        ensures { result ≡ length self.now }
    {
        self.steps.len()
    }

    /// Returns the steps, from the first on.
    pub(crate) fn into_steps(self) -> Vec<Step<'a>>
        ensures steps { map instruction_of result.items ≡ self.entry }
        ensures names { DefinesNames self.entry }
        ensures short { AreShort self.entry }
    {
        let Code { mut steps } = self;
        steps.reverse();
        steps
    }
}
