//! The variables and the definitions of a run, its messages and its log.

ghost use Rattle.std.specs.Prelude.{◌≡◌, ◌++◌, IfOk, OnOk, option_map};
ghost use Rattle.deftable.specs.ShellName.{IsShellName};
ghost use Rattle.deftable.specs.Table.{value_of};
ghost use Rattle.shellword.specs.Truth.{truth};
ghost use Rattle.shellword.specs.Value.{word_value};
ghost use Rattle.meaning.specs.Meaning.{has_value, is_full_name, is_unsettled, settled, with_prefixes};
ghost use Rattle.meaning.specs.State.{opened, with_note, with_child, with_definition, with_variable, without_variable, value_or_empty};
ghost use Rattle.meaning.specs.Tries.{text_of};
ghost use Rattle.run_state.specs.Copies.{Copied};

use crate::full_name::is_full_name;
use ac_tree::Program;
use conftest_source::program_source;
use crew_jobs::Job;
use crew_trait::{Entry, Log, Reply};
use deftable::{Bytes, Defs, Note, Notes, Stream, Vars};
use shellword::{HereText, Test, Word};
use std::alloc::{AllocError, Global};
use std::marker::Model;

/// Variables and definitions, the messages that were printed, and the log. Contracts see them as a
/// state.
pub struct Store {
    vars: Vars,
    defs: Defs,
    messages: Notes,
    log: Log,
}

impl Drop for Store {
    fn drop(self) {
        let Store {
            vars: _vars,
            defs: _defs,
            messages: _messages,
            log: _log,
        } = self;
    }
}

impl Model for Store {
    ghost use Rattle.meaning.specs.State.{State};

    ghost Value = { State };

    ghost view = { λ s. record { vars = s.vars; defs = s.defs; messages = s.messages; log = s.log } };
}

impl Store {
    /// Returns a store with these variables, and nothing else.
    pub fn new(alloc: Global, vars: Vars) -> Store
        ensures { result ≡ opened vars }
    {
        Store {
            vars,
            defs: Defs::new(alloc),
            messages: Notes::new(alloc),
            log: Log::new(alloc),
        }
    }

    /// Returns the variables.
    pub fn vars(&self) -> &Vars
        ensures { result.now ≡ self.now.vars }
    {
        &self.vars
    }

    /// Returns the definitions.
    pub fn defs(&self) -> &Defs
        ensures { result.now ≡ self.now.defs }
    {
        &self.defs
    }

    /// Adds a piece to the messages, and to the log.
    pub fn put_piece(
        &mut self,
        alloc: Global,
        stream: Stream,
        text: Bytes,
    ) -> Result<(), AllocError>
        ensures { OnOk result (self.new ≡ with_note stream text self.old) }
    {
        let copy = text.copy(alloc)?;
        self.messages.push(Note { stream, text })?;
        self.log.push(Entry::Said(Note { stream, text: copy }))
    }

    /// Adds a piece to the messages, and to the log: a text between two others.
    pub fn add_note(
        &mut self,
        alloc: Global,
        stream: Stream,
        before: &[u8],
        text: &[u8],
        after: &[u8],
    ) -> Result<(), AllocError>
        ensures { OnOk result (
            self.new ≡ with_note stream (before.now ++ text.now ++ after.now) self.old) }
    {
        let piece = Bytes::concat(alloc, &[before, text, after])?;
        self.put_piece(alloc, stream, piece)
    }

    /// Adds a child to the log.
    pub fn log_child(&mut self, job: Job, reply: Reply) -> Result<(), AllocError>
        ensures { OnOk result (self.new ≡ with_child job reply self.old) }
    {
        self.log.push(Entry::Child { job, reply })
    }

    /// Sets a variable.
    pub fn set(&mut self, name: &[u8], value: &[u8]) -> Result<(), AllocError>
        ensures { OnOk result (self.new ≡ with_variable name.now value.now self.old) }
    {
        self.vars.set(name, value)
    }

    /// Unsets a variable.
    pub fn unset(&mut self, name: &[u8])
        ensures { self.new ≡ without_variable name.now self.old }
    {
        self.vars.unset(name);
    }

    /// Returns the value of a variable, if it is set.
    pub fn get(&self, name: &[u8]) -> Option<&Bytes>
        ensures { option_map (λ x. x.now) result ≡ value_of self.now.vars name.now }
    {
        self.vars.get(name)
    }

    /// Copies a variable's value, if it is set.
    pub fn value_of(&self, alloc: Global, name: &[u8]) -> Result<Option<Bytes>, AllocError>
        ensures { IfOk result (λ v. v ≡ value_of self.now.vars name.now) }
    {
        match self.vars.get(name) {
            Some(value) => Ok(Some(value.copy(alloc)?)),
            None => Ok(None),
        }
    }

    /// Copies a variable's value, or returns the empty text if it isn't set.
    pub fn value_or_empty(&self, alloc: Global, name: &[u8]) -> Result<Bytes, AllocError>
        ensures { IfOk result (λ v. v ≡ value_or_empty self.now name.now) }
    {
        Bytes::from_slice(alloc, self.vars.value_or_empty(name))
    }

    /// Sets a variable to the value of another, if that is set. Returns whether it is.
    pub fn copy_value(&mut self, alloc: Global, from: &[u8], to: &[u8]) -> Result<bool, AllocError>
        ensures { IfOk result (λ b.
            Copied (value_of self.old.vars from.now) to.now b self.old self.new) }
    {
        let Some(value) = self.value_of(alloc, from)? else {
            return Ok(false);
        };
        self.set(to, value.as_slice())?;
        Ok(true)
    }

    /// Returns whether a variable is set, and not empty.
    pub fn has_value(&self, name: &[u8]) -> bool
        ensures { result ≡ has_value self.now name.now }
    {
        match self.vars.get(name) {
            Some(value) => !value.is_empty(),
            None => false,
        }
    }

    /// Returns whether a variable is set to a full name.
    pub fn has_full_name(&self, name: &[u8]) -> bool
        ensures { result ≡ is_full_name (value_or_empty self.now name.now) }
    {
        is_full_name(self.vars.value_or_empty(name))
    }

    /// Returns the text of a program that is tried.
    pub fn program_text(&self, alloc: Global, program: &Program) -> Result<Bytes, AllocError>
        ensures { IfOk result (λ text. text ≡ text_of program.now self.now.vars) }
    {
        match program {
            Program::Program { prologue, body } => {
                let prologue = self.here_text(alloc, prologue)?;
                let body = self.here_text(alloc, body)?;
                program_source(alloc, prologue.as_slice(), body.as_slice())
            }
            Program::Whole { text } => self.here_text(alloc, text),
        }
    }

    fn is_unsettled(&self, name: &[u8]) -> bool
        ensures { result ≡ is_unsettled (value_of self.now.vars name.now) }
    {
        match self.vars.get(name) {
            Some(value) => value.as_slice() == b"NONE".as_slice(),
            None => false,
        }
    }

    // Gives a prefix its value, if it is still `NONE`.
    fn settle(&mut self, name: &[u8], value: &[u8]) -> Result<(), AllocError>
        ensures { OnOk result (self.new ≡ settled name.now value.now self.old) }
    {
        if self.is_unsettled(name) {
            self.set(name, value)?;
        }
        Ok(())
    }

    /// Gives prefix and exec_prefix their values at the end of a source, if they are still `NONE`.
    pub fn settle_prefixes(&mut self) -> Result<(), AllocError>
        ensures { OnOk result (self.new ≡ with_prefixes self.old) }
    {
        self.settle(b"prefix", b"/usr/local")?;
        self.settle(b"exec_prefix", b"${prefix}")?;
        Ok(())
    }

    /// Defines a name.
    pub fn define(&mut self, name: &[u8], value: &[u8]) -> Result<(), AllocError>
        requires { IsShellName name.now }
        ensures { OnOk result (self.new ≡ with_definition name.now value.now self.old) }
    {
        self.defs.define(name, value)
    }

    /// Returns the value of a word.
    pub fn word(&self, alloc: Global, word: &Word) -> Result<Bytes, AllocError>
        ensures { IfOk result (λ v. v ≡ word_value word.now self.now.vars) }
    {
        word.value(alloc, &self.vars)
    }

    /// Returns the value of a here text.
    pub fn here_text(&self, alloc: Global, text: &HereText) -> Result<Bytes, AllocError>
        ensures { IfOk result (λ v. v ≡ word_value text.now self.now.vars) }
    {
        text.value(alloc, &self.vars)
    }

    /// Returns whether a test holds.
    pub fn holds(&self, alloc: Global, test: &Test) -> Result<bool, AllocError>
        ensures { IfOk result (λ b. b ≡ truth test.now self.now.vars) }
    {
        test.holds(alloc, &self.vars)
    }

    /// Returns the variables, the definitions, the messages and the log.
    pub fn into_parts(self) -> (Vars, Defs, Notes, Log)
        ensures { record { vars = result.0; defs = result.1; messages = result.2; log = result.3 }
            ≡ self }
    {
        let Store {
            vars,
            defs,
            messages,
            log,
        } = self;
        (vars, defs, messages, log)
    }
}
