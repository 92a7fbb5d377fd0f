//! What a line of a cache file sets.

ghost use Rattle.std.specs.Prelude.{◌≡◌, OnOk, OnErr, option_map, if◌then◌else◌};
ghost use Rattle.cachefile.specs.Cache as words;
ghost use Rattle.cachefile.specs.Line.{Setting, Sets, Defaults, name_of};

use crate::name::is_mark;
use deftable::{Bytes, Vars};
use std::alloc::AllocError;
use std::marker::Model;

/// A name, and the value or the default that a line gives it. In contracts, it is a setting.
pub(crate) struct Entry {
    name: Bytes,
    value: Bytes,
    is_default: bool,
}

impl Drop for Entry {
    fn drop(self) {
        let Entry {
            name: _name,
            value: _value,
            is_default: _is_default,
        } = self;
    }
}

impl Model for Entry {
    ghost Value = { Setting };

    ghost view = { λ e. if e.is_default then Defaults e.name e.value else Sets e.name e.value };
}

impl Entry {
    /// Returns an entry that sets the name to the value, or that only gives it a default.
    pub(crate) fn new(name: Bytes, value: Bytes, is_default: bool) -> Entry
        ensures { result ≡ (if is_default then Defaults name value else Sets name value) }
    {
        Entry {
            name,
            value,
            is_default,
        }
    }

    /// Returns the name.
    pub(crate) fn name(&self) -> &[u8]
        ensures { result.now ≡ name_of self.now }
    {
        self.name.as_slice()
    }

    /// Sets the name among the variables.
    pub(crate) fn pour(&self, vars: &mut Vars) -> Result<(), AllocError>
        ensures ok { OnOk result (vars.new ≡ words.with_setting vars.old self.now) }
        ensures err { OnErr result (vars.new ≡ vars.old) }
    {
        if self.is_default && vars.get(self.name()).is_some() {
            return Ok(());
        }
        vars.set(self.name(), self.value.as_slice())
    }

    /// Sets the name among the variables, if it begins with `ac_cv_env_`.
    pub(crate) fn pour_mark(&self, vars: &mut Vars) -> Result<(), AllocError>
        ensures ok { OnOk result (vars.new ≡ words.with_mark vars.old self.now) }
        ensures err { OnErr result (vars.new ≡ vars.old) }
    {
        if !is_mark(self.name()) {
            return Ok(());
        }
        self.pour(vars)
    }

    /// Returns the value that `name` has after this entry is poured, from its value before.
    pub(crate) fn value_after<'a>(
        &'a self,
        name: &[u8],
        before: Option<&'a [u8]>,
    ) -> Option<&'a [u8]>
        ensures { option_map (λ v. v.now) result
            ≡ words.value_after name.now (option_map (λ v. v.now) before.entry) self.now }
    {
        if name != self.name() || (self.is_default && before.is_some()) {
            return before;
        }
        Some(self.value.as_slice())
    }
}
