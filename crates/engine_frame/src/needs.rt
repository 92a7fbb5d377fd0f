//! What a run needs.

use ac_tree::Source;
use deftable::Bytes;
use options::Settings;
use plan::Plan;
use std::marker::Model;

/// What a run needs besides its cache and its templates. Only [`judge`](crate::judge) makes it, so
/// its plan and its settings are those of its source and its arguments.
pub struct Needs<'a> {
    source: &'a Source,
    plan: Plan<'a>,
    args: &'a [Bytes],
    settings: Settings,
}

impl Drop for Needs<'_> {
    fn drop(self) {
        let Needs {
            source: _source,
            plan: _plan,
            args: _args,
            settings: _settings,
        } = self;
    }
}

impl<'a> Model for Needs<'a> {
    ghost use Rattle.std.specs.Coded.{codes};
    ghost use Rattle.ac_tree.specs.contracts.statement.Effect as effect;
    ghost use Rattle.ac_tree.specs.contracts.tree.Stmt as stmt;
    ghost use Rattle.ac_tree.specs.contracts.tree.Subject as subject;
    ghost use Rattle.ac_tree.specs.contracts.tree.When as when;
    ghost use Rattle.engine_frame.specs.Needed.{IsAsked, Needed};

    ghost Value = { Needed };

    ghost coded = { Prim.hlevel (codes, stmt.the_row.coded, effect.the_row.coded, subject.the_row.coded, when.the_row.coded) };

    ghost view = { λ n. record { statements = n.source.now; plan = n.plan; arguments = n.args.now; settings = n.settings } };

    ghost invariant = { λ n. IsAsked (record { statements = n.source.now; plan = n.plan; arguments = n.args.now; settings = n.settings }) };
}

impl<'a> Needs<'a> {
    ghost use Rattle.std.specs.Prelude.{◌≡◌, false};
    ghost use Rattle.engine_frame.specs.Given.{shows};
    ghost use Rattle.engine_frame.specs.Needed.{IsAsked, script_in};
    ghost use Rattle.plan.specs.Walk.{DoesWhat};

    /// Makes what a run needs.
    pub(crate) fn new(
        source: &'a Source,
        plan: Plan<'a>,
        args: &'a [Bytes],
        settings: Settings,
    ) -> Needs<'a>
        requires asked { IsAsked (
            record {
              statements = source.now;
              plan = plan;
              arguments = args.now;
              settings = settings;
            }) }
        ensures { result
            ≡ record {
              statements = source.now;
              plan = plan.entry;
              arguments = args.now;
              settings = settings;
            } }
    {
        Needs {
            source,
            plan,
            args,
            settings,
        }
    }

    /// Returns the source.
    pub fn source(&self) -> &'a Source
        ensures source { result.now ≡ self.now.statements }
        ensures asked { IsAsked self.now }
    {
        self.source
    }

    /// Returns the plan of the source.
    pub fn plan(&self) -> &Plan<'a>
        ensures plan { result.now ≡ self.now.plan }
        ensures does { DoesWhat self.now.plan (script_in self.now) }
    {
        &self.plan
    }

    /// Returns the arguments.
    pub fn args(&self) -> &'a [Bytes]
        ensures { result.now ≡ self.now.arguments }
    {
        self.args
    }

    /// Returns the settings. No text is to be shown.
    pub fn settings(&self) -> &Settings
        ensures settings { result.now ≡ self.now.settings }
        ensures runs { shows self.now.settings ≡ false }
    {
        &self.settings
    }
}
