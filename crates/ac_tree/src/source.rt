//! A whole source: its statements, its lists, and whether it can be resumed.

ghost use Rattle.std.specs.Prelude.{◌≡◌, ◌↔◌, true};
ghost use Rattle.ac_tree.specs.Decide as decide;
ghost use Rattle.ac_tree.specs.Lists.{lists_of};
ghost use Rattle.ac_tree.specs.Resumable.{IsResumable};
ghost use Rattle.ac_tree.specs.Script.{script_of};

use crate::declarations::Declarations;
use crate::help::HelpList;
use crate::tree::Stmt;
use deftable::SubstList;
use output_list::OutputList;
use std::marker::Model;

/// A configure.ac that was read. Contracts see its statements; its lists are those that the
/// statements declare.
pub struct Source {
    statements: Vec<Stmt>,
    lists: Declarations,
    resumes: bool,
}

impl Drop for Source {
    fn drop(self) {
        let Source {
            statements: _statements,
            lists: _lists,
            resumes: _resumes,
        } = self;
    }
}

impl Model for Source {
    ghost use Rattle.std.specs.Prelude.{◌≡◌, List};
    ghost use Rattle.std.specs.Coded.{codes};
    ghost use Rattle.ac_tree.specs.contracts.tree.Stmt as stmt;
    ghost use Rattle.ac_tree.specs.declared.tree.Stmt.{Stmt};
    ghost use Rattle.ac_tree.specs.Decide as decide;
    ghost use Rattle.ac_tree.specs.Lists.{lists_of};
    ghost use Rattle.ac_tree.specs.Script.{script_of};

    ghost Value = { List Stmt };

    ghost coded = { Prim.hlevel (codes, stmt.the_row.coded) };

    ghost view = { λ s. s.statements.items };

    ghost invariant = { λ s. (s.lists ≡ lists_of (script_of s.statements.items)) × (s.resumes ≡ decide.is_resumable (script_of s.statements.items)) };
}

impl Source {
    /// Makes a source from its statements, the lists that they declare, and whether it can be
    /// resumed.
    pub fn new(statements: Vec<Stmt>, lists: Declarations, resumes: bool) -> Source
        requires declared { lists ≡ lists_of (script_of statements.items) }
        requires decided { resumes ≡ decide.is_resumable (script_of statements.items) }
        ensures { result ≡ statements.items }
    {
        Source {
            statements,
            lists,
            resumes,
        }
    }

    /// Returns the statements of the file's own list, in order.
    pub fn statements(&self) -> &[Stmt]
        ensures { result.now ≡ self.now }
    {
        self.statements.as_slice()
    }

    /// Returns whether the source can be resumed: if a run is cut, and is started again with the
    /// cache that it saved, it ends as an uncut run does.
    pub fn is_resumable(&self) -> bool
        ensures rules { (result ≡ true) ↔ IsResumable (script_of self.now) }
        ensures exact { result ≡ decide.is_resumable (script_of self.now) }
    {
        self.resumes
    }

    /// Returns the output variables of AC_SUBST, AC_ARG_VAR, AC_CHECK_PROG, AC_CHECK_PROGS,
    /// AC_PATH_PROG and AC_PROG_CC, each once, in the order of their first mention. Statements in
    /// cases that a run does not take count too.
    pub fn substituted(&self) -> &SubstList
        ensures { result.now ≡ (lists_of (script_of self.now)).substituted }
    {
        &self.lists.substituted
    }

    /// Returns the precious variables of AC_ARG_VAR and AC_PROG_CC, in the same way.
    pub fn precious(&self) -> &SubstList
        ensures { result.now ≡ (lists_of (script_of self.now)).precious }
    {
        &self.lists.precious
    }

    /// Returns the variables of the features that AC_ARG_ENABLE declares, `enable_NAME`, in the
    /// same way.
    pub fn features(&self) -> &SubstList
        ensures { result.now ≡ (lists_of (script_of self.now)).features }
    {
        &self.lists.features
    }

    /// Returns the variables of the packages that AC_ARG_WITH declares, `with_NAME`, in the same
    /// way.
    pub fn packages(&self) -> &SubstList
        ensures { result.now ≡ (lists_of (script_of self.now)).packages }
    {
        &self.lists.packages
    }

    /// Returns the help entries of AC_ARG_ENABLE, AC_ARG_WITH and AC_ARG_VAR, one for each call, in
    /// order.
    pub fn help(&self) -> &HelpList
        ensures { result.now ≡ (lists_of (script_of self.now)).help }
    {
        &self.lists.help
    }

    /// Returns the files that AC_CONFIG_FILES names, in order, each name once.
    pub fn files(&self) -> &OutputList
        ensures { result.now ≡ (lists_of (script_of self.now)).files }
    {
        &self.lists.files
    }

    /// Returns the headers that AC_CONFIG_HEADERS names, in order, each name once.
    pub fn headers(&self) -> &OutputList
        ensures { result.now ≡ (lists_of (script_of self.now)).headers }
    {
        &self.lists.headers
    }
}
