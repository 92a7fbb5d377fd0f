//! Statements, and cases, which hold statements.

ghost use Rattle.std.specs.Prelude.{◌≡◌, [], ◌∷◌};
ghost use Rattle.ac_tree.specs.Script.{script_of, cases_of, Choice, Check, Done};

use crate::statement::{Declares, Effect, Question};
use deftable::Name;
use shellword::{HereText, Patterns, Test, Word};

/// What the cases of a choice are decided by.
#[derive(Drop)]
pub enum Subject {
    /// Nothing in common: each case of AS_IF has its own test.
    Nothing,
    /// AS_CASE: a word. The patterns of the cases are matched with its value.
    Word(Word),
    /// A macro with statements for each answer: its question.
    Asked(Question),
}

/// The condition of a case.
#[derive(Drop)]
pub enum When {
    /// The test holds.
    Holds(Test),
    /// One of the patterns matches the value of the subject's word.
    Matches(Patterns),
    /// The answer to the subject's question is yes.
    Yes,
    /// The answer to the subject's question is no.
    No,
    /// The case is the default, and is always taken.
    Always,
}

/// A statement.
#[derive(Drop)]
#[cycle(statements)]
pub enum Stmt {
    /// A statement with no statements in it: what it declares, and what it does.
    Do {
        declares: Declares,
        effect: Effect,
    },
    /// AS_IF, AS_CASE, or a macro that asks a question: what it declares, and then the statements
    /// of the first case whose condition holds, if any.
    Choose {
        declares: Declares,
        subject: Subject,
        cases: Vec<Case>,
    },
    /// AC_CACHE_CHECK: the message, the name that the value is cached under, and the commands that
    /// set it.
    CacheCheck {
        message: HereText,
        name: Name,
        commands: Vec<Stmt>,
    },
}

/// A case: its condition and its statements.
#[derive(Drop)]
#[cycle(statements)]
pub struct Case {
    pub when: When,
    pub body: Vec<Stmt>,
}

/// Makes a statement from what it declares, a subject and its cases.
pub fn choose(declares: Declares, subject: Subject, cases: Vec<Case>) -> Stmt
    ensures { script_of (result ∷ []) ≡ Choice declares subject (cases_of cases.items) Done }
{
    Stmt::Choose {
        declares,
        subject,
        cases,
    }
}

/// Makes a statement from the arguments of AC_CACHE_CHECK.
pub fn cache_check(message: HereText, name: Name, commands: Vec<Stmt>) -> Stmt
    ensures { script_of (result ∷ []) ≡ Check message name (script_of commands.items) Done }
{
    Stmt::CacheCheck {
        message,
        name,
        commands,
    }
}
