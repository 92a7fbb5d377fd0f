//! The statement of a macro that asks a question.

ghost use Rattle.std.specs.Prelude.{◌≡◌, [], ◌∷◌, map, true};
ghost use Rattle.m4quote.specs.ItemValue.{span};
ghost use Rattle.ac_statement.specs.Reading.{Gives};
ghost use Rattle.acparse.specs.Asked as asked;
ghost use Rattle.ac_tree.specs.declared.statement.Question.TheVariants.{ChecksEach, Library};
ghost use Rattle.ac_tree.specs.declared.tree.Subject.TheVariants.{Asked};
ghost use Rattle.ac_tree.specs.Script.{script_of, cases_of, Choice, Done};

use ac_args::ParseFault;
use ac_macros::checks::complete;
use ac_tree::{Case, Declares, Effect, Entries, Question, Sought, Stmt, Subject, When, choose};
use deftable::Bytes;
use m4quote::Arg;
use shellword::HereText;
use std::alloc::Global;

/// Returns the statement of a question about each entry of a list: a batch, if there are no cases
/// and one child decides an entry.
fn asked_each(
    declares: Declares,
    sought: Sought,
    entries: Entries,
    includes: Option<HereText>,
    cases: Vec<Case>,
) -> Stmt
    ensures { script_of (result ∷ [])
        ≡ asked.asked_by declares (ChecksEach sought entries includes) (cases_of cases.items) }
{
    match sought {
        Sought::ListEntry(listed) => {
            if cases.is_empty() {
                let effect = Effect::Batch {
                    listed,
                    entries,
                    includes,
                };
                return Stmt::Do { declares, effect };
            }
            choose_each(declares, sought, entries, includes, cases)
        }
        Sought::Type => choose_each(declares, sought, entries, includes, cases),
    }
}

/// Returns the choice of a question about each entry of a list.
fn choose_each(
    declares: Declares,
    sought: Sought,
    entries: Entries,
    includes: Option<HereText>,
    cases: Vec<Case>,
) -> Stmt
    ensures { script_of (result ∷ [])
        ≡ Choice declares (Asked (ChecksEach sought entries includes)) (cases_of cases.items) Done }
{
    let question = Question::ChecksEach {
        sought,
        entries,
        includes,
    };
    choose(declares, Subject::Asked(question), cases)
}

/// Returns whether the condition is the answer yes.
fn is_yes(when: &When) -> bool
    ensures { result ≡ asked.is_yes when.now }
{
    matches!(when, When::Yes)
}

/// Returns whether one of the cases is for yes.
fn has_yes(cases: &[Case]) -> bool
    ensures { result ≡ asked.has_yes (cases_of cases.now) }
{
    for case in cases {
        if is_yes(&case.when) {
            return true;
        }
    }
    false
}

/// Returns the choice of AC_CHECK_LIB, which adds the library if no case is for yes.
fn asked_library(
    declares: Declares,
    library: Bytes,
    function: Bytes,
    others: Option<HereText>,
    cases: Vec<Case>,
) -> Stmt
    ensures { script_of (result ∷ [])
        ≡ asked.asked_by declares (Library library function others true) (cases_of cases.items) }
{
    let adds = !has_yes(cases.as_slice());
    let question = Question::Library {
        library,
        function,
        others,
        adds,
    };
    choose(declares, Subject::Asked(question), cases)
}

/// Returns the statement of what a macro declares, its question and its cases.
fn asked_by(declares: Declares, question: Question, cases: Vec<Case>) -> Stmt
    ensures { script_of (result ∷ []) ≡ asked.asked_by declares question (cases_of cases.items) }
{
    match question {
        Question::ChecksEach {
            sought,
            entries,
            includes,
        } => asked_each(declares, sought, entries, includes, cases),
        Question::Given { .. } => choose(declares, Subject::Asked(question), cases),
        Question::Tries { .. } => choose(declares, Subject::Asked(question), cases),
        Question::Checks { .. } => choose(declares, Subject::Asked(question), cases),
        Question::Library {
            library,
            function,
            others,
            ..
        } => asked_library(declares, library, function, others, cases),
        Question::Libraries { .. } => choose(declares, Subject::Asked(question), cases),
    }
}

/// Reads the includes or the other libraries of a question, and returns its statement.
#[tactic(auto, unfolding(crate::specs::Asked::asked_with))]
pub(crate) fn asked_with(
    alloc: Global,
    declares: Declares,
    question: Question,
    cases: Vec<Case>,
    args: &[Arg<'_>],
) -> Result<Stmt, ParseFault>
    ensures { Gives (λ s. script_of (s ∷ [])) result
        (asked.asked_with declares question (cases_of cases.items) (map span args.now)) }
{
    complete(alloc, question, args).map(|question| asked_by(declares, question, cases))
}
