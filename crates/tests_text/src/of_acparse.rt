//! Whole sources. The crate `tests_cases` has them macro by macro and error by error.

use crate::told::{Told, put_each, put_made};
use acparse::{Declares, Effect, ParseFault, Question, Source, Stmt, Subject, parse};
use std::alloc::Global;
use test_rows::{Page, RowCall};
use test_trees::{put_plain, put_question};

/// Puts the message of AC_CACHE_CHECK, its name, and how many commands it has.
fn put_check(page: &mut Page, statement: &Stmt) {
    if let Stmt::CacheCheck {
        message,
        name,
        commands,
    } = statement
    {
        page.put(b";");
        message.tell(page);
        page.put_text(name.as_slice());
        page.put_number(commands.len());
    }
}

/// Returns whether the question is about entries or libraries.
fn is_listed(question: &Question) -> bool {
    match question {
        Question::Checks { .. } | Question::ChecksEach { .. } => true,
        Question::Library { .. } | Question::Libraries { .. } => true,
        Question::Given { .. } | Question::Tries { .. } => false,
    }
}

/// Puts a question about entries or libraries, and how many cases it has.
fn put_asked(page: &mut Page, declares: &Declares, question: &Question, cases: usize) {
    if is_listed(question) {
        page.put(b";");
        put_question(page, declares, question);
        page.put(b" ");
        page.put_number(cases);
    }
}

/// Puts a statement that looks for entries or libraries.
fn put_entries(page: &mut Page, statement: &Stmt) {
    match statement {
        Stmt::Do {
            declares,
            effect: effect @ Effect::Batch { .. },
        } => {
            page.put(b";");
            put_plain(page, declares, effect);
        }
        Stmt::Choose {
            declares,
            subject: Subject::Asked(question),
            cases,
        } => put_asked(page, declares, question, cases.len()),
        _ => {}
    }
}

/// How many statements there are, the output variables, the precious ones, the features, the
/// packages, the help and the files, each AC_CACHE_CHECK, and each statement that looks for entries
/// or libraries.
impl Told for Source {
    fn tell(&self, page: &mut Page) {
        page.put_number(self.statements().len());
        for names in [
            self.substituted(),
            self.precious(),
            self.features(),
            self.packages(),
        ] {
            page.put(b";");
            put_each(page, names.names());
        }
        page.put(b";");
        for help in self.help().as_slice() {
            help.tell(page);
        }
        page.put(b";");
        self.files().tell(page);
        for statement in self.statements() {
            put_check(page, statement);
            put_entries(page, statement);
        }
    }
}

/// Returns the source of a text, without the clauses of `parse`.
pub fn read_source(alloc: Global, text: &[u8]) -> Result<Source, ParseFault> {
    parse(alloc, text)
}

pub struct Lists;

impl RowCall for Lists {
    fn put(&self, page: &mut Page, text: &[u8]) {
        put_made(page, read_source(page.alloc(), text));
    }
}
