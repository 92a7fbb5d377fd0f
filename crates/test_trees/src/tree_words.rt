//! A source in words: a line for each statement, with those in it indented, and then its lists that
//! are not empty.

use crate::plain_words::{
    option_word, put_each, put_entries, put_files, put_help, put_includes, put_plain,
};
use crate::shell_words::{put_here, put_patterns, put_test, put_word};
use ac_tree::{Declares, Listed, Program, Question, Sought, Try};
use acparse::{Case, Help, Source, Stmt, Subject, When};
use deftable::SubstList;
use shellword::HereText;
use test_rows::Page;
use test_rows::escaped::{put_bracketed, put_count, put_indent};

fn put_program(page: &mut Page, program: &Program) {
    match program {
        Program::Program { prologue, body } => {
            page.put(b" program");
            put_here(page, prologue);
            put_here(page, body);
        }
        Program::Whole { text } => {
            page.put(b" source");
            put_here(page, text);
        }
    }
}

/// Puts the word for what a macro looks for.
pub fn put_sought(page: &mut Page, sought: Sought) {
    page.put(match sought {
        Sought::ListEntry(Listed::Header) => b"header",
        Sought::ListEntry(Listed::Function) => b"function",
        Sought::ListEntry(Listed::Declaration) => b"declaration",
        Sought::Type => b"type",
    });
}

/// Puts other libraries, if they are given.
fn put_others(page: &mut Page, others: &Option<HereText>) {
    if let Some(text) = others {
        page.put(b" others");
        put_here(page, text);
    }
}

/// Puts a question about libraries.
fn put_linked(page: &mut Page, question: &Question) {
    match question {
        Question::Library {
            library,
            function,
            others,
            adds,
        } => {
            page.put(b"library");
            put_bracketed(page, library.as_slice());
            page.put(b" function");
            put_bracketed(page, function.as_slice());
            put_others(page, others);
            page.put(if *adds { b" adds" } else { b"" });
        }
        Question::Libraries {
            function,
            libraries,
            others,
        } => {
            page.put(b"libraries");
            put_each(page, libraries);
            page.put(b" function");
            put_bracketed(page, function.as_slice());
            put_others(page, others);
        }
        _ => {}
    }
}

/// Puts a question on one line, without its newline. The help of an option is declared.
pub fn put_question(page: &mut Page, declares: &Declares, question: &Question) {
    match question {
        Question::Given { kind, variable } => {
            page.put(option_word(*kind));
            page.put(variable.as_slice());
            if let Declares::Option { help, .. } = declares {
                put_help(page, help);
            }
        }
        Question::Tries { kind, program } => {
            page.put(match kind {
                Try::Compile => b"compile",
                Try::Link => b"link",
                Try::Preproc => b"preprocess",
                Try::Run => b"run",
            });
            put_program(page, program);
        }
        Question::Checks {
            sought,
            entry,
            includes,
        } => {
            put_sought(page, *sought);
            put_bracketed(page, entry.as_slice());
            put_includes(page, includes);
        }
        Question::ChecksEach {
            sought,
            entries,
            includes,
        } => {
            page.put(b"each ");
            put_sought(page, *sought);
            put_entries(page, entries);
            put_includes(page, includes);
        }
        Question::Library { .. } => put_linked(page, question),
        Question::Libraries { .. } => put_linked(page, question),
    }
}

fn put_subject(page: &mut Page, declares: &Declares, subject: &Subject) {
    match subject {
        Subject::Nothing => page.put(b"if"),
        Subject::Word(word) => {
            page.put(b"case ");
            put_word(page, word);
        }
        Subject::Asked(question) => put_question(page, declares, question),
    }
}

fn put_when(page: &mut Page, when: &When) {
    match when {
        When::Holds(test) => {
            page.put(b"test ");
            put_test(page, test);
        }
        When::Matches(patterns) => {
            page.put(b"patterns ");
            put_patterns(page, patterns);
        }
        When::Yes => page.put(b"yes"),
        When::No => page.put(b"no"),
        When::Always => page.put(b"default"),
    }
}

fn put_check(page: &mut Page, name: &[u8], message: &HereText) {
    page.put(b"check ");
    page.put(name);
    put_here(page, message);
    page.put(b"\n");
}

#[cycle(tree)]
fn put_cases(page: &mut Page, depth: usize, cases: &[Case]) {
    for case in cases {
        put_indent(page, depth);
        put_when(page, &case.when);
        page.put(b"\n");
        put_statements(page, depth.saturating_add(1), case.body.as_slice());
    }
}

/// Puts a line for each statement, those in it below it.
#[cycle(tree)]
pub fn put_statements(page: &mut Page, depth: usize, statements: &[Stmt]) {
    for statement in statements {
        put_indent(page, depth);
        match statement {
            Stmt::Do { declares, effect } => {
                put_plain(page, declares, effect);
                page.put(b"\n");
            }
            Stmt::Choose {
                declares,
                subject,
                cases,
            } => {
                put_subject(page, declares, subject);
                page.put(b"\n");
                put_cases(page, depth.saturating_add(1), cases.as_slice());
            }
            Stmt::CacheCheck {
                message,
                name,
                commands,
            } => {
                put_check(page, name.as_slice(), message);
                put_statements(page, depth.saturating_add(1), commands.as_slice());
            }
        }
    }
}

fn put_names(page: &mut Page, word: &[u8], list: &SubstList) {
    if list.names().is_empty() {
        return;
    }
    page.put(word);
    for name in list.names() {
        page.put(b" ");
        page.put(name.as_slice());
    }
    page.put(b"\n");
}

fn put_all_help(page: &mut Page, entries: &[Help]) {
    for help in entries {
        page.put(b"help:");
        put_help(page, help);
        page.put(b"\n");
    }
}

/// Puts the lists of a source that are not empty.
pub fn put_lists(page: &mut Page, source: &Source) {
    put_names(page, b"substituted:", source.substituted());
    put_names(page, b"precious:", source.precious());
    put_names(page, b"features:", source.features());
    put_names(page, b"packages:", source.packages());
    put_all_help(page, source.help().as_slice());
    if !source.files().is_empty() {
        page.put(b"files:");
        put_files(page, source.files());
        page.put(b"\n");
    }
    if !source.headers().is_empty() {
        page.put(b"headers:");
        put_files(page, source.headers());
        page.put(b"\n");
    }
}

fn case_count(statements: &[Stmt]) -> usize {
    let mut count: usize = 0;
    for statement in statements {
        if let Stmt::Choose { cases, .. } = statement {
            count = count.saturating_add(cases.len());
        }
    }
    count
}

/// Puts a count that is not 0.
fn put_count_of(page: &mut Page, word: &[u8], count: usize) {
    if count > 0 {
        put_count(page, word, count);
    }
}

/// Puts how many statements there are, how many cases they have, and how long each list is that is
/// not empty.
pub fn put_counts(page: &mut Page, statements: &[Stmt], source: &Source) {
    put_count(page, b"statements ", statements.len());
    put_count_of(page, b"cases ", case_count(statements));
    put_count_of(page, b"substituted ", source.substituted().names().len());
    put_count_of(page, b"precious ", source.precious().names().len());
    put_count_of(page, b"features ", source.features().names().len());
    put_count_of(page, b"packages ", source.packages().names().len());
    put_count_of(page, b"help ", source.help().as_slice().len());
    put_count_of(page, b"files ", source.files().len());
    put_count_of(page, b"headers ", source.headers().len());
}
