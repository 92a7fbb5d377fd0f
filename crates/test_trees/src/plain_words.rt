//! A statement without statements in it, in words.

use crate::shell_words::{put_here, put_word};
use ac_tree::{Declares, Effect, Entries, Listed, Message, OptionKind, OutputKind, ProgramValue};
use acparse::{Help, OutputList};
use deftable::{Name, Texts};
use shellword::HereText;
use test_rows::Page;
use test_rows::escaped::{put_bracketed, put_text};

/// Puts each file or header with its template.
pub fn put_files(page: &mut Page, files: &OutputList) {
    for file in files.as_slice() {
        page.put(b" ");
        put_text(page, file.name.as_slice());
        page.put(b":");
        put_text(page, file.template.as_slice());
    }
}

/// Puts help: an entry's two texts, or one text.
pub fn put_help(page: &mut Page, help: &Help) {
    match help {
        Help::Columns { left, right } => {
            put_bracketed(page, left.as_slice());
            put_bracketed(page, right.as_slice());
        }
        Help::Text { text } => put_bracketed(page, text.as_slice()),
    }
}

/// Puts each text of a list.
pub fn put_each(page: &mut Page, texts: &Texts) {
    for text in texts.as_slice() {
        put_bracketed(page, text.as_slice());
    }
}

/// Puts each entry of a list.
pub fn put_entries(page: &mut Page, entries: &Entries) {
    for entry in entries.as_slice() {
        put_bracketed(page, entry.as_slice());
    }
}

/// Puts includes, if they are not the default ones.
pub fn put_includes(page: &mut Page, includes: &Option<HereText>) {
    if let Some(text) = includes {
        page.put(b" includes");
        put_here(page, text);
    }
}

/// Puts a list whose entries are asked for at once.
fn put_batch(page: &mut Page, listed: Listed, entries: &Entries, includes: &Option<HereText>) {
    page.put(match listed {
        Listed::Header => b"headers",
        Listed::Function => b"functions",
        Listed::Declaration => b"declarations",
    });
    put_entries(page, entries);
    put_includes(page, includes);
}

fn put_otherwise(page: &mut Page, otherwise: &Option<HereText>) {
    if let Some(text) = otherwise {
        page.put(b" otherwise");
        put_here(page, text);
    }
}

/// Returns the word for a kind of option.
pub fn option_word(kind: OptionKind) -> &'static [u8] {
    match kind {
        OptionKind::Feature => b"feature ",
        OptionKind::Package => b"package ",
    }
}

/// Puts what a statement declares.
fn put_declared(page: &mut Page, declares: &Declares) {
    match declares {
        Declares::Nothing => page.put(b"accepted"),
        Declares::Begin => page.put(b"begin"),
        Declares::End => page.put(b"end"),
        Declares::Outputs { kind, outputs } => {
            page.put(match kind {
                OutputKind::File => b"files",
                OutputKind::Header => b"config headers",
            });
            put_files(page, outputs);
        }
        Declares::Variable { name } => {
            page.put(b"subst ");
            page.put(name.as_slice());
        }
        Declares::Precious { name, help } => {
            page.put(b"precious ");
            page.put(name.as_slice());
            put_bracketed(page, help.as_slice());
        }
        Declares::Compiler => page.put(b"tools"),
        Declares::Option {
            kind,
            variable,
            help,
        } => {
            page.put(option_word(*kind));
            page.put(variable.as_slice());
            put_help(page, help);
        }
    }
}

/// Returns whether this variable is declared.
fn is_declared(declares: &Declares, variable: &Name) -> bool {
    match declares {
        Declares::Variable { name } => name.as_slice() == variable.as_slice(),
        Declares::Compiler => variable.as_slice() == b"CC".as_slice(),
        _ => false,
    }
}

/// Returns whether the words of an effect say what is declared.
fn is_said(declares: &Declares, effect: &Effect) -> bool {
    match effect {
        Effect::Package { .. } => matches!(declares, Declares::Begin),
        Effect::Complete => matches!(declares, Declares::End),
        Effect::Search { variable, .. } | Effect::Searches { variable, .. } => {
            is_declared(declares, variable)
        }
        Effect::Assign { name, .. } => {
            matches!(declares, Declares::Nothing) || is_declared(declares, name)
        }
        _ => matches!(declares, Declares::Nothing),
    }
}

/// Puts a search of one program.
fn put_search(
    page: &mut Page,
    variable: &Name,
    program: &[u8],
    value: &ProgramValue,
    otherwise: &Option<HereText>,
) {
    page.put(match value {
        ProgramValue::Text(_) => b"program ",
        ProgramValue::FullName => b"path ",
    });
    page.put(variable.as_slice());
    put_bracketed(page, program);
    if let ProgramValue::Text(text) = value {
        page.put(b" found");
        put_here(page, text);
    }
    put_otherwise(page, otherwise);
}

/// Puts a search of several programs.
fn put_searches(
    page: &mut Page,
    declares: &Declares,
    variable: &Name,
    programs: &Texts,
    otherwise: &Option<HereText>,
) {
    if let Declares::Compiler = declares {
        page.put(b"compiler");
    } else {
        page.put(b"programs ");
        page.put(variable.as_slice());
    }
    put_each(page, programs);
    put_otherwise(page, otherwise);
}

/// Returns the word for a message.
fn word_of(message: Message) -> &'static [u8] {
    match message {
        Message::Checking => b"checking",
        Message::Results => b"results",
        Message::Notice => b"notice",
        Message::Warning => b"warning",
        Message::Error => b"error",
    }
}

/// Puts what a statement does, and its declaration if it has the same words.
fn put_effect(page: &mut Page, declares: &Declares, effect: &Effect) {
    match effect {
        Effect::Nothing => {}
        Effect::Assign { name, value } => {
            if is_declared(declares, name) {
                page.put(b"subst ");
            }
            page.put(name.as_slice());
            page.put(b"=");
            put_word(page, value);
        }
        Effect::Define { name, value } => {
            page.put(b"define ");
            page.put(name.as_slice());
            put_bracketed(page, value.as_slice());
        }
        Effect::DefineText { name, value } => {
            page.put(b"define unquoted ");
            page.put(name.as_slice());
            put_here(page, value);
        }
        Effect::Print { message, text } => {
            page.put(word_of(*message));
            put_here(page, text);
        }
        Effect::Stop { text, status } => {
            page.put(b"error ");
            page.put_shown(status);
            put_here(page, text);
        }
        Effect::Package {
            title,
            version,
            bug,
            tarname,
            url,
        } => {
            page.put(b"init");
            put_bracketed(page, title.as_slice());
            put_bracketed(page, version.as_slice());
            put_bracketed(page, bug.as_slice());
            put_bracketed(page, tarname.as_slice());
            put_bracketed(page, url.as_slice());
        }
        Effect::Search {
            variable,
            program,
            value,
            otherwise,
        } => put_search(page, variable, program.as_slice(), value, otherwise),
        Effect::Searches {
            variable,
            programs,
            otherwise,
        } => put_searches(page, declares, variable, programs, otherwise),
        Effect::Batch {
            listed,
            entries,
            includes,
        } => put_batch(page, *listed, entries, includes),
        Effect::Complete => page.put(b"output"),
    }
}

/// Puts what a statement declares and what it does on one line, without its newline. What is
/// declared has no words of its own if those of the effect say it.
pub fn put_plain(page: &mut Page, declares: &Declares, effect: &Effect) {
    if let Effect::Nothing = effect {
        return put_declared(page, declares);
    }
    if !is_said(declares, effect) {
        put_declared(page, declares);
        page.put(b" and ");
    }
    put_effect(page, declares, effect);
}
