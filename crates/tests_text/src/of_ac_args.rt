//! Forms of arguments, and the text between calls.

use crate::told::{Next, Told, put_made, put_next};
use ac_args::ParseFault;
use ac_args::arguments::{cache_name, is_given, line, name, text, title};
use ac_args::feature::feature_variable;
use ac_args::helping::{help, sole_call};
use ac_args::numbers::{language, status, version};
use ac_args::outputs::outputs;
use ac_args::program::{includes, program, programs, source_text};
use ac_args::shell::{here_text, patterns, test, word};
use ac_statement::fault::{quote_fault, shell_fault};
use ac_statement::idle::is_idle;
use ac_statement::inside::{call_items, inside};
use ac_statement::placement::{LIST_START, is_statement, line_start_of};
use ac_statement::texts::arg_at;
use ac_tree::{Help, HelpList, OptionKind, is_feature, option_variable};
use m4quote::{Arg, Item, QuoteFault, read_items};
use output_list::{Output, OutputList};
use shellword::ShellFault;
use test_rows::{Page, RowCall};

// ---- texts, names and numbers

/// A reader of an argument that is a text, a name or a number.
pub enum ArgReader {
    Text,
    Line,
    Title,
    Name,
    CacheName,
    Feature,
    Package,
    Program,
    Programs,
    Version,
    Status,
    Language,
    Word,
    Here,
    Source,
    Includes,
    Test,
    Patterns,
    Inside,
    Help,
}

pub const READERS: [(&[u8], ArgReader); 20] = [
    (b"text", ArgReader::Text),
    (b"line", ArgReader::Line),
    (b"title", ArgReader::Title),
    (b"name", ArgReader::Name),
    (b"cache_name", ArgReader::CacheName),
    (b"feature", ArgReader::Feature),
    (b"package", ArgReader::Package),
    (b"program", ArgReader::Program),
    (b"programs", ArgReader::Programs),
    (b"version", ArgReader::Version),
    (b"status", ArgReader::Status),
    (b"language", ArgReader::Language),
    (b"word", ArgReader::Word),
    (b"here", ArgReader::Here),
    (b"source", ArgReader::Source),
    (b"includes", ArgReader::Includes),
    (b"test", ArgReader::Test),
    (b"patterns", ArgReader::Patterns),
    (b"inside", ArgReader::Inside),
    (b"help", ArgReader::Help),
];

impl RowCall for ArgReader {
    fn put(&self, page: &mut Page, given: &[u8]) {
        let alloc = page.alloc();
        let arg = Arg { text: given, at: 0 };
        match self {
            ArgReader::Text => put_made(page, text(alloc, arg)),
            ArgReader::Line => put_made(page, line(alloc, arg)),
            ArgReader::Title => put_made(page, title(alloc, arg)),
            ArgReader::Name => put_made(page, name(alloc, arg)),
            ArgReader::Feature => put_made(page, feature_variable(alloc, OptionKind::Feature, arg)),
            ArgReader::Package => put_made(page, feature_variable(alloc, OptionKind::Package, arg)),
            ArgReader::Version => put_made(page, version(alloc, arg)),
            ArgReader::Status => put_made(page, status(alloc, arg)),
            ArgReader::Language => put_made(page, language(alloc, arg)),
            _ => self.put_further(page, arg),
        }
    }
}

impl ArgReader {
    fn put_further(&self, page: &mut Page, arg: Arg<'_>) {
        let alloc = page.alloc();
        match self {
            ArgReader::Program => put_made(page, program(alloc, arg)),
            ArgReader::Programs => put_made(page, programs(alloc, arg)),
            ArgReader::Word => put_made(page, word(alloc, arg)),
            ArgReader::Here => put_made(page, here_text(alloc, arg)),
            ArgReader::Source => put_made(page, source_text(alloc, arg)),
            ArgReader::Includes => put_made(page, includes(alloc, arg)),
            ArgReader::Test => put_made(page, test(alloc, arg)),
            ArgReader::Patterns => put_made(page, patterns(alloc, arg)),
            ArgReader::Inside => put_made(page, inside(alloc, arg)),
            ArgReader::CacheName => put_made(page, cache_name(alloc, arg)),
            _ => put_made(page, help(alloc, arg)),
        }
    }
}

// ---- what takes no argument alone

/// A call of another form.
pub enum Other {
    Given,
    Option,
    Calls,
    Idle,
    Stands,
    Files,
    Added,
    HelpTwice,
    Errors,
    Offsets,
}

pub const OTHERS: [(&[u8], Other); 10] = [
    (b"given", Other::Given),
    (b"option", Other::Option),
    (b"calls", Other::Calls),
    (b"idle", Other::Idle),
    (b"stands", Other::Stands),
    (b"files", Other::Files),
    (b"added", Other::Added),
    (b"twice", Other::HelpTwice),
    (b"errors", Other::Errors),
    (b"offsets", Other::Offsets),
];

/// Puts whether the first of two arguments is given, the second, which is empty, and a third.
fn put_given(page: &mut Page, arg: Arg<'_>) {
    let args = [arg, Arg { text: b"[]", at: 0 }];
    for i in 0..3 {
        put_made(page, is_given(page.alloc(), arg_at(&args, i)));
    }
}

/// Puts whether a text can name a feature, and the variables of a feature and a package of that
/// name.
fn put_option(page: &mut Page, given: &[u8]) {
    page.put_yes(is_feature(given));
    put_made(
        page,
        option_variable(page.alloc(), OptionKind::Feature, given),
    );
    put_made(
        page,
        option_variable(page.alloc(), OptionKind::Package, given),
    );
}

/// How many items are looked through for a call in an argument, and if AC_X is called alone among
/// them, with how many arguments and where.
fn put_calls(page: &mut Page, items: &[Item<'_>]) {
    page.put_number(items.len());
    if let Some((args, at)) = sole_call(b"AC_X", items) {
        page.put(b" with ");
        page.put_number(args.len());
        page.put(b" at ");
        page.put_number(at);
    }
}

/// Returns whether the first call among items is in the place of a statement.
fn stands(items: &[Item<'_>]) -> bool {
    let mut line_start = LIST_START;
    for (i, item) in items.iter().enumerate() {
        if let Item::Call { name, args, at } = item {
            let rest = items.get(i.saturating_add(1)..).unwrap_or(&[]);
            return is_statement(line_start, name, args.as_slice(), *at, rest);
        }
        line_start = line_start_of(item);
    }
    false
}

/// What is told of the calls among items.
impl Next<Vec<Item<'_>>> for Other {
    fn put_of(&self, page: &mut Page, items: &Vec<Item<'_>>) {
        match self {
            Other::Calls => put_calls(page, items),
            _ => page.put_yes(stands(items)),
        }
    }
}

/// Returns the files that an argument names.
fn files_of(page: &mut Page, given: &[u8]) -> OutputList {
    let none = OutputList::new(page.alloc());
    match outputs(page.alloc(), &none, &none, Arg { text: given, at: 0 }) {
        Ok(files) => files,
        Err(_) => none,
    }
}

/// The files that an argument names after the file `old` and the header `header`.
fn put_files(page: &mut Page, arg: Arg<'_>) {
    let own = files_of(page, b"old");
    let other = files_of(page, b"header");
    put_made(page, outputs(page.alloc(), &own, &other, arg));
}

/// Adds files to a list twice: all at once, and one after another.
fn add_files(page: &mut Page, files: &mut OutputList, added: &[Output]) {
    page.given(files.push_copies(page.alloc(), added));
    for file in added {
        if let Some(copy) = page.given(file.copy(page.alloc())) {
            page.given(files.push(copy));
        }
    }
}

/// A list of files to which those of another are added, and one more.
fn put_added(page: &mut Page, given: &[u8]) {
    let old = files_of(page, given);
    let mut files = OutputList::new(page.alloc());
    page.put_yes(files.is_empty());
    add_files(page, &mut files, old.as_slice());
    page.put_yes(files.is_empty());
    page.put_yes(files.has(b"old"));
    page.put_yes(files.has(b"old.in"));
    files.tell(page);
}

/// Adds a copy to a list of help.
fn add_copy(page: &mut Page, list: &mut HelpList, help: &Help) {
    if let Some(copy) = page.given(help.copy(page.alloc())) {
        page.given(list.push(copy));
    }
}

/// A list that has the help twice.
impl Next<Help> for Other {
    fn put_of(&self, page: &mut Page, help: &Help) {
        let mut list = HelpList::new(page.alloc());
        add_copy(page, &mut list, help);
        add_copy(page, &mut list, help);
        for help in list.as_slice() {
            help.tell(page);
            page.put(b";");
        }
    }
}

/// Every kind of error, as docs/formats.md numbers them.
const ERRORS: [ParseFault; 15] = [
    ParseFault::Quote(QuoteFault::UnclosedParen(9)),
    ParseFault::UnknownMacro(9),
    ParseFault::UnknownStatement(9),
    ParseFault::ArgCount(9),
    ParseFault::BadName(9),
    ParseFault::Shell(ShellFault::BadTest(1), 9),
    ParseFault::NotAtTop(9),
    ParseFault::NoInit,
    ParseFault::NoOutput,
    ParseFault::AfterOutput(9),
    ParseFault::CacheBody(9),
    ParseFault::TooDeep(9),
    ParseFault::TooMany(9),
    ParseFault::NewerVersion(9),
    ParseFault::OutOfMemory,
];

fn put_errors(page: &mut Page) {
    for fault in &ERRORS {
        page.put_shown(fault);
        page.put(b";");
    }
}

/// Puts whether an error of shell text and one of quotes keep their kinds and offsets.
fn put_kept(page: &mut Page) {
    let shell = ShellFault::BadWord(2);
    page.put_yes(shell_fault(5, shell) == ParseFault::Shell(shell, 5));
    let quote = QuoteFault::StrayClose(3);
    page.put_yes(quote_fault(quote) == ParseFault::Quote(quote));
}

impl RowCall for Other {
    fn put(&self, page: &mut Page, given: &[u8]) {
        let alloc = page.alloc();
        let arg = Arg { text: given, at: 0 };
        match self {
            Other::Given => put_given(page, arg),
            Other::Option => put_option(page, given),
            Other::Calls => put_next(page, call_items(alloc, arg), self),
            Other::Idle => put_made(page, is_idle(alloc, given)),
            Other::Stands => put_next(page, read_items(alloc, given), self),
            Other::Files => put_files(page, arg),
            Other::Added => put_added(page, given),
            Other::HelpTwice => put_next(page, help(alloc, arg), self),
            Other::Errors => put_errors(page),
            Other::Offsets => put_kept(page),
        }
    }
}
