//! The faults of a run.

use cachefile::CacheFault;
use lint_table::{Page, WordPart, Words, keys};
use lint_text::{before, first_line};
use near_names::near_name;
use options_line::OptionFault;
use status_record::RecordFault;
use std::alloc::{AllocError, Global};

/// The long options of a command line that need no declaration, without their values.
#[rattlefmt::skip]
const OPTIONS: [&[u8]; 38] = [
    b"--help", b"--version", b"--verbose", b"--quiet", b"--silent", b"--no-create", b"--no-recursion", b"--config-cache",
    b"--cache-file", b"--srcdir",
    b"--prefix", b"--exec-prefix", b"--bindir", b"--sbindir", b"--libexecdir", b"--libdir", b"--datarootdir", b"--datadir",
    b"--sysconfdir", b"--sharedstatedir", b"--localstatedir", b"--runstatedir", b"--includedir", b"--oldincludedir",
    b"--docdir", b"--infodir", b"--htmldir", b"--dvidir", b"--pdfdir", b"--psdir", b"--localedir", b"--mandir",
    b"--enable-", b"--disable-", b"--with-", b"--without-", b"--disable-option-checking", b"--enable-option-checking",
];

/// The commands of the program.
const COMMANDS: [&[u8]; 8] = [
    b"configure",
    b"status",
    b"lint",
    b"port",
    b"header",
    b"why",
    b"standin",
    b"help",
];

/// Returns the text before its first `=`.
fn before_equals(text: &[u8]) -> &[u8] {
    let len = text.iter().take_while(|byte| **byte != b'=').count();
    before(text, len)
}

/// Returns the item of this number, which is 1 for the first, or an empty text.
fn numbered<'a>(texts: &[&'a [u8]], number: u64) -> &'a [u8] {
    let mut left = number;
    for text in texts {
        left = left.saturating_sub(1);
        if left == 0 {
            return text;
        }
    }
    b"".as_slice()
}

/// Returns the line of this number, which is 1 for the first, or an empty text.
fn line_numbered(text: &[u8], number: u64) -> &[u8] {
    let mut left = number;
    for line in text.split(|byte| *byte == b'\n') {
        left = left.saturating_sub(1);
        if left == 0 {
            return line;
        }
    }
    b"".as_slice()
}

/// Writes which option is similar to a long option that is not known, or where all are shown.
fn put_near_option(alloc: Global, page: &mut Page, word: &[u8]) -> Result<(), AllocError> {
    match near_name(alloc, before_equals(word), &OPTIONS)? {
        Some(near) => page.put(keys::NEAR_OPTION, &[WordPart::AsItIs(near)]),
        None => page.put(keys::SEE_OPTIONS, &[]),
    }
    Ok(())
}

/// Writes what is wrong with an argument that is no option.
fn put_unknown(alloc: Global, page: &mut Page, word: &[u8]) -> Result<(), AllocError> {
    page.put(keys::UNKNOWN_OPTION, &[WordPart::Quoted(word)]);
    if word.starts_with(b"--") {
        return put_near_option(alloc, page, word);
    }
    if word.starts_with(b"-j") {
        page.put(keys::OPTION_BEFORE_COMMAND, &[]);
    } else {
        page.put(keys::NO_OPTION, &[]);
    }
    Ok(())
}

/// Writes what is wrong with an argument that is read as an option or an assignment.
fn put_argument(page: &mut Page, fault: OptionFault, word: &[u8]) {
    match fault {
        OptionFault::BadFeature(_) => page.put(keys::NO_OPTION_NAME, &[WordPart::Quoted(word)]),
        OptionFault::BadVariable(_) => {
            page.put(
                keys::NO_ASSIGNED_NAME,
                &[WordPart::Quoted(before_equals(word))],
            )
        }
        OptionFault::MissingValue(_) => {
            page.put(keys::OPTION_WITHOUT_VALUE, &[WordPart::Quoted(word)])
        }
        _ => page.put(keys::UNDECLARED_OPTION, &[WordPart::Quoted(word)]),
    }
}

fn put_option(
    alloc: Global,
    page: &mut Page,
    fault: OptionFault,
    args: &[&[u8]],
) -> Result<(), AllocError> {
    match fault {
        OptionFault::Unknown(number) => put_unknown(alloc, page, numbered(args, number)),
        OptionFault::BadFeature(number)
        | OptionFault::BadVariable(number)
        | OptionFault::MissingValue(number)
        | OptionFault::FatalUnrecognized(number) => {
            put_argument(page, fault, numbered(args, number));
            Ok(())
        }
        OptionFault::OutOfMemory => Err(AllocError),
    }
}

/// Returns what is wrong with an argument of `acrun configure`. The arguments are those after the
/// word `configure`.
///
/// # Errors
///
/// Fails only if memory runs out.
pub fn option_words(
    alloc: Global,
    fault: OptionFault,
    args: &[&[u8]],
) -> Result<Words, AllocError> {
    let mut page = Page::new(alloc);
    put_option(alloc, &mut page, fault, args)?;
    page.words()
}

/// Writes what is wrong with the text of a cache.
fn put_cache(page: &mut Page, fault: CacheFault, text: &[u8]) {
    match fault {
        CacheFault::BadLine(number) => {
            page.put(
                keys::NO_CACHE_LINE,
                &[WordPart::Quoted(line_numbered(text, number))],
            )
        }
        CacheFault::BadName(number) => {
            page.put(
                keys::NO_CACHE_NAME,
                &[WordPart::Quoted(line_numbered(text, number))],
            )
        }
        CacheFault::TooLarge => page.put(keys::CACHE_TOO_LARGE, &[]),
        CacheFault::OutOfMemory => page.put(keys::NO_MEMORY, &[]),
    }
}

/// Returns what is wrong with the text of a cache.
///
/// # Errors
///
/// Fails only if memory runs out.
pub fn cache_words(alloc: Global, fault: CacheFault, text: &[u8]) -> Result<Words, AllocError> {
    let mut page = Page::new(alloc);
    put_cache(&mut page, fault, text);
    page.words()
}

/// Writes how a variable was in the run that made the cache of this name.
fn put_old(page: &mut Page, name: &[u8], old: Option<&[u8]>, cache_name: &[u8]) {
    let name = WordPart::AsItIs(name);
    let cache = WordPart::Quoted(cache_name);
    match old {
        Some(old) => page.put(keys::WAS_SET, &[name, WordPart::Value(old), cache]),
        None => page.put(keys::WAS_UNSET, &[name, cache]),
    }
}

/// Writes how a variable is now.
fn put_now(page: &mut Page, now: Option<&[u8]>) {
    match now {
        Some(now) => page.put(keys::IS_SET, &[WordPart::Value(now)]),
        None => page.put(keys::IS_UNSET, &[]),
    }
}

/// Returns that a variable is not as it was in the run that made the cache of this name, with both
/// values. `None` is the value of a variable that is not set.
///
/// # Errors
///
/// Fails only if memory runs out.
pub fn precious_words(
    alloc: Global,
    name: &[u8],
    old: Option<&[u8]>,
    now: Option<&[u8]>,
    cache_name: &[u8],
) -> Result<Words, AllocError> {
    let mut page = Page::new(alloc);
    put_old(&mut page, name, old, cache_name);
    put_now(&mut page, now);
    page.words()
}

/// Writes what is wrong with the text of a record.
fn put_record(page: &mut Page, fault: RecordFault, text: &[u8]) {
    match fault {
        RecordFault::BadMagic => page.put(keys::NO_RECORD, &[WordPart::Quoted(first_line(text))]),
        RecordFault::UnknownVersion => {
            page.put(keys::OTHER_RECORD, &[WordPart::Quoted(first_line(text))])
        }
        RecordFault::BadLine(number) | RecordFault::DuplicateName(number) => {
            page.put(
                keys::WRONG_RECORD_LINE,
                &[WordPart::Quoted(line_numbered(text, number))],
            )
        }
        RecordFault::Truncated => page.put(keys::CUT_RECORD, &[]),
        RecordFault::OutOfMemory => page.put(keys::NO_MEMORY, &[]),
    }
}

/// Returns what is wrong with the text of a record.
///
/// # Errors
///
/// Fails only if memory runs out.
pub fn record_words(alloc: Global, fault: RecordFault, text: &[u8]) -> Result<Words, AllocError> {
    let mut page = Page::new(alloc);
    put_record(&mut page, fault, text);
    page.words()
}

/// Writes which name is similar, if there is one.
fn put_near(page: &mut Page, near: Option<&[u8]>) {
    if let Some(near) = near {
        page.put(keys::NEAR_NAME, &[WordPart::AsItIs(near)]);
    }
}

/// Returns that a name given to `acrun status` is that of no output. The names are those of the
/// outputs.
///
/// # Errors
///
/// Fails only if memory runs out.
pub fn tag_words(alloc: Global, name: &[u8], names: &[&[u8]]) -> Result<Words, AllocError> {
    let mut page = Page::new(alloc);
    page.put(keys::NO_OUTPUT_NAME, &[WordPart::Quoted(name)]);
    put_near(&mut page, near_name(alloc, name, names)?);
    page.words()
}

/// Returns whether a word is an option that is given alone.
fn is_alone(word: &[u8]) -> bool {
    word == b"--help".as_slice()
        || word == b"-h".as_slice()
        || word == b"--version".as_slice()
        || word == b"-V".as_slice()
}

/// Returns how often a text has a byte.
fn count_of(text: &[u8], byte: u8) -> usize {
    text.iter().filter(|other| **other == byte).count()
}

/// Returns whether a word has the letters of a name, each as often.
fn has_letters_of(word: &[u8], name: &[u8]) -> bool {
    word.len() == name.len()
        && word
            .iter()
            .all(|byte| count_of(word, *byte) == count_of(name, *byte))
}

/// Returns the command that is nearest to a word. One with the same letters is near too.
fn near_command(alloc: Global, word: &[u8]) -> Result<Option<&'static [u8]>, AllocError> {
    match COMMANDS.iter().find(|name| has_letters_of(word, **name)) {
        Some(name) => Ok(Some(*name)),
        None => near_name(alloc, word, &COMMANDS),
    }
}

/// Writes what is wrong with the first words of a command line.
fn put_usage(alloc: Global, page: &mut Page, words: &[&[u8]]) -> Result<(), AllocError> {
    let first = numbered(words, 1);
    if first.is_empty() {
        page.put(keys::NO_CALL, &[]);
    } else if is_alone(first) {
        page.put(keys::WORD_AFTER_OPTION, &[WordPart::Quoted(first)]);
    } else if first == b"-j".as_slice() {
        page.put(keys::NO_NUMBER_OF_CHILDREN, &[]);
    } else {
        page.put(keys::NO_COMMAND, &[WordPart::Quoted(first)]);
        put_near(page, near_command(alloc, first)?);
    }
    Ok(())
}

/// Returns that the words of a command line are no command.
///
/// # Errors
///
/// Fails only if memory runs out.
pub fn usage_words(alloc: Global, words: &[&[u8]]) -> Result<Words, AllocError> {
    let mut page = Page::new(alloc);
    put_usage(alloc, &mut page, words)?;
    page.words()
}
