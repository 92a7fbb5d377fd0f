//! The faults of a source.

ghost use Rattle.std.specs.Prelude.{◌≡◌, ◌≤◌, length, IfOk};
ghost use Rattle.lint_findings.specs.declared.finding.Severity.TheVariants.{Error};

use crate::arguments::put_bad_argument;
use crate::calls::{arguments_at, before_close, call_around, last_name, unquoted};
use crate::forms::form_of;
use crate::outputs::put_bad_outputs;
use crate::shell::{argument_help, within_argument};
use crate::{shell_help, test_help};
use ac_calls::{CallAt, Extent};
use ac_macros::table::{row_named, rows};
use ac_macros::{ArgumentKind, Named, Row, argument_kind};
use ac_statement::ParseFault;
use bstr::ByteSlice;
use deftable::Bytes;
use lint_findings::Finding;
use lint_table::{Key, Page, WordPart, keys};
use lint_text::{
    after_blanks, before, first_line, first_name, first_word, from, part, without_end_blanks,
};
use m4quote::QuoteFault;
use near_names::near_name;
use shellword::ShellFault;
use std::alloc::{AllocError, Global};

/// The text around a fault, and the calls of the source.
#[derive(Clone, Copy)]
struct Around<'a> {
    text: &'a [u8],
    calls: &'a [CallAt],
    at: usize,
}

impl<'a> Around<'a> {
    /// Returns the text from the place on.
    fn rest(&self) -> &'a [u8] {
        from(self.text, self.at)
    }

    /// Returns the name at the place.
    fn name(&self) -> &'a [u8] {
        first_name(self.rest())
    }

    /// Returns the name of the call that the place is in. If it is in none, the name is empty.
    fn call(&self) -> &'a [u8] {
        match call_around(self.calls, self.at) {
            Some(call) => part(self.text, call.start, call.name_end),
            None => b"",
        }
    }

    /// Returns where the argument is that begins at the place, and its number, from 0.
    fn found(&self) -> Option<(usize, Extent)> {
        let call = call_around(self.calls, self.at)?;
        let number = call.args.iter().position(|arg| arg.start == self.at)?;
        Some((number, *call.args.get(number)?))
    }

    /// Returns the number of the argument that begins at the place, from 0, or 0 if none does.
    fn number(&self) -> usize {
        match self.found() {
            Some((number, _)) => number,
            None => 0,
        }
    }

    /// Returns what the argument is that begins at the place. One of a macro that isn't known is
    /// not read.
    fn kind(&self) -> ArgumentKind {
        let number = self.number();
        let count = match call_around(self.calls, self.at) {
            Some(call) => call.args.len(),
            None => 0,
        };
        match row_named(self.call()) {
            Some(row) if number < count => argument_kind(row.named, count, number),
            _ => ArgumentKind::Unread,
        }
    }

    /// Returns whether a parenthesis closes more than the call that begins at the place.
    fn has_surplus_close(&self) -> bool {
        match self.calls.iter().find(|call| call.start == self.at) {
            Some(call) => after_blanks(from(self.text, call.end)).starts_with(b")"),
            None => false,
        }
    }

    /// Returns whether an argument begins at the place.
    fn is_argument(&self) -> bool {
        self.found().is_some()
    }

    /// Returns the argument that begins at the place.
    fn written(&self) -> &'a [u8] {
        match self.found() {
            Some((_, arg)) => without_end_blanks(part(self.text, arg.start, arg.end)),
            None => b"",
        }
    }

    /// Returns the argument that begins at the place, without the quotes around it.
    fn argument(&self) -> &'a [u8] {
        unquoted(self.written())
    }

    /// Returns whether the program of a call that tries one begins at the place.
    fn is_program(&self) -> bool {
        self.is_argument() && matches!(self.kind(), ArgumentKind::SourceCall)
    }

    /// Returns whether the second argument of AC_CHECK_TYPE begins at the place, which was a default
    /// once.
    fn is_default(&self) -> bool {
        match self.found() {
            Some((number, _)) => number == 1 && self.call() == b"AC_CHECK_TYPE".as_slice(),
            None => false,
        }
    }

    /// Returns the first argument of the call that the place is in, without the quotes around it.
    fn first(&self) -> &'a [u8] {
        let Some(call) = call_around(self.calls, self.at) else {
            return b"";
        };
        match call.args.first() {
            Some(arg) => unquoted(without_end_blanks(part(self.text, arg.start, arg.end))),
            None => b"",
        }
    }
}

/// Returns what is said of an error of quotes that names no text of the source.
fn quote_key(fault: QuoteFault) -> Key {
    match fault {
        QuoteFault::UnclosedQuote(_) => keys::UNCLOSED_QUOTE,
        QuoteFault::StrayClose(_) => keys::STRAY_CLOSE,
        QuoteFault::Nul(_) => keys::NUL_BYTE,
        QuoteFault::TooLarge => keys::SOURCE_TOO_LARGE,
        _ => keys::TOO_MANY_BRACKETS,
    }
}

fn put_quote(page: &mut Page, around: Around<'_>, fault: QuoteFault) {
    match fault {
        QuoteFault::UnclosedParen(_) => {
            let name = last_name(before(around.text, around.at));
            page.put(keys::UNCLOSED_CALL, &[WordPart::Quoted(name)])
        }
        other => page.put(quote_key(other), &[]),
    }
}

/// Writes the macro that has the nearest name, or else other help.
fn put_near_macro(
    alloc: Global,
    page: &mut Page,
    name: &[u8],
    otherwise: Key,
) -> Result<(), AllocError> {
    let mut names = Vec::new(alloc);
    for row in rows() {
        names.push(row.0)?;
    }
    match near_name(alloc, name, names.as_slice())? {
        Some(near) => page.put(keys::NEAR_MACRO, &[WordPart::AsItIs(near)]),
        None => page.put(otherwise, &[]),
    }
    Ok(())
}

/// The macros that Autoconf replaces by what AC_INIT says. A variable has each without its `AC_`.
const PACKAGE: [&[u8]; 6] = [
    b"AC_PACKAGE_NAME",
    b"AC_PACKAGE_TARNAME",
    b"AC_PACKAGE_VERSION",
    b"AC_PACKAGE_STRING",
    b"AC_PACKAGE_BUGREPORT",
    b"AC_PACKAGE_URL",
];

/// Writes that a macro isn't known, and the nearest one.
fn put_unknown(alloc: Global, page: &mut Page, name: &[u8]) -> Result<(), AllocError> {
    page.put(keys::UNKNOWN_MACRO, &[WordPart::AsItIs(name)]);
    if PACKAGE.iter().any(|other| *other == name) {
        page.put(keys::WRITE_VARIABLE, &[WordPart::AsItIs(from(name, 3))]);
        return Ok(());
    }
    put_near_macro(alloc, page, name, keys::UNLISTED_MACRO)
}

/// Writes that a name is no macro, and the nearest one.
fn put_no_macro(alloc: Global, page: &mut Page, name: &[u8]) -> Result<(), AllocError> {
    page.put(keys::NO_MACRO, &[WordPart::Quoted(name)]);
    put_near_macro(alloc, page, name, keys::OWN_MACRO)
}

/// Returns whether a statement is a name alone that looks like that of a macro, such as
/// `CF_PROG_CC`.
fn is_macro_like(name: &[u8], rest: &[u8]) -> bool {
    let has_form = name.iter().all(|byte| byte.is_ascii_uppercase()
        || byte.is_ascii_digit()
        || *byte == b'_');
    has_form
        && name.contains(&b'_')
        && name.first().is_some_and(|byte| byte.is_ascii_uppercase())
        && without_end_blanks(first_line(rest)).len() == name.len()
}

/// Returns whether a text begins with `=` and a blank.
fn has_blank_after_equals(text: &[u8]) -> bool {
    text.starts_with(b"= ") || text.starts_with(b"=\t")
}

/// Returns the word by which a statement is named that this text begins with.
fn statement_word(text: &[u8]) -> &[u8] {
    let word = first_word(text);
    let inner = within_argument(word);
    if inner.is_empty() { word } else { inner }
}

/// Returns what is said of text beside the call that begins at the place.
fn beside_key(around: Around<'_>) -> Key {
    if around.has_surplus_close() {
        keys::SURPLUS_PARENTHESIS
    } else {
        keys::TEXT_BESIDE_CALL
    }
}

/// Writes what is wrong with text that is no statement, and that has no construct by which to say
/// it.
fn put_plain_text(alloc: Global, page: &mut Page, around: Around<'_>) -> Result<(), AllocError> {
    let rest = around.rest();
    let name = first_name(rest);
    if row_named(name).is_some() {
        page.put(beside_key(around), &[WordPart::AsItIs(name)]);
        return Ok(());
    }
    let is_called = !name.is_empty() && from(rest, name.len()).starts_with(b"(");
    if is_called || is_macro_like(name, rest) {
        return put_no_macro(alloc, page, name);
    }
    let after = from(rest, name.len());
    if has_blank_after_equals(after) {
        page.put(keys::BLANK_AFTER_EQUALS, &[]);
    } else if !name.is_empty() && after.starts_with(b"+=") {
        page.put(keys::SHELL_APPEND, &[]);
    } else {
        page.put(
            keys::NO_STATEMENT,
            &[WordPart::Quoted(statement_word(rest))],
        );
    }
    Ok(())
}

/// Returns whether the name is that of a macro that is an argument, and no statement.
fn is_argument_macro(name: &[u8]) -> bool {
    match row_named(name) {
        Some(row) => matches!(row.named, Named::Argument(_)),
        None => false,
    }
}

/// Writes what to do about a default of AC_CHECK_TYPE, which begins at the place.
fn put_default(page: &mut Page, around: Around<'_>) {
    let name = WordPart::AsItIs(around.first());
    page.put(
        keys::DEFAULT_OF_TYPE,
        &[name, WordPart::AsItIs(around.argument())],
    );
}

/// Writes what is wrong with an argument that is to hold statements, help or a program.
fn put_no_statements(page: &mut Page, around: Around<'_>) {
    let argument = WordPart::Quoted(around.argument());
    page.put(
        keys::UNREAD_ARGUMENT,
        &[argument, WordPart::AsItIs(around.call())],
    );
    if around.is_program() {
        page.put(keys::PROGRAM_ARGUMENT, &[]);
    } else if around.is_default() {
        put_default(page, around);
    } else if !around.written().contains(&b'[') {
        page.put(keys::BARE_ARGUMENT, &[]);
    } else {
        page.put(keys::BRACKETED_ARGUMENT, &[]);
    }
}

/// Writes what is wrong with text that is no statement.
fn put_statement(alloc: Global, page: &mut Page, around: Around<'_>) -> Result<(), AllocError> {
    let rest = around.rest();
    if let Some(found) = shell_help(unquoted_front(rest)) {
        found.put(page);
        return Ok(());
    }
    if around.is_argument() {
        put_no_statements(page, around);
        return Ok(());
    }
    if is_argument_macro(around.name()) {
        page.put(keys::ARGUMENT_MACRO, &[WordPart::AsItIs(around.name())]);
        return Ok(());
    }
    put_plain_text(alloc, page, around)
}

/// Returns a text without the bracket that it begins with.
fn unquoted_front(text: &[u8]) -> &[u8] {
    match text {
        [b'[', inside @ ..] => inside,
        _ => text,
    }
}

/// Writes how many arguments a macro takes, and how many there are.
fn put_counts(page: &mut Page, name: &[u8], row: Row, count: usize) {
    let name = WordPart::AsItIs(name);
    let least = WordPart::Number(row.least);
    if row.most > 1000 {
        page.put(keys::TAKES_MORE, &[name, least]);
    } else if row.most > 1 && row.most > row.least {
        page.put(
            keys::TAKES_RANGE,
            &[name, least, WordPart::Number(row.most)],
        );
    } else if row.most > 1 {
        page.put(keys::TAKES_SOME, &[name, least]);
    } else if row.least < 1 {
        page.put(keys::TAKES_AT_MOST_ONE, &[name, least]);
    } else {
        page.put(keys::TAKES_ONE, &[name]);
    }
    page.put(keys::HAS_ARGUMENTS, &[WordPart::Number(count)]);
}

/// Returns what to do about arguments of a macro that Autoconf takes, and acrun does not.
fn surplus_key(name: &[u8]) -> Option<Key> {
    if name == b"AC_CHECK_PROG".as_slice()
        || name == b"AC_CHECK_PROGS".as_slice()
        || name == b"AC_PATH_PROG".as_slice()
    {
        return Some(keys::SURPLUS_DIRECTORIES);
    }
    if name == b"AC_CONFIG_FILES".as_slice() || name == b"AC_CONFIG_HEADERS".as_slice() {
        return Some(keys::SURPLUS_COMMANDS);
    }
    None
}

/// Writes the whole form of a call of this macro.
fn put_form(page: &mut Page, name: &[u8]) {
    if let Some(form) = form_of(name) {
        page.put(keys::WHOLE_FORM, &[WordPart::AsItIs(form)]);
    }
}

/// Writes what to do about too few arguments.
fn put_fewer(page: &mut Page, name: &[u8], args: &[&[u8]]) {
    let is_init = name == b"AC_INIT".as_slice();
    match args.first() {
        Some(file) if is_init => {
            let file = unquoted(without_end_blanks(file));
            page.put(keys::MISSING_VERSION_OF, &[WordPart::AsItIs(file)])
        }
        None if is_init => page.put(keys::MISSING_VERSION, &[]),
        _ => put_form(page, name),
    }
}

/// Writes what to do about too many arguments.
fn put_more(page: &mut Page, name: &[u8], args: &[&[u8]]) {
    if let Some(key) = surplus_key(name) {
        page.put(key, &[]);
    } else if args.iter().all(|arg| arg.starts_with(b"[")) {
        put_form(page, name);
    } else {
        page.put(keys::COMMA_IN_ARGUMENT, &[]);
    }
}

/// Writes what is wrong with the number of arguments of the call at the place.
fn put_count(alloc: Global, page: &mut Page, around: Around<'_>) -> Result<(), AllocError> {
    let name = around.name();
    let rest = from(around.rest(), name.len());
    if name == b"AC_OUTPUT".as_slice() {
        page.put(keys::OUTPUT_ARGUMENT, &[]);
        return Ok(());
    }
    let args = arguments_at(alloc, around.text, around.calls, around.at)?;
    let Some(row) = row_named(name) else {
        return Ok(());
    };
    put_counts(page, name, row, args.len());
    if after_blanks(rest).starts_with(b"(") && !rest.starts_with(b"(") {
        page.put(keys::BLANK_BEFORE_PARENTHESIS, &[]);
    } else if args.len() < row.least {
        put_fewer(page, name, args.as_slice());
    } else {
        put_more(page, name, args.as_slice());
    }
    Ok(())
}

/// Writes what is wrong with a word that is an argument of this kind.
fn put_argument_word(page: &mut Page, kind: ArgumentKind, argument: &[u8]) {
    if matches!(kind, ArgumentKind::Message) && argument.contains(&b'`') {
        page.put(keys::MESSAGE_BACKQUOTE, &[]);
        return;
    }
    match argument_help(argument) {
        Some(found) => found.put(page),
        None => page.put(keys::NO_WORD, &[WordPart::Quoted(argument)]),
    }
}

/// Returns the name in the first line of a text that is after a `${`, and that a call begins with.
fn macro_in_value<'a>(around: Around<'a>) -> Option<&'a [u8]> {
    let len = first_line(around.rest()).len();
    let end = around.at.saturating_add(len);
    let call = around
        .calls
        .iter()
        .find(|call| around.at <= call.start && call.start < end)?;
    if before(around.text, call.start).ends_with(b"${") {
        Some(part(around.text, call.start, call.name_end))
    } else {
        None
    }
}

/// Writes what is wrong with a value that is assigned.
fn put_value(page: &mut Page, around: Around<'_>) {
    if let Some(name) = macro_in_value(around) {
        page.put(keys::MACRO_IN_VALUE, &[WordPart::AsItIs(name)]);
        return;
    }
    match shell_help(around.rest()) {
        Some(found) => found.put(page),
        None => page.put(keys::NO_VALUE, &[]),
    }
}

/// Writes what is wrong with a word, or with text that has variables.
fn put_word(page: &mut Page, around: Around<'_>) {
    if around.is_argument() {
        put_argument_word(page, around.kind(), around.argument());
    } else {
        put_value(page, around);
    }
}

/// Writes what is wrong with a test.
fn put_test(page: &mut Page, test: &[u8]) {
    match test_help(test) {
        Some(found) => found.put(page),
        None => page.put(keys::NO_TEST, &[WordPart::Quoted(first_line(test))]),
    }
}

fn put_shell(page: &mut Page, around: Around<'_>, fault: ShellFault) {
    match fault {
        ShellFault::BadTest(_) => put_test(page, around.argument()),
        ShellFault::BadPattern(_) => {
            page.put(
                keys::NO_PATTERN,
                &[WordPart::Quoted(first_line(around.argument()))],
            )
        }
        _ => put_word(page, around),
    }
}

fn put_not_at_top(page: &mut Page, around: Around<'_>) {
    let name = WordPart::AsItIs(around.name());
    if around.call().is_empty() {
        page.put(keys::SECOND_CALL, &[name]);
    } else {
        page.put(keys::NOT_AT_TOP, &[name, WordPart::AsItIs(around.call())]);
    }
}

/// Returns why there is no AC_INIT where one has to be.
fn no_init_key(text: &[u8]) -> Key {
    if text.starts_with(b"\xef\xbb\xbf") {
        keys::BYTE_ORDER_MARK
    } else if text.trim_end().is_empty() {
        keys::EMPTY_FILE
    } else if text.contains_str(b"AC_INIT") {
        keys::TEXT_BEFORE_INIT
    } else {
        keys::NO_INIT
    }
}

/// Returns the first word of a text, or the `;` that it begins with.
fn word_or_semicolon(text: &[u8]) -> &[u8] {
    if text.starts_with(b";") {
        before(text, 1)
    } else {
        first_word(text)
    }
}

/// Returns what is said of a fault that names no text of the source.
fn fixed_key(fault: ParseFault) -> Key {
    match fault {
        ParseFault::NoOutput => keys::NO_OUTPUT,
        ParseFault::CacheBody(_) => keys::CACHE_BODY,
        ParseFault::TooDeep(_) => keys::TOO_DEEP,
        ParseFault::TooMany(_) => keys::TOO_MANY,
        ParseFault::NewerVersion(_) => keys::NEWER_VERSION,
        _ => keys::NO_MEMORY,
    }
}

/// Writes the words of the faults that concern a whole file, a call or a list.
fn put_rest(page: &mut Page, around: Around<'_>, fault: ParseFault) {
    match fault {
        ParseFault::NotAtTop(_) => put_not_at_top(page, around),
        ParseFault::NoInit => page.put(no_init_key(around.text), &[]),
        ParseFault::AfterOutput(_) => {
            let word = word_or_semicolon(around.rest());
            page.put(keys::TEXT_AFTER_OUTPUT, &[WordPart::Quoted(word)])
        }
        other => page.put(fixed_key(other), &[]),
    }
}

/// Writes what is wrong with an argument.
fn put_bad_name(alloc: Global, page: &mut Page, around: Around<'_>) -> Result<(), AllocError> {
    let (argument, call) = (around.argument(), around.call());
    let Around { text, calls, at } = around;
    if argument.is_empty() && around.number() == 0 {
        page.put(keys::NAMES_NOTHING, &[WordPart::AsItIs(call)]);
    } else if !put_bad_outputs(alloc, page, text, calls, at, argument, call)? {
        put_bad_argument(page, first_line(argument), call, around.kind());
    }
    Ok(())
}

/// Writes the words of a fault.
fn put_fault(
    alloc: Global,
    page: &mut Page,
    around: Around<'_>,
    fault: ParseFault,
) -> Result<(), AllocError> {
    match fault {
        ParseFault::Quote(fault) => put_quote(page, around, fault),
        ParseFault::UnknownMacro(_) => return put_unknown(alloc, page, around.name()),
        ParseFault::UnknownStatement(_) => return put_statement(alloc, page, around),
        ParseFault::ArgCount(_) => return put_count(alloc, page, around),
        ParseFault::BadName(_) => return put_bad_name(alloc, page, around),
        ParseFault::Shell(fault, _) => put_shell(page, around, fault),
        other => put_rest(page, around, other),
    }
    Ok(())
}

/// Returns the length of what is marked at the place of a fault.
fn marked_len(around: Around<'_>, fault: ParseFault) -> usize {
    match fault {
        ParseFault::Quote(_) => 1,
        ParseFault::NoInit => first_line(around.rest()).len(),
        ParseFault::UnknownMacro(_) | ParseFault::ArgCount(_) | ParseFault::NotAtTop(_) => {
            around.name().len()
        }
        _ if around.is_argument() => around.written().len(),
        _ => without_end_blanks(before_close(first_line(around.rest()))).len(),
    }
}

/// Returns the code of a fault, such as `parse-2`: its number, without its place.
fn code_of(alloc: Global, fault: ParseFault) -> Result<Bytes, AllocError> {
    let shown = format!(in alloc; "parse-{fault}")?;
    let code = first_word(shown.as_bytes());
    Bytes::from_slice(alloc, code)
}

/// Returns an error of the source, in words, at the offset `at`. If there is no help, it is empty.
///
/// The calls are those of the source, in order of their offsets. An unknown macro is named without
/// them.
///
/// The offset is that of the fault, or that of the statement at fault in text between calls. The
/// end is that of the name, of the argument, of the quoted text or of the line there.
///
/// # Errors
///
/// Fails only if memory runs out.
pub fn parse_finding(
    alloc: Global,
    text: &[u8],
    fault: ParseFault,
    at: usize,
    calls: &[CallAt],
) -> Result<Finding, AllocError>
    ensures file { IfOk result (λ finding. finding.file ≡ 0) }
    ensures start { IfOk result (λ finding. finding.start ≡ at) }
    // It ends in the text, and, if the offset is in the text, not before it.
    ensures end { IfOk result (λ finding. finding.end ≤ length text.now) }
    ensures order { IfOk result (λ finding.
        finding.start ≤ length text.now → finding.start ≤ finding.end) }
    ensures severity { IfOk result (λ finding. finding.severity ≡ Error) }
{
    let around = Around { text, calls, at };
    let code = code_of(alloc, fault)?;
    let mut page = Page::new(alloc);
    put_fault(alloc, &mut page, around, fault)?;
    let end = at.saturating_add(marked_len(around, fault)).min(text.len());
    page.finding(code, at, end)
}
