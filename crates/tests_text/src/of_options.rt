//! Command lines and help texts. The crate `tests_cases` has the table of arguments, one by one.

use crate::of_acparse::read_source;
use crate::told::{Next, Told, add, put_if, put_made, put_next};
use acparse::Source;
use deftable::{Bytes, Vars};
use options::{
    OptionFault, Settings, directories, help_text, help_text_of, read_args, read_args_of, srcdir_of,
};
use std::alloc::Global;
use test_rows::{Page, RowCall};
use text_cut::parts;

/// The variables whose values are told.
const NAMES: [&str; 6] = [
    "prefix",
    "enable_a_b",
    "with_x",
    "LDFLAGS",
    "ac_cv_env_CC_set",
    "ac_cv_env_CC_value",
];

/// Puts the value of each of those variables, or a dash if it is not set.
fn put_values(page: &mut Page, vars: &Vars) {
    for name in NAMES {
        match vars.get(name.as_bytes()) {
            Some(value) => page.put_text(value.as_slice()),
            None => page.put(b"-"),
        }
    }
}

/// The variables, the directory of the source, and what else is set.
impl Told for Settings {
    fn tell(&self, page: &mut Page) {
        put_values(page, &self.vars);
        page.put(b" in ");
        page.put_text(self.srcdir.as_slice());
        if let Some(name) = &self.cache_name {
            page.put(b" cache");
            page.put_text(name.as_slice());
        }
        put_if(page, self.quiet, b" quiet");
        put_if(page, self.no_create, b" no create");
        put_if(page, self.help, b" help");
        put_if(page, self.version, b" version");
        page.put(b" notes ");
        page.put_number(self.notes.as_slice().len());
    }
}

/// Returns the arguments of a line, with a bar between each two.
pub fn arguments_of(page: &mut Page, line: &[u8]) -> Vec<Bytes> {
    let mut arguments = Vec::new(page.alloc());
    if let Some(parts) = page.given(parts(page.alloc(), line, b'|')) {
        for part in &parts {
            add(page, &mut arguments, part);
        }
    }
    arguments
}

/// The source of the rows `lists`.
const DECLARING: &[u8] = b"AC_INIT([x],[1])
AC_ARG_ENABLE([a-b],[c])
AC_ARG_WITH([x],[y])
AC_ARG_VAR([CC],[z])
AC_OUTPUT
";

/// The source of the rows `source`.
const SOURCE: &[u8] = b"AC_INIT([x],[1])
AC_ARG_ENABLE([a-b],[AS_HELP_STRING([--disable-a-b],[leave x out])])
AC_OUTPUT
";

// The calls, in functions without their clauses.

fn read_settings(
    alloc: Global,
    source: &Source,
    arguments: &[Bytes],
) -> Result<Settings, OptionFault> {
    read_args(alloc, source, arguments, &[])
}

/// Returns the settings over the lists of a source, where `LDFLAGS=-g` is the environment.
fn read_settings_of_lists(
    alloc: Global,
    source: &Source,
    arguments: &[Bytes],
) -> Result<Settings, OptionFault> {
    let name = Bytes::from_slice(alloc, b"LDFLAGS")?;
    let value = Bytes::from_slice(alloc, b"-g")?;
    let environment = [(name, value)];
    read_args_of(
        alloc,
        source.features(),
        source.packages(),
        source.precious(),
        arguments,
        &environment,
    )
}

fn put_help(page: &mut Page, source: &Source) {
    put_made(page, help_text(page.alloc(), source));
    put_made(page, help_text_of(page.alloc(), source.help()));
}

fn put_srcdir(page: &mut Page, arguments: &[Bytes]) {
    page.put(srcdir_of(arguments));
}

fn put_directory(page: &mut Page, name: &[u8]) {
    for (place, directory) in directories().iter().enumerate() {
        if directory.variable() == name {
            page.put_number(place);
            page.put(b" ");
            page.put(directory.default_value());
        }
    }
}

/// A call.
pub enum OptionReader {
    /// The settings of a command line, over the lists of a source.
    Lists,
    /// The settings of a command line, over a source.
    Source,
    /// The help of a source, of the whole and of its list.
    Help,
    /// The directory of the source that a command line names.
    Srcdir,
    /// The place of a directory's variable, and its usual value.
    Directory,
    /// How many directories there are.
    Directories,
    /// An error.
    Memory,
}

pub const READERS: [(&[u8], OptionReader); 7] = [
    (b"lists", OptionReader::Lists),
    (b"source", OptionReader::Source),
    (b"help", OptionReader::Help),
    (b"srcdir", OptionReader::Srcdir),
    (b"directory", OptionReader::Directory),
    (b"directories", OptionReader::Directories),
    (b"memory", OptionReader::Memory),
];

/// A call of a source and the arguments of a command line.
#[derive(Drop)]
struct Over<'a> {
    reader: &'a OptionReader,
    arguments: &'a [Bytes],
}

impl Next<Source> for Over<'_> {
    fn put_of(&self, page: &mut Page, source: &Source) {
        let alloc = page.alloc();
        match self.reader {
            OptionReader::Lists => put_made(
                page,
                read_settings_of_lists(alloc, source, self.arguments),
            ),
            OptionReader::Source => put_made(page, read_settings(alloc, source, self.arguments)),
            _ => put_help(page, source),
        }
    }
}

impl OptionReader {
    fn put_over(&self, page: &mut Page, text: &[u8], arguments: &[Bytes]) {
        let over = Over {
            reader: self,
            arguments,
        };
        put_next(page, read_source(page.alloc(), text), &over);
    }
}

impl RowCall for OptionReader {
    fn put(&self, page: &mut Page, line: &[u8]) {
        let arguments = arguments_of(page, line);
        match self {
            OptionReader::Lists => self.put_over(page, DECLARING, &arguments),
            OptionReader::Source => self.put_over(page, SOURCE, &arguments),
            OptionReader::Help => self.put_over(page, line, &arguments),
            OptionReader::Srcdir => put_srcdir(page, &arguments),
            OptionReader::Directory => put_directory(page, line),
            OptionReader::Directories => page.put_number(directories().len()),
            OptionReader::Memory => page.put_shown(&OptionFault::OutOfMemory),
        }
    }
}
