//! options: precious variables and caches.

use crate::of_acparse::read_source;
use crate::of_options::arguments_of;
use crate::told::{Next, put_next};
use acparse::Source;
use cachefile::{CacheFault, OldCache, read_cache};
use deftable::{Bytes, Notes, Vars};
use options::{OptionFault, PreciousFault, Settings, check_precious, check_precious_of, read_args};
use std::alloc::Global;
use test_rows::{Page, RowCall, cut};

/// The source of all rows: its precious variables are CC, LD and AR, in this order.
const SOURCE: &[u8] =
    b"AC_INIT([x],[1])AC_ARG_VAR([CC],[c])AC_ARG_VAR([LD],[l])AC_ARG_VAR([AR],[a])AC_OUTPUT";

/// The variables whose values are told.
const NAMES: [&str; 4] = ["CC", "LD", "AR", "v_cv_a"];

// The calls, in functions without their clauses.

fn open(alloc: Global, source: &Source, arguments: &[Bytes]) -> Result<Settings, OptionFault> {
    read_args(alloc, source, arguments, &[])
}

fn read(alloc: Global, text: &[u8]) -> Result<OldCache, CacheFault> {
    read_cache(alloc, text)
}

fn check(
    alloc: Global,
    source: &Source,
    vars: &mut Vars,
    cache: &OldCache,
) -> Result<Notes, PreciousFault> {
    check_precious(alloc, source, vars, cache)
}

fn check_list(
    alloc: Global,
    source: &Source,
    vars: &mut Vars,
    cache: &OldCache,
) -> Result<Notes, PreciousFault> {
    check_precious_of(alloc, source.precious(), vars, cache)
}

/// Puts the value of each of those variables, or a dash if it is not set.
fn put_values(page: &mut Page, vars: &Vars) {
    for name in NAMES {
        match vars.get(name.as_bytes()) {
            Some(value) => page.put_text(value.as_slice()),
            None => page.put(b"-"),
        }
    }
}

fn put_notes(page: &mut Page, notes: &Notes) {
    for note in notes.as_slice() {
        page.put(b" ");
        page.put(note.text.as_slice());
    }
}

/// A call.
pub enum PreciousReader {
    /// The check, over a source.
    Source,
    /// The check, over the precious variables of a source.
    List,
    /// The same, and then the cache is poured.
    Poured,
    /// The check, over a source with 1,000 precious variables.
    Wide,
    /// An error.
    Memory,
}

pub const READERS: [(&[u8], PreciousReader); 5] = [
    (b"source", PreciousReader::Source),
    (b"list", PreciousReader::List),
    (b"poured", PreciousReader::Poured),
    (b"wide", PreciousReader::Wide),
    (b"memory", PreciousReader::Memory),
];

impl PreciousReader {
    fn check(
        &self,
        page: &Page,
        source: &Source,
        vars: &mut Vars,
        cache: &OldCache,
    ) -> Result<Notes, PreciousFault> {
        match self {
            PreciousReader::Source => check(page.alloc(), source, vars, cache),
            _ => check_list(page.alloc(), source, vars, cache),
        }
    }

    /// Puts what the check gives, and the variables after it.
    fn put_checked(&self, page: &mut Page, source: &Source, vars: &mut Vars, cache: &OldCache) {
        match self.check(page, source, vars, cache) {
            Ok(notes) => put_notes(page, &notes),
            Err(fault) => page.put_shown(&fault),
        }
        page.put(b" ");
        if let PreciousReader::Poured = self {
            page.given(cache.pour(vars));
        }
        put_values(page, vars);
    }

    fn put_settings(
        &self,
        page: &mut Page,
        source: &Source,
        mut settings: Settings,
        cache: &OldCache,
    ) {
        self.put_checked(page, source, &mut settings.vars, cache);
    }
}

/// Returns a source whose precious variables are V0 to V999.
fn wide_source(page: &Page) -> Page {
    let mut source = Page::new(page.alloc());
    source.put(b"AC_INIT([x],[1])");
    for i in 0..1000 {
        source.put(b"AC_ARG_VAR([V");
        source.put_number(i);
        source.put(b"],[v])");
    }
    source.put(b"AC_OUTPUT");
    source
}

/// A call, the arguments of a command line and the text of a cache.
#[derive(Drop)]
struct Given<'a> {
    reader: &'a PreciousReader,
    arguments: &'a [Bytes],
    cache: &'a [u8],
}

impl Next<Source> for Given<'_> {
    fn put_of(&self, page: &mut Page, source: &Source) {
        let over = Over {
            reader: self.reader,
            arguments: self.arguments,
            source,
        };
        put_next(page, read(page.alloc(), self.cache), &over);
    }
}

/// A call, the arguments of a command line and a source.
#[derive(Drop)]
struct Over<'a> {
    reader: &'a PreciousReader,
    arguments: &'a [Bytes],
    source: &'a Source,
}

impl Next<OldCache> for Over<'_> {
    fn put_of(&self, page: &mut Page, cache: &OldCache) {
        match open(page.alloc(), self.source, self.arguments) {
            Ok(settings) => self.reader.put_settings(page, self.source, settings, cache),
            Err(fault) => page.put_shown(&fault),
        }
    }
}

impl PreciousReader {
    fn put_over(&self, page: &mut Page, source: &[u8], line: &[u8]) {
        let (words, cache) = cut(line, b",");
        let arguments = arguments_of(page, words);
        let given = Given {
            reader: self,
            arguments: &arguments,
            cache,
        };
        put_next(page, read_source(page.alloc(), source), &given);
    }
}

/// The arguments are before the first comma, with a bar between each two, and the text of the cache
/// is after it.
impl RowCall for PreciousReader {
    fn put(&self, page: &mut Page, line: &[u8]) {
        if let PreciousReader::Memory = self {
            return page.put_shown(&PreciousFault::OutOfMemory);
        }
        match self {
            PreciousReader::Wide => self.put_over(page, wide_source(page).text(), line),
            _ => self.put_over(page, SOURCE, line),
        }
    }
}
