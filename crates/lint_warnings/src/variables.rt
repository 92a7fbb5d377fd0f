//! Warnings about variables that a configure script sets and acrun doesn't.

use crate::extent::{bare, name_of, span_of, text_at};
use crate::names::Names;
use ac_calls::{CallAt, Extent};
use ac_tree::Source;
use bstr::ByteSlice;
use deftable::{SubstList, is_shell_name};
use lint_findings::Finding;
use lint_table::{Key, Page, WordPart, keys};
use lint_text::{after_blanks, before, first_name, from};
use std::alloc::{AllocError, Global};

/// Variables, and what to write for them.
type Row = (&'static [&'static [u8]], Key);

/// The variables that a configure script has of itself, or that macros set which acrun doesn't
/// know.
#[rattlefmt::skip]
const ROWS: [Row; 25] = [
    (&[b"GCC", b"ac_compiler_gnu", b"ac_cv_c_compiler_gnu"], keys::CHECK_GNU),
    (&[b"GXX", b"CXX", b"CXXFLAGS", b"CXXCPP", b"ac_cv_cxx_compiler_gnu"], keys::NO_OTHER_LANGUAGE),
    (&[b"host"], keys::DECLARE_HOST),
    (&[b"host_alias", b"host_cpu", b"host_vendor", b"host_os"], keys::TEST_HOST),
    (&[b"build"], keys::DECLARE_BUILD),
    (&[b"build_alias", b"build_cpu", b"build_vendor", b"build_os"], keys::TEST_BUILD),
    (&[b"target"], keys::DECLARE_TARGET),
    (&[b"target_alias", b"target_cpu", b"target_vendor", b"target_os"], keys::TEST_TARGET),
    (&[b"cross_compiling"], keys::NO_CROSS),
    (&[b"EXEEXT", b"ac_exeext", b"ac_cv_exeext"], keys::SET_EXEEXT),
    (&[b"OBJEXT", b"ac_objext", b"ac_cv_objext"], keys::SET_OBJEXT),
    (&[b"INSTALL"], keys::SET_INSTALL),
    (&[b"INSTALL_PROGRAM"], keys::SET_INSTALL_PROGRAM),
    (&[b"INSTALL_SCRIPT"], keys::SET_INSTALL_SCRIPT),
    (&[b"INSTALL_DATA"], keys::SET_INSTALL_DATA),
    (&[b"MKDIR_P"], keys::SET_MKDIR_P),
    (&[b"LN_S", b"as_ln_s"], keys::SET_LN_S),
    (&[b"RANLIB"], keys::SET_RANLIB),
    (&[b"AWK"], keys::SET_AWK),
    (&[b"CPP"], keys::SET_CPP),
    (&[b"SHELL", b"CONFIG_SHELL"], keys::SET_SHELL),
    (&[b"PACKAGE"], keys::SET_PACKAGE),
    (&[b"VERSION"], keys::SET_VERSION),
    (&[b"srcdir", b"ac_top_srcdir", b"ac_abs_top_srcdir", b"ac_srcdir", b"ac_abs_srcdir",
        b"ac_confdir", b"ac_aux_dir"], keys::USE_SRCDIR),
    (&[b"as_me", b"as_myself", b"as_nl", b"as_echo", b"as_echo_n", b"as_unset", b"as_dir",
        b"as_mkdir_p", b"LINENO", b"PATH_SEPARATOR", b"ac_ext", b"ac_cpp", b"ac_compile",
        b"ac_link", b"ac_pwd", b"ac_configure_args", b"ac_unique_file", b"ac_default_prefix",
        b"ac_default_prefix_set", b"cache_file", b"no_create", b"no_recursion", b"silent", b"site",
        b"verbose", b"subdirs", b"ac_file", b"am__api_version", b"program_transform_name"], keys::LEAVE_OUT),
];

/// The front of the names of what checks answer.
const ANSWER: &[u8] = b"ac_cv_";

/// Returns whether a variable is read, and nothing sets or declares it.
fn is_unset(names: &Names, name: &[u8]) -> bool {
    // On the systems that acrun knows, this variable is empty in Autoconf too.
    let is_empty = name == b"EXEEXT".as_slice() && names.output.has(name);
    names.read.has(name) && !names.set.has(name) && !is_empty
}

/// Returns whether two names are equal. Most are of different lengths, which is cheap to see.
fn is_same(known: &[u8], name: &[u8]) -> bool {
    known.len() == name.len() && known == name
}

/// Returns whether a row has the name.
fn has(row: &Row, name: &[u8]) -> bool {
    row.0.iter().any(|known| is_same(*known, name))
}

/// Returns what to write for a variable that a configure script has.
fn advice_of(rows: &[Row], name: &[u8]) -> Option<Key> {
    for row in rows {
        if has(row, name) {
            return Some(row.1);
        }
    }
    if name.starts_with(ANSWER) {
        return Some(keys::MAKE_CHECK);
    }
    None
}

/// Returns the name of the variable that a text after `$` reads, with its offset.
fn name_after(text: &[u8]) -> (usize, &[u8]) {
    if text.starts_with(b"{") {
        return (1, first_name(from(text, 1)));
    }
    (0, first_name(text))
}

/// What is looked for: variables that a source reads and doesn't set, each once.
#[derive(Drop)]
struct Search<'a> {
    rows: &'a [Row],
    source: &'a Source,
    /// The variables of the source, once they are asked for.
    names: Option<Names>,
    /// Those that were found.
    found: SubstList,
}

impl<'a> Search<'a> {
    /// Returns a search in which nothing is found.
    fn new(alloc: Global, rows: &'a [Row], source: &'a Source) -> Search<'a> {
        Search {
            rows,
            source,
            names: None,
            found: SubstList::new(alloc),
        }
    }

    /// Returns whether a variable is read, and nothing sets or declares it.
    fn is_unset(&mut self, alloc: Global, name: &[u8]) -> Result<bool, AllocError> {
        if self.names.is_none() {
            self.names = Some(Names::of(alloc, self.source)?);
        }
        match &self.names {
            Some(names) => Ok(is_unset(names, name)),
            None => Ok(false),
        }
    }

    /// Returns what to write for a variable, if it is one that is looked for and wasn't found
    /// before.
    fn take(&mut self, alloc: Global, name: &[u8]) -> Result<Option<Key>, AllocError> {
        let Some(advice) = advice_of(self.rows, name) else {
            return Ok(None);
        };
        if !is_shell_name(name) || self.found.has(name) || !self.is_unset(alloc, name)? {
            return Ok(None);
        }
        self.found.add(name)?;
        Ok(Some(advice))
    }
}

/// Warns of a variable at a place, if it is one that is looked for.
fn warn_of_name(
    alloc: Global,
    text: &[u8],
    place: Extent,
    name: &[u8],
    search: &mut Search<'_>,
    out: &mut Vec<Finding>,
) -> Result<(), AllocError> {
    let Some(advice) = search.take(alloc, name)? else {
        return Ok(());
    };
    let mut page = Page::new(alloc);
    page.put(keys::SCRIPT_VARIABLE, &[WordPart::AsItIs(name)]);
    page.put(advice, &[]);
    page.warn(
        alloc,
        out,
        text,
        span_of(place),
        keys::SCRIPT_VARIABLE.name(),
    )
}

/// Warns of the variables that the rest of a line reads, which begins at an offset.
fn warn_of_line(
    alloc: Global,
    text: &[u8],
    at: usize,
    rest: &[u8],
    search: &mut Search<'_>,
    out: &mut Vec<Finding>,
) -> Result<(), AllocError> {
    let mut start = at;
    for piece in rest.split(|byte| *byte == b'$') {
        if start > at {
            let (skipped, name) = name_after(piece);
            let begin = start.saturating_add(skipped);
            let place = Extent {
                start: begin,
                end: begin.saturating_add(name.len()),
            };
            warn_of_name(alloc, text, place, name, search, out)?;
        }
        start = start.saturating_add(piece.len()).saturating_add(1);
    }
    Ok(())
}

/// Returns whether the line before an offset begins a comment.
fn is_in_comment(text: &[u8], at: usize) -> bool {
    let front = before(text, at);
    let start = match front.rfind_byte(b'\n') {
        Some(newline) => newline.saturating_add(1),
        None => 0,
    };
    let line = after_blanks(from(text, start));
    line.starts_with(b"#") || first_name(line) == b"dnl".as_slice()
}

/// Returns the rest of the line after the start of a text.
fn rest_of_line(text: &[u8]) -> &[u8] {
    match text.find_byte(b'\n') {
        Some(len) => before(text, len),
        None => text,
    }
}

/// Warns of the variables that lines read.
fn warn_of_lines(
    alloc: Global,
    text: &[u8],
    search: &mut Search<'_>,
    out: &mut Vec<Finding>,
) -> Result<(), AllocError> {
    let mut at: usize = 0;
    for _ in 0..text.len() {
        let Some(len) = from(text, at).find_byte(b'$') else {
            return Ok(());
        };
        // The first variable of a line, of which there may be more.
        let first = at.saturating_add(len);
        let rest = rest_of_line(from(text, first));
        if !is_in_comment(text, first) {
            warn_of_line(alloc, text, first, rest, search, out)?;
        }
        at = first.saturating_add(rest.len());
    }
    Ok(())
}

/// Warns of the variable that a call makes an output variable.
fn warn_of_output(
    alloc: Global,
    text: &[u8],
    call: &CallAt,
    search: &mut Search<'_>,
    out: &mut Vec<Finding>,
) -> Result<(), AllocError> {
    let name = bare(text_at(text, call.args.first().copied()));
    // What is said of this one is the warning of its own.
    if name == b"SHELL".as_slice() {
        return Ok(());
    }
    let place = Extent {
        start: call.start,
        end: call.name_end,
    };
    warn_of_name(alloc, text, place, name, search, out)
}

/// Warns of the variables that AC_SUBST makes output variables.
fn warn_of_outputs(
    alloc: Global,
    text: &[u8],
    calls: &[CallAt],
    search: &mut Search<'_>,
    out: &mut Vec<Finding>,
) -> Result<(), AllocError> {
    for call in calls {
        if name_of(text, call) == b"AC_SUBST".as_slice() {
            warn_of_output(alloc, text, call, search, out)?;
        }
    }
    Ok(())
}

/// Warns of variables that a source reads and doesn't set, each at the first place where it is
/// read, if a configure script sets them.
pub(crate) fn warn_of_variables(
    alloc: Global,
    text: &[u8],
    calls: &[CallAt],
    source: &Source,
    out: &mut Vec<Finding>,
) -> Result<(), AllocError> {
    // The table is made once, and not for each variable.
    let rows = ROWS;
    let mut search = Search::new(alloc, &rows, source);
    warn_of_lines(alloc, text, &mut search, out)?;
    warn_of_outputs(alloc, text, calls, &mut search, out)
}
