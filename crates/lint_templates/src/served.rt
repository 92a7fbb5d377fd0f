//! The output variables that Autoconf sets itself, and the lines that set them in a source.

ghost use Rattle.std.specs.Prelude.{◌≡◌, ◌++◌, map, OnOk};
ghost use Rattle.lint_templates.specs.Served as specs;

use std::alloc::{AllocError, Global};

/// A row of the table: a name, in what its line differs from what Autoconf does, and the line.
type Row = (&'static [u8], &'static [u8], &'static [u8]);

/// The names that Autoconf sets itself, each with words that say in what the line differs, or none
/// if it differs in nothing, and with the line. The directories have a line for templates without
/// `datarootdir`, and CFLAGS has one that comes after AC_PROG_CC.
#[rattlefmt::skip]
const SERVED: [Row; 19] = [
    (b"SHELL", b"Autoconf takes a shell that it finds, such as /bin/bash",
        b"AC_SUBST([SHELL], [/bin/sh])"),
    (b"PATH_SEPARATOR", b"the environment is not read",
        b"AC_SUBST([PATH_SEPARATOR], [:])"),
    (b"ECHO_C", b"it is that of a shell whose echo takes -n",
        b"AC_SUBST([ECHO_C], [''])"),
    (b"ECHO_N", b"it is that of a shell whose echo takes -n",
        b"AC_SUBST([ECHO_N], [-n])"),
    (b"ECHO_T", b"it is that of a shell whose echo takes -n",
        b"AC_SUBST([ECHO_T], [''])"),
    (b"build_alias", b"acrun has no --build",
        b"AC_SUBST([build_alias], [''])"),
    (b"host_alias", b"acrun has no --host",
        b"AC_SUBST([host_alias], [''])"),
    (b"target_alias", b"acrun has no --target",
        b"AC_SUBST([target_alias], [''])"),
    (b"program_transform_name", b"acrun renames no programs",
        b"AC_SUBST([program_transform_name], [s,x,x,])"),
    (b"OBJEXT", b"no compiler is asked",
        b"AC_SUBST([OBJEXT], [o])"),
    (b"EXEEXT", b"no compiler is asked",
        b"AC_SUBST([EXEEXT], [''])"),
    (b"LIBOBJS", b"",
        b"AC_SUBST([LIBOBJS], [''])"),
    (b"LTLIBOBJS", b"",
        b"AC_SUBST([LTLIBOBJS], [''])"),
    (b"mandir", b"no template sets datarootdir, so its value is written out",
        b"AS_IF([test \"x$mandir\" = 'x${datarootdir}/man'], [mandir=$datarootdir/man])"),
    (b"datadir", b"no template sets datarootdir, so its value is written out",
        b"AS_IF([test \"x$datadir\" = 'x${datarootdir}'], [datadir=$datarootdir])"),
    (b"infodir", b"no template sets datarootdir, so its value is written out",
        b"AS_IF([test \"x$infodir\" = 'x${datarootdir}/info'], [infodir=$datarootdir/info])"),
    (b"docdir", b"no template sets datarootdir, so its value is written out",
        b"AS_IF([test \"x$docdir\" = 'x${datarootdir}/doc/${PACKAGE_TARNAME}'], [docdir=$datarootdir/doc/'${PACKAGE_TARNAME}'])"),
    (b"localedir", b"no template sets datarootdir, so its value is written out",
        b"AS_IF([test \"x$localedir\" = 'x${datarootdir}/locale'], [localedir=$datarootdir/locale])"),
    (b"CFLAGS", b"an empty value of the user is replaced too, and the compiler is not asked whether it takes -g",
        b"AS_IF([test \"x$CFLAGS\" = x], [CFLAGS='-g -O2'])"),
];

/// Returns the table.
#[tactic(auto, unfolding(crate::specs::Served::served))]
fn served() -> &'static [Row]
    ensures { map (λ row. (row.0.now, row.1.now, row.2.now)) result.now ≡ specs.served }
{
    &SERVED
}

/// Returns the words of the first of these rows with this name, or none.
fn words_in(rows: &[Row], name: &[u8]) -> &'static [u8]
    ensures { result.now
        ≡ specs.words_among name.now (map (λ row. (row.0.now, row.1.now, row.2.now)) rows.now) }
{
    for row in rows {
        if row.0 == name {
            return row.1;
        }
    }
    b""
}

/// Returns the line of the first of these rows with this name, or none.
fn line_in(rows: &[Row], name: &[u8]) -> &'static [u8]
    ensures { result.now
        ≡ specs.line_among name.now (map (λ row. (row.0.now, row.1.now, row.2.now)) rows.now) }
{
    for row in rows {
        if row.0 == name {
            return row.2;
        }
    }
    b""
}

/// Appends a line.
fn put_line(out: &mut Vec<u8>, line: &[u8]) -> Result<(), AllocError>
    ensures { OnOk result (out.new.items ≡ out.old.items ++ specs.line_of line.now) }
{
    out.extend_from_slice(line)?;
    out.push(b'\n')?;
    Ok(())
}

/// Appends what a line begins with that says in what the line of a name differs.
#[tactic(auto, unfolding(crate::specs::Served::front))]
fn put_front(out: &mut Vec<u8>) -> Result<(), AllocError>
    ensures { OnOk result (out.new.items ≡ out.old.items ++ specs.front) }
{
    out.extend_from_slice(b"dnl acrun: in place of @")
}

/// Appends what is after the name in such a line.
#[tactic(auto, unfolding(crate::specs::Served::rest_of), using(std::proofs::lemmas::List::append_assoc))]
fn put_rest(out: &mut Vec<u8>, words: &[u8]) -> Result<(), AllocError>
    ensures { OnOk result (out.new.items ≡ out.old.items ++ specs.rest_of words.now) }
{
    out.extend_from_slice(b"@: ")?;
    put_line(out, words)?;
    Ok(())
}

/// Appends a line that says in what the line of a name differs.
#[tactic(auto, using(std::proofs::lemmas::List::append_assoc))]
fn put_words(out: &mut Vec<u8>, name: &[u8], words: &[u8]) -> Result<(), AllocError>
    ensures { OnOk result (out.new.items ≡ out.old.items ++ specs.words_of name.now words.now) }
{
    put_front(out)?;
    out.extend_from_slice(name)?;
    put_rest(out, words)?;
    Ok(())
}

/// Appends a line, below the line that says in what it differs, if there are words for that. Then it
/// is appended only if all lines are wanted.
fn put_lines(
    out: &mut Vec<u8>,
    all: bool,
    name: &[u8],
    words: &[u8],
    line: &[u8],
) -> Result<(), AllocError>
    ensures { OnOk result (
        out.new.items ≡ out.old.items ++ specs.lines_by all name.now words.now line.now) }
{
    if words.is_empty() {
        return put_line(out, line);
    }
    if !all {
        return Ok(());
    }
    put_words(out, name, words)?;
    put_line(out, line)?;
    Ok(())
}

/// Appends the lines of a name, if there is a line.
fn put_if(
    out: &mut Vec<u8>,
    all: bool,
    name: &[u8],
    words: &[u8],
    line: &[u8],
) -> Result<(), AllocError>
    ensures { OnOk result (
        out.new.items ≡ out.old.items ++ specs.lines_if all name.now words.now line.now) }
{
    if line.is_empty() {
        return Ok(());
    }
    put_lines(out, all, name, words, line)
}

/// Appends the lines that set a name, if there are such: those that differ from what Autoconf does
/// only if all are wanted.
///
/// # Errors
///
/// Fails only if memory runs out.
#[tactic(auto, unfolding(crate::specs::Served::lines_for))]
pub fn put_served(out: &mut Vec<u8>, all: bool, name: &[u8]) -> Result<(), AllocError>
    ensures { OnOk result (out.new.items ≡ out.old.items ++ specs.lines_for all name.now) }
{
    put_if(
        out,
        all,
        name,
        words_in(served(), name),
        line_in(served(), name),
    )
}

/// Returns the line that sets a name, or an empty text.
pub(crate) fn served_line(name: &[u8]) -> &'static [u8] {
    line_in(served(), name)
}
