//! Which entry of the table is about a call, if the arguments say so.

ghost use Rattle.std.specs.Prelude.{◌≡◌, bytes_eq};
ghost use Rattle.lint_macros.specs.Members as words;

fn is(name: &[u8], word: &[u8]) -> bool
    ensures { result ≡ bytes_eq name.now word.now }
{
    name == word
}

/// Returns the name of the entry for a check of a flag with so many arguments. For all other calls
/// it is the name itself.
fn flag_entry(name: &[u8], count: usize) -> &[u8]
    ensures { result.now ≡ words.flag_entry name.now count }
{
    if is(name, b"AX_CHECK_COMPILE_FLAG") && 3 < count {
        b"AX_CHECK_COMPILE_FLAG(flags)"
    } else if is(name, b"AX_CHECK_COMPILE_FLAG") && 1 < count {
        b"AX_CHECK_COMPILE_FLAG(actions)"
    } else if is(name, b"AX_CHECK_LINK_FLAG") && 3 < count {
        b"AX_CHECK_LINK_FLAG(flags)"
    } else if is(name, b"AX_CHECK_LINK_FLAG") && 1 < count {
        b"AX_CHECK_LINK_FLAG(actions)"
    } else {
        name
    }
}

/// Returns the name of the entry for a call of a macro of this name with so many arguments. It is
/// the name itself, but a check of members with actions or with includes has an entry of its own,
/// and so have a check of a flag with actions, AM_INIT_AUTOMAKE with a name and a version, and
/// PKG_CHECK_MODULES with modules (own).
pub fn entry_name(name: &[u8], count: usize) -> &[u8]
    ensures { result.now ≡ words.entry_name name.now count }
{
    if is(name, b"AC_CHECK_MEMBERS") && 3 < count {
        b"AC_CHECK_MEMBERS(includes)"
    } else if is(name, b"AC_CHECK_MEMBERS") && 1 < count {
        b"AC_CHECK_MEMBERS(actions)"
    } else if is(name, b"AC_CHECK_MEMBER") && 3 < count {
        b"AC_CHECK_MEMBER(includes)"
    } else if is(name, b"AM_INIT_AUTOMAKE") && 1 < count {
        b"AM_INIT_AUTOMAKE(name)"
    } else if is(name, b"PKG_CHECK_MODULES") && 3 < count {
        b"PKG_CHECK_MODULES(actions)"
    } else if is(name, b"PKG_CHECK_MODULES") && 2 < count {
        b"PKG_CHECK_MODULES(found)"
    } else if is(name, b"PKG_CHECK_MODULES") && 1 < count {
        b"PKG_CHECK_MODULES(flags)"
    } else {
        flag_entry(name, count)
    }
}

/// Returns whether the idiom of an entry is written once for each name of a list, which is the
/// first argument, with commas between the names (own).
pub fn takes_list(name: &[u8]) -> bool
    ensures { result ≡ words.takes_list name.now }
{
    is(name, b"AC_CHECK_MEMBERS")
        || is(name, b"AC_CHECK_MEMBERS(actions)")
        || is(name, b"AC_CHECK_MEMBERS(includes)")
}
