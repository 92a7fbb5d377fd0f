//! The rules for what one statement or question uses.

ghost use Rattle.std.specs.Prelude.{◌≡◌, option_map};
ghost use Rattle.ac_tree.specs.Decide as decide;
ghost use Rattle.ac_tree.specs.Uses.{used};

use crate::reads::reads_all;
use crate::tested::Tested;
use ac_tree::Uses;
use deftable::{Name, is_cache_name};

/// Returns whether the statement is a command of the AC_CACHE_CHECK of this name.
fn is_command_of(name: &[u8], own: Option<&[u8]>) -> bool
    ensures { result ≡ decide.is_command_of name.now (option_map (λ x. x.now) own.entry) }
{
    match own {
        None => false,
        Some(own) => own == name,
    }
}

/// Returns whether the name may be assigned: it is no cache name, or the statement is a command of
/// the AC_CACHE_CHECK of this name.
fn may_assign(own: Option<&[u8]>, name: &[u8]) -> bool
    ensures { result ≡ decide.may_assign (option_map (λ x. x.now) own.entry) name.now }
{
    !is_cache_name(name) || is_command_of(name, own)
}

/// Returns whether the name may be assigned, if there is one.
fn may_assign_if_any(own: Option<&[u8]>, name: Option<&Name>) -> bool
    ensures { result
        ≡ decide.may_assign_if_any (option_map (λ x. x.now) own.entry)
        (option_map (λ n. n.now) name.entry) }
{
    match name {
        None => true,
        Some(name) => may_assign(own, name.as_slice()),
    }
}

/// Returns whether a program may be tried, if one is: by a command of AC_CACHE_CHECK.
fn may_try(own: Option<&[u8]>, tries: bool) -> bool
    ensures { result ≡ decide.may_try (option_map (λ x. x.now) own.entry) tries }
{
    !tries || own.is_some()
}

/// Returns whether what is used keeps the rules.
pub(crate) fn may_use(own: Option<&[u8]>, tested: &Tested, uses: &Uses<'_>) -> bool
    ensures { result
        ≡ decide.may_use (option_map (λ x. x.now) own.entry) tested.now (used uses.now) }
{
    may_try(own, uses.tries)
        && may_assign_if_any(own, uses.assigns)
        && reads_all(tested, uses.reads)
}
