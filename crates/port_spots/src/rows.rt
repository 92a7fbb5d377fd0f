//! The names that the table of macros has for calls, and the numbers of their arguments.

ghost use Rattle.std.specs.Prelude.{◌≡◌, nat_eq, bytes_eq};
ghost use Rattle.std.specs.List.{starts_with};
ghost use Rattle.ac_calls.specs.Calls.{macro_call_of};
ghost use Rattle.port_spots.specs.Put as specs;

use ac_calls::{CallAt, Extent};
use lint_macros::entry_name;
use lint_text::part;
use text_cut::trim;

/// Returns the name that the table has for AC_INIT with so many arguments.
fn init_name(count: usize) -> &'static [u8]
    ensures { result.now ≡ specs.init_name count }
{
    if count == 0 {
        b"AC_INIT()"
    } else {
        b"AC_INIT(file)"
    }
}

/// Returns whether a text is this one.
fn is(text: &[u8], other: &[u8]) -> bool
    ensures { result ≡ bytes_eq text.now other.now }
{
    text == other
}

/// Returns the name that the table has for a macro that acrun reads, with so many arguments.
fn read_as(name: &[u8], count: usize) -> &'static [u8]
    ensures { result.now ≡ specs.read_as name.now count }
{
    if is(name, b"AC_INIT") {
        init_name(count)
    } else if is(name, b"AC_MSG_RESULT") {
        b"AC_MSG_RESULT()"
    } else if is(name, b"AC_CHECK_TYPE") {
        b"AC_CHECK_TYPE(default)"
    } else {
        b"AC_OUTPUT(files)"
    }
}

/// Returns the name that the table has for a call of a macro that acrun reads.
fn read_name(text: &[u8], call: &CallAt) -> &'static [u8]
    ensures { result.now ≡ specs.read_name text.now (macro_call_of call.now) }
{
    let count = count_of(text, call.args.as_slice());
    read_as(part(text, call.start, call.name_end), count)
}

/// Returns whether a text begins with the other text.
fn begins(text: &[u8], front: &[u8]) -> bool
    ensures { result ≡ starts_with nat_eq text.now front.now }
{
    text.starts_with(front)
}

/// Returns whether an argument is the name of a macro of Automake, or begins with it.
fn is_of_automake(arg: &[u8]) -> bool
    ensures { result ≡ specs.is_of_automake arg.now }
{
    begins(arg, b"[AM_") || begins(arg, b"AM_")
}

/// Returns whether the first argument is the name of a macro of Automake.
fn asks_automake(text: &[u8], args: &[Extent]) -> bool
    ensures { result ≡ specs.asks_automake text.now args.now }
{
    match args.split_first() {
        Some((arg, _)) => is_of_automake(part(text, arg.start, arg.end)),
        None => false,
    }
}

/// Returns whether the call asks by m4_ifdef whether there is a macro of Automake.
fn is_ifdef(text: &[u8], call: &CallAt) -> bool
    ensures { result ≡ specs.is_ifdef text.now (macro_call_of call.now) }
{
    is(part(text, call.start, call.name_end), b"m4_ifdef")
        && asks_automake(text, call.args.as_slice())
}

/// Returns whether an argument is `main`, in brackets or without.
fn is_main(arg: &[u8]) -> bool
    ensures { result ≡ specs.is_main arg.now }
{
    let name = trim(arg);
    is(name, b"[main]") || is(name, b"main")
}

/// Returns whether the first argument is `main`.
fn asks_main(text: &[u8], args: &[Extent]) -> bool
    ensures { result ≡ specs.asks_main text.now args.now }
{
    match args.split_first() {
        Some((arg, _)) => is_main(part(text, arg.start, arg.end)),
        None => false,
    }
}

/// Returns whether the call asks by AC_TRY_LINK_FUNC for `main`.
fn links_main(text: &[u8], call: &CallAt) -> bool
    ensures { result ≡ specs.links_main text.now (macro_call_of call.now) }
{
    is(part(text, call.start, call.name_end), b"AC_TRY_LINK_FUNC")
        && asks_main(text, call.args.as_slice())
}

/// Returns the name that the table has for a call: of macros that acrun reads, of m4_ifdef, and of
/// AC_TRY_LINK_FUNC of `main`, it says what they have.
pub fn name_of<'a>(text: &'a [u8], call: &CallAt) -> &'a [u8]
    ensures { result.now ≡ specs.row_name text.now (macro_call_of call.now) }
{
    if call.is_of_profile {
        read_name(text, call)
    } else if is_ifdef(text, call) {
        b"m4_ifdef(AM)"
    } else if links_main(text, call) {
        b"AC_TRY_LINK_FUNC(main)"
    } else {
        entry_name(part(text, call.start, call.name_end), call.args.len())
    }
}

/// Returns the number of arguments that are given: none, if the only one has nothing but blanks.
pub fn count_of(text: &[u8], args: &[Extent]) -> usize
    ensures { result ≡ specs.count_of text.now args.now }
{
    match args.split_first() {
        None => 0,
        Some((arg, more)) => match more.split_first() {
            None => {
                if trim(part(text, arg.start, arg.end)).is_empty() {
                    0
                } else {
                    1
                }
            }
            Some(_) => args.len(),
        },
    }
}
