//! What the program is asked to do.

ghost use Rattle.std.specs.Prelude.{◌≡◌, ◌≤◌, bytes_eq, map, IfSome};
ghost use Rattle.cmd_call.specs.Calls as meant;
ghost use Rattle.cmd_call.specs.Lent.{call_seen};

use deftable::Bytes;

/// What the program is asked to do.
#[derive(Clone, Copy)]
pub enum ProgramCall<'a> {
    /// To filter its input.
    Filter,
    /// To answer in a compiler's place, with these words.
    StandIn(&'a [Bytes]),
    /// To run a configure.ac, with at most so many children at once and with these arguments.
    Configure(usize, &'a [Bytes]),
    /// To make the outputs with these names again, or all if there are no names.
    Status(&'a [Bytes]),
    /// To run the configure.ac again with the arguments of its record, and to make no outputs.
    Recheck,
    /// To say what is wrong with the sources that these words name.
    Lint(&'a [Bytes]),
    /// To rewrite the source that these words name.
    Port(&'a [Bytes]),
    /// To print a header template of the source that these words name.
    Header(&'a [Bytes]),
    /// To say why a check has its answer.
    Why(&'a [Bytes]),
    /// To explain itself, or the command that these words name.
    Help(&'a [Bytes]),
    /// To name its version.
    Version,
    /// It doesn't know.
    Unknown,
}

/// The options for the number of children at once, each with that number.
#[rattlefmt::skip]
const WINDOWS: [(&[u8], usize); 16] = [
    (b"-j1", 1), (b"-j2", 2), (b"-j3", 3), (b"-j4", 4), (b"-j5", 5), (b"-j6", 6), (b"-j7", 7), (b"-j8", 8),
    (b"-j9", 9), (b"-j10", 10), (b"-j11", 11), (b"-j12", 12), (b"-j13", 13), (b"-j14", 14), (b"-j15", 15), (b"-j16", 16),
];

/// Returns the options for the number of children at once, each with that number.
#[tactic(auto, unfolding(crate::specs::Calls::windows))]
fn windows() -> &'static [(&'static [u8], usize)]
    ensures { map (λ row. (row.0.now, row.1)) result.now ≡ meant.windows }
{
    &WINDOWS
}

/// Returns the number in the first of these rows whose option is the word.
fn find(rows: &[(&[u8], usize)], word: &[u8]) -> Option<usize>
    ensures { result ≡ meant.window_among word.now (map (λ row. (row.0.now, row.1)) rows.now) }
{
    for row in rows {
        if row.0 == word {
            return Some(row.1);
        }
    }
    None
}

/// Returns the number of children at once that the word asks for.
#[tactic(auto, using(crate::proofs::Windows::within))]
fn window_of(word: &[u8]) -> Option<usize>
    ensures window { result ≡ meant.window_of word.now }
    ensures bound { IfSome result (λ window. (1 ≤ window) × (window ≤ 16)) }
{
    find(windows(), word)
}

fn is(word: &[u8], name: &[u8]) -> bool
    ensures { result ≡ bytes_eq word.now name.now }
{
    word == name
}

/// Returns the call, if so many children are wanted at once and these words follow.
fn windowed<'a>(window: Option<usize>, words: &'a [Bytes]) -> ProgramCall<'a>
    requires { IfSome window (λ n. (1 ≤ n) × (n ≤ 16)) }
    ensures call { call_seen result ≡ meant.windowed window words.now }
    ensures window { meant.HasWindow (call_seen result) }
{
    let Some(window) = window else {
        return ProgramCall::Unknown;
    };
    match words.split_first() {
        Some((word, arguments)) => {
            if is(word.as_slice(), b"configure") {
                ProgramCall::Configure(window, arguments)
            } else {
                ProgramCall::Unknown
            }
        }
        None => ProgramCall::Unknown,
    }
}

/// Returns whether the words after `status` begin with `--recheck`.
fn asks_recheck(words: &[Bytes]) -> bool
    ensures { result ≡ meant.asks_recheck words.now }
{
    match words.first() {
        Some(word) => is(word.as_slice(), b"--recheck"),
        None => false,
    }
}

/// Returns the call with these words after `status`, the first of which is `--recheck`.
fn recheck_call(words: &[Bytes]) -> ProgramCall<'_>
    ensures call { call_seen result ≡ meant.recheck_call words.now }
    ensures window { meant.HasWindow (call_seen result) }
{
    if words.len() == 1 {
        return ProgramCall::Recheck;
    }
    ProgramCall::Unknown
}

/// Returns the call with these words after `status`.
fn status_call(words: &[Bytes]) -> ProgramCall<'_>
    ensures call { call_seen result ≡ meant.status_call words.now }
    ensures window { meant.HasWindow (call_seen result) }
{
    if asks_recheck(words) {
        return recheck_call(words);
    }
    ProgramCall::Status(words)
}

/// Returns the call of an option, unless words follow it.
fn alone<'a>(call: ProgramCall<'a>, words: &[Bytes]) -> ProgramCall<'a>
    requires { meant.HasWindow (call_seen call) }
    ensures call { call_seen result ≡ meant.alone (call_seen call.entry) words.now }
    ensures window { meant.HasWindow (call_seen result) }
{
    if words.is_empty() {
        return call;
    }
    ProgramCall::Unknown
}

/// Returns whether the word asks for help.
fn is_help(word: &[u8]) -> bool
    ensures { result ≡ meant.is_help word.now }
{
    is(word, b"--help") || is(word, b"-h")
}

/// Returns the call with this first word, if it is an option of the program itself.
fn option_call<'a>(word: &[u8], words: &'a [Bytes]) -> ProgramCall<'a>
    ensures call { call_seen result ≡ meant.option_call word.now words.now }
    ensures window { meant.HasWindow (call_seen result) }
{
    if is_help(word) {
        return alone(ProgramCall::Help(&[]), words);
    }
    if is(word, b"--version") || is(word, b"-V") {
        return alone(ProgramCall::Version, words);
    }
    windowed(window_of(word), words)
}

/// Returns the call with this first word.
fn named_call<'a>(word: &[u8], words: &'a [Bytes]) -> ProgramCall<'a>
    ensures call { call_seen result ≡ meant.named_call word.now words.now }
    ensures window { meant.HasWindow (call_seen result) }
{
    if is(word, b"standin") {
        return ProgramCall::StandIn(words);
    }
    if is(word, b"configure") {
        return ProgramCall::Configure(1, words);
    }
    if is(word, b"status") {
        return status_call(words);
    }
    if is(word, b"lint") {
        return ProgramCall::Lint(words);
    }
    if is(word, b"port") {
        return ProgramCall::Port(words);
    }
    if is(word, b"header") {
        return ProgramCall::Header(words);
    }
    if is(word, b"why") {
        return ProgramCall::Why(words);
    }
    if is(word, b"help") {
        return ProgramCall::Help(words);
    }
    option_call(word, words)
}

/// Returns whether the word is a command that `--help` explains.
fn explains_itself(word: &[u8]) -> bool
    ensures { result ≡ meant.explains_itself word.now }
{
    is(word, b"lint")
        || is(word, b"port")
        || is(word, b"header")
        || is(word, b"why")
        || is(word, b"help")
}

/// Returns whether these are a command and its only word, which asks for help with it.
fn asks_own_help(words: &[Bytes]) -> bool
    ensures { result ≡ meant.asks_own_help words.now }
{
    words.len() == 2 && explains_itself(words[0].as_slice()) && is_help(words[1].as_slice())
}

/// Returns what the program is asked to do with these words after its name (own).
pub fn call_of(words: &[Bytes]) -> ProgramCall<'_>
    ensures call { call_seen result ≡ meant.call_of words.now }
    ensures window { meant.HasWindow (call_seen result) }
{
    if asks_own_help(words) {
        return ProgramCall::Help(&words[..1]);
    }
    match words.split_first() {
        Some((word, words)) => named_call(word.as_slice(), words),
        None => ProgramCall::Filter,
    }
}
