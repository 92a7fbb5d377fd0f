//! What the words ask for.

ghost use Rattle.std.specs.Prelude.{◌≡◌, ◌<◌, ◌==◌, ◌∷◌, length, position, bytes_eq, codes, option_map, IfSome};
ghost use Rattle.text_cut.specs.Cuts.{trimmed};
ghost use Rattle.std.specs.List.{list_all};
ghost use Rattle.cmd_port.specs.Asked as specs;

use deftable::Bytes;
use lint_sources::{SOURCE, is_option};
use lint_text::part;
use port_calls::Package;
use port_idioms::Idioms;
use text_cut::trim;

/// Which idioms are written, the name and the version of the package, if they are stated, and the
/// name of the source.
#[derive(Clone, Copy)]
pub(crate) struct Request<'a> {
    pub(crate) idioms: Idioms,
    pub(crate) naming: Option<Package<'a>>,
    pub(crate) source: &'a [u8],
}

// ---- a name and a version

/// Returns whether the byte may be in a name or a version.
fn is_stated_byte(byte: u8) -> bool
    ensures { result ≡ specs.is_stated_byte byte }
{
    byte.is_ascii_alphanumeric()
        || byte == b' '
        || byte == b'_'
        || byte == b'.'
        || byte == b'-'
        || byte == b'+'
        || byte == b'~'
}

/// Returns whether a text has nothing but such bytes.
fn are_stated_bytes(word: &[u8]) -> bool
    ensures { result ≡ list_all specs.is_stated_byte word.now }
{
    word.iter().all(|byte| is_stated_byte(*byte))
}

/// Returns whether a text has no blank around it.
fn is_trimmed(word: &[u8]) -> bool
    ensures { result ≡ bytes_eq (trimmed word.now) word.now }
{
    trim(word) == word
}

/// Returns whether a text may be stated as a name or a version.
fn is_stated(word: &[u8]) -> bool
    ensures { result ≡ specs.is_stated word.now }
{
    0 < word.len() && are_stated_bytes(word) && is_trimmed(word)
}

/// Returns a name and a version, if both may be stated.
fn both<'a>(name: &'a [u8], version: &'a [u8]) -> Option<Package<'a>>
    ensures { option_map specs.package_of result ≡ specs.both name.now version.now }
{
    if is_stated(name) && is_stated(version) {
        Some(Package { name, version })
    } else {
        None
    }
}

/// Returns the offset of the first comma.
fn comma_in(value: &[u8]) -> Option<usize>
    ensures value { result ≡ position (λ b. b == 44) value.now }
    ensures within { IfSome result (λ at. at < length value.now) }
{
    value.iter().position(|byte| *byte == b',')
}

/// Returns the name and the version that a value states.
fn package_in(value: &[u8]) -> Option<Package<'_>>
    ensures { option_map specs.package_of result ≡ specs.package_in value.now }
{
    match comma_in(value) {
        Some(at) => both(&value[..at], &value[at + 1..]),
        None => None,
    }
}

/// Returns whether the word states a name and a version.
fn is_package(word: &[u8]) -> bool
    ensures { result ≡ specs.is_package word.now }
{
    word.starts_with(b"--package=")
}

/// Returns the name and the version that such a word states.
fn stated_by(word: &[u8]) -> Option<Package<'_>>
    ensures { option_map specs.package_of result ≡ specs.stated_by word.now }
{
    package_in(part(word, 10, word.len()))
}

// ---- a request

/// Returns whether the word asks for all idioms.
fn is_switch(word: &[u8]) -> bool
    ensures { result ≡ specs.is_switch word.now }
{
    word == b"--idioms".as_slice()
}

/// Returns the name of the source in the current directory.
fn source() -> &'static [u8]
    ensures { result.now ≡ codes "configure.ac" }
{
    SOURCE
}

/// Returns what asks for the source in the current directory.
fn here(idioms: Idioms) -> Request<'static>
    ensures { specs.seen result ≡ specs.here idioms }
{
    Request {
        idioms,
        naming: None,
        source: source(),
    }
}

/// Returns what asks for the source that the word names, or `None` if the word is an option.
fn named(idioms: Idioms, word: &[u8]) -> Option<Request<'_>>
    ensures { option_map specs.seen result ≡ specs.named idioms word.now }
{
    if is_option(word) {
        None
    } else {
        Some(Request {
            idioms,
            naming: None,
            source: word,
        })
    }
}

/// Returns what one word asks for.
fn by_one(word: &[u8]) -> Option<Request<'_>>
    ensures { option_map specs.seen result ≡ specs.by_one word.now }
{
    if is_switch(word) {
        Some(here(Idioms::All))
    } else {
        named(Idioms::Exact, word)
    }
}

/// Returns what two words ask for.
fn by_two<'a>(first: &'a [u8], second: &'a [u8]) -> Option<Request<'a>>
    ensures { option_map specs.seen result ≡ specs.by_two first.now second.now }
{
    if is_switch(first) {
        named(Idioms::All, second)
    } else if is_switch(second) {
        named(Idioms::All, first)
    } else {
        None
    }
}

/// Returns what the words after the first ask for together with it, if none states a name and a
/// version.
fn by_more<'a>(first: &'a [u8], more: &'a [Bytes]) -> Option<Request<'a>>
    ensures { option_map specs.seen result ≡ specs.plain_of (first.now ∷ more.now) }
{
    match more.split_first() {
        None => by_one(first),
        Some((second, rest)) => {
            if rest.is_empty() {
                by_two(first, second.as_slice())
            } else {
                None
            }
        }
    }
}

/// Returns what words ask for of which none states a name and a version.
fn plain_of(words: &[Bytes]) -> Option<Request<'_>>
    ensures { option_map specs.seen result ≡ specs.plain_of words.now }
{
    match words.split_first() {
        None => Some(here(Idioms::Exact)),
        Some((first, more)) => by_more(first.as_slice(), more),
    }
}

/// Returns the request with a name and a version, if all idioms are wanted.
fn packaged<'a>(naming: Package<'a>, request: Request<'a>) -> Option<Request<'a>>
    ensures { option_map specs.seen result
        ≡ specs.packaged (specs.package_of naming.entry) (specs.seen request.entry) request.entry.idioms }
{
    match request.idioms {
        Idioms::Exact => None,
        Idioms::All => Some(Request {
            idioms: Idioms::All,
            naming: Some(naming),
            source: request.source,
        }),
    }
}

/// Returns the request with a name and a version, if there are both.
fn with_stated<'a>(naming: Option<Package<'a>>, asked: Option<Request<'a>>) -> Option<Request<'a>>
    ensures { option_map specs.seen result
        ≡ specs.with_stated (option_map specs.package_of naming.entry) (option_map specs.seen asked.entry) }
{
    match naming {
        Some(naming) => match asked {
            Some(request) => packaged(naming, request),
            None => None,
        },
        None => None,
    }
}

/// Returns what three words ask for, of which the last may state a name and a version.
fn by_three<'a>(first: &'a [u8], second: &'a [u8], third: &'a [u8]) -> Option<Request<'a>>
    ensures { option_map specs.seen result ≡ specs.by_three first.now second.now third.now }
{
    if is_package(third) {
        with_stated(stated_by(third), by_two(first, second))
    } else {
        None
    }
}

/// Returns what two words ask for together with those after them.
fn after_two<'a>(first: &'a [u8], second: &'a [u8], more: &'a [Bytes]) -> Option<Request<'a>>
    ensures { option_map specs.seen result ≡ specs.after_two first.now second.now more.now }
{
    match more.split_first() {
        None => by_two(first, second),
        Some((third, rest)) => {
            if rest.is_empty() {
                by_three(first, second, third.as_slice())
            } else {
                None
            }
        }
    }
}

/// Returns what one word asks for together with those after it.
fn after_one<'a>(first: &'a [u8], more: &'a [Bytes]) -> Option<Request<'a>>
    ensures { option_map specs.seen result ≡ specs.after_one first.now more.now }
{
    match more.split_first() {
        None => by_one(first),
        Some((second, rest)) => {
            if is_package(second.as_slice()) {
                with_stated(stated_by(second.as_slice()), by_more(first, rest))
            } else {
                after_two(first, second.as_slice(), rest)
            }
        }
    }
}

/// Returns what the words ask for, or `None` if they are wrong.
pub(crate) fn request_of(words: &[Bytes]) -> Option<Request<'_>>
    ensures { option_map specs.seen result ≡ specs.request_of words.now }
{
    match words.split_first() {
        None => Some(here(Idioms::Exact)),
        Some((first, more)) => {
            if is_package(first.as_slice()) {
                with_stated(stated_by(first.as_slice()), plain_of(more))
            } else {
                after_one(first.as_slice(), more)
            }
        }
    }
}
