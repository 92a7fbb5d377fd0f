//! How one argument of a command line is read.

ghost use Rattle.std.specs.Prelude.{◌≡◌, ◌<◌, ◌==◌, length, map, position, option_map, codes, IfSome};
ghost use Rattle.options_line.specs.Arguments as words;
ghost use Rattle.options_line.specs.CommandLine as lines;
ghost use Rattle.options_line.specs.Argument.{argument_of};

use crate::directory::{Directory, directory_named};
use ac_tree::{OptionKind, is_feature};
use deftable::is_shell_name;

/// An option with no value.
#[derive(Clone, Copy)]
pub enum Switch {
    /// `-C`, `--config-cache`: the cache is `config.cache`.
    ConfigCache,
    /// `-q`, `--quiet`, `--silent`.
    Quiet,
    /// `-n`, `--no-create`.
    NoCreate,
    /// `-h`, `--help`.
    Help,
    /// `-V`, `--version`.
    Version,
    /// `-v`, `--verbose`, `--no-recursion`, which have no effect.
    Ignored,
}

/// What an option with a value sets. The value is after a `=`, or the next argument.
#[derive(Clone, Copy)]
pub enum Target {
    /// A directory of the installation, or a prefix.
    InstallDirectory(Directory),
    /// The directory of the source.
    Srcdir,
    /// The name of the cache.
    CacheFile,
}

/// The reading of an argument that isn't the value of the option before it.
#[derive(Clone, Copy)]
pub enum Argument<'a> {
    /// An option without a value.
    Flag(Switch),
    /// An option with its value.
    OptionValue(Target, &'a [u8]),
    /// An option whose value is the next argument.
    OptionName(Target),
    /// A feature or a package, by its name.
    FeatureValue(Choice<'a>),
    /// A feature or a package whose name has not the form of one.
    BadFeatureName,
    /// A variable and its value.
    VariableValue(&'a [u8], &'a [u8]),
    /// A value for a name that is no shell name.
    BadVariableName,
    /// Neither a known option nor an assignment.
    Unrecognized,
}

/// A feature or a package, and its value.
#[derive(Clone, Copy)]
pub struct Choice<'a> {
    pub kind: OptionKind,
    pub name: &'a [u8],
    pub value: &'a [u8],
    /// The argument before its `=`.
    pub option: &'a [u8],
}

/// The options without a value, and what each turns on.
const SWITCHES: [(&[u8], Switch); 14] = [
    (b"-C", Switch::ConfigCache),
    (b"--config-cache", Switch::ConfigCache),
    (b"-q", Switch::Quiet),
    (b"--quiet", Switch::Quiet),
    (b"--silent", Switch::Quiet),
    (b"-n", Switch::NoCreate),
    (b"--no-create", Switch::NoCreate),
    (b"-h", Switch::Help),
    (b"--help", Switch::Help),
    (b"-V", Switch::Version),
    (b"--version", Switch::Version),
    (b"-v", Switch::Ignored),
    (b"--verbose", Switch::Ignored),
    (b"--no-recursion", Switch::Ignored),
];

/// Returns the options without a value, and what each turns on (Autoconf's manual, "configure
/// Invocation").
#[tactic(auto, unfolding(crate::specs::Arguments::switches))]
pub fn switches() -> &'static [(&'static [u8], Switch)]
    ensures { map (λ row. (row.0.now, row.1)) result.now ≡ words.switches }
{
    &SWITCHES
}

/// Returns the offset of the first `=`.
fn equals_in(text: &[u8]) -> Option<usize>
    ensures value { result ≡ position (λ b. b == 61) text.now }
    ensures within { IfSome result (λ i. i < length text.now) }
{
    text.iter().position(|byte| *byte == b'=')
}

/// Returns the text before the first `=`, or all of it if it has none.
fn key_of(text: &[u8]) -> &[u8]
    ensures { result.now ≡ lines.key_of text.now }
{
    match equals_in(text) {
        Some(i) => &text[..i],
        None => text,
    }
}

/// Returns the text after the first `=`.
fn value_in(text: &[u8]) -> Option<&[u8]>
    ensures { option_map (λ value. value.now) result ≡ words.value_in text.now }
{
    match equals_in(text) {
        Some(i) => Some(&text[i + 1..]),
        None => None,
    }
}

/// Returns what follows `front`, if the text begins with it.
fn rest_after<'a>(front: &[u8], text: &'a [u8]) -> Option<&'a [u8]>
    ensures { option_map (λ rest. rest.now) result ≡ words.rest_after front.now text.now }
{
    text.strip_prefix(front)
}

/// Returns what the first row of the argument turns on.
fn switch_among(rows: &[(&[u8], Switch)], argument: &[u8]) -> Option<Switch>
    ensures { result ≡ words.switch_among argument.now (map (λ row. (row.0.now, row.1)) rows.now) }
{
    for row in rows {
        if argument == row.0 {
            return Some(row.1);
        }
    }
    None
}

/// Returns the option without a value that an argument is.
#[tactic(auto, unfolding(crate::specs::Arguments::switch_of))]
fn switch_of(argument: &[u8]) -> Option<Switch>
    ensures { result ≡ words.switch_of argument.now }
{
    switch_among(switches(), argument)
}

/// Returns what the option of a directory sets, given the option without its dashes.
fn install_directory_named(option: &[u8]) -> Option<Target>
    ensures { result ≡ words.install_directory_named option.now }
{
    match directory_named(option) {
        Some(directory) => Some(Target::InstallDirectory(directory)),
        None => None,
    }
}

/// Returns what the option of a directory sets.
#[tactic(auto, unfolding(crate::specs::Arguments::install_directory_of))]
fn install_directory_of(key: &[u8]) -> Option<Target>
    ensures { result ≡ words.install_directory_of key.now }
{
    match rest_after(b"--", key) {
        Some(option) => install_directory_named(option),
        None => None,
    }
}

/// Returns what an option with a value sets.
#[tactic(auto, unfolding(crate::specs::Arguments::target_of))]
fn target_of(key: &[u8]) -> Option<Target>
    ensures { result ≡ words.target_of key.now }
{
    if key == b"--srcdir".as_slice() {
        Some(Target::Srcdir)
    } else if key == b"--cache-file".as_slice() {
        Some(Target::CacheFile)
    } else {
        install_directory_of(key)
    }
}

/// Reads the option of a feature or a package.
fn chosen<'a>(kind: OptionKind, name: &'a [u8], value: &'a [u8], option: &'a [u8]) -> Argument<'a>
    ensures { argument_of result ≡ words.chosen kind name.now value.now option.now }
{
    if is_feature(name) {
        Argument::FeatureValue(Choice {
            kind,
            name,
            value,
            option,
        })
    } else {
        Argument::BadFeatureName
    }
}

/// Reads the option that turns a feature or a package on. `rest` is its name and, after a `=`, its
/// value; without a `=` the value is `yes`.
fn enabled<'a>(kind: OptionKind, rest: &'a [u8], argument: &'a [u8]) -> Argument<'a>
    ensures { argument_of result ≡ words.enabled kind rest.now argument.now }
{
    let option = key_of(argument);
    match value_in(rest) {
        Some(value) => chosen(kind, key_of(rest), value, option),
        None => chosen(kind, key_of(rest), b"yes", option),
    }
}

/// Reads the option that turns a feature or a package off: all of `rest` is its name.
fn disabled<'a>(kind: OptionKind, rest: &'a [u8], argument: &'a [u8]) -> Argument<'a>
    ensures { argument_of result ≡ words.disabled kind rest.now argument.now }
{
    chosen(kind, rest, b"no", key_of(argument))
}

/// Reads `--with-` and `--without-`.
#[tactic(auto, unfolding(crate::specs::Arguments::package_of))]
fn package_of(argument: &[u8]) -> Argument<'_>
    ensures { argument_of result ≡ words.package_of argument.now }
{
    if let Some(rest) = rest_after(b"--with-", argument) {
        return enabled(OptionKind::Package, rest, argument);
    }
    match rest_after(b"--without-", argument) {
        Some(rest) => disabled(OptionKind::Package, rest, argument),
        None => Argument::Unrecognized,
    }
}

/// Reads an option of a feature or a package.
#[tactic(auto, unfolding(crate::specs::Arguments::choice_of))]
fn choice_of(argument: &[u8]) -> Argument<'_>
    ensures { argument_of result ≡ words.choice_of argument.now }
{
    if let Some(rest) = rest_after(b"--enable-", argument) {
        return enabled(OptionKind::Feature, rest, argument);
    }
    match rest_after(b"--disable-", argument) {
        Some(rest) => disabled(OptionKind::Feature, rest, argument),
        None => package_of(argument),
    }
}

/// Reads an option with a value, which is here or is the next argument.
fn given_or_awaited<'a>(target: Target, value: Option<&'a [u8]>) -> Argument<'a>
    ensures { argument_of result
        ≡ words.given_or_awaited target (option_map (λ v. v.now) value.entry) }
{
    match value {
        Some(value) => Argument::OptionValue(target, value),
        None => Argument::OptionName(target),
    }
}

/// Reads an option that has a value, or is for a feature or a package.
#[tactic(auto, unfolding(crate::specs::Arguments::said_with_value))]
fn said_with_value(argument: &[u8]) -> Argument<'_>
    ensures { argument_of result ≡ words.said_with_value argument.now }
{
    match target_of(key_of(argument)) {
        Some(target) => given_or_awaited(target, value_in(argument)),
        None => choice_of(argument),
    }
}

/// Reads an argument that begins with `-`.
#[tactic(auto, unfolding(crate::specs::Arguments::dashed_of))]
fn dashed_of(argument: &[u8]) -> Argument<'_>
    ensures { argument_of result ≡ words.dashed_of argument.now }
{
    match switch_of(argument) {
        Some(switch) => Argument::Flag(switch),
        None => said_with_value(argument),
    }
}

/// Reads an argument that is no option.
fn assigned<'a>(name: &'a [u8], value: Option<&'a [u8]>) -> Argument<'a>
    ensures { argument_of result ≡ words.assigned name.now (option_map (λ v. v.now) value.entry) }
{
    let Some(value) = value else {
        return Argument::Unrecognized;
    };
    if is_shell_name(name) {
        Argument::VariableValue(name, value)
    } else {
        Argument::BadVariableName
    }
}

fn is_dashed(argument: &[u8]) -> bool
    ensures { result ≡ lines.is_dashed argument.now }
{
    match argument.first() {
        Some(byte) => *byte == b'-',
        None => false,
    }
}

/// Reads an argument that isn't the value of the option before it (Autoconf's manual, "configure
/// Invocation").
#[tactic(auto, unfolding(crate::specs::Arguments::read_argument))]
pub fn read_argument(argument: &[u8]) -> Argument<'_>
    ensures { argument_of result ≡ words.read_argument argument.now }
{
    if is_dashed(argument) {
        dashed_of(argument)
    } else {
        assigned(key_of(argument), value_in(argument))
    }
}
