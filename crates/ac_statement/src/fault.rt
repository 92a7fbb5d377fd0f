//! Why a source could not be read.

ghost use Rattle.std.specs.Prelude.{◌≡◌, ◌+◌, ◌≤◌, Err, Some};
ghost use Rattle.ac_statement.specs.declared.fault.ParseFault.TheVariants.{OutOfMemory};
ghost use Rattle.ac_statement.specs.Reading.{quote_fault, shell_fault, moved};
ghost use Rattle.ac_statement.specs.Fault.{IsWithin};
ghost use Rattle.ac_statement.specs.FaultText.{fault_text, shell_kind};

use m4quote::QuoteFault;
use shellword::ShellFault;
use std::alloc::{AllocError, AllocFailed};
use std::error::Error;
use std::fmt;

/// What is wrong with a source: the first error, in the order of reading, and its offset in bytes
/// from the start of the file. It prints as its number and offset.
#[derive(Clone, Copy, Debug, PartialEq, Eq)]
pub enum ParseFault {
    /// Quotes, parentheses, a NUL byte, the nesting or the size of the source.
    Quote(QuoteFault),
    /// A macro that the table of macros doesn't have.
    UnknownMacro(usize),
    /// Text that is not a statement.
    UnknownStatement(usize),
    /// A macro with too few or too many arguments.
    ArgCount(usize),
    /// A name or another text that doesn't have the form its argument needs.
    BadName(usize),
    /// Shell text: a word, a test or a list of patterns outside the subset that is read.
    Shell(ShellFault, usize),
    /// A macro that is allowed only at top level, or a second AC_INIT.
    NotAtTop(usize),
    /// Something other than AC_PREREQ, blanks and comments before AC_INIT, or no AC_INIT at all.
    NoInit,
    /// The source ends without AC_OUTPUT.
    NoOutput,
    /// Something other than blanks and comments after AC_OUTPUT.
    AfterOutput(usize),
    /// Commands of AC_CACHE_CHECK that hold something other than assignments to its name, choices
    /// and tries.
    CacheBody(usize),
    /// Statement lists that nest too deep.
    TooDeep(usize),
    /// More entries than a list may have.
    TooMany(usize),
    /// A version of Autoconf that is newer than 2.71, the version that this engine follows.
    NewerVersion(usize),
    /// Memory ran out.
    OutOfMemory,
}

impl fmt::Display for ParseFault {
    ghost output = { λ f. Some (fault_text f) };

    fn fmt<W: fmt::Write>(&self, f: &mut fmt::Formatter<W>) -> fmt::Result {
        match self {
            ParseFault::Quote(fault) => write!(f, "1.{fault}"),
            ParseFault::UnknownMacro(at) => write!(f, "2 at {at}"),
            ParseFault::UnknownStatement(at) => write!(f, "3 at {at}"),
            ParseFault::ArgCount(at) => write!(f, "4 at {at}"),
            ParseFault::BadName(at) => write!(f, "5 at {at}"),
            ParseFault::Shell(fault, at) => {
                let kind = shell_kind(fault);
                write!(f, "6.{kind} at {at}")
            }
            ParseFault::NotAtTop(at) => write!(f, "7 at {at}"),
            ParseFault::NoInit => f.write_str("8"),
            ParseFault::NoOutput => f.write_str("9"),
            ParseFault::AfterOutput(at) => write!(f, "10 at {at}"),
            ParseFault::CacheBody(at) => write!(f, "11 at {at}"),
            ParseFault::TooDeep(at) => write!(f, "12 at {at}"),
            ParseFault::TooMany(at) => write!(f, "13 at {at}"),
            ParseFault::NewerVersion(at) => write!(f, "14 at {at}"),
            ParseFault::OutOfMemory => f.write_str("memory"),
        }
    }
}

impl Error for ParseFault {}

impl From<AllocError> for ParseFault {
    ghost from_gives = { λ _ e. e ≡ OutOfMemory };

    fn from(_e: AllocError) -> ParseFault {
        ParseFault::OutOfMemory
    }
}

impl<T: Drop> From<AllocFailed<T>> for ParseFault {
    ghost from_gives = { λ _ e. e ≡ OutOfMemory };

    fn from(_e: AllocFailed<T>) -> ParseFault {
        ParseFault::OutOfMemory
    }
}

/// Returns the number of an error of shell text. Its offset in the text is not reported.
fn shell_kind(fault: &ShellFault) -> u8
    ensures { result ≡ shell_kind fault.now }
{
    match fault {
        ShellFault::BadWord(_) => 1,
        ShellFault::BadTest(_) => 2,
        ShellFault::BadPattern(_) | ShellFault::OutOfMemory => 3,
    }
}

/// Returns an error of shell text as an error of the source, at `at`, the offset of the argument.
pub fn shell_fault(at: usize, fault: ShellFault) -> ParseFault
    ensures { result ≡ shell_fault at fault }
{
    match fault {
        ShellFault::OutOfMemory => ParseFault::OutOfMemory,
        other => ParseFault::Shell(other, at),
    }
}

/// Returns an error of quoting as an error of the source.
pub fn quote_fault(fault: QuoteFault) -> ParseFault
    ensures { result ≡ quote_fault fault }
{
    match fault {
        QuoteFault::OutOfMemory => ParseFault::OutOfMemory,
        other => ParseFault::Quote(other),
    }
}

/// Returns the error of a text that begins at `base`, with its offset in the source.
pub fn moved_by(base: usize, fault: QuoteFault) -> QuoteFault
    requires { IsWithin base fault }
    ensures { result ≡ moved base fault }
{
    match fault {
        QuoteFault::UnclosedQuote(at) => QuoteFault::UnclosedQuote(base + at),
        QuoteFault::UnclosedParen(at) => QuoteFault::UnclosedParen(base + at),
        QuoteFault::StrayClose(at) => QuoteFault::StrayClose(base + at),
        QuoteFault::Nul(at) => QuoteFault::Nul(base + at),
        other => other,
    }
}
