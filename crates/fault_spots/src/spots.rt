//! Where a source, an argument, a cache or a plan has its fault, in the line of an error.

ghost use Rattle.std.specs.Prelude.{◌≡◌, ◌++◌, codes};
ghost use Rattle.ac_statement.specs.FaultText as parses;
ghost use Rattle.ac_statement.specs.declared.fault.ParseFault.TheVariants.{Shell};
ghost use Rattle.cachefile.specs.FaultText as caches;
ghost use Rattle.cmd_call.specs.Lines.{spot_text};
ghost use Rattle.m4quote.specs.FaultText as quotes;
ghost use Rattle.options.specs.FaultText as preciouses;
ghost use Rattle.options_line.specs.FaultText as arguments;
ghost use Rattle.plan.specs.FaultText as plans;

use ac_statement::ParseFault;
use cachefile::CacheFault;
use cmd_call::Spot;
use m4quote::QuoteFault;
use options::{OptionFault, PreciousFault};
use plan::PlanFault;
use shellword::ShellFault;

/// Returns what a fault of quotes is displayed as, after `1.`.
fn quote_spot(fault: &QuoteFault) -> Spot
    ensures { spot_text result ≡ codes "1." ++ quotes.fault_text fault.now }
{
    match fault {
        QuoteFault::UnclosedQuote(at) => Spot {
            words: b"1.1 at ",
            number: Some(*at as u64),
        },
        QuoteFault::UnclosedParen(at) => Spot {
            words: b"1.2 at ",
            number: Some(*at as u64),
        },
        QuoteFault::StrayClose(at) => Spot {
            words: b"1.3 at ",
            number: Some(*at as u64),
        },
        QuoteFault::Nul(at) => Spot {
            words: b"1.4 at ",
            number: Some(*at as u64),
        },
        QuoteFault::TooLarge => Spot {
            words: b"1.5",
            number: None,
        },
        QuoteFault::TooDeep => Spot {
            words: b"1.6",
            number: None,
        },
        QuoteFault::OutOfMemory => Spot {
            words: b"1.memory",
            number: None,
        },
    }
}

/// Returns what a fault of shell text at this offset is displayed as.
#[tactic(auto, using(crate::proofs::KindDigits::bad_word, crate::proofs::KindDigits::bad_test, crate::proofs::KindDigits::bad_pattern, crate::proofs::KindDigits::no_memory))]
fn shell_spot(fault: &ShellFault, at: usize) -> Spot
    ensures { spot_text result
        ≡ parses.fault_text (Shell fault.now at) }
{
    match fault {
        ShellFault::BadWord(_) => Spot {
            words: b"6.1 at ",
            number: Some(at as u64),
        },
        ShellFault::BadTest(_) => Spot {
            words: b"6.2 at ",
            number: Some(at as u64),
        },
        ShellFault::BadPattern(_) => Spot {
            words: b"6.3 at ",
            number: Some(at as u64),
        },
        ShellFault::OutOfMemory => Spot {
            words: b"6.3 at ",
            number: Some(at as u64),
        },
    }
}

/// Returns what a fault of a source is displayed as.
pub(crate) fn parse_spot(fault: &ParseFault) -> Spot
    ensures { spot_text result ≡ parses.fault_text fault.now }
{
    match fault {
        ParseFault::Quote(fault) => quote_spot(fault),
        ParseFault::UnknownMacro(at) => Spot {
            words: b"2 at ",
            number: Some(*at as u64),
        },
        ParseFault::UnknownStatement(at) => Spot {
            words: b"3 at ",
            number: Some(*at as u64),
        },
        ParseFault::ArgCount(at) => Spot {
            words: b"4 at ",
            number: Some(*at as u64),
        },
        ParseFault::BadName(at) => Spot {
            words: b"5 at ",
            number: Some(*at as u64),
        },
        ParseFault::Shell(fault, at) => shell_spot(fault, *at),
        ParseFault::NotAtTop(at) => Spot {
            words: b"7 at ",
            number: Some(*at as u64),
        },
        ParseFault::NoInit => Spot {
            words: b"8",
            number: None,
        },
        ParseFault::NoOutput => Spot {
            words: b"9",
            number: None,
        },
        ParseFault::AfterOutput(at) => Spot {
            words: b"10 at ",
            number: Some(*at as u64),
        },
        ParseFault::CacheBody(at) => Spot {
            words: b"11 at ",
            number: Some(*at as u64),
        },
        ParseFault::TooDeep(at) => Spot {
            words: b"12 at ",
            number: Some(*at as u64),
        },
        ParseFault::TooMany(at) => Spot {
            words: b"13 at ",
            number: Some(*at as u64),
        },
        ParseFault::NewerVersion(at) => Spot {
            words: b"14 at ",
            number: Some(*at as u64),
        },
        ParseFault::OutOfMemory => Spot {
            words: b"memory",
            number: None,
        },
    }
}

/// Returns what a fault of a plan is displayed as.
pub(crate) fn plan_spot(fault: &PlanFault) -> Spot
    ensures { spot_text result ≡ plans.fault_text fault.now }
{
    match fault {
        PlanFault::TooLong => Spot {
            words: b"1",
            number: None,
        },
        PlanFault::OutOfMemory => Spot {
            words: b"memory",
            number: None,
        },
    }
}

/// Returns what a fault of an argument is displayed as.
pub(crate) fn option_spot(fault: &OptionFault) -> Spot
    ensures { spot_text result ≡ arguments.fault_text fault.now }
{
    match fault {
        OptionFault::Unknown(argument) => Spot {
            words: b"1 at ",
            number: Some(*argument),
        },
        OptionFault::BadFeature(argument) => Spot {
            words: b"2 at ",
            number: Some(*argument),
        },
        OptionFault::BadVariable(argument) => Spot {
            words: b"3 at ",
            number: Some(*argument),
        },
        OptionFault::MissingValue(argument) => Spot {
            words: b"4 at ",
            number: Some(*argument),
        },
        OptionFault::FatalUnrecognized(argument) => Spot {
            words: b"5 at ",
            number: Some(*argument),
        },
        OptionFault::OutOfMemory => Spot {
            words: b"memory",
            number: None,
        },
    }
}

/// Returns what a fault of a cache is displayed as.
pub(crate) fn cache_spot(fault: &CacheFault) -> Spot
    ensures { spot_text result ≡ caches.fault_text fault.now }
{
    match fault {
        CacheFault::BadLine(line) => Spot {
            words: b"1 at ",
            number: Some(*line),
        },
        CacheFault::BadName(line) => Spot {
            words: b"2 at ",
            number: Some(*line),
        },
        CacheFault::TooLarge => Spot {
            words: b"3",
            number: None,
        },
        CacheFault::OutOfMemory => Spot {
            words: b"memory",
            number: None,
        },
    }
}

/// Returns what a fault of a precious variable is displayed as.
pub(crate) fn precious_spot(fault: &PreciousFault) -> Spot
    ensures { spot_text result ≡ preciouses.fault_text fault.now }
{
    match fault {
        PreciousFault::WasSet(number) => Spot {
            words: b"1 at ",
            number: Some(*number),
        },
        PreciousFault::WasUnset(number) => Spot {
            words: b"2 at ",
            number: Some(*number),
        },
        PreciousFault::Changed(number) => Spot {
            words: b"3 at ",
            number: Some(*number),
        },
        PreciousFault::OutOfMemory => Spot {
            words: b"memory",
            number: None,
        },
    }
}
