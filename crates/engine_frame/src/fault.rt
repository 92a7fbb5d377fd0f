//! Why a run has no report, or only that of a refused put.

ghost use Rattle.std.specs.Prelude.{◌≡◌, Some};
ghost use Rattle.engine_frame.specs.Faults as faults;
ghost use Rattle.engine_frame.specs.FaultText.{fault_text, remake_text};
ghost use Rattle.engine_frame.specs.declared.fault.Fault.TheVariants.{OutOfMemory};
ghost use Rattle.engine_frame.specs.declared.fault.RemakeFault.TheVariants.{OutOfMemory as NoMemory};

use crate::report::Report;
use ac_statement::ParseFault;
use cachefile::CacheFault;
use deftable::Bytes;
use options::{OptionFault, PreciousFault};
use plan::PlanFault;
use status_record::RecordFault;
use std::alloc::{AllocError, AllocFailed};
use std::error::Error;
use std::fmt;

/// What is wrong with what a run is given, or with what it hands over: the first fault, in this
/// order.
///
/// It prints as its kind, with the numbers of the fault that it holds. The name of a template,
/// which may be any bytes, is left out.
#[derive(Drop)]
pub enum Fault {
    /// The configure.ac has an error.
    Parse(ParseFault),
    /// The configure.ac is too long to be run.
    Plan(PlanFault),
    /// An argument has an error.
    Option(OptionFault),
    /// The cache has an error.
    Cache(CacheFault),
    /// A precious variable isn't as it was in the run that made the cache.
    Precious(PreciousFault),
    /// The template of this name isn't given. If several are not, it is the first in the order of
    /// the puts.
    NoTemplate(Bytes),
    /// The put of this number, counted from 1, was refused. The report is that of the run.
    PutRefused(u64, Report),
    /// Memory ran out. Nothing was handed over.
    OutOfMemory,
}

impl fmt::Display for Fault {
    ghost output = { λ f. Some (fault_text f) };

    fn fmt<W: fmt::Write>(&self, f: &mut fmt::Formatter<W>) -> fmt::Result {
        match self {
            Fault::Parse(fault) => write!(f, "parse {fault}"),
            Fault::Plan(fault) => write!(f, "plan {fault}"),
            Fault::Option(fault) => write!(f, "option {fault}"),
            Fault::Cache(fault) => write!(f, "cache {fault}"),
            Fault::Precious(fault) => write!(f, "precious {fault}"),
            Fault::NoTemplate(_name) => f.write_str("template"),
            Fault::PutRefused(number, _report) => write!(f, "put {number}"),
            Fault::OutOfMemory => f.write_str("memory"),
        }
    }
}

impl fmt::Debug for Fault {
    fn fmt<W: fmt::Write>(&self, f: &mut fmt::Formatter<W>) -> fmt::Result {
        fmt::Display::fmt(self, f)
    }
}

impl Error for Fault {}

/// Why outputs are not made again, or not all of them, or a run can't be done again: the first
/// fault, in this order.
///
/// It prints as its kind, with the numbers of the fault that it holds. The name of a template,
/// which may be any bytes, is left out.
#[derive(Debug, Drop)]
pub enum RemakeFault {
    /// The text is no record.
    Record(RecordFault),
    /// The tag of this number, counted from 1, is the name of no output.
    UnknownTag(u64),
    /// The template of this name isn't given. If several are not, it is the first in the order of
    /// the puts.
    NoTemplate(Bytes),
    /// The put of this number, counted from 1, was refused.
    PutRefused(u64),
    /// The record is of the first version, which has no arguments.
    NoArguments,
    /// Memory ran out. Nothing was handed over.
    OutOfMemory,
}

impl fmt::Display for RemakeFault {
    ghost output = { λ f. Some (remake_text f) };

    fn fmt<W: fmt::Write>(&self, f: &mut fmt::Formatter<W>) -> fmt::Result {
        match self {
            RemakeFault::Record(fault) => write!(f, "record {fault}"),
            RemakeFault::UnknownTag(number) => write!(f, "tag {number}"),
            RemakeFault::NoTemplate(_name) => f.write_str("template"),
            RemakeFault::PutRefused(number) => write!(f, "put {number}"),
            RemakeFault::NoArguments => f.write_str("recheck"),
            RemakeFault::OutOfMemory => f.write_str("memory"),
        }
    }
}

impl Error for RemakeFault {}

impl From<AllocError> for Fault {
    ghost from_gives = { λ _ e. e ≡ OutOfMemory };

    fn from(_e: AllocError) -> Fault {
        Fault::OutOfMemory
    }
}

impl<T: Drop> From<AllocFailed<T>> for Fault {
    ghost from_gives = { λ _ e. e ≡ OutOfMemory };

    fn from(_e: AllocFailed<T>) -> Fault {
        Fault::OutOfMemory
    }
}

impl From<ParseFault> for Fault {
    ghost from_gives = { λ f e. e ≡ faults.of_parse f };

    fn from(fault: ParseFault) -> Fault {
        match fault {
            ParseFault::OutOfMemory => Fault::OutOfMemory,
            other => Fault::Parse(other),
        }
    }
}

impl From<PlanFault> for Fault {
    ghost from_gives = { λ f e. e ≡ faults.of_plan f };

    fn from(fault: PlanFault) -> Fault {
        match fault {
            PlanFault::OutOfMemory => Fault::OutOfMemory,
            other => Fault::Plan(other),
        }
    }
}

impl From<OptionFault> for Fault {
    ghost from_gives = { λ f e. e ≡ faults.of_option f };

    fn from(fault: OptionFault) -> Fault {
        match fault {
            OptionFault::OutOfMemory => Fault::OutOfMemory,
            other => Fault::Option(other),
        }
    }
}

impl From<CacheFault> for Fault {
    ghost from_gives = { λ f e. e ≡ faults.of_cache f };

    fn from(fault: CacheFault) -> Fault {
        match fault {
            CacheFault::OutOfMemory => Fault::OutOfMemory,
            other => Fault::Cache(other),
        }
    }
}

impl From<PreciousFault> for Fault {
    ghost from_gives = { λ f e. e ≡ faults.of_precious f };

    fn from(fault: PreciousFault) -> Fault {
        match fault {
            PreciousFault::OutOfMemory => Fault::OutOfMemory,
            other => Fault::Precious(other),
        }
    }
}

impl From<AllocError> for RemakeFault {
    ghost from_gives = { λ _ e. e ≡ NoMemory };

    fn from(_e: AllocError) -> RemakeFault {
        RemakeFault::OutOfMemory
    }
}

impl<T: Drop> From<AllocFailed<T>> for RemakeFault {
    ghost from_gives = { λ _ e. e ≡ NoMemory };

    fn from(_e: AllocFailed<T>) -> RemakeFault {
        RemakeFault::OutOfMemory
    }
}

impl From<RecordFault> for RemakeFault {
    ghost from_gives = { λ f e. e ≡ faults.of_record f };

    fn from(fault: RecordFault) -> RemakeFault {
        match fault {
            RecordFault::OutOfMemory => RemakeFault::OutOfMemory,
            other => RemakeFault::Record(other),
        }
    }
}
