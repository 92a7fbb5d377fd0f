//! Why a source has no plan.

ghost use Rattle.std.specs.Prelude.{◌≡◌, Some};
ghost use Rattle.plan.specs.declared.fault.PlanFault.TheVariants.{OutOfMemory};
ghost use Rattle.plan.specs.FaultText.{fault_text};

use std::alloc::AllocError;
use std::error::Error;
use std::fmt;

/// Why there is no plan. It prints as the number in an error line.
#[derive(Debug, Drop)]
pub enum PlanFault {
    /// The statements weigh more than 65,535. Each weighs 1, inside a case too, each case 1 more,
    /// and each entry or library of a list 1 more. The cases of a choice about each entry of a list
    /// weigh as much once for each (own).
    TooLong,
    /// Memory ran out.
    OutOfMemory,
}

impl fmt::Display for PlanFault {
    ghost output = { λ f. Some (fault_text f) };

    fn fmt<W: fmt::Write>(&self, f: &mut fmt::Formatter<W>) -> fmt::Result {
        match self {
            PlanFault::TooLong => f.write_str("1"),
            PlanFault::OutOfMemory => f.write_str("memory"),
        }
    }
}

impl Error for PlanFault {}

impl From<AllocError> for PlanFault {
    ghost from_gives = { λ _ e. e ≡ OutOfMemory };

    fn from(_e: AllocError) -> PlanFault {
        PlanFault::OutOfMemory
    }
}
