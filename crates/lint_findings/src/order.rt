//! The order in which findings are shown.

ghost use Rattle.std.specs.Prelude.{◌≡◌, vec_len, OnOk, OnErr};
ghost use Rattle.std.specs.List.Sorted.{IsPermutation, IsSorted, IsStable};
ghost use Rattle.lint_findings.specs.Order.{place_cmp};

use crate::finding::Finding;
use std::alloc::AllocError;

/// Puts the findings in the order of their files, and in each file in the order of their starts.
/// Findings at one place keep their order.
///
/// # Errors
///
/// Fails only if memory runs out, and then changes nothing.
pub fn put_in_order(findings: &mut Vec<Finding>) -> Result<(), AllocError>
    ensures permutation { IsPermutation findings.old.items findings.new.items }
    ensures len { vec_len findings.new ≡ vec_len findings.old }
    ensures sorted { OnOk result (IsSorted place_cmp findings.new.items) }
    ensures stable { OnOk result (IsStable place_cmp findings.old.items findings.new.items) }
    ensures err { OnErr result (findings.new.items ≡ findings.old.items) }
{
    findings.sort_by_key(|finding| (finding.file, finding.start))?;
    Ok(())
}
