//! What is said of a run that goes on.

use answers_text::Record;
use std::alloc::{AllocError, Global};

/// Returns of how many starts there is an answer, or an answer that is a "no". A link that was asked
/// again has several.
fn count_of(alloc: Global, records: &[Record], is_no: bool) -> Result<usize, AllocError> {
    let mut numbers = Vec::new(alloc);
    for record in records {
        if !is_no || record.status != 0 {
            numbers.push(record.number)?;
        }
    }
    numbers.sort()?;
    numbers.dedup();
    Ok(numbers.len())
}

/// Returns the line that is said before the first child of a run that goes on from these answers:
/// how many they are, how many of them are a "no", and how to begin afresh (own).
pub(crate) fn line_of(alloc: Global, records: &[Record]) -> Result<String, AllocError> {
    let count = count_of(alloc, records, false)?;
    let noun = if count == 1 { "answer" } else { "answers" };
    let noes = count_of(alloc, records, true)?;
    format!(in alloc;
        "configure: goes on from {count} {noun} of a run that was interrupted, of which {noes} say \"no\"; ACRUN_AFRESH=1 asks again\n"
    )
}
