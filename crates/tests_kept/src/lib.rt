//! Tests of `answers_text`, `run_fingerprint`, `crew_kept` and `crew_journal`: a text is read back, cut at
//! each byte, and with each byte changed; runs that differ have other fingerprints; a crew takes replies
//! from records; and a crew appends its replies to a file.
#![tactic(auto)]

#[cfg(test)]
mod of_answers_text;
#[cfg(test)]
mod of_crew_journal;
#[cfg(test)]
mod of_crew_kept;
#[cfg(test)]
mod of_run_fingerprint;
pub mod work;
