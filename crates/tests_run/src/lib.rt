//! Tests of the crates that run a source: crews, real children, and an ordinary answer of each
//! call.
//!
//! No clause can say that memory is left, or what the system answers. Each crate has a module,
//! `of_` and its name. Of crew, `of_crew` has crews in memory and real children, `of_crew_ends` real
//! children of which one that has ended is taken first, and `of_crew_broken` those whose pipe or
//! end fails. Whole runs of sources are cases of the crate `tests_cases`.
#![tactic(auto)]

#[cfg(test)]
mod of_crew;
#[cfg(test)]
mod of_crew_broken;
#[cfg(test)]
mod of_crew_ends;
#[cfg(test)]
mod of_crew_progress;
#[cfg(test)]
mod of_crew_refusals;
#[cfg(test)]
mod of_plan;
#[cfg(test)]
mod of_run_machine;
