//! Tests of `file_texts` on real files, in a directory of their own, and on a disk in memory; and of
//! commands on that disk.
//!
//! No contract says what a real file holds, so these tests show what is read and what is written.
//! `disks` has files of which one operation fails, and `of_file_texts` has the rows. `memory` has a
//! disk that keeps what is `done` to it, of which all is known. `of_file_texts_steps` has rows of
//! that, and `of_commands` runs `configure` and then `status` on it.
#![tactic(auto)]

#[cfg(test)]
mod disks;
pub mod done;
#[cfg(test)]
mod memory;
#[cfg(test)]
mod noting;
#[cfg(test)]
mod of_commands;
#[cfg(test)]
mod of_file_texts;
#[cfg(test)]
mod of_file_texts_steps;
