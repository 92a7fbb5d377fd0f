//! Tests of what `acrun lint` and `acrun why` report, of what `acrun port` rewrites, and of how
//! text is shown.
//!
//! Each crate has a module, `of_` and its name, and port_shell has three. No contract says what the
//! command why prints over files, so a row of `of_cmd_why` compares the exit status and both
//! streams. `of_cmd_call` has what is written to streams that take a part, are interrupted or fail.
//! Most tests are a table of rows, in the form that the crate `test_rows` reads.
#![tactic(auto)]

#[cfg(test)]
mod of_ac_calls;
#[cfg(test)]
mod of_cfglog;
#[cfg(test)]
mod of_cmd_call;
#[cfg(test)]
mod of_cmd_why;
#[cfg(test)]
mod of_crew_tally;
#[cfg(test)]
mod of_lint_all;
#[cfg(test)]
mod of_lint_errors;
#[cfg(test)]
mod of_lint_excerpts;
#[cfg(test)]
mod of_lint_marks;
#[cfg(test)]
mod of_lint_table;
#[cfg(test)]
mod of_lint_text;
#[cfg(test)]
mod of_lint_warnings;
#[cfg(test)]
mod of_patient_writer;
#[cfg(test)]
mod of_port_calls;
#[cfg(test)]
mod of_port_messages;
#[cfg(test)]
mod of_port_reasons;
#[cfg(test)]
mod of_port_shell;
#[cfg(test)]
mod of_port_shell_cases;
#[cfg(test)]
mod of_port_shell_guards;
#[cfg(test)]
mod of_text_controls;
