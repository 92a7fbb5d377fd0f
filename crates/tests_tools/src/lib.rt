//! Tests of `tools_runner`: its commands by their words, over files and streams.
#![tactic(auto)]

mod of_tools_runner;
