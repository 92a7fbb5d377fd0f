//! Tests of the parts of a source: what the reader makes, what the walk refuses, and what rules
//! put.
//!
//! A row has a text and its parts: a part that has others within it as its name and these in
//! parentheses, and a leaf as its text in brackets. A source that no tree is made of has none.
#![tactic(auto)]

#[cfg(test)]
mod of_ac_parts;
#[cfg(test)]
mod of_parts_reader;
#[cfg(test)]
mod of_port_rules;
