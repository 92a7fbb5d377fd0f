//! Readings that may fail: the value of a function on lists, or the error that is found first.
//!
//! There is no code here. A crate that reads a text defines what it reads as a function to
//! `Result`, and compares what its calls return with that. Read `specs/Reading.antt`: `>>=` puts
//! one reading after another, and `GivesBy` is the comparison. Which errors a call may return in
//! place of the function's is for each crate to say, by a `Fails` of its own type of error: each
//! lets a call run out of memory.
//!
//! `proofs/Binds.antt` takes a sequence of readings apart, and `proofs/Clauses.antt` gives the
//! clauses of a public call.
//!
//! A reading of `Ok 1`, followed by one that fails with `f`, is `Err f`.
#![tactic(auto)]
