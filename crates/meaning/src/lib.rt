//! The meaning of a source: which variables and definitions its statements leave, and how they end.
//!
//! There is no code here. The crates above cite these definitions in their contracts: however they
//! run a source, it ends as the definitions say. Read `specs/State.antt` (what statements change,
//! and the course of a run), `specs/Asking.antt` (how a run asks for a child and continues with its
//! reply), `specs/Tests.antt` (cached tests: what they ask, print and leave), `specs/Forms.antt`
//! (what the form of a test means, of any form), `specs/Entries.antt` (the tests that lists and
//! questions ask for), `specs/Rows.antt` (searches for programs and tests of forms, as statements
//! have them), `specs/Batches.antt` (lists of tests whose children are asked for at once),
//! `specs/Package.antt` (what AC_INIT sets), `specs/Tries.antt` (programs that are tried), then
//! `specs/Meaning.antt` (the meaning of a statement and of a list of statements). `specs/Play.antt`
//! is about a run under given replies, and its last words. The crate `test_forms` has the form of
//! each macro's test, and `meaning_laws` has theorems on these definitions.
//!
//! The meaning of `AC_DEFINE([A],[1])` and `AC_OUTPUT`, begun with no variables and no definitions,
//! is to complete with no variables and with `A` defined as `1`.
#![tactic(auto)]
