//! Rewrites statements of a shell that mean the same as a statement that acrun reads: `if` becomes
//! AS_IF, `case` AS_CASE, and a statement after `&&` or `||` AS_IF.
//!
//! A statement is rewritten only if the new call, read alone, is one call with the same parts, and
//! acrun accepts it. In a condition `-a` and `-o` of `test` become `&&` and `||` if that means the
//! same. All else is copied to the byte.
//!
//! ```text
//! if test -n "$a"; then b=1; else b=2; fi    // becomes AS_IF([test -n "$a"], [b=1], [b=2])
//! case $a in x | y) b=1 ;; *) b=2 ;; esac    // becomes AS_CASE([$a], [x | y], [b=1], [b=2])
//! test -n "$a" || b=2                        // becomes AS_IF([test -n "$a"], [], [b=2])
//! test "$a" = b -a "$c" && d=1               // becomes AS_IF([test "$a" = b && test "$c"], [d=1])
//! if test -f a; then b=1; fi                 // stays, or a program asks for the file below a comment
//! if :; then AC_CHECK_HEADERS([a.h]); fi     // the first such call: stays, or is rewritten below a comment
//! ```
//!
//! Read the definitions first: those of `port_compounds` say what these statements and their parts
//! are, those of `port_put` what is put in their place, and `specs/Formed` what is copied.
//! `port_statements` finds the statements. In `src`, `puts` joins the parts of a statement and the new
//! call, and `noting` writes the comment where Autoconf makes checks that macros require. `passing`
//! is one pass over a text, and `conditions` one over its conditions, of which `files` writes what
//! asks for a file, unless `branches` finds one that keeps the whole statement. A call fails only if memory runs out. "own" marks a rule that no manual gives.
#![tactic(auto)]

mod branches;
mod conditions;
mod files;
mod noting;
mod passes;
mod passing;
mod puts;

pub use passes::formed;
