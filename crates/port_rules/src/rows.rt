//! The rules. A further one is a row here.

use crate::rule::{Cond, Fill, Put, Rule};
use Cond::{Same, Shows};
use Fill::{Bare, Slot, Text};
use Put::{Each, Once};
use ac_parts::Kind;
use port_match::Pat::{Close, Gaps, Many, Named, One, Open};
use port_match::Piece;

/// The rules, in the order in which they are tried.
#[rattlefmt::skip]
static RULES: [Rule; 4] = [
    Rule {
        name: b"cache-check",
        from: &[
            Open(Kind::Statement), Open(Kind::Command), Open(Kind::Call), Named(b"AC_MSG_CHECKING"), Named(b"("), One(Kind::Argument, 1), Named(b")"), Close, Close, Close, Gaps,
            Open(Kind::Statement), Open(Kind::Command), Open(Kind::Call), Named(b"AC_CACHE_VAL"), Named(b"("),
                Open(Kind::Argument), Named(b"["), One(Kind::Words, 2), Named(b"]"), Close, Named(b","), Gaps, One(Kind::Argument, 3), Named(b")"), Close, Close, Close, Gaps,
            Open(Kind::Statement), Open(Kind::Command), Open(Kind::Call), Named(b"AC_MSG_RESULT"), Named(b"("),
                Open(Kind::Argument), Named(b"["), One(Kind::Text, 4), Named(b"]"), Close, Named(b")"), Close, Close, Close,
        ],
        when: &[Shows(4, 2)],
        put: &[Once(Text(b"AC_CACHE_CHECK(")), Once(Slot(1)), Once(Text(b", [")), Once(Slot(2)), Once(Text(b"], ")), Once(Slot(3)), Once(Text(b")"))],
    },
    Rule {
        name: b"path-progs",
        from: &[
            Open(Kind::Statement), Open(Kind::Command), Open(Kind::Call), Named(b"AC_PATH_PROGS"), Named(b"("), Open(Kind::Argument), Named(b"["), One(Kind::Words, 1), Named(b"]"), Close, Named(b","), Gaps,
                Open(Kind::Argument), Named(b"["), Open(Kind::Words), Gaps, One(Kind::Entry, 2), Many(&[Piece(Kind::Gap, 0), Piece(Kind::Entry, 3)]), Gaps, Close, Named(b"]"), Close, Named(b")"), Close, Close, Close,
        ],
        when: &[],
        put: &[
            Once(Text(b"AC_PATH_PROG([")), Once(Slot(1)), Once(Text(b"], [")), Once(Slot(2)), Once(Text(b"])")),
            Each(3, &[Text(b"\nAS_IF([test -z \"$"), Slot(1), Text(b"\"], [AC_PATH_PROG(["), Slot(1), Text(b"], ["), Slot(3), Text(b"])])")]),
        ],
    },
    Rule {
        name: b"if",
        from: &[
            Open(Kind::Statement), Open(Kind::If), Named(b"if"), One(Kind::Condition, 1), Named(b"then"), One(Kind::List, 2),
                Many(&[Piece(Kind::Elif, 0), Piece(Kind::Condition, 3), Piece(Kind::Then, 0), Piece(Kind::List, 4)]), Many(&[Piece(Kind::Else, 0), Piece(Kind::List, 5)]), Named(b"fi"), Close, Close,
        ],
        when: &[],
        put: &[
            Once(Text(b"AS_IF([")), Once(Bare(1)), Once(Text(b"], [")), Once(Bare(2)), Once(Text(b"]")),
            Each(3, &[Text(b", ["), Bare(3), Text(b"], ["), Bare(4), Text(b"]")]), Each(5, &[Text(b", ["), Bare(5), Text(b"]")]), Once(Text(b")")),
        ],
    },
    Rule {
        name: b"default-of",
        from: &[Open(Kind::Statement), Open(Kind::Command), Open(Kind::Assignment), One(Kind::Variable, 1), Named(b"="), Open(Kind::Word), Open(Kind::Default), Named(b"${"), One(Kind::Variable, 2), Named(b":-"), One(Kind::Constant, 3), Named(b"}"), Close, Close, Close, Close, Close],
        when: &[Same(1, 2)],
        put: &[Once(Text(b"AS_IF([test -z \"$")), Once(Slot(1)), Once(Text(b"\"], [")), Once(Slot(1)), Once(Text(b"=")), Once(Slot(3)), Once(Text(b"])"))],
    },
];

/// Returns the rules, in the order in which they are tried.
pub fn rules() -> &'static [Rule] {
    &RULES
}
