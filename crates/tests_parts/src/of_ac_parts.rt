//! The walk over a list of parts: it takes the tree of a source, and no list with a fault.

use ac_calls::calls_of;
use ac_parts::{Kind, Part, is_tree};
use parts_reader::read_parts;
use std::alloc::{AllocError, Global};
use std::test::Fail;

/// A source with most kinds of parts.
const SOURCE: &[u8] =
    b"AC_INIT([x],[1])\n# a comment\nif test x = \"$y\" && a; then\n  b=${c:-d} e 2>f\nelse\n  AC_FOO([g h],\n    [i;])\nfi\ndnl j\nfor k in l; do AC_BAR; done\n";

/// A change of a part.
#[derive(Clone, Copy)]
enum Fault {
    Start,
    End,
    Within,
    Kind,
    Dropped,
    Doubled,
}

/// Returns the part with a fault.
fn faulty(part: Part, fault: Fault) -> Part {
    let mut part = part;
    match fault {
        Fault::Start => part.start = part.start.saturating_add(1),
        Fault::End => part.end = part.end.saturating_add(1),
        Fault::Within => part.within = part.within.saturating_add(1),
        Fault::Kind => {
            part.kind = if part.kind.is(Kind::Fi) {
                Kind::Then
            } else {
                Kind::Fi
            };
        }
        Fault::Dropped | Fault::Doubled => {}
    }
    part
}

/// Returns the parts with a fault at an index.
fn planted(
    alloc: Global,
    parts: &[Part],
    index: usize,
    fault: Fault,
) -> Result<Vec<Part>, AllocError> {
    let mut out = Vec::new(alloc);
    for i in 0..parts.len() {
        let times: usize = match fault {
            Fault::Dropped if i == index => 0,
            Fault::Doubled if i == index => 2,
            _ => 1,
        };
        for _ in 0..times {
            out.push(if i == index {
                faulty(parts[i], fault)
            } else {
                parts[i]
            })?;
        }
    }
    Ok(out)
}

#[test]
fn refuses_each_fault(rt: HostRuntime) -> Result<(), Fail> {
    let calls = calls_of(rt.alloc(), SOURCE)?;
    let parts = read_parts(rt.alloc(), SOURCE, &calls)?.ok_or("no tree")?;
    assert!(rt; parts.len() > 100);
    assert!(rt; is_tree(rt.alloc(), SOURCE, &parts)?);
    for fault in [
        Fault::Start,
        Fault::End,
        Fault::Within,
        Fault::Kind,
        Fault::Dropped,
        Fault::Doubled,
    ] {
        for i in 0..parts.len() {
            let with_fault = planted(rt.alloc(), &parts, i, fault)?;
            assert!(rt; !is_tree(rt.alloc(), SOURCE, &with_fault)?);
        }
    }
    Ok(())
}

#[test]
fn another_text(rt: HostRuntime) -> Result<(), Fail> {
    let calls = calls_of(rt.alloc(), SOURCE)?;
    let parts = read_parts(rt.alloc(), SOURCE, &calls)?.ok_or("no tree")?;
    assert!(rt; !is_tree(rt.alloc(), b"", &parts)?);
    assert!(rt;
        is_tree(
            rt.alloc(),
            b"",
            &[Part {
                kind: Kind::List,
                start: 0,
                end: 0,
                within: 0
            }]
        )?
    );
    Ok(())
}
