//! A text whose lines are broken, and one that stays as it is.

use crate::broken;
use std::alloc::{AllocError, Global};
use std::test::Fail;

fn becomes(alloc: Global, text: &[u8], place: usize, wanted: &[u8]) -> bool {
    match broken(alloc, text, &[place]) {
        Ok(made) => made.as_slice() == wanted,
        Err(AllocError) => false,
    }
}

#[test]
fn a_command_gets_a_line_of_its_own(rt: HostRuntime) {
    let text = b"if a; then echo x; b=1; fi".as_slice();
    let wanted = b"if a; then\n  echo x\n  b=1; fi".as_slice();
    assert!(rt; becomes(rt.alloc(), text, 11, wanted));
}

#[test]
fn what_may_not_be_broken_stays(rt: HostRuntime) {
    let text = b"a=1; echo x > y; b=1".as_slice();
    assert!(rt; becomes(rt.alloc(), text, 5, text));
}
