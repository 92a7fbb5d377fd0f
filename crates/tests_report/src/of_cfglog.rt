//! What each line of a text is.

use cfglog::{LineKind, read_log};
use std::test::Fail;
use test_rows::{Page, RowCall, try_rows};

/// A letter for each line: M message, C command, D diagnostics, S status, R refused, H heading, G
/// program. If the text is no log, it is `none`.
const LINES: &[u8] = b"
 => 
checking for a... ^J => M
checking for a... ^J$ cc^Jx^Jy^Jstatus 1^Jfailed program was:^J| a^J| $ b^Jno^J => MCDDSHGGM
$ cc^Jstatus 0^J$ cc^Jstart refused^J$^Jwait refused^J| a^J => CSCRCRM
$ cc^Jstatus 0^Jfailed program was:^J| a^J => CSHG
$ cc^Jstatus ^Jstatus x^Jstatus 1x^J status 1^Jstatus 256^Jfailed program was:^J$ cc^Jstatus 10^J => CDDDDSHCS
$ cc^J => none
$ cc^Jx^J => none
$ cc^Jstatus 0 => none
a => none
";

fn letter(part: LineKind) -> u8 {
    match part {
        LineKind::Message => b'M',
        LineKind::Command => b'C',
        LineKind::Diagnostics => b'D',
        LineKind::Status => b'S',
        LineKind::Refused => b'R',
        LineKind::Heading => b'H',
        LineKind::Program => b'G',
    }
}

struct Lines;

impl RowCall for Lines {
    fn put(&self, page: &mut Page, given: &[u8]) {
        let read = read_log(page.alloc(), given);
        match page.given(read) {
            Some(Some(lines)) => {
                for line in &lines {
                    page.put_byte(letter(line.part));
                }
            }
            _ => page.put(b"none"),
        }
    }
}

#[test]
fn lines_of_logs(rt: HostRuntime) -> Result<(), Fail> {
    try_rows(rt.alloc(), &Lines, LINES)
}
