//! Children whose pipe or end fails where a test says so, or which can't be looked at.

use crate::of_crew_ends::put_ready;
use crate::of_crew_refusals::put_start;
use crew::ProcessCrew;
use std::alloc::Allocator;
use std::cell::Cell;
use std::fs::{Metadata, OpenOptions};
use std::io::{self, Empty, ErrorKind, Sink};
use std::os::unix::process::ExitStatusExt;
use std::process::{Child, Command, ExitStatus, OpenProcess, Processes, Stdio};
use std::rt::Files;
use std::test::Fail;
use test_crews::children::{Work, job_of, put_children};
use test_crews::streams::{Pipe, pipe_of};
use test_rows::{Page, RowCall, cut, number_of, try_rows};

/// Ends with a status as `waitpid` gives it, or fails if the text of the status is empty; its waits
/// are counted.
#[derive(Drop)]
struct Process<'a> {
    status: &'a [u8],
    waits: &'a Cell<u64>,
}

impl Process<'_> {
    fn ended(&self) -> ExitStatus {
        ExitStatus::from_raw(number_of(self.status).min(65_535) as i32)
    }
}

impl<'a> OpenProcess for Process<'a> {
    type Stdin = Sink;

    type Stdout = Empty;

    type Stderr = Pipe;

    fn id(&self) -> u32 {
        1
    }

    fn wait(&mut self) -> io::Result<ExitStatus> {
        self.waits.set(self.waits.get().saturating_add(1));
        if self.status.is_empty() {
            return Err(io::Error::from(ErrorKind::Other));
        }
        Ok(self.ended())
    }
}

/// Returns whether a file of this name is there, and can't be removed.
fn is_kept(name: &str) -> bool {
    name == "conftest1.o" || name == "conftest2"
}

/// The system, but each child that is started has the next of these pipes, which have semicolons
/// between them, and this status. If it has the number of a refusal, each start is refused with that
/// error.
#[derive(Drop)]
struct System<'a> {
    rt: &'a HostRuntime,
    pipes: &'a [u8],
    status: &'a [u8],
    waits: &'a Cell<u64>,
    started: Cell<u8>,
    refusal: usize,
}

/// Returns the part of this number of a text, from 0 on, with semicolons between parts: nothing if
/// there is none.
fn part_at(text: &[u8], number: u8) -> &[u8] {
    let mut rest = text;
    for _ in 0..number {
        let (_, after) = cut(rest, b";");
        rest = after;
    }
    let (part, _) = cut(rest, b";");
    part
}

impl<'a> Processes for System<'a> {
    type Started = Process<'a>;

    fn spawn<B: Allocator + Clone>(
        &self,
        _command: &Command<B>,
        _stdin: &Stdio,
        _stdout: &Stdio,
        _stderr: &Stdio,
    ) -> io::Result<Child<Process<'a>>> {
        if self.refusal != 0 {
            return Err(io::Error::from_raw_os_error(self.refusal.min(255) as i32));
        }
        let number = self.started.get();
        self.started.set(number.saturating_add(1));
        let process = Process {
            status: self.status,
            waits: self.waits,
        };
        let pipe = part_at(self.pipes, number);
        let byte = b'a'.saturating_add(number);
        Ok(Child::from_parts(process, None, None, pipe_of(pipe, byte)))
    }
}

impl<'a> Files for System<'a> {
    type File = <HostRuntime as Files>::File;

    type Dir = <HostRuntime as Files>::Dir;

    fn open_file(&self, how: &OpenOptions, path: &str) -> io::Result<Self::File> {
        self.rt.open_file(how, path)
    }

    fn open_dir(&self, path: &str) -> io::Result<Self::Dir> {
        self.rt.open_dir(path)
    }

    fn metadata(&self, path: &str) -> io::Result<Metadata> {
        self.rt.metadata(path)
    }

    fn symlink_metadata(&self, path: &str) -> io::Result<Metadata> {
        if is_kept(path) {
            return self.rt.symlink_metadata("/proc/version");
        }
        self.rt.symlink_metadata(path)
    }

    fn copy(&self, from: &str, to: &str) -> io::Result<u64> {
        self.rt.copy(from, to)
    }

    fn rename(&self, from: &str, to: &str) -> io::Result<()> {
        self.rt.rename(from, to)
    }

    fn remove_file(&self, path: &str) -> io::Result<()> {
        if is_kept(path) {
            return Err(io::Error::from(ErrorKind::PermissionDenied));
        }
        self.rt.remove_file(path)
    }

    fn create_dir(&self, path: &str) -> io::Result<()> {
        self.rt.create_dir(path)
    }

    fn remove_dir(&self, path: &str) -> io::Result<()> {
        self.rt.remove_dir(path)
    }

    fn remove_dir_all<B: Allocator>(&self, alloc: B, path: &str) -> io::Result<()> {
        self.rt.remove_dir_all(alloc, path)
    }
}

/// Children: the pipe of each, if it has one, and the status of all as `waitpid` gives it, if a wait
/// doesn't fail. The answer says also how often they were waited for. If there are several, the
/// child whose pipe ends first is taken first.
#[derive(Drop)]
struct Ends<'a> {
    rt: &'a HostRuntime,
}

impl RowCall for Ends<'_> {
    fn put(&self, page: &mut Page, given: &[u8]) {
        let (pipes, status) = cut(given, b"|");
        let waits = Cell::new(0);
        let system = System {
            rt: self.rt,
            pipes,
            status,
            waits: &waits,
            started: Cell::new(0),
            refusal: 0,
        };
        let job = job_of(page, b"true", b"");
        let work = Work {
            count: pipes.split(|b| *b == b';').count(),
            job: &job,
        };
        if work.count == 1 {
            put_children(page, system, &work);
        } else {
            put_ready(page, system, &work);
        }
        page.put(b", waits ");
        page.put_shown(&waits.get());
    }
}

const ENDS: &[u8] = b"\
0 1|1792 =>  0:7:, waits 1
3 5|1792 =>  0:7:aaaaaaaaaaaaaaa, waits 1
1023 1|1792 =>  0:7:1023 bytes aaaaaaaaaaaaaaaa .. aaaaaaaaaaaaaaaa, waits 1
1024 1|1792 =>  0:7:1024 bytes aaaaaaaaaaaaaaaa .. aaaaaaaaaaaaaaaa, waits 1
1025 1|1792 =>  0:7:1025 bytes aaaaaaaaaaaaaaaa .. aaaaaaaaaaaaaaaa, waits 1
5000 1|1792 =>  0:7:5000 bytes aaaaaaaaaaaaaaaa .. aaaaaaaaaaaaaaaa, waits 1
8000 8|1792 =>  0:7:64000 bytes aaaaaaaaaaaaaaaa .. aaaaaaaaaaaaaaaa, waits 1
16 4096|1792 =>  0:7:65536 bytes aaaaaaaaaaaaaaaa .. aaaaaaaaaaaaaaaa, waits 1
17 4096|1792 =>  0:7:65536 bytes aaaaaaaaaaaaaaaa .. aaaaaaaaaaaaaaaa, waits 1
// 4 MiB are read, in pieces of whatever size, and nothing after them.
1025 4096|1792 =>  0:7:65536 bytes aaaaaaaaaaaaaaaa .. aaaaaaaaaaaaaaaa, waits 1
2000 4096 1025|1792 =>  0:7:65536 bytes aaaaaaaaaaaaaaaa .. aaaaaaaaaaaaaaaa, waits 1
3000 2048 2049|1792 =>  0:7:65536 bytes aaaaaaaaaaaaaaaa .. aaaaaaaaaaaaaaaa, waits 1
9000 1000 5121|1792 =>  0:7:65536 bytes aaaaaaaaaaaaaaaa .. aaaaaaaaaaaaaaaa, waits 1
3 5 0 1|1792 =>  0:7:aaaaaaaaaaaaaaa, waits 1
3 5 0 1023|1792 =>  0:7:aaaaaaaaaaaaaaa, waits 1
// a read that fails past what is kept, at the last read, in place of the end, and where there is no
// pipe
5 9 1|1792 =>  0:E, waits 1
5 9 3|1792 =>  0:E, waits 1
30 4096 20|1792 =>  0:E, waits 1
2000 1 1024|1792 =>  0:E, waits 1
2000 1 1025|1792 =>  0:E, waits 1
2000 4096 1024|1792 =>  0:E, waits 1
3000 2048 2048|1792 =>  0:E, waits 1
9000 1000 5120|1792 =>  0:E, waits 1
5 9 6|1792 =>  0:E, waits 1
3 5 0 1024|1792 =>  0:E, waits 1
|1792 =>  0:E, waits 1
// exit statuses, signals, the second with a core, and a wait that fails
1 4|0 =>  0:0:aaaa, waits 1
1 4|256 =>  0:1:aaaa, waits 1
1 4|32512 =>  0:127:aaaa, waits 1
1 4|65280 =>  0:255:aaaa, waits 1
1 4|9 =>  0:256:aaaa, waits 1
1 4|139 =>  0:256:aaaa, waits 1
1 4| =>  0:E, waits 1
// The pipe that ends first: each is read once in turn. Of those that end in one turn the oldest is
// taken first.
9 2;2 2;5 2|0 =>  1:0:bbbb 2:0:cccccccccc 0:0:aaaaaaaaaaaaaaaaaa, waits 3
9 2;5 2;2 2|256 =>  2:1:cccc 1:1:bbbbbbbbbb 0:1:aaaaaaaaaaaaaaaaaa, waits 3
2 2;2 2;2 2|0 =>  0:0:aaaa 1:0:bbbb 2:0:cccc, waits 3
0 1;0 1;0 1|0 =>  0:0: 1:0: 2:0:, waits 3
9 2;2 2|9 =>  1:256:bbbb 0:256:aaaaaaaaaaaaaaaaaa, waits 2
9 2;2 2| =>  1:E 0:E, waits 2
// What was read ahead and what is read later are one text, in whatever pieces.
20 5000;1 1;15 4095|0 =>  1:0:b 2:0:61425 bytes cccccccccccccccc .. cccccccccccccccc 0:0:65536 bytes aaaaaaaaaaaaaaaa .. aaaaaaaaaaaaaaaa, waits 3
3 2 0 9;2 2|0 =>  1:0:bbbb 0:0:aaaaaa, waits 2
3 2 0 2000;9 2 0 1999|0 =>  0:0:aaaaaa 1:0:bbbbbbbbbbbbbbbbbb, waits 2
// A pipe of which 4 MiB were read ends, and no byte more is read.
2000 4096;2000 4096 1025|0 =>  0:0:65536 bytes aaaaaaaaaaaaaaaa .. aaaaaaaaaaaaaaaa 1:0:65536 bytes bbbbbbbbbbbbbbbb .. bbbbbbbbbbbbbbbb, waits 2
2000 4096;2000 4096 1024|0 =>  1:E 0:0:65536 bytes aaaaaaaaaaaaaaaa .. aaaaaaaaaaaaaaaa, waits 2
// A pipe that can't be read ends, as its end is, and a failure ahead is told later.
9 2;9 2 3|0 =>  1:E 0:0:aaaaaaaaaaaaaaaaaa, waits 2
9 2 1;9 2|0 =>  0:E 1:0:bbbbbbbbbbbbbbbbbb, waits 2
9 2 5;2 2|0 =>  1:0:bbbb 0:E, waits 2
// A child without a pipe is taken after the others. If none has one, the oldest is taken.
;2 2;|0 =>  1:0:bbbb 0:E 2:E, waits 3
;;|0 =>  0:E 1:E 2:E, waits 3
";

#[test]
fn children_that_fail(rt: HostRuntime) -> Result<(), Fail> {
    try_rows(rt.alloc(), &Ends { rt: &rt }, ENDS)
}

/// The number of an error, with which the system refuses to start a child, and the conftest of the
/// child.
#[derive(Drop)]
struct Refusals<'a> {
    rt: &'a HostRuntime,
}

impl RowCall for Refusals<'_> {
    fn put(&self, page: &mut Page, given: &[u8]) {
        let (refusal, file) = cut(given, b"|");
        let waits = Cell::new(0);
        let system = System {
            rt: self.rt,
            pipes: b"",
            status: b"",
            waits: &waits,
            started: Cell::new(0),
            refusal: number_of(refusal),
        };
        let job = job_of(page, b"true", file);
        match &mut ProcessCrew::new(system, page.alloc()) {
            Ok(crew) => put_start(page, crew, job, 1),
            Err(_) => page.cut(),
        }
    }
}

// The system has no room for one more process or for its memory, or its arguments are too long.
const REFUSALS: &[u8] = b"\
11 => true: Resource temporarily unavailable
12 => true: Cannot allocate memory
7 => true: Argument list too long
// What a compiler made of the conftest can't be removed.
0|conftest1.c int x; => conftest1.c: its object file can't be removed
0|conftest2.c int x; => conftest2.c: its program can't be removed
";

#[test]
fn starts_that_are_refused(rt: HostRuntime) -> Result<(), Fail> {
    try_rows(rt.alloc(), &Refusals { rt: &rt }, REFUSALS)
}
