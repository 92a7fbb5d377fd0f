//! Crews in memory, whose ends come in an order that is given, and real children.

use crew::{Event, MemoryCrew};
use std::test::Fail;
use test_crews::children::{Work, job_of, put_real_children, put_work};
use test_crews::replies::{order_in, replies_in};
use test_rows::{Page, RowCall, cut, number_of, try_rows, try_rows_in};

// ---- crews in memory

/// Puts what a crew in memory did: `, start SLOT`, `, refused SLOT` and `, end SLOT`.
fn put_events(page: &mut Page, events: &[Event]) {
    for event in events {
        let (word, slot) = match event {
            Event::Started(slot) => (b", start ".as_slice(), *slot),
            Event::Refused(slot) => (b", refused ".as_slice(), *slot),
            Event::Ended(slot) => (b", end ".as_slice(), *slot),
        };
        page.put(word);
        page.put_number(slot);
    }
}

/// Puts the work of a crew in memory with these replies in this order, and the calls that it lists.
fn put_in_memory(page: &mut Page, replies: &[u8], order: &[u8], work: &Work) {
    let replies = replies_in(page, replies);
    let order = order_in(page, order);
    match &mut MemoryCrew::new(page.alloc(), replies, order) {
        Ok(crew) => {
            put_work(page, crew, work);
            put_events(page, crew.events());
        }
        Err(_) => page.cut(),
    }
}

/// A crew in memory: how many children it starts, its replies and its order.
struct InMemory;

impl RowCall for InMemory {
    fn put(&self, page: &mut Page, given: &[u8]) {
        let (count, rest) = cut(given, b"|");
        let (replies, order) = cut(rest, b"|");
        let job = job_of(page, b"true", b"");
        let work = Work {
            count: number_of(count),
            job: &job,
        };
        put_in_memory(page, replies, order, &work);
    }
}

const ORDERS: &[u8] = b"\
3|10:a 11:b 12:c|oldest =>  0:10:a 1:11:b 2:12:c, start 0, start 1, start 2, end 0, end 1, end 2
3|10:a 11:b 12:c|youngest =>  2:12:c 1:11:b 0:10:a, start 0, start 1, start 2, end 2, end 1, end 0
// No child is in slot 7.
3|10:a 11:b 12:c|1 7 =>  1:11:b 0:10:a 2:12:c, start 0, start 1, start 2, end 1, end 0, end 2
3|0: E 256:|oldest =>  0:0: 1:E 2:256:, start 0, start 1, start 2, end 0, end 1, end 2
// The list refuses a start, and those after its end.
5|0: S E|oldest =>  1:S 3:S 4:S 0:0: 2:E, start 0, refused 1, start 2, end 0, end 2
";

#[test]
fn crews_in_memory(rt: HostRuntime) -> Result<(), Fail> {
    try_rows(rt.alloc(), &InMemory, ORDERS)
}

// ---- real children

/// Real children: how many, and the conftest and the words of each.
#[derive(Drop)]
struct Children<'a> {
    rt: &'a HostRuntime,
}

impl RowCall for Children<'_> {
    fn put(&self, page: &mut Page, given: &[u8]) {
        let (count, rest) = cut(given, b"|");
        let (file, words) = cut(rest, b"|");
        let job = job_of(page, words, file);
        let work = Work {
            count: number_of(count),
            job: &job,
        };
        put_real_children(page, self.rt, &work);
    }
}

const CHILDREN: &[u8] = b"\
1||sh,-c,echo out; echo hi >&2; cat; exit 7 =>  0:7:hi^J
1||sh,-c,for a; do echo \"<$a>\" >&2; done,sh,,a b,*,\"$x\"^J,-n =>  0:0:<>^J<a b>^J<*>^J<\"$x\"^J>^J<-n>^J
// a signal, and a child that lives on after the end of its text
1||sh,-c,echo a >&2; kill -9 $$ =>  0:256:a^J
1||sh,-c,echo a >&2; exec 2>&-; sleep 0.3; exit 3 =>  0:3:a^J
// It writes line by line, more lines than a child may have pieces, and waits after each of the first.
1||sh,-c,i=0; while [ $i -lt 3000 ]; do echo note >&2; i=$((i+1)); done; exit 3 =>  0:3:15000 bytes note^Jnote^Jnote^Jn .. ^Jnote^Jnote^Jnote^J
1||sh,-c,i=0; while [ $i -lt 1100 ]; do echo note >&2; /bin/true; i=$((i+1)); done; exit 3 =>  0:3:5500 bytes note^Jnote^Jnote^Jn .. ^Jnote^Jnote^Jnote^J
// It writes 4 MiB less a byte by pieces of another size, and then ends by itself.
1||sh,-c,yes abcdefg | head -c 4194303 | dd bs=100 >&2 2>/dev/null; exit 4 =>  0:4:65536 bytes abcdefg^Jabcdefg^J .. abcdefg^Jabcdefg^J
// It writes 8 MiB, of which the first 65,536 bytes are kept.
1||sh,-c,yes abcdefg | head -c 8388608 >&2; exit 4 =>  0:4:65536 bytes abcdefg^Jabcdefg^J .. abcdefg^Jabcdefg^J
// It writes 8 MiB by itself, or never stops writing: it ends once nothing is read any more.
1||sh,-c,yes abcdefg | head -c 8388608 > big; echo 'cat big >&2; exit 5' > big.sh =>  0:0:
1|conftest.c int x;|sh,big.sh,-c,conftest.c =>  0:5:65536 bytes abcdefg^Jabcdefg^J .. abcdefg^Jabcdefg^J
1||sh,-c,exec cat big >&2 =>  0:256:65536 bytes abcdefg^Jabcdefg^J .. abcdefg^Jabcdefg^J
1||sh,-c,exec yes abcdefg >&2 =>  0:256:65536 bytes abcdefg^Jabcdefg^J .. abcdefg^Jabcdefg^J
6||sh,-c,yes abcdefg >&2; exit 6 =>  \
0:6:65536 bytes abcdefg^Jabcdefg^J .. abcdefg^Jabcdefg^J 1:6:65536 bytes abcdefg^Jabcdefg^J .. abcdefg^Jabcdefg^J \
2:6:65536 bytes abcdefg^Jabcdefg^J .. abcdefg^Jabcdefg^J 3:6:65536 bytes abcdefg^Jabcdefg^J .. abcdefg^Jabcdefg^J \
4:6:65536 bytes abcdefg^Jabcdefg^J .. abcdefg^Jabcdefg^J 5:6:65536 bytes abcdefg^Jabcdefg^J .. abcdefg^Jabcdefg^J
// conftests
1|conftest.c int \xff;^J|sh,-c,cat conftest.c >&2; echo x > made =>  0:0:int \xff;^J
1||sh,-c,cat made >&2; rm made =>  0:0:x^J
1|conftestc.c <~>|sh,-c,wc -c < conftestc.c >&2 =>  0:0:1048576^J
1||sh,-c,wc -c < conftestc.c >&2; tr -d a < conftestc.c >&2; head -c 1 conftestc.c >&2; tail -c 1 conftestc.c >&2 =>  0:0:1048576^J<><>
// starts that are refused
1||/nowhere/cc,-c =>  0:S
1|| =>  0:S
1||sh,\xff =>  0:S
1||sh,a\0b =>  0:S
// A conftest that can't be written starts no child: its name is that of a directory, or isn't a name.
1||sh,-c,mkdir conftestb.c =>  0:0:
1|conftestb.c int x;|sh,-c,: > made =>  0:S
1|conftest\xff.c int x;|sh,-c,: > made =>  0:S
1|conftest\0.c int x;|sh,-c,: > made =>  0:S
// Neither does a file that isn't a conftest of this directory, and it is as before.
1||sh,-c,mkdir in conftestx; echo kept > Makefile =>  0:0:
1|Makefile int x;|sh,-c,: > made =>  0:S
1|in/conftest.c int x;|sh,-c,: > made =>  0:S
1|conftestx/y.c int x;|sh,-c,: > made =>  0:S
1|conftes.c int x;|sh,-c,: > made =>  0:S
1||sh,-c,cat Makefile >&2; [ -e in/conftest.c ] || [ -e conftestx/y.c ] || [ -e conftes.c ] =>  0:1:kept^J
// Neither does one with a directory or a pipe where the compiler is to put what it makes.
1||sh,-c,mkdir conftestd.o confteste; mkfifo conftestf.o conftestg =>  0:0:
1|conftestd.c int x;|sh,-c,: > made =>  0:S
1|confteste.c int x;|sh,-c,: > made =>  0:S
1|conftestf.c int x;|sh,-c,: > made =>  0:S
1|conftestg.c int x;|sh,-c,: > made =>  0:S
1||sh,-c,[ -e made ] =>  0:1:
// A regular file or a link there is removed before the child is started, and not what a link leads to.
1||sh,-c,: > conftesth.o; : > conftesth; echo kept > i; ln -s i conftestj.o; ln -s nowhere conftestj =>  0:0:
1|conftesth.c int x;|sh,-c,ls conftesth* >&2 =>  0:0:conftesth.c^J
1|conftestj.c int x;|sh,-c,ls conftestj* i >&2; cat i >&2 =>  0:0:conftestj.c^Ji^Jkept^J
// Another name has none, and a child without a conftest removes nothing.
1||sh,-c,: > conftestk.o; : > conftestk; : > conftestl.o; : > conftestl =>  0:0:
1|conftestk int x;|sh,-c,ls conftestk* >&2 =>  0:0:conftestk^Jconftestk.o^J
1||sh,-c,ls conftestl* >&2,conftestl.c =>  0:0:conftestl^Jconftestl.o^J
// The last child ends first, and is taken last.
3||sh,-c,[ $1 = 2 ] && echo $$ > last && exit 2; i=0; while [ $i -lt 400 ]; do \
[ -s last ] && grep -q State:.Z /proc/$(cat last)/status && exit $1; i=$((i+1)); sleep 0.05; done; exit 9,slot =>  0:0: 1:1: 2:2:
// Each child ends well once it sees the files of all sixteen.
16||sh,-c,: > here.$$; i=0; while [ $i -lt 400 ]; do set -- here.*; [ $# -ge 16 ] && exit 0; i=$((i+1)); sleep 0.05; done; exit 1 =>  \
0:0: 1:0: 2:0: 3:0: 4:0: 5:0: 6:0: 7:0: 8:0: 9:0: 10:0: 11:0: 12:0: 13:0: 14:0: 15:0:
";

#[test]
fn real_children(rt: HostRuntime) -> Result<(), Fail> {
    try_rows_in(&rt, "real_children", &Children { rt: &rt }, CHILDREN)
}
