//! Names that Autoconf's default includes declare, and those of acrun don't.

use crate::extent::{NamedCall, bare, is_given, span_of, text_at};
use crate::lines::put_lines;
use ac_calls::Extent;
use ac_macros::ArgumentKind;
use deftable::{SubstList, is_shell_name};
use lint_findings::Finding;
use lint_table::{Page, WordPart, keys};
use std::alloc::{AllocError, Global};

/// The names of a header, with blanks between them.
type Row = (&'static [u8], &'static [u8]);

/// The headers that Autoconf's default includes have and acrun's don't, each with the names that
/// C17 and POSIX (IEEE Std 1003.1-2024, and those that earlier editions have besides) have in it,
/// and in no header of acrun's default includes. In `unistd.h` are also the types that glibc alone
/// has there.
#[rattlefmt::skip]
const ROWS: [Row; 5] = [
    (b"stdint.h", b"int8_t uint8_t int_least8_t uint_least8_t int_fast8_t uint_fast8_t INT8_MIN INT8_MAX \
        UINT8_MAX INT_LEAST8_MIN INT_LEAST8_MAX UINT_LEAST8_MAX INT_FAST8_MIN INT_FAST8_MAX \
        UINT_FAST8_MAX INT8_C UINT8_C int16_t uint16_t int_least16_t uint_least16_t \
        int_fast16_t uint_fast16_t INT16_MIN INT16_MAX UINT16_MAX INT_LEAST16_MIN \
        INT_LEAST16_MAX UINT_LEAST16_MAX INT_FAST16_MIN INT_FAST16_MAX UINT_FAST16_MAX \
        INT16_C UINT16_C int32_t uint32_t int_least32_t uint_least32_t int_fast32_t \
        uint_fast32_t INT32_MIN INT32_MAX UINT32_MAX INT_LEAST32_MIN INT_LEAST32_MAX \
        UINT_LEAST32_MAX INT_FAST32_MIN INT_FAST32_MAX UINT_FAST32_MAX INT32_C UINT32_C \
        int64_t uint64_t int_least64_t uint_least64_t int_fast64_t uint_fast64_t INT64_MIN \
        INT64_MAX UINT64_MAX INT_LEAST64_MIN INT_LEAST64_MAX UINT_LEAST64_MAX INT_FAST64_MIN \
        INT_FAST64_MAX UINT_FAST64_MAX INT64_C UINT64_C intptr_t uintptr_t intmax_t \
        uintmax_t INTPTR_MIN INTPTR_MAX UINTPTR_MAX INTMAX_MIN INTMAX_MAX UINTMAX_MAX \
        PTRDIFF_MIN PTRDIFF_MAX SIG_ATOMIC_MIN SIG_ATOMIC_MAX SIZE_MAX WCHAR_MIN WCHAR_MAX \
        WINT_MIN WINT_MAX INTMAX_C UINTMAX_C"),
    (b"inttypes.h", b"imaxdiv_t imaxabs imaxdiv strtoimax strtoumax wcstoimax wcstoumax"),
    (b"strings.h", b"bcmp bcopy bzero ffs ffsl ffsll index rindex strcasecmp strcasecmp_l strncasecmp \
        strncasecmp_l"),
    (b"sys/stat.h", b"stat fstat fstatat lstat chmod fchmod fchmodat futimens utimensat mkdir mkdirat \
        mkfifo mkfifoat mknod mknodat umask S_IFMT S_IFBLK S_IFCHR S_IFIFO S_IFREG S_IFDIR \
        S_IFLNK S_IFSOCK S_IRWXU S_IRUSR S_IWUSR S_IXUSR S_IRWXG S_IRGRP S_IWGRP S_IXGRP \
        S_IRWXO S_IROTH S_IWOTH S_IXOTH S_ISUID S_ISGID S_ISVTX S_ISBLK S_ISCHR S_ISDIR \
        S_ISFIFO S_ISREG S_ISLNK S_ISSOCK S_TYPEISMQ S_TYPEISSEM S_TYPEISSHM S_TYPEISTMO \
        UTIME_NOW UTIME_OMIT"),
    (b"unistd.h", b"_exit _Fork access alarm chdir chown chroot close confstr crypt dup dup2 dup3 \
        encrypt execl execle execlp execv execve execvp faccessat fchdir fchown fchownat \
        fdatasync fexecve fork fpathconf fsync ftruncate getcwd getegid getentropy geteuid \
        getgid getgroups gethostid gethostname getlogin getlogin_r getopt getpagesize \
        getpass getpgid getpgrp getpid getppid getresgid getresuid getsid getuid getwd \
        isatty lchown link linkat lockf lseek nice optarg opterr optind optopt pathconf \
        pause pipe pipe2 posix_close pread pwrite read readlink readlinkat rmdir setegid \
        seteuid setgid setpgid setpgrp setregid setresgid setresuid setreuid setsid setuid \
        sleep swab symlink symlinkat sync sysconf tcgetpgrp tcsetpgrp truncate ttyname \
        ttyname_r ualarm unlink unlinkat usleep vfork write socklen_t useconds_t F_OK R_OK W_OK X_OK F_LOCK \
        F_TEST F_TLOCK F_ULOCK STDIN_FILENO STDOUT_FILENO STDERR_FILENO _POSIX_VERSION \
        _POSIX2_VERSION _XOPEN_VERSION _POSIX_VDISABLE _CS_PATH _PC_2_SYMLINKS \
        _PC_ALLOC_SIZE_MIN _PC_ASYNC_IO _PC_CHOWN_RESTRICTED _PC_FILESIZEBITS _PC_LINK_MAX \
        _PC_MAX_CANON _PC_MAX_INPUT _PC_NAME_MAX _PC_NO_TRUNC _PC_PATH_MAX _PC_PIPE_BUF \
        _PC_PRIO_IO _PC_REC_INCR_XFER_SIZE _PC_REC_MAX_XFER_SIZE _PC_REC_MIN_XFER_SIZE \
        _PC_REC_XFER_ALIGN _PC_SYMLINK_MAX _PC_SYNC_IO _PC_VDISABLE _SC_2_VERSION \
        _SC_ARG_MAX _SC_ATEXIT_MAX _SC_CHILD_MAX _SC_CLK_TCK _SC_GETGR_R_SIZE_MAX \
        _SC_GETPW_R_SIZE_MAX _SC_HOST_NAME_MAX _SC_IOV_MAX _SC_JOB_CONTROL _SC_LINE_MAX \
        _SC_LOGIN_NAME_MAX _SC_MAPPED_FILES _SC_MONOTONIC_CLOCK _SC_NGROUPS_MAX \
        _SC_NPROCESSORS_CONF _SC_NPROCESSORS_ONLN _SC_OPEN_MAX _SC_PAGESIZE _SC_PAGE_SIZE \
        _SC_RE_DUP_MAX _SC_SAVED_IDS _SC_SEMAPHORES _SC_SHARED_MEMORY_OBJECTS _SC_STREAM_MAX \
        _SC_SYMLOOP_MAX _SC_SYNCHRONIZED_IO _SC_THREADS _SC_THREAD_STACK_MIN _SC_TIMERS \
        _SC_TTY_NAME_MAX _SC_TZNAME_MAX _SC_VERSION _SC_XOPEN_VERSION"),
];

/// The structures of `sys/stat.h`.
const STRUCTURES: [&[u8]; 2] = [b"struct stat", b"struct timespec"];

/// The number of the row of `inttypes.h`, and of that of `sys/stat.h`.
const INTTYPES: usize = 1;

const STAT: usize = 3;

/// The names of the headers, ready to be looked up: a list for each row.
type Lists = Vec<SubstList>;

/// Returns the names of a row.
fn list_of(alloc: Global, row: &Row) -> Result<SubstList, AllocError> {
    let mut list = SubstList::new(alloc);
    for name in row.1.split(|byte| *byte == b' ') {
        add_name(&mut list, name)?;
    }
    Ok(list)
}

/// Adds a name, if it is a shell name.
fn add_name(list: &mut SubstList, name: &[u8]) -> Result<(), AllocError> {
    if is_shell_name(name) {
        return list.add(name);
    }
    Ok(())
}

/// Returns the names of the headers.
fn lists(alloc: Global) -> Result<Lists, AllocError> {
    let mut out = Vec::new(alloc);
    for row in &ROWS {
        out.push(list_of(alloc, row)?)?;
    }
    Ok(out)
}

/// Returns whether a name is that of a format, such as `PRIu64`.
fn is_format(name: &[u8]) -> bool {
    let is_long = name.len() > 4 && (name.starts_with(b"PRI") || name.starts_with(b"SCN"));
    let size = name.get(4..).unwrap_or(b"");
    let is_sized = size.starts_with(b"MAX")
        || size.starts_with(b"PTR")
        || size.ends_with(b"8")
        || size.ends_with(b"16")
        || size.ends_with(b"32")
        || size.ends_with(b"64");
    is_long && is_sized
}

/// Returns the number of the row that has a name.
fn row_of(lists: &[SubstList], name: &[u8]) -> Option<usize> {
    if STRUCTURES.iter().any(|structure| *structure == name) {
        return Some(STAT);
    }
    if is_format(name) {
        return Some(INTTYPES);
    }
    lists.iter().position(|list| list.has(name))
}

/// What is found of a header: the calls that name one of its names, and these names, each once.
#[derive(Drop)]
struct FoundNames<'a> {
    calls: Vec<Extent>,
    names: Vec<&'a [u8]>,
}

/// How many names are named at most.
const MOST: usize = 12;

impl<'a> FoundNames<'a> {
    /// Adds a name that a call has.
    fn add(&mut self, call: Extent, name: &'a [u8]) -> Result<(), AllocError> {
        if self.calls.last() != Some(&call) {
            self.calls.push(call)?;
        }
        if self.names.len() < MOST && !self.names.iter().any(|other| *other == name) {
            self.names.push(name)?;
        }
        Ok(())
    }
}

/// Returns whether an argument of this kind has names that may be looked for with the default
/// includes.
fn is_looked_for(kind: ArgumentKind) -> bool {
    matches!(
        kind,
        ArgumentKind::Declaration
            | ArgumentKind::Declarations
            | ArgumentKind::TypeName
            | ArgumentKind::TypeNames
    )
}

/// Returns whether a call looks for names with the default includes.
fn uses_defaults(call: NamedCall<'_>) -> bool {
    match call.kind(0) {
        Some(kind) if is_looked_for(kind) => !is_given(call.text, call.at.args.get(3)),
        _ => false,
    }
}

/// Adds the names of a call that one of the headers has.
fn add_call<'a>(
    call: NamedCall<'a>,
    lists: &[SubstList],
    found: &mut [FoundNames<'a>],
) -> Result<(), AllocError> {
    let place = Extent {
        start: call.at.start,
        end: call.at.name_end,
    };
    let entries = bare(text_at(call.text, call.at.args.first().copied()));
    for entry in entries.split(|byte| *byte == b',') {
        let name = bare(entry);
        if let Some(row) = row_of(lists, name) {
            add_to(found, row, place, name)?;
        }
    }
    Ok(())
}

/// Adds a name that a call has to what is found of a row.
fn add_to<'a>(
    found: &mut [FoundNames<'a>],
    row: usize,
    call: Extent,
    name: &'a [u8],
) -> Result<(), AllocError> {
    match found.get_mut(row) {
        Some(found) => found.add(call, name),
        None => Ok(()),
    }
}

/// Returns what is found of each header.
fn found_in<'a>(
    alloc: Global,
    calls: &[NamedCall<'a>],
    lists: &[SubstList],
) -> Result<Vec<FoundNames<'a>>, AllocError> {
    let mut found = Vec::new(alloc);
    for _ in &ROWS {
        found.push(FoundNames {
            calls: Vec::new(alloc),
            names: Vec::new(alloc),
        })?;
    }
    for call in calls {
        if uses_defaults(*call) {
            add_call(*call, lists, found.as_mut_slice())?;
        }
    }
    Ok(found)
}

/// Returns names with `, ` between them.
fn joined(alloc: Global, names: &[&[u8]]) -> Result<Vec<u8>, AllocError> {
    let mut text = Vec::new(alloc);
    for name in names {
        if !text.is_empty() {
            text.extend_from_slice(b", ")?;
        }
        text.extend_from_slice(*name)?;
    }
    Ok(text)
}

/// Warns of what is found of a header, at the first call that names one of its names.
fn warn_of_header(
    alloc: Global,
    text: &[u8],
    header: &[u8],
    found: &FoundNames<'_>,
    out: &mut Vec<Finding>,
) -> Result<(), AllocError> {
    let Some(first) = found.calls.first() else {
        return Ok(());
    };
    let names = joined(alloc, found.names.as_slice())?;
    let names = WordPart::AsItIs(names.as_slice());
    let mut page = Page::new(alloc);
    page.put(keys::FEWER_INCLUDES, &[WordPart::AsItIs(header), names]);
    put_lines(&mut page, text, found.calls.as_slice());
    page.put(keys::INCLUDES_OF, &[WordPart::AsItIs(header)]);
    page.warn(
        alloc,
        out,
        text,
        span_of(*first),
        keys::FEWER_INCLUDES.name(),
    )
}

/// Adds a warning for each header of Autoconf's default includes that acrun's don't have, if the
/// source looks for one of its names with the default includes.
pub(crate) fn warn_of_includes(
    alloc: Global,
    text: &[u8],
    calls: &[NamedCall<'_>],
    out: &mut Vec<Finding>,
) -> Result<(), AllocError> {
    if !calls.iter().any(|call| uses_defaults(*call)) {
        return Ok(());
    }
    let lists = lists(alloc)?;
    let found = found_in(alloc, calls, lists.as_slice())?;
    for i in 0..ROWS.len().min(found.len()) {
        warn_of_header(alloc, text, ROWS[i].0, &found[i], out)?;
    }
    Ok(())
}
