//! The texts, and the version.

/// The version of the program.
pub const VERSION: &str = "0.1.0";

/// What `acrun help` prints after the line of the version.
const GENERAL: &str = "\
Reads configure.ac itself, runs its checks, and makes the files and headers
that it names.

Usage:
  acrun [-jN] configure [ARG]..   run a configure.ac and make its outputs;
                                  N children at once, 1 to 16
  acrun status [NAME]..           make the outputs of the last run again:
                                  all, or those named
  acrun status --recheck          run configure.ac again with the arguments
                                  of the last run
  acrun lint [--json] [FILE]..    say what is wrong with a configure.ac and
                                  its templates
  acrun port [--idioms] [FILE]    print a configure.ac with other macros
                                  rewritten
  acrun header [FILE]             print a header template, such as config.h.in,
                                  for what a configure.ac may define
  acrun why [WORD [LOG]]          say why a check in config.log has its
                                  answer
  acrun standin [WORD]..          answer in a compiler's place, for trials
  acrun                           fill one template: configure.ac, a line %%,
                                  a template on standard input
  acrun help [COMMAND]            this text, or that of a command
  acrun --version                 the version

`acrun configure --help` lists the options of a package.
";

const CONFIGURE: &str = "\
Usage: acrun [-jN] configure [ARG]..

Runs ./configure.ac, or configure.ac in the directory that --srcdir names, and
makes its outputs in the current directory. -jN, before the command, runs up to
N children at once; N is from 1 to 16, and 1 by default. The result is the same
for each N.

  --srcdir=DIR            the directory of the source
  --cache-file=FILE, -C   keep answers in FILE, or in config.cache
  --prefix=DIR, --bindir=DIR, ..
                          directories of the installation
  --enable-X[=VALUE], --disable-X, --with-X[=VALUE], --without-X
                          options of the package
  -n, --no-create         make no outputs
  -q, --quiet, --silent   print no messages
  -h, --help              the options and variables of the package
  -V, --version           the version of the package
  VARIABLE=VALUE          CC, CFLAGS and others

Besides its outputs a run may leave:
  config.log config.status config.cache config.answers conftest* acrun-*.tmp

Exit status: 0 completed; 1 or another, as the source stops the run; 2 an
error; 3 a child could not be run, and the run was cut.
";

const STATUS: &str = "\
Usage: acrun status [NAME]..
       acrun status --recheck

Makes the outputs of the last run again, from its record config.status and the
templates: all, or those that are named. With --recheck it runs configure.ac
again with the arguments of the last run, and makes the record but no other
output.

Exit status: 0 done; 2 an error. With --recheck as `acrun configure`.
";

const LINT: &str = "\
Usage: acrun lint [--json] [FILE]..

Reads each FILE, a configure.ac or a directory of one (by default
./configure.ac; - is standard input), and its templates. Runs nothing, writes
nothing, and prints the errors and warnings, each with its place: the first
error that a run would report, each call of a macro that acrun does not know,
all errors that are found by reading on after each of these, and each template
that can't be read. --json prints an object a line.

Exit status: 0 no error; 1 errors; 2 a file can't be read, or the words are
wrong.
";

const PORT: &str = "\
Usage: acrun port [--idioms [--package=NAME,VERSION]] [FILE]

Reads FILE, a configure.ac or a directory of one (by default ./configure.ac; -
is standard input), and prints it with each call of a macro that acrun does not
support replaced, if another text does the same exactly, and with statements of
the shell that mean the same as a call: `if`, and a statement after a test and
`&&` or `||`, become AS_IF, and `case` becomes AS_CASE. A statement after
AC_DEFINE gets a line of its own, an argument with an `if` or a `case` gets
brackets, AC_HELP_STRING becomes AS_HELP_STRING, and backslashes go from the
ends of lines of lists. All else is copied. If FILE is not standard input, and
acrun then accepts the text, it gets lines that set what its templates use and
Autoconf sets itself: below AC_PROG_CC and above AC_OUTPUT, most of them with
--idioms alone. What has to be done by hand, in a template too, has a line
`dnl acrun: ..` above it, with what `acrun lint` says there. FILE itself is
not written. Standard error gets those warnings of `acrun lint` that say that
something in the text that is printed means another thing to Autoconf.

  --idioms   write texts too that differ from the macro, with the call's
             arguments in them, and AC_MSG_RESULT in place of `echo`, each
             below a line `dnl acrun: in place of MACRO: ..` that says in what;
             such a line is not counted as left to do
  --package=NAME,VERSION
             with --idioms: write this name and this version into AC_INIT,
             below such a line, if it has none, or one that a command or a
             macro makes; both have letters, digits, spaces and _ . - + ~ alone

Exit status: 0 nothing is left to do; 1 there are such lines; 2 a file can't be
read, its quotes have an error, or the words are wrong.
";

const HEADER: &str = "\
Usage: acrun header [FILE]

Reads FILE, a configure.ac or a directory of one (by default ./configure.ac; -
is standard input), and prints the template of a header, such as config.h.in:
each name that a run may define, once and in order, as `#undef NAME`, with a
comment that describes it. The comments are those of autoheader: the third
argument of AC_DEFINE and AC_DEFINE_UNQUOTED, and its own words for checks and
AC_INIT. Standard error gets a line `acrun: undescribed NAME` for each name
without one. FILE needs no AC_CONFIG_HEADERS. Nothing is written; to make the
template:

  acrun header >config.h.in

Exit status: 0 it is printed; 2 a file can't be read, FILE is refused (its
errors are on standard error), or the words are wrong.
";

const WHY: &str = "\
Usage: acrun why [WORD [LOG]]

Prints each check in LOG (by default config.log) that WORD is about, with its
answer, and the commands, diagnostics and statuses that led to it. WORD is a
part of the check's message (sys/stat.h), or a name made of its subject
(HAVE_SYS_STAT_H, ac_cv_header_sys_stat_h). Without WORD it prints the
arguments of the run that config.status is of.

Exit status: 0 found; 1 nothing matches; 2 a file can't be read, or the words
are wrong.
";

const STANDIN: &str = "\
Usage: acrun standin [WORD]..

Answers in a compiler's place, for trials without one: CC='acrun standin'. It
takes the WORDs of a compiler, and answers as the file standin.txt in the
current directory says.

Exit status: 0 the conftest is accepted; 1 it is not; 2 an error.
";

const HELP: &str = "\
Usage: acrun help [COMMAND]

Prints the commands, or how COMMAND is called.
";

/// The commands, each with its text.
#[rattlefmt::skip]
const COMMANDS: [(&[u8], &str); 8] = [
    (b"configure", CONFIGURE), (b"status", STATUS), (b"lint", LINT), (b"port", PORT), (b"header", HEADER), (b"why", WHY),
    (b"standin", STANDIN), (b"help", HELP),
];

/// Returns what is printed of the program as a whole.
pub(crate) fn general() -> &'static str {
    GENERAL
}

/// Returns the text of the command of this name.
pub(crate) fn text_of(name: &[u8]) -> Option<&'static str> {
    for row in COMMANDS.iter() {
        if row.0 == name {
            return Some(row.1);
        }
    }
    None
}
