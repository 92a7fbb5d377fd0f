//! The runs and the records, with what is right for each. All of it is found by hand from the
//! rules. A text is a list of its parts, none of which is empty, so that what several texts have is
//! written once.

use crate::answers::{Right, RightThing};
use crate::given::Pair;
use crate::records::Remake;
use crate::runs::Run;
use engine::Kind;

// ---- what every record, every conftest and every report has

/// What every record begins with: its variables, but for those of the outputs.
const VARIABLES: &[u8] = br#"acrun-record 2
srcdir .
arg -C
var PACKAGE_NAME demo
var PACKAGE_TARNAME demo
var PACKAGE_VERSION 1.0
var PACKAGE_STRING demo 1.0
var PACKAGE_BUGREPORT 
var PACKAGE_URL 
var prefix /usr/local
var exec_prefix ${prefix}
var bindir ${exec_prefix}/bin
var sbindir ${exec_prefix}/sbin
var libexecdir ${exec_prefix}/libexec
var libdir ${exec_prefix}/lib
var datarootdir ${prefix}/share
var datadir ${datarootdir}
var sysconfdir ${prefix}/etc
var sharedstatedir ${prefix}/com
var localstatedir ${prefix}/var
var runstatedir ${localstatedir}/run
var includedir ${prefix}/include
var oldincludedir /usr/include
var docdir ${datarootdir}/doc/${PACKAGE_TARNAME}
var infodir ${datarootdir}/info
var htmldir ${docdir}
var dvidir ${docdir}
var pdfdir ${docdir}
var psdir ${docdir}
var localedir ${datarootdir}/locale
var mandir ${datarootdir}/man
var LIBS 
"#;

/// The definitions of AC_INIT in a record.
const DEFINITIONS: &[u8] = br#"def PACKAGE_NAME "demo"
def PACKAGE_TARNAME "demo"
def PACKAGE_VERSION "1.0"
def PACKAGE_STRING "demo 1.0"
def PACKAGE_BUGREPORT ""
def PACKAGE_URL ""
"#;

/// The same in a conftest.
const CONFDEFS: &[u8] = br#"/* confdefs.h */
#define PACKAGE_NAME "demo"
#define PACKAGE_TARNAME "demo"
#define PACKAGE_VERSION "1.0"
#define PACKAGE_STRING "demo 1.0"
#define PACKAGE_BUGREPORT ""
#define PACKAGE_URL ""
"#;

/// The same in a report.
const SHOWN: &[u8] =
    br#" PACKAGE_NAME="demo" PACKAGE_TARNAME="demo" PACKAGE_VERSION="1.0" PACKAGE_STRING="demo 1.0" PACKAGE_BUGREPORT="" PACKAGE_URL="""#;

// ---- a header that is found, without and with the cache of such a run

const HEADER: &[u8] = b"AC_INIT([demo],[1.0])
AC_CHECK_HEADERS([sys/stat.h])
AC_OUTPUT
";

const HEADER_CACHE: &[u8] = b"# config.cache of configure
ac_cv_header_sys_stat_h=${ac_cv_header_sys_stat_h=yes}
";

const HEADER_RECORD: &[&[u8]] = &[
    VARIABLES,
    DEFINITIONS,
    b"def HAVE_SYS_STAT_H 1
end
",
];

const HEADER_THINGS: &[RightThing] = &[
    (Kind::Cache, b"config.cache", &[HEADER_CACHE]),
    (Kind::Record, b"config.status", HEADER_RECORD),
];

const HEADER_REPORT: &[&[u8]] = &[
    b"completed [checking for sys/stat.h... ][yes
]",
    SHOWN,
    b" HAVE_SYS_STAT_H=1 ac_cv_header_sys_stat_h=yes log [checking for sys/stat.h... ]$ cc -c conftest1.c conftest1.c[",
    CONFDEFS,
    b"#include <stddef.h>
#include <stdio.h>
#include <stdlib.h>
#include <string.h>
#include <sys/types.h>
#include <sys/stat.h>
] 0[][yes
]",
];

pub const HEADER_RUN: Run = Run {
    source: HEADER,
    arg: b"-C",
    cache: b"",
    templates: &[],
    replies: b"0",
    window: 1,
    events: b"s0e0",
    right: Right {
        answer: HEADER_REPORT,
        refused: 0,
        artifacts: HEADER_THINGS,
    },
};

const CACHED_REPORT: &[&[u8]] = &[
    b"completed [checking for sys/stat.h... ][(cached) yes
]",
    SHOWN,
    b" HAVE_SYS_STAT_H=1 ac_cv_header_sys_stat_h=yes log [checking for sys/stat.h... ][(cached) yes
]",
];

pub const CACHED_RUN: Run = Run {
    cache: HEADER_CACHE,
    events: b"",
    right: Right {
        answer: CACHED_REPORT,
        refused: 0,
        artifacts: HEADER_THINGS,
    },
    ..HEADER_RUN
};

// ---- a list whose second child is refused, with one child at a time and with three

const LIST: &[u8] = b"AC_INIT([demo],[1.0])
AC_CHECK_FUNCS([f g f])
AC_OUTPUT
";

const LIST_REPORT: &[&[u8]] = &[
    b"cut 2 [checking for f... ][yes
][checking for g... ][refused
][checking for f... ][(cached) yes
]err[configure: cut short at child 2
]",
    SHOWN,
    b" HAVE_F=1 ac_cv_func_f=yes log [checking for f... ]$ cc -o conftest1 conftest1.c conftest1.c[",
    CONFDEFS,
    b"#undef f
char f (void);
int
main (void)
{
return f ();
  ;
  return 0;
}
] 0[][yes
][checking for g... ]$ cc -o conftest2 conftest2.c conftest2.c[",
    CONFDEFS,
    b"#undef g
char g (void);
int
main (void)
{
return g ();
  ;
  return 0;
}
] S[refused
][checking for f... ][(cached) yes
]err[configure: cut short at child 2
]",
];

pub const LIST_RUN: Run = Run {
    source: LIST,
    arg: b"",
    cache: b"",
    templates: &[],
    replies: b"0S",
    window: 1,
    events: b"s0e0r0",
    right: Right {
        answer: LIST_REPORT,
        refused: 0,
        artifacts: &[],
    },
};

pub const WIDE_RUN: Run = Run {
    window: 3,
    events: b"s0r1e0",
    ..LIST_RUN
};

// ---- a file and a header, whose run is refused its third put, and which are made again of its
// record

const OUTPUTS: &[u8] = b"AC_INIT([demo],[1.0])
AC_CONFIG_FILES([f])
AC_CONFIG_HEADERS([h])
AC_OUTPUT
";

const OUTPUTS_RECORD: &[&[u8]] = &[
    VARIABLES,
    b"var DEFS -DHAVE_CONFIG_H
",
    DEFINITIONS,
    b"file f f.in
header h h.in
end
",
];

const OUTPUTS_REPORT: &[&[u8]] = &[b"completed ", SHOWN, b" log "];

const TEMPLATES: &[Pair] = &[(b"f.in", b"@DEFS@"), (b"h.in", b"#undef X")];

pub const OUTPUTS_RUN: Run = Run {
    source: OUTPUTS,
    arg: b"-C",
    cache: b"",
    templates: TEMPLATES,
    replies: b"",
    window: 1,
    events: b"",
    right: Right {
        answer: OUTPUTS_REPORT,
        refused: 3,
        artifacts: &[
            (
                Kind::Cache,
                b"config.cache",
                &[b"# config.cache of configure\n"],
            ),
            (Kind::Record, b"config.status", OUTPUTS_RECORD),
        ],
    },
};

pub const REMAKE: Remake = Remake {
    text: OUTPUTS_RECORD,
    templates: TEMPLATES,
    tag: b"",
    right: Right {
        answer: &[b"2"],
        refused: 0,
        artifacts: &[
            (Kind::File, b"f", &[b"-DHAVE_CONFIG_H"]),
            (
                Kind::Header,
                b"h",
                &[b"/* h.  Generated from h.in by configure.  */\n/* #undef X */"],
            ),
        ],
    },
};

pub const UNKNOWN_TAG: Remake = Remake {
    tag: b"zz",
    right: Right {
        answer: &[b"tag 1"],
        refused: 0,
        artifacts: &[],
    },
    ..REMAKE
};

// ---- a record that is read and written again

pub const RECORD: &[u8] = b"acrun-record 1
srcdir .
var A x\\ny
end
";

pub const VALUE_OF_A: &[u8] = b"x\ny";
