//! The macros whose idioms `acrun port` writes. `tools/macro_table.py` writes this file from `macros.txt` of `lint_macros`.

ghost use Rattle.std.specs.Prelude.{◌≡◌};

/// The macros that have an exact idiom, each with the least and the largest number of arguments that it is exact for.
#[rattlefmt::skip]
pub const EXACT: &[u8] = b"\
AC_CHECKING 1 1
AC_CHECK_TYPE(default) 2 2
AC_CONFIG_HEADER 1 1
AC_CONST 0 0
AC_C_CONST 0 0
AC_C_CROSS 0 0
AC_C_VOLATILE 0 0
AC_DIAGNOSE 2 2
AC_ERROR 1 1
AC_EXEEXT 0 0
AC_FUNC_CHECK 1 1
AC_FUNC_GETMNTENT 0 0
AC_FUNC_MBRTOWC 0 0
AC_FUNC_SETVBUF_REVERSED 0 0
AC_FUNC_STRFTIME 0 0
AC_HAVE_FUNCS 1 1
AC_HAVE_HEADERS 1 1
AC_HEADER_CHECK 1 1
AC_HEADER_MAJOR 0 0
AC_HEADER_STAT 0 0
AC_INIT() 0 0
AC_INIT(file) 1 1
AC_ISC_POSIX 0 0
AC_LN_S 0 0
AC_MODE_T 0 0
AC_MSG_FAILURE 1 1
AC_MSG_RESULT() 0 0
AC_OBJEXT 0 0
AC_OFF_T 0 0
AC_OUTPUT(files) 1 1
AC_PID_T 0 0
AC_PRESERVE_HELP_ORDER 0 0
AC_PROGRAMS_CHECK 2 2
AC_PROGRAM_CHECK 3 4
AC_PROGRAM_PATH 2 2
AC_PROG_AWK 0 0
AC_PROG_CC_C89 0 0
AC_PROG_CC_C99 0 0
AC_PROG_CC_C_O 0 0
AC_PROG_CC_STDC 0 0
AC_PROG_CPP 0 0
AC_PROG_GREP 0 0
AC_PROG_INSTALL 0 0
AC_PROG_LN_S 0 0
AC_PROG_MKDIR_P 0 0
AC_PROG_SED 0 0
AC_PROG_YACC 0 0
AC_RETSIGTYPE 0 0
AC_REVISION 0 1
AC_SETVBUF_REVERSED 0 0
AC_SIZE_T 0 0
AC_STRUCT_TM 0 0
AC_SYS_POSIX_TERMIOS 0 0
AC_TEST_PROGRAM 1 4
AC_TRY_COMPILE 2 4
AC_TRY_CPP 1 3
AC_TRY_LINK 2 4
AC_TRY_LINK_FUNC 1 3
AC_TRY_LINK_FUNC(main) 1 3
AC_TRY_RUN 1 4
AC_TYPE_MODE_T 0 0
AC_TYPE_OFF_T 0 0
AC_TYPE_PID_T 0 0
AC_TYPE_SIGNAL 0 0
AC_TYPE_SIZE_T 0 0
AC_TYPE_SSIZE_T 0 0
AC_VERBOSE 1 1
AC_WARN 1 1
AS_MESSAGE 1 1
AS_VAR_COPY 2 2
m4_pattern_allow 1 1";

/// Returns the rows of these macros, with a newline between them.
pub(crate) fn exact() -> &'static [u8]
    ensures { result.now ≡ EXACT.now }
{
    EXACT
}

/// The macros whose idiom differs, each with the least and the largest number of arguments that it is written for, and with what
/// is said of it.
#[rattlefmt::skip]
pub const DIFFERING: &[u8] = b"\
ACX_PTHREAD 0 0 the library is added to LIBS, and PTHREAD_CFLAGS is -pthread without a check
AC_AIX 0 0 only _GNU_SOURCE and __EXTENSIONS__ are defined, and config.h.in needs a line for each
AC_ALLOCA 0 0 the function is taken to be there, and ALLOCA is empty
AC_ARG_PROGRAM 0 0 no option changes the names of programs
AC_CACHE_VAL 2 2 a message with the name of the variable and its value are printed
AC_CANONICAL_BUILD 0 0 the system is not detected, so the user gives build and its parts, as NAME=VALUE
AC_CANONICAL_HOST 0 0 the system is not detected, so the user gives host and its parts, as NAME=VALUE
AC_CANONICAL_SYSTEM 0 0 no system is detected, so the user gives host, target and their parts, as NAME=VALUE
AC_CANONICAL_TARGET 0 0 no system is detected, so the user gives host, target and their parts, as NAME=VALUE
AC_CHAR_UNSIGNED 0 0 the compiler defines __CHAR_UNSIGNED__ itself
AC_CHECK_ALIGNOF 1 1 the headers that Autoconf includes are taken to be there, and an alignment other than 1, 2, 4, 8 and 16 is 0
AC_CHECK_DECLS_ONCE 1 1 each is checked here, and not all of them together at the first such call
AC_CHECK_FUNCS_ONCE 1 1 each is checked here, and not all of them together at the first such call
AC_CHECK_HEADERS_ONCE 1 1 each is checked here, and not all of them together at the first such call
AC_CHECK_HEADER_STDBOOL 0 0 HAVE_STDBOOL_H is defined if the header is there
AC_CHECK_MEMBER 1 3 the headers that Autoconf includes are taken to be there
AC_CHECK_MEMBER(includes) 4 4 if the fourth argument is empty, no header is included
AC_CHECK_MEMBERS 1 1 the headers that Autoconf includes are taken to be there
AC_CHECK_MEMBERS(actions) 2 3 the headers that Autoconf includes are taken to be there
AC_CHECK_MEMBERS(includes) 4 4 if the fourth argument is empty, no header is included
AC_CHECK_SIZEOF 1 2 the headers that Autoconf includes are taken to be there, a blank after the type is dropped, and a size other than 1, 2, 4, 8, 12 and 16 is an error
AC_CHECK_TARGET_TOOL 2 3 no program whose name begins with that of the target is looked for, and no system is detected
AC_CHECK_TARGET_TOOLS 2 3 no program whose name begins with that of the target is looked for, and no system is detected
AC_CHECK_TOOL 2 3 no program whose name begins with that of the host is looked for
AC_CHECK_TOOLS 2 3 no program whose name begins with that of the host is looked for
AC_COMPILE_CHECK 3 5 what is checked is not printed
AC_CONFIG_LIBOBJ_DIR 1 1 the Makefile has to say where the sources of the objects are
AC_COPYRIGHT 1 1 no program prints the notice
AC_CYGWIN 0 0 a program is compiled, and the name of the host is not looked at
AC_C_BACKSLASH_A 0 0 nothing is defined, and the compiler is taken to have it
AC_C_BIGENDIAN 0 0 the macros of the compiler for the order of bytes decide, and no program is run
AC_C_CHAR_UNSIGNED 0 0 the compiler defines __CHAR_UNSIGNED__ itself
AC_C_FLEXIBLE_ARRAY_MEMBER 0 0 nothing is defined, and the compiler is taken to have it
AC_C_INLINE 0 0 inline is not defined, also where a flag such as -ansi takes it away
AC_C_LONG_DOUBLE 0 0 nothing is defined, and the compiler is taken to have it
AC_C_RESTRICT 0 0 nothing is defined, and the compiler is taken to have it
AC_C_STRINGIZE 0 0 nothing is defined, and the compiler is taken to have it
AC_C_TYPEOF 0 0 nothing is defined, and the compiler is taken to have it
AC_C_VARARRAYS 0 0 nothing is defined, and the compiler is taken to have it
AC_DIRENT 0 0 no other header and no library of directories is looked for
AC_DIR_HEADER 0 0 no other header and no library of directories is looked for
AC_DISABLE_SHARED 0 1 there is no libtool, so a rule of the Makefile links the library
AC_DISABLE_STATIC 0 1 there is no libtool, so a rule of the Makefile links the library
AC_EGREP_CPP(symbol) 2 4 the condition alone decides, no text is searched, and no program for that is looked for
AC_ENABLE_SHARED 0 1 there is no libtool, so a rule of the Makefile links the library
AC_ENABLE_STATIC 0 1 there is no libtool, so a rule of the Makefile links the library
AC_FUNC_ALLOCA 0 0 the function is taken to be there, and ALLOCA is empty
AC_FUNC_CHOWN 0 0 no program is run, so a function that is there counts as one that works
AC_FUNC_CLOSEDIR_VOID 0 0 the function is taken to work, and nothing is defined
AC_FUNC_ERROR_AT_LINE 0 0 the object is in EXTRA_OBJS and not in LIBOBJS
AC_FUNC_FORK 0 0 no program is run, so a function that is there counts as one that works
AC_FUNC_FSEEKO 0 0 _LARGEFILE_SOURCE is not defined
AC_FUNC_GETPGRP 0 0 GETPGRP_VOID is defined without a check
AC_FUNC_LSTAT 0 0 the function is taken to work, and nothing is defined
AC_FUNC_LSTAT_FOLLOWS_SLASHED_SYMLINK 0 0 the name is defined without a check
AC_FUNC_MALLOC 0 0 HAVE_MALLOC is 1 without a check
AC_FUNC_MEMCMP 0 0 the function is taken to work, and nothing is defined
AC_FUNC_MKTIME 0 0 the function is taken to work, and nothing is defined
AC_FUNC_MMAP 0 0 no program is run, so a function that is there counts as one that works
AC_FUNC_REALLOC 0 0 HAVE_REALLOC is 1 without a check
AC_FUNC_SELECT_ARGTYPES 0 0 the types are those of POSIX, without a check
AC_FUNC_SETPGRP 0 0 SETPGRP_VOID is defined without a check
AC_FUNC_STAT 0 0 the function is taken to work, and nothing is defined
AC_FUNC_STRCOLL 0 0 no program is run, so a function that is there counts as one that works
AC_FUNC_STRERROR_R 0 0 each call makes the checks, and not the first one alone
AC_FUNC_STRNLEN 0 0 no program is run, and the object is in EXTRA_OBJS and not in LIBOBJS
AC_FUNC_STRTOD 0 0 the function is taken to work, and nothing is defined
AC_FUNC_UTIME_NULL 0 0 HAVE_UTIME_NULL is defined without a check
AC_FUNC_VFORK 0 0 no program is run, so a function that is there counts as one that works
AC_FUNC_VPRINTF 0 0 each call makes the check, and not the first one alone
AC_GETGROUPS_T 0 0 GETGROUPS_T is gid_t without a check, and uid_t is not looked for
AC_GNU_SOURCE 0 0 only _GNU_SOURCE and __EXTENSIONS__ are defined, and config.h.in needs a line for each
AC_HEADER_DIRENT 0 0 no other header and no library of directories is looked for
AC_HEADER_RESOLV 0 0 resolv.h counts as missing if one of the other headers is missing
AC_HEADER_STDBOOL 0 0 HAVE_STDBOOL_H is defined if the header is there
AC_HEADER_STDC 0 0 STDC_HEADERS is defined without a check
AC_HEADER_SYS_WAIT 0 0 the header counts as that of POSIX if it is there
AC_HEADER_TIME 0 0 TIME_WITH_SYS_TIME is defined without a check, and sys/time.h is looked for here alone
AC_HEADER_TIOCGWINSZ 0 0 a program is compiled, and no text is searched for
AC_INIT(package) 0 0 the name and the version are those of AM_INIT_AUTOMAKE, and to Autoconf PACKAGE_NAME and its like are empty
AC_INIT(package,file) 0 0 the name and the version are those of AM_INIT_AUTOMAKE, and to Autoconf PACKAGE_NAME and its like are empty
AC_INLINE 0 0 inline is not defined, also where a flag such as -ansi takes it away
AC_LANG_C 0 0 C is the only language
AC_LANG_RESTORE 0 0 C is the only language
AC_LANG_SAVE 0 0 C is the only language
AC_LIBOBJ 1 1 the object is in EXTRA_OBJS and not in LIBOBJS
AC_LIBSOURCE 1 1 the Makefile has to say where the sources of the objects are
AC_LIBSOURCES 1 1 the Makefile has to say where the sources of the objects are
AC_LIBTOOL_DLOPEN 0 1 there is no libtool, so a rule of the Makefile links the library
AC_LIBTOOL_WIN32_DLL 0 1 there is no libtool, so a rule of the Makefile links the library
AC_LONG_FILE_NAMES 0 0 HAVE_LONG_FILE_NAMES is defined without a check
AC_MINGW32 0 0 a program is compiled, and the name of the host is not looked at
AC_MINIX 0 0 only _GNU_SOURCE and __EXTENSIONS__ are defined, and config.h.in needs a line for each
AC_MMAP 0 0 no program is run, so a function that is there counts as one that works
AC_PATH_TOOL 2 2 no program whose name begins with that of the host is looked for
AC_PATH_X 0 0 nothing is looked for, so the user gives X_CFLAGS and X_LIBS
AC_PATH_XTRA 0 0 nothing is looked for, so the user gives X_CFLAGS and X_LIBS
AC_PREFIX_DEFAULT 1 1 the prefix is the directory from here on, and not only from AC_OUTPUT on
AC_PROG_CXX 0 1 no compiler is looked for, so it is that of GNU if the user gives none
AC_PROG_CXXCPP 0 0 no preprocessor is tried, so it is that of GNU if the user gives none
AC_PROG_EGREP 0 0 no program is looked for
AC_PROG_FGREP 0 0 no program is looked for
AC_PROG_GCC_TRADITIONAL 0 0 no flag is added
AC_PROG_LEX 0 0 no scanner is made, so yytext is taken to be a pointer
AC_PROG_LIBTOOL 0 1 there is no libtool, so a rule of the Makefile links the library
AC_PROG_MAKE_SET 0 0 make is taken to set MAKE, so SET_MAKE is empty
AC_PROG_RANLIB 0 0 no program whose name begins with that of the host is looked for
AC_REPLACE_FUNCS 1 1 the object is in EXTRA_OBJS and not in LIBOBJS
AC_SET_MAKE 0 0 make is taken to set MAKE, so SET_MAKE is empty
AC_SIZEOF_TYPE 1 1 the headers that Autoconf includes are taken to be there, a blank after the type is dropped, and a size other than 1, 2, 4, 8, 12 and 16 is an error
AC_STDC_HEADERS 0 0 STDC_HEADERS is defined without a check
AC_STRCOLL 0 0 no program is run, so a function that is there counts as one that works
AC_STRUCT_ST_BLKSIZE 0 0 the headers that Autoconf includes are taken to be there
AC_STRUCT_ST_BLOCKS 0 0 the object is in EXTRA_OBJS and not in LIBOBJS, and the headers that Autoconf includes are taken to be there
AC_STRUCT_ST_RDEV 0 0 the headers that Autoconf includes are taken to be there
AC_STRUCT_TIMEZONE 0 0 the programs are others, and struct tm is taken to be in time.h
AC_ST_BLKSIZE 0 0 the headers that Autoconf includes are taken to be there
AC_ST_BLOCKS 0 0 the object is in EXTRA_OBJS and not in LIBOBJS, and the headers that Autoconf includes are taken to be there
AC_ST_RDEV 0 0 the headers that Autoconf includes are taken to be there
AC_SYS_LARGEFILE 0 0 _FILE_OFFSET_BITS is defined on each system, and --disable-largefile does nothing
AC_SYS_LONG_FILE_NAMES 0 0 HAVE_LONG_FILE_NAMES is defined without a check
AC_TIMEZONE 0 0 the programs are others, and struct tm is taken to be in time.h
AC_TIME_WITH_SYS_TIME 0 0 TIME_WITH_SYS_TIME is defined without a check, and sys/time.h is looked for here alone
AC_TYPE_GETGROUPS 0 0 GETGROUPS_T is gid_t without a check, and uid_t is not looked for
AC_TYPE_INT16_T 0 0 nothing is defined, and the sources take the type from stdint.h
AC_TYPE_INT32_T 0 0 nothing is defined, and the sources take the type from stdint.h
AC_TYPE_INT64_T 0 0 nothing is defined, and the sources take the type from stdint.h
AC_TYPE_INT8_T 0 0 nothing is defined, and the sources take the type from stdint.h
AC_TYPE_INTMAX_T 0 0 nothing is defined, and the sources take the type from stdint.h
AC_TYPE_INTPTR_T 0 0 nothing is defined, and the sources take the type from stdint.h
AC_TYPE_LONG_DOUBLE 0 0 nothing is defined, and the compiler is taken to have it
AC_TYPE_LONG_LONG_INT 0 0 nothing is defined, and the compiler is taken to have it
AC_TYPE_MBSTATE_T 0 0 nothing is defined, and the compiler is taken to have it
AC_TYPE_UID_T 0 0 a program is compiled, and the text of sys/types.h is not searched
AC_TYPE_UINT16_T 0 0 nothing is defined, and the sources take the type from stdint.h
AC_TYPE_UINT32_T 0 0 nothing is defined, and the sources take the type from stdint.h
AC_TYPE_UINT64_T 0 0 nothing is defined, and the sources take the type from stdint.h
AC_TYPE_UINT8_T 0 0 nothing is defined, and the sources take the type from stdint.h
AC_TYPE_UINTMAX_T 0 0 nothing is defined, and the sources take the type from stdint.h
AC_TYPE_UINTPTR_T 0 0 nothing is defined, and the sources take the type from stdint.h
AC_TYPE_UNSIGNED_LONG_LONG_INT 0 0 nothing is defined, and the compiler is taken to have it
AC_UID_T 0 0 a program is compiled, and the text of sys/types.h is not searched
AC_USE_SYSTEM_EXTENSIONS 0 0 only _GNU_SOURCE and __EXTENSIONS__ are defined, and config.h.in needs a line for each
AC_UTIME_NULL 0 0 HAVE_UTIME_NULL is defined without a check
AC_VFORK 0 0 no program is run, so a function that is there counts as one that works
AC_VPRINTF 0 0 each call makes the check, and not the first one alone
AC_WORDS_BIGENDIAN 0 0 the macros of the compiler for the order of bytes decide, and no program is run
AH_BOTTOM 1 1 the template of the header has to have its text
AH_TEMPLATE 2 2 the template of the header has to have its line
AH_TOP 1 1 the template of the header has to have its text
AH_VERBATIM 2 2 the template of the header has to have its text
AM_CONDITIONAL 2 2 there is no Automake, so each line of Makefile.in that depends on it begins with @NAME_TRUE@ or @NAME_FALSE@
AM_COND_IF 2 3 there is no Automake, and the variable of the condition is read
AM_CONFIG_HEADER 1 1 no stamp file is made
AM_DEP_TRACK 0 0 there is no Automake
AM_DISABLE_SHARED 0 1 there is no libtool, so a rule of the Makefile links the library
AM_DISABLE_STATIC 0 1 there is no libtool, so a rule of the Makefile links the library
AM_ENABLE_SHARED 0 1 there is no libtool, so a rule of the Makefile links the library
AM_ENABLE_STATIC 0 1 there is no libtool, so a rule of the Makefile links the library
AM_EXTRA_RECURSIVE_TARGETS 1 1 there is no Automake
AM_GNU_GETTEXT 0 1 a library that has gettext is added to LIBS, and a rule of the Makefile makes the catalogues
AM_GNU_GETTEXT_REQUIRE_VERSION 1 1 a rule of the Makefile makes the catalogues
AM_GNU_GETTEXT_VERSION 1 1 a rule of the Makefile makes the catalogues
AM_ICONV 0 0 a library that has iconv is added to LIBS, LIBICONV is empty, and ICONV_CONST is not defined
AM_INIT_AUTOMAKE 0 1 there is no Automake, and PACKAGE and VERSION are defined also if no-define is given
AM_INIT_AUTOMAKE(name) 2 3 there is no Automake, and PACKAGE and VERSION are defined also if a third argument is given
AM_LANGINFO_CODESET 0 0 the function is looked for, and CODESET is taken to be there
AM_MAINTAINER_MODE 0 1 there is no Automake
AM_MAKE_INCLUDE 0 0 there is no Automake
AM_NLS 0 0 a rule of the Makefile makes the catalogues
AM_OUTPUT_DEPENDENCY_COMMANDS 0 0 there is no Automake
AM_PATH_PYTHON 0 0 PYTHON is the only variable that is set
AM_PO_SUBDIRS 0 0 a rule of the Makefile makes the catalogues
AM_PROG_AR 0 0 no program whose name begins with that of the host is looked for, and ar is not tried
AM_PROG_CC_C_O 0 0 the compiler is taken to allow -c with -o
AM_PROG_CC_STDC 0 0 no flag is added
AM_PROG_LEX 0 0 no scanner is made, so yytext is taken to be a pointer
AM_PROG_LIBTOOL 0 1 there is no libtool, so a rule of the Makefile links the library
AM_SANITY_CHECK 0 0 there is no Automake
AM_SET_DEPDIR 0 0 there is no Automake
AM_SILENT_RULES 0 1 there is no Automake
AM_SUBST_NOTMAKE 1 1 there is no Automake
AM_XGETTEXT_OPTION 1 1 a rule of the Makefile makes the catalogues
AS_EXIT 1 1 a message is printed, and acrun refuses 0 as the status
AS_UNSET 1 1 the variable is empty and not unset
AS_VAR_SET_IF 1 3 a variable that is set to nothing counts as one that is not set
AX_CHECK_COMPILER_FLAGS 2 3 the flag is tried for C alone, and -Werror is not added to it
AX_CHECK_COMPILE_FLAG(actions) 2 3 the flag is tried for C alone, and -Werror is not added to it
AX_CHECK_COMPILE_FLAG(flags) 4 4 the flag is tried for C alone, and -Werror is not added to it
AX_CHECK_LINK_FLAG(actions) 2 3 the flag is tried for C alone
AX_CHECK_LINK_FLAG(flags) 4 4 the flag is tried for C alone
AX_PTHREAD 0 0 the library is added to LIBS, and PTHREAD_CFLAGS is -pthread without a check
GCC 0 0 AC_PROG_CC does not set it here, so a program asks for __GNUC__
LT_INIT 0 1 there is no libtool, so a rule of the Makefile links the library
LT_PREREQ 0 1 there is no libtool, so a rule of the Makefile links the library
PKG_CHECK_MODULES(actions) 4 4 no pkg-config is run, so the user gives the flags, and without those that link it is not found
PKG_CHECK_MODULES(flags) 2 2 no pkg-config is run, so the user gives the flags, and without those that link it is an error
PKG_CHECK_MODULES(found) 3 3 no pkg-config is run, so the user gives the flags, and without those that link it is an error
PKG_PROG_PKG_CONFIG 0 1 no pkg-config is run, so the user gives what it prints
gl_PROG_CC_C99 0 0 no flag is added
gl_USE_SYSTEM_EXTENSIONS 0 0 only _GNU_SOURCE and __EXTENSIONS__ are defined, and config.h.in needs a line for each
m4_ifdef(AM) 2 2 there is no Automake, so there is no such macro
m4_pattern_forbid 1 1 no word is forbidden";

/// Returns the rows of these macros, with a newline between them.
pub(crate) fn differing() -> &'static [u8]
    ensures { result.now ≡ DIFFERING.now }
{
    DIFFERING
}
