//! The text of the table. `tools/macro_table.py` writes this file from `macros.txt`.

ghost use Rattle.std.specs.Prelude.{◌≡◌};

/// The table: records of a kind, names and a text, with a `~` between them.
#[rattlefmt::skip]
pub const TABLE: &[u8] = b"\
idiom AM_INIT_AUTOMAKE
AC_SUBST([PACKAGE], [$PACKAGE_TARNAME])
AC_SUBST([VERSION], [$PACKAGE_VERSION])
AC_DEFINE_UNQUOTED([PACKAGE], [\"$PACKAGE_TARNAME\"], [Name of package])
AC_DEFINE_UNQUOTED([VERSION], [\"$PACKAGE_VERSION\"], [Version number of package])~idiom AM_INIT_AUTOMAKE(name)
AC_SUBST([PACKAGE], [$1{NAME}])
AC_SUBST([VERSION], [$2{VERSION}])
AC_DEFINE_UNQUOTED([PACKAGE], [\"$PACKAGE\"], [Name of package])
AC_DEFINE_UNQUOTED([VERSION], [\"$VERSION\"], [Version number of package])~drop AM_SILENT_RULES AM_MAINTAINER_MODE AM_PROG_CC_C_O AC_PROG_CC_C_O AM_DEP_TRACK AM_MISSING_PROG AM_SANITY_CHECK AM_SET_DEPDIR AM_OUTPUT_DEPENDENCY_COMMANDS AM_EXTRA_RECURSIVE_TARGETS AM_SUBST_NOTMAKE AM_MAKE_INCLUDE m4_ifdef(AM)
there is no Automake: write a plain Makefile.in~idiom AC_PROG_INSTALL
AS_IF([test -z \"$INSTALL\"], [AC_SUBST([INSTALL], [\"install -c\"])])
AS_IF([test -z \"$INSTALL_PROGRAM\"], [AC_SUBST([INSTALL_PROGRAM], ['${INSTALL}'])])
AS_IF([test -z \"$INSTALL_SCRIPT\"], [AC_SUBST([INSTALL_SCRIPT], ['${INSTALL}'])])
AS_IF([test -z \"$INSTALL_DATA\"], [AC_SUBST([INSTALL_DATA], ['${INSTALL} -m 644'])])~idiom AM_CONDITIONAL
AS_IF([$2{TEST}],
  [$1!{NAME}_TRUE= $1!{NAME}_FALSE='#'],
  [$1!{NAME}_TRUE='#' $1!{NAME}_FALSE=])
AC_SUBST([$1!{NAME}_TRUE])
AC_SUBST([$1!{NAME}_FALSE])~idiom AM_COND_IF
AS_IF([test -z \"$$1!{NAME}_TRUE\"], [$2{ACTION}], [$3{}])~drop AC_C_CONST AC_C_VOLATILE AC_CONST AC_PROG_CC_STDC AC_PROG_CC_C89 AC_PROG_CC_C99
each compiler of this century has it; acrun port leaves the call out if AC_PROG_CC is there, which looks for the compiler; a flag such as -std=gnu99 is given in CFLAGS or CC~drop AC_C_INLINE AC_C_RESTRICT AC_C_PROTOTYPES AC_C_STRINGIZE AC_C_TYPEOF AC_C_BACKSLASH_A AC_C_CHAR_UNSIGNED AC_INLINE AC_PROG_GCC_TRADITIONAL AM_PROG_CC_STDC AM_C_PROTOTYPES gl_PROG_CC_C99 AC_CHAR_UNSIGNED
each compiler of this century has it; a flag such as -std=gnu99 is given in CFLAGS or CC~drop AC_ZOS_USS AC_EMXOS2 AC_HEADER_STAT AC_FUNC_STAT AC_FUNC_LSTAT AC_FUNC_MEMCMP AC_FUNC_CLOSEDIR_VOID AC_FUNC_SETVBUF_REVERSED AC_FUNC_MKTIME AC_FUNC_STRTOD AC_SETVBUF_REVERSED
it looks for a fault of systems that are long gone~idiom AC_ISC_POSIX
AC_SEARCH_LIBS([strerror], [cposix])~idiom AC_STRUCT_TM
AC_CACHE_CHECK([whether struct tm is in sys/time.h or time.h], [ac_cv_struct_tm],
  [AC_COMPILE_IFELSE([AC_LANG_PROGRAM([[#include <sys/types.h>
#include <time.h>]], [[struct tm tm; int *p = &tm.tm_sec; return !p;]])],
    [ac_cv_struct_tm=time.h], [ac_cv_struct_tm=sys/time.h])])
AS_IF([test \"$ac_cv_struct_tm\" = sys/time.h],
  [AC_DEFINE([TM_IN_SYS_TIME], [1], [Define to 1 if your <sys/time.h> declares struct tm.])])~drop AC_TYPE_INT8_T AC_TYPE_INT16_T AC_TYPE_INT32_T AC_TYPE_INT64_T AC_TYPE_UINT8_T AC_TYPE_UINT16_T AC_TYPE_UINT32_T AC_TYPE_UINT64_T AC_TYPE_INTMAX_T AC_TYPE_UINTMAX_T AC_TYPE_INTPTR_T AC_TYPE_UINTPTR_T AC_TYPE_LONG_LONG_INT AC_TYPE_UNSIGNED_LONG_LONG_INT AC_TYPE_LONG_DOUBLE AC_C_LONG_DOUBLE AC_TYPE_MBSTATE_T AC_C_FLEXIBLE_ARRAY_MEMBER AC_C_VARARRAYS gl_C_BOOL gl_AC_TYPE_LONG_LONG
each compiler of this century has it, the types in stdint.h; if the sources test a name such as HAVE_INTMAX_T, define it by AC_DEFINE~idiom AC_USE_SYSTEM_EXTENSIONS AC_GNU_SOURCE gl_USE_SYSTEM_EXTENSIONS AC_POSIX_SOURCE AC_AIX AC_MINIX
AC_DEFINE([_GNU_SOURCE], [1], [Enable GNU extensions.])
AC_DEFINE([__EXTENSIONS__], [1], [Enable extensions of Solaris.])~idiom AC_CONFIG_HEADER AM_CONFIG_HEADER
AC_CONFIG_HEADERS([$1{HEADER}])~idiom AC_HELP_STRING
AS_HELP_STRING([$1{OPTION}], [$2{TEXT}])~idiom AC_MSG_FAILURE
AC_MSG_ERROR([$1{MESSAGE}], [1])~idiom AC_ERROR AS_ERROR m4_fatal AC_FATAL
AC_MSG_ERROR([$1+{MESSAGE}])~idiom AC_CHECKING
AC_MSG_NOTICE([checking $1+{MESSAGE}...])~idiom AC_VERBOSE
AC_MSG_RESULT([$1+{MESSAGE}])~idiom AS_MESSAGE
AC_MSG_NOTICE([$1+{MESSAGE}])~idiom AC_WARN
AC_MSG_WARN([$1+{MESSAGE}])~idiom AC_CHECK_TOOL AC_CHECK_TOOLS AC_CHECK_TARGET_TOOL AC_CHECK_TARGET_TOOLS
AC_CHECK_PROGS([$1{VARIABLE}], [$2{PROGRAM}], [$3+{}])~idiom AC_PATH_TOOL AC_PATH_TARGET_TOOL AM_PATH_PROG_WITH_TEST
AC_PATH_PROG([$1{VARIABLE}], [$2{PROGRAM}])~idiom AC_HAVE_HEADERS
AC_CHECK_HEADERS([$1{HEADERS}])~idiom AC_HAVE_FUNCS
AC_CHECK_FUNCS([$1{FUNCTIONS}])~idiom AC_HEADER_CHECK
AC_CHECK_HEADER([$1+{HEADER}])~idiom AC_FUNC_CHECK
AC_CHECK_FUNC([$1+{FUNCTION}])~idiom AC_PROGRAM_CHECK
AC_CHECK_PROG([$1{VARIABLE}], [$2{PROGRAM}], [$3+{VALUE}], [$4+{OTHERWISE}])~idiom AC_PROGRAMS_CHECK
AC_CHECK_PROGS([$1{VARIABLE}], [$2{PROGRAMS}])~idiom AC_PROGRAM_PATH
AC_PATH_PROG([$1{VARIABLE}], [$2{PROGRAM}])~idiom AC_INIT(file)
AC_INIT([], [])
AC_CONFIG_SRCDIR([$1+{FILE}])~idiom AC_INIT()
AC_INIT([], [])~idiom AC_INIT(package)
AC_INIT([$1!{NAME}], [$2!{VERSION}])~idiom AC_INIT(package,file)
AC_INIT([$1!{NAME}], [$2!{VERSION}])
AC_CONFIG_SRCDIR([$3{FILE}])~idiom AC_MSG_RESULT()
AC_MSG_RESULT([])~idiom AC_OUTPUT(files)
AC_CONFIG_FILES([$1{FILES}])
AC_OUTPUT~none configure.in
the source is called configure.ac: rename it~none AC_PREREQ(version)
a version over 2.71 is refused: name the version that the source needs~none ./config.status stamp-h CONFIG_FILES= CONFIG_HEADERS= config.status
a rule that runs ./config.status NAME runs `acrun status NAME`, also for CONFIG_FILES=NAME and for stamp-h with config.h; a rule for --recheck runs `acrun status --recheck`~none AC_CONFIG_FILES(templates) AC_OUTPUT(templates)
a file has one template: join several before, or make the file by a rule of the Makefile~none AC_CONFIG_FILES(commands) AC_CONFIG_HEADERS(commands) AC_OUTPUT(commands)
no commands are run at the end: write a rule of the Makefile~idiom AC_HEADER_STDC AC_STDC_HEADERS
AC_DEFINE([STDC_HEADERS], [1], [Define to 1 if you have the C90 headers.])~idiom AC_HEADER_TIME AC_TIME_WITH_SYS_TIME
AC_CHECK_HEADERS([sys/time.h])
AC_DEFINE([TIME_WITH_SYS_TIME], [1], [Define to 1 if time.h and sys/time.h can both be included.])~idiom AC_TYPE_SIGNAL AC_RETSIGTYPE
AC_CACHE_CHECK([return type of signal handlers], [ac_cv_type_signal],
  [AC_COMPILE_IFELSE([AC_LANG_PROGRAM([[#include <sys/types.h>
#include <signal.h>]], [[return *(signal (0, 0)) (0) == 1;]])],
    [ac_cv_type_signal=int], [ac_cv_type_signal=void])])
AC_DEFINE_UNQUOTED([RETSIGTYPE], [$ac_cv_type_signal], [Define as the return type of signal handlers.])~idiom AC_TYPE_GETGROUPS AC_GETGROUPS_T
AC_DEFINE([GETGROUPS_T], [gid_t], [Define to the type of elements in the array set by getgroups.])~idiom AC_TYPE_SIZE_T AC_SIZE_T
AC_CHECK_TYPE([size_t], [], [AC_DEFINE([size_t], [unsigned int], [Define to a type of sizes if there is no size_t.])])~idiom AC_TYPE_OFF_T AC_OFF_T
AC_CHECK_TYPE([off_t], [], [AC_DEFINE([off_t], [long int], [Define to a type of file sizes if there is no off_t.])])~idiom AC_TYPE_PID_T AC_PID_T
AC_CHECK_TYPE([pid_t], [], [AC_DEFINE([pid_t], [int], [Define to a type of process ids if there is no pid_t.])])~idiom AC_TYPE_UID_T AC_UID_T
AC_CHECK_TYPE([uid_t], [],
  [AC_DEFINE([uid_t], [int], [Define to a type of user ids if there is no uid_t.])
   AC_DEFINE([gid_t], [int], [Define to a type of group ids if there is no uid_t.])])~idiom AC_TYPE_MODE_T AC_MODE_T
AC_CHECK_TYPE([mode_t], [], [AC_DEFINE([mode_t], [int], [Define to a type of file modes if there is no mode_t.])])~idiom AC_TYPE_SSIZE_T
AC_CHECK_TYPE([ssize_t], [], [AC_DEFINE([ssize_t], [int], [Define to a type of signed sizes if there is no ssize_t.])])~idiom AC_CHECK_TYPE(default)
AC_CHECK_TYPE([$1={TYPE}], [],
  [AC_DEFINE_UNQUOTED([$1={TYPE}], [$2+{DEFAULT}], [Define to a type if there is no $1={TYPE}.])])~idiom AC_HEADER_DIRENT AC_DIR_HEADER AC_DIRENT
AC_CHECK_HEADERS([dirent.h])~idiom AC_HEADER_SYS_WAIT
AC_CHECK_HEADERS([sys/wait.h])~idiom AC_HEADER_STDBOOL AC_CHECK_HEADER_STDBOOL AM_STDBOOL_H
AC_CHECK_HEADERS([stdbool.h])
AC_CHECK_TYPES([_Bool])~idiom AC_SYS_POSIX_TERMIOS
AC_CACHE_CHECK([POSIX termios], [ac_cv_sys_posix_termios],
  [AC_LINK_IFELSE([AC_LANG_PROGRAM([[#include <sys/types.h>
#include <unistd.h>
#include <termios.h>]], [[tcgetattr(0, 0);]])],
    [ac_cv_sys_posix_termios=yes], [ac_cv_sys_posix_termios=no])])~idiom AC_HEADER_TIOCGWINSZ
AC_CACHE_CHECK([whether termios.h defines TIOCGWINSZ], [ac_cv_sys_tiocgwinsz_in_termios_h],
  [AC_COMPILE_IFELSE([AC_LANG_PROGRAM([[#include <sys/types.h>
#include <termios.h>]], [[return TIOCGWINSZ == 0;]])],
    [ac_cv_sys_tiocgwinsz_in_termios_h=yes], [ac_cv_sys_tiocgwinsz_in_termios_h=no])])
AC_CACHE_CHECK([whether sys/ioctl.h defines TIOCGWINSZ], [ac_cv_sys_tiocgwinsz_in_sys_ioctl_h],
  [AC_COMPILE_IFELSE([AC_LANG_PROGRAM([[#include <sys/types.h>
#include <sys/ioctl.h>]], [[return TIOCGWINSZ == 0;]])],
    [ac_cv_sys_tiocgwinsz_in_sys_ioctl_h=yes], [ac_cv_sys_tiocgwinsz_in_sys_ioctl_h=no])])
AS_IF([test \"$ac_cv_sys_tiocgwinsz_in_termios_h\" != yes && test \"$ac_cv_sys_tiocgwinsz_in_sys_ioctl_h\" = yes],
  [AC_DEFINE([GWINSZ_IN_SYS_IOCTL], [1], [Define to 1 if sys/ioctl.h has TIOCGWINSZ, and not termios.h.])])~idiom AC_HEADER_MAJOR
AC_CHECK_HEADER([sys/mkdev.h], [AC_DEFINE([MAJOR_IN_MKDEV], [1], [Define to 1 if major is in sys/mkdev.h.])],
  [AC_CHECK_HEADER([sys/sysmacros.h], [AC_DEFINE([MAJOR_IN_SYSMACROS], [1], [Define to 1 if major is in sys/sysmacros.h.])])])~idiom AC_HEADER_RESOLV
AC_CHECK_HEADERS([netinet/in.h arpa/nameser.h netdb.h])
AC_CHECK_HEADERS([resolv.h], [], [], [#include <sys/types.h>
#include <netinet/in.h>
#include <arpa/nameser.h>])~idiom AC_CHECK_HEADERS_ONCE
AC_CHECK_HEADERS([$1{HEADERS}])~idiom AC_CHECK_FUNCS_ONCE
AC_CHECK_FUNCS([$1{FUNCTIONS}])~idiom AC_CHECK_DECLS_ONCE
AC_CHECK_DECLS([$1{SYMBOLS}])~idiom AC_HAVE_LIBRARY
dnl FUNCTION is one that the library has
AC_CHECK_LIB([$1!{LIBRARY}], [FUNCTION])~idiom AC_FUNC_ALLOCA AC_ALLOCA
AC_CHECK_HEADERS([alloca.h])
AC_DEFINE([HAVE_ALLOCA], [1], [Define to 1 if you have alloca, as a function or macro.])
AC_SUBST([ALLOCA])~idiom AC_FUNC_FORK AC_VFORK AC_FUNC_VFORK
AC_CHECK_HEADERS([vfork.h])
AC_CHECK_FUNCS([fork], [AC_DEFINE([HAVE_WORKING_FORK], [1], [Define to 1 if fork works.])])
AC_CHECK_FUNCS([vfork], [AC_DEFINE([HAVE_WORKING_VFORK], [1], [Define to 1 if vfork works.])])~idiom AC_FUNC_MALLOC
AC_DEFINE([HAVE_MALLOC], [1], [Define to 1 if malloc (0) gives a pointer.])~idiom AC_FUNC_REALLOC
AC_DEFINE([HAVE_REALLOC], [1], [Define to 1 if realloc of nothing works.])~idiom AC_FUNC_MMAP AC_MMAP
AC_CHECK_HEADERS([sys/param.h])
AC_CHECK_FUNCS([getpagesize mmap])~idiom AC_FUNC_STRERROR_R
AC_CHECK_DECLS([strerror_r])
AS_IF([test \"$ac_cv_have_decl_strerror_r\" = yes],
  [AC_DEFINE([HAVE_STRERROR_R], [1], [Define if you have strerror_r.])])
AC_CACHE_CHECK([whether strerror_r returns char *], [ac_cv_func_strerror_r_char_p],
  [ac_cv_func_strerror_r_char_p=no
   AS_IF([test \"$ac_cv_have_decl_strerror_r\" = yes],
     [AC_COMPILE_IFELSE([AC_LANG_PROGRAM([[#include <string.h>]],
         [[char buf[100]; char x = *strerror_r (0, buf, sizeof buf);
char *p = strerror_r (0, buf, sizeof buf); return !p || x;]])],
       [ac_cv_func_strerror_r_char_p=yes])])])
AS_IF([test \"$ac_cv_func_strerror_r_char_p\" = yes],
  [AC_DEFINE([STRERROR_R_CHAR_P], [1], [Define to 1 if strerror_r returns char *.])])~idiom AC_FUNC_VPRINTF AC_VPRINTF
AC_CHECK_FUNCS([vprintf], [],
  [AC_CHECK_FUNC([_doprnt], [AC_DEFINE([HAVE_DOPRNT], [1], [Define to 1 if you have _doprnt, and not vprintf.])])])~idiom AC_FUNC_STRFTIME AC_STRFTIME
AC_CHECK_FUNCS([strftime], [],
  [AC_CHECK_LIB([intl], [strftime],
    [AC_DEFINE([HAVE_STRFTIME], [1], [Define to 1 if you have strftime.])
     LIBS=\"-lintl $LIBS\"])])~idiom AC_FUNC_STRCOLL AC_STRCOLL
AC_CHECK_FUNCS([strcoll])~idiom AC_FUNC_STRNLEN
AC_CHECK_FUNC([strnlen], [], [EXTRA_OBJS=\"$EXTRA_OBJS strnlen.o\"])
AC_SUBST([EXTRA_OBJS])~idiom AC_FUNC_MBRTOWC
AC_CACHE_CHECK([whether mbrtowc and mbstate_t are properly declared], [ac_cv_func_mbrtowc],
  [AC_LINK_IFELSE([AC_LANG_PROGRAM([[#include <wchar.h>]],
      [[wchar_t wc; char const s[] = \"\"; size_t n = 1; mbstate_t state;
return ! (sizeof state && (mbrtowc) (&wc, s, n, &state));]])],
    [ac_cv_func_mbrtowc=yes], [ac_cv_func_mbrtowc=no])])
AS_IF([test \"$ac_cv_func_mbrtowc\" = yes],
  [AC_DEFINE([HAVE_MBRTOWC], [1], [Define to 1 if mbrtowc and mbstate_t are properly declared.])])~idiom AC_FUNC_FSEEKO
AC_CHECK_FUNCS([fseeko])~idiom AC_FUNC_ERROR_AT_LINE
AC_CHECK_FUNC([error_at_line], [], [EXTRA_OBJS=\"$EXTRA_OBJS error.o\"])
AC_SUBST([EXTRA_OBJS])~idiom AC_FUNC_CHOWN
AC_CHECK_FUNCS([chown])~idiom AC_FUNC_GETMNTENT
AC_SEARCH_LIBS([getmntent], [sun seq gen], [AC_DEFINE([HAVE_GETMNTENT], [1], [Define to 1 if you have getmntent.])])~idiom AC_FUNC_LSTAT_FOLLOWS_SLASHED_SYMLINK
AC_DEFINE([LSTAT_FOLLOWS_SLASHED_SYMLINK], [1], [Define to 1 if lstat follows a link with a slash after it.])~idiom AC_FUNC_UTIME_NULL AC_UTIME_NULL
AC_CHECK_HEADERS([utime.h])
AC_DEFINE([HAVE_UTIME_NULL], [1], [Define to 1 if utime takes a null pointer.])~idiom AC_FUNC_GETPGRP
AC_DEFINE([GETPGRP_VOID], [1], [Define to 1 if getpgrp has no argument.])~idiom AC_FUNC_SETPGRP
AC_DEFINE([SETPGRP_VOID], [1], [Define to 1 if setpgrp has no argument.])~idiom AC_FUNC_SELECT_ARGTYPES
AC_CHECK_HEADERS([sys/select.h sys/socket.h])
AC_DEFINE([SELECT_TYPE_ARG1], [int], [Define to the type of arg 1 for select.])
AC_DEFINE([SELECT_TYPE_ARG234], [(fd_set *)], [Define to the type of args 2, 3 and 4 for select.])
AC_DEFINE([SELECT_TYPE_ARG5], [(struct timeval *)], [Define to the type of arg 5 for select.])~idiom AC_SYS_LONG_FILE_NAMES AC_LONG_FILE_NAMES
AC_DEFINE([HAVE_LONG_FILE_NAMES], [1], [Define to 1 if names of files may be long.])~idiom AC_CANONICAL_HOST
AC_ARG_VAR([host], [the system that the programs run on, as CPU-VENDOR-OS])
AC_ARG_VAR([host_cpu], [the first part of host, such as x86_64])
AC_ARG_VAR([host_vendor], [the second part of host, such as pc])
AC_ARG_VAR([host_os], [the last part of host, such as linux-gnu])
AS_IF([test -z \"$host\"], [AC_MSG_WARN([host is not detected: give host=CPU-VENDOR-OS and its parts])])~idiom AC_CANONICAL_BUILD
AC_ARG_VAR([build], [the system that configure runs on, as CPU-VENDOR-OS])
AC_ARG_VAR([build_cpu], [the first part of build, such as x86_64])
AC_ARG_VAR([build_vendor], [the second part of build, such as pc])
AC_ARG_VAR([build_os], [the last part of build, such as linux-gnu])
AS_IF([test -z \"$build\"], [AC_MSG_WARN([build is not detected: give build=CPU-VENDOR-OS and its parts])])~idiom AC_CANONICAL_TARGET AC_CANONICAL_SYSTEM
AC_ARG_VAR([host], [the system that the programs run on, as CPU-VENDOR-OS])
AC_ARG_VAR([host_cpu], [the first part of host, such as x86_64])
AC_ARG_VAR([host_vendor], [the second part of host, such as pc])
AC_ARG_VAR([host_os], [the last part of host, such as linux-gnu])
AC_ARG_VAR([target], [the system that the programs make code for, as CPU-VENDOR-OS])
AC_ARG_VAR([target_cpu], [the first part of target, such as x86_64])
AC_ARG_VAR([target_vendor], [the second part of target, such as pc])
AC_ARG_VAR([target_os], [the last part of target, such as linux-gnu])
AS_IF([test -z \"$host\" || test -z \"$target\"],
  [AC_MSG_WARN([host and target are not detected: give host=CPU-VENDOR-OS, target=CPU-VENDOR-OS and their parts])])~idiom AC_CYGWIN
AC_CACHE_CHECK([whether this is for Cygwin], [my_cv_os_cygwin],
  [AC_COMPILE_IFELSE([AC_LANG_SOURCE([[#ifndef __CYGWIN__
#error another system
#endif
int main (void) { return 0; }]])], [my_cv_os_cygwin=yes], [my_cv_os_cygwin=no])])
AS_IF([test \"$my_cv_os_cygwin\" = yes], [CYGWIN=yes], [CYGWIN=no])~idiom AC_MINGW32 AC_OS_WINDOWS
AC_CACHE_CHECK([whether this is for Windows], [my_cv_os_windows],
  [AC_COMPILE_IFELSE([AC_LANG_SOURCE([[#ifndef _WIN32
#error another system
#endif
int main (void) { return 0; }]])], [my_cv_os_windows=yes], [my_cv_os_windows=no])])
AS_IF([test \"$my_cv_os_windows\" = yes], [MINGW32=yes], [MINGW32=no])~idiom AC_PROG_RANLIB AM_PROG_RANLIB
AC_CHECK_PROGS([RANLIB], [ranlib], [:])~idiom AM_PROG_AR AC_PROG_AR
AC_CHECK_PROGS([AR], [ar])
AS_IF([test -z \"$AR\"], [AC_MSG_ERROR([there is no ar in PATH])])~idiom GCC
AC_CACHE_CHECK([whether the compiler is GNU C], [ac_cv_c_compiler_gnu],
  [AC_COMPILE_IFELSE([AC_LANG_PROGRAM([[#ifndef __GNUC__
#error another compiler
#endif]], [])], [ac_cv_c_compiler_gnu=yes], [ac_cv_c_compiler_gnu=no])])
ac_compiler_gnu=$ac_cv_c_compiler_gnu
AS_IF([test \"$ac_compiler_gnu\" = yes], [GCC=yes], [GCC=])~idiom AC_PROG_CPP
AC_ARG_VAR([CPP], [C preprocessor])
AS_IF([test -z \"$CPP\"], [CPP=\"$CC -E\"])~idiom AC_PROG_CXX
AC_ARG_VAR([CXX], [C++ compiler])
AC_ARG_VAR([CXXFLAGS], [flags of the C++ compiler])
AS_IF([test -z \"$CXX\"], [CXX=g++])
AS_IF([test -z \"$CXXFLAGS\"], [CXXFLAGS=\"-g -O2\"])~idiom AC_PROG_CXXCPP
AC_ARG_VAR([CXXCPP], [C++ preprocessor])
AS_IF([test -z \"$CXXCPP\"], [CXXCPP=\"g++ -E\"])~idiom AC_PROG_LN_S AC_LN_S
AC_SUBST([LN_S], [\"ln -s\"])~idiom AC_PROG_MKDIR_P AM_PROG_MKDIR_P
AS_IF([test -z \"$MKDIR_P\"], [AC_SUBST([MKDIR_P], [\"mkdir -p\"])])~idiom AC_PROG_GREP
AC_PATH_PROG([GREP], [grep])~idiom AC_PROG_EGREP
AC_SUBST([EGREP], [\"grep -E\"])~idiom AC_PROG_FGREP
AC_SUBST([FGREP], [\"grep -F\"])~idiom AC_PROG_SED
AC_PATH_PROG([SED], [sed])~idiom AC_PROG_AWK
AC_CHECK_PROGS([AWK], [gawk mawk nawk awk])~idiom AC_PROG_YACC
AC_CHECK_PROG([YACC], [bison], [bison -y])
AC_CHECK_PROGS([YACC], [byacc], [yacc])
AC_ARG_VAR([YACC], [parser generator])
AC_ARG_VAR([YFLAGS], [flags of the parser generator])~idiom AC_PROG_LEX AM_PROG_LEX AC_DECL_YYTEXT
AC_CHECK_PROGS([LEX], [flex lex], [:])
AS_IF([test \"$LEX\" != :], [
  AC_CHECK_LIB([l], [yywrap], [LEXLIB=-ll], [AC_CHECK_LIB([fl], [yywrap], [LEXLIB=-lfl])])
  LEX_OUTPUT_ROOT=lex.yy
  AC_DEFINE([YYTEXT_POINTER], [1], [Define to 1 if yytext is a char *.])
])
AC_SUBST([LEXLIB])
AC_SUBST([LEX_OUTPUT_ROOT])~idiom AM_PROG_AS
AC_ARG_VAR([CCAS], [assembler])
AC_ARG_VAR([CCASFLAGS], [flags of the assembler])
AS_IF([test -z \"$CCAS\"], [CCAS=$CC])
AS_IF([test -z \"$CCASFLAGS\"], [CCASFLAGS=$CFLAGS])~idiom AC_PROG_MAKE_SET AC_SET_MAKE
AC_SUBST([SET_MAKE])~idiom AC_PROG_SHELL
AC_SUBST([SHELL], [/bin/sh])~idiom AC_OBJEXT
AC_SUBST([OBJEXT], [o])~idiom AC_EXEEXT
AC_SUBST([EXEEXT])~idiom AC_ARG_PROGRAM
AC_SUBST([program_transform_name], ['s,x,x,'])~idiom PKG_CHECK_MODULES PKG_CHECK_MODULES_STATIC PKG_HAVE_DEFINE_WITH_MODULES PKG_HAVE_WITH_MODULES
dnl LIBRARY is what -l names
AC_ARG_VAR([$1!{NAME}_CFLAGS], [flags that compile with $1!{NAME}])
AC_ARG_VAR([$1!{NAME}_LIBS], [flags that link with $1!{NAME}])
AS_IF([test -z \"$$1!{NAME}_LIBS\"], [$1!{NAME}_LIBS=-lLIBRARY])
$1!{NAME}_CFLAGS_before=$CFLAGS $1!{NAME}_LIBS_before=$LIBS
CFLAGS=\"$CFLAGS $$1!{NAME}_CFLAGS\" LIBS=\"$$1!{NAME}_LIBS $LIBS\"
AC_CACHE_CHECK([for $1!{NAME}], [my_cv_$1!{NAME}],
  [AC_LINK_IFELSE([AC_LANG_PROGRAM([], [])], [my_cv_$1!{NAME}=yes], [my_cv_$1!{NAME}=no])])
CFLAGS=$$1!{NAME}_CFLAGS_before LIBS=$$1!{NAME}_LIBS_before
AS_IF([test \"$my_cv_$1!{NAME}\" != yes], [AC_MSG_ERROR([no program links with $$1!{NAME}_LIBS: give $1!{NAME}_CFLAGS and $1!{NAME}_LIBS])])~idiom PKG_CHECK_MODULES(flags)
AC_ARG_VAR([$1!{NAME}_CFLAGS], [flags that compile with $1!{NAME}])
AC_ARG_VAR([$1!{NAME}_LIBS], [flags that link with $1!{NAME}])
AS_IF([test -z \"$$1!{NAME}_LIBS\"], [AC_MSG_ERROR([give $1!{NAME}_CFLAGS and $1!{NAME}_LIBS, as pkg-config prints them])])~idiom PKG_CHECK_MODULES(found)
AC_ARG_VAR([$1!{NAME}_CFLAGS], [flags that compile with $1!{NAME}])
AC_ARG_VAR([$1!{NAME}_LIBS], [flags that link with $1!{NAME}])
AS_IF([test -n \"$$1!{NAME}_LIBS\"], [$3{FOUND}], [AC_MSG_ERROR([give $1!{NAME}_CFLAGS and $1!{NAME}_LIBS, as pkg-config prints them])])~idiom PKG_CHECK_MODULES(actions)
AC_ARG_VAR([$1!{NAME}_CFLAGS], [flags that compile with $1!{NAME}])
AC_ARG_VAR([$1!{NAME}_LIBS], [flags that link with $1!{NAME}])
AS_IF([test -n \"$$1!{NAME}_LIBS\"], [$3{FOUND}], [$4{NOT-FOUND}])~drop PKG_PROG_PKG_CONFIG PKG_CONFIG PKG_INSTALLDIR PKG_NOARCH_INSTALLDIR
no pkg-config is run: the user gives what it prints~none PKG_CHECK_EXISTS PKG_CHECK_VAR AM_PATH_GTK_2_0 AM_PATH_GLIB_2_0 AM_PATH_SDL AM_PATH_SDL2 AM_PATH_XML2
no pkg-config is run: let the user give the flags by AC_ARG_VAR, and link a program with them~idiom AC_SYS_LARGEFILE
AC_DEFINE([_FILE_OFFSET_BITS], [64], [Number of bits in a file offset.])~idiom AC_TRY_COMPILE
AC_COMPILE_IFELSE([AC_LANG_PROGRAM([[$1{INCLUDES}]], [[$2{BODY}]])],
  [$3{FOUND}], [$4{NOT-FOUND}])~idiom AC_TRY_LINK
AC_LINK_IFELSE([AC_LANG_PROGRAM([[$1{INCLUDES}]], [[$2{BODY}]])],
  [$3{FOUND}], [$4{NOT-FOUND}])~idiom AC_TRY_LINK_FUNC
AC_LINK_IFELSE([AC_LANG_PROGRAM([[char $1!{FUNCTION} ();]], [[return $1!{FUNCTION} ();]])],
  [$2{FOUND}], [$3{NOT-FOUND}])~idiom AC_TRY_LINK_FUNC(main)
AC_LINK_IFELSE([AC_LANG_PROGRAM([], [[return $1={FUNCTION} ();]])],
  [$2{FOUND}], [$3{NOT-FOUND}])~idiom AC_TRY_RUN AC_TEST_PROGRAM
AC_RUN_IFELSE([AC_LANG_SOURCE([[$1{PROGRAM}]])],
  [$2{FOUND}], [$3{NOT-FOUND}], [$4{CROSS}])~idiom AC_TRY_CPP AC_TEST_CPP
AC_PREPROC_IFELSE([AC_LANG_SOURCE([[$1{INCLUDES}]])],
  [$2{FOUND}], [$3{NOT-FOUND}])~idiom AC_COMPILE_CHECK
AC_LINK_IFELSE([AC_LANG_PROGRAM([[$2{INCLUDES}]], [[$3{BODY}]])],
  [$4{FOUND}], [$5{NOT-FOUND}])~idiom AC_CACHE_VAL
AC_CACHE_CHECK([for $1!{NAME_cv_NAME}], [$1!{NAME_cv_NAME}],
  [$2{COMMANDS}])~idiom AC_EGREP_CPP
dnl SYMBOL is what the text tests
AC_PREPROC_IFELSE([AC_LANG_SOURCE([[#include <stdio.h>
#ifndef SYMBOL
#error none
#endif]])], [$3{FOUND}], [$4{NOT-FOUND}])~idiom AC_EGREP_CPP(symbol)
AC_PREPROC_IFELSE([AC_LANG_SOURCE([[$1{PROGRAM}]])],
  [$2{FOUND}], [$3{NOT-FOUND}])~idiom AC_EGREP_HEADER
dnl of a type: AC_CHECK_TYPE with the same arguments
AC_CHECK_DECL([$1!{SYMBOL}], [$3{FOUND}], [$4{NOT-FOUND}], [#include <$2!{HEADER}>])~idiom AC_EGREP_HEADER(type)
AC_CHECK_TYPE([$1!{TYPE}], [$3{FOUND}], [$4{NOT-FOUND}], [#include <$2!{HEADER}>])~idiom AC_CHECK_MEMBERS
AC_CACHE_CHECK([for $1{TYPE.MEMBER}], [ac_cv_member_$1_{TYPE_MEMBER}],
  [AC_COMPILE_IFELSE([AC_LANG_PROGRAM([AC_INCLUDES_DEFAULT
#include <inttypes.h>
#include <sys/stat.h>
#include <unistd.h>],
      [[static $1<{TYPE} whole; if (whole.$1>{MEMBER}) return 0;]])],
    [ac_cv_member_$1_{TYPE_MEMBER}=yes],
    [AC_COMPILE_IFELSE([AC_LANG_PROGRAM([AC_INCLUDES_DEFAULT
#include <inttypes.h>
#include <sys/stat.h>
#include <unistd.h>],
        [[static $1<{TYPE} whole; if (sizeof whole.$1>{MEMBER}) return 0;]])],
      [ac_cv_member_$1_{TYPE_MEMBER}=yes], [ac_cv_member_$1_{TYPE_MEMBER}=no])])])
AS_IF([test \"$ac_cv_member_$1_{TYPE_MEMBER}\" = yes],
  [AC_DEFINE([HAVE_$1^{TYPE_MEMBER}], [1], [Define to 1 if there is $1{TYPE.MEMBER}.])])~idiom AC_CHECK_MEMBER
AC_CACHE_CHECK([for $1{TYPE.MEMBER}], [ac_cv_member_$1_{TYPE_MEMBER}],
  [AC_COMPILE_IFELSE([AC_LANG_PROGRAM([AC_INCLUDES_DEFAULT
#include <inttypes.h>
#include <sys/stat.h>
#include <unistd.h>],
      [[static $1<{TYPE} whole; if (whole.$1>{MEMBER}) return 0;]])],
    [ac_cv_member_$1_{TYPE_MEMBER}=yes],
    [AC_COMPILE_IFELSE([AC_LANG_PROGRAM([AC_INCLUDES_DEFAULT
#include <inttypes.h>
#include <sys/stat.h>
#include <unistd.h>],
        [[static $1<{TYPE} whole; if (sizeof whole.$1>{MEMBER}) return 0;]])],
      [ac_cv_member_$1_{TYPE_MEMBER}=yes], [ac_cv_member_$1_{TYPE_MEMBER}=no])])])
AS_IF([test \"$ac_cv_member_$1_{TYPE_MEMBER}\" = yes], [$2{FOUND}], [$3{NOT-FOUND}])~idiom AC_CHECK_MEMBERS(actions)
AC_CACHE_CHECK([for $1{TYPE.MEMBER}], [ac_cv_member_$1_{TYPE_MEMBER}],
  [AC_COMPILE_IFELSE([AC_LANG_PROGRAM([AC_INCLUDES_DEFAULT
#include <inttypes.h>
#include <sys/stat.h>
#include <unistd.h>],
      [[static $1<{TYPE} whole; if (whole.$1>{MEMBER}) return 0;]])],
    [ac_cv_member_$1_{TYPE_MEMBER}=yes],
    [AC_COMPILE_IFELSE([AC_LANG_PROGRAM([AC_INCLUDES_DEFAULT
#include <inttypes.h>
#include <sys/stat.h>
#include <unistd.h>],
        [[static $1<{TYPE} whole; if (sizeof whole.$1>{MEMBER}) return 0;]])],
      [ac_cv_member_$1_{TYPE_MEMBER}=yes], [ac_cv_member_$1_{TYPE_MEMBER}=no])])])
AS_IF([test \"$ac_cv_member_$1_{TYPE_MEMBER}\" = yes],
  [AC_DEFINE([HAVE_$1^{TYPE_MEMBER}], [1], [Define to 1 if there is $1{TYPE.MEMBER}.])
  $2{FOUND}], [$3{NOT-FOUND}])~idiom AC_CHECK_MEMBERS(includes)
AC_CACHE_CHECK([for $1{TYPE.MEMBER}], [ac_cv_member_$1_{TYPE_MEMBER}],
  [AC_COMPILE_IFELSE([AC_LANG_PROGRAM([$4{INCLUDES}],
      [[static $1<{TYPE} whole; if (whole.$1>{MEMBER}) return 0;]])],
    [ac_cv_member_$1_{TYPE_MEMBER}=yes],
    [AC_COMPILE_IFELSE([AC_LANG_PROGRAM([$4{INCLUDES}],
        [[static $1<{TYPE} whole; if (sizeof whole.$1>{MEMBER}) return 0;]])],
      [ac_cv_member_$1_{TYPE_MEMBER}=yes], [ac_cv_member_$1_{TYPE_MEMBER}=no])])])
AS_IF([test \"$ac_cv_member_$1_{TYPE_MEMBER}\" = yes],
  [AC_DEFINE([HAVE_$1^{TYPE_MEMBER}], [1], [Define to 1 if there is $1{TYPE.MEMBER}.])
  $2{FOUND}], [$3{NOT-FOUND}])~idiom AC_CHECK_MEMBER(includes)
AC_CACHE_CHECK([for $1{TYPE.MEMBER}], [ac_cv_member_$1_{TYPE_MEMBER}],
  [AC_COMPILE_IFELSE([AC_LANG_PROGRAM([$4{INCLUDES}],
      [[static $1<{TYPE} whole; if (whole.$1>{MEMBER}) return 0;]])],
    [ac_cv_member_$1_{TYPE_MEMBER}=yes],
    [AC_COMPILE_IFELSE([AC_LANG_PROGRAM([$4{INCLUDES}],
        [[static $1<{TYPE} whole; if (sizeof whole.$1>{MEMBER}) return 0;]])],
      [ac_cv_member_$1_{TYPE_MEMBER}=yes], [ac_cv_member_$1_{TYPE_MEMBER}=no])])])
AS_IF([test \"$ac_cv_member_$1_{TYPE_MEMBER}\" = yes], [$2{FOUND}], [$3{NOT-FOUND}])~idiom AC_STRUCT_TIMEZONE AC_TIMEZONE
AC_CACHE_CHECK([for struct tm.tm_zone], [ac_cv_member_struct_tm_tm_zone],
  [AC_COMPILE_IFELSE([AC_LANG_PROGRAM([[#include <time.h>]], [[return sizeof (((struct tm *) 0)->tm_zone) == 0;]])],
    [ac_cv_member_struct_tm_tm_zone=yes], [ac_cv_member_struct_tm_tm_zone=no])])
AS_IF([test \"$ac_cv_member_struct_tm_tm_zone\" = yes],
  [AC_DEFINE([HAVE_STRUCT_TM_TM_ZONE], [1], [Define to 1 if struct tm has tm_zone.])
   AC_DEFINE([HAVE_TM_ZONE], [1], [Define to 1 if struct tm has tm_zone.])],
  [AC_CHECK_DECLS([tzname], [AC_DEFINE([HAVE_TZNAME], [1], [Define to 1 if there is tzname.])], [], [#include <time.h>])])~idiom AC_STRUCT_ST_BLOCKS AC_ST_BLOCKS
AC_CACHE_CHECK([for struct stat.st_blocks], [ac_cv_member_struct_stat_st_blocks],
  [AC_COMPILE_IFELSE([AC_LANG_PROGRAM([AC_INCLUDES_DEFAULT
#include <inttypes.h>
#include <sys/stat.h>
#include <unistd.h>],
      [[static struct stat whole; if (whole.st_blocks) return 0;]])],
    [ac_cv_member_struct_stat_st_blocks=yes],
    [AC_COMPILE_IFELSE([AC_LANG_PROGRAM([AC_INCLUDES_DEFAULT
#include <inttypes.h>
#include <sys/stat.h>
#include <unistd.h>],
        [[static struct stat whole; if (sizeof whole.st_blocks) return 0;]])],
      [ac_cv_member_struct_stat_st_blocks=yes], [ac_cv_member_struct_stat_st_blocks=no])])])
AS_IF([test \"$ac_cv_member_struct_stat_st_blocks\" = yes],
  [AC_DEFINE([HAVE_STRUCT_STAT_ST_BLOCKS], [1], [Define to 1 if there is struct stat.st_blocks.])
   AC_DEFINE([HAVE_ST_BLOCKS], [1], [Define to 1 if there is struct stat.st_blocks.])],
  [EXTRA_OBJS=\"$EXTRA_OBJS fileblocks.o\"])
AC_SUBST([EXTRA_OBJS])~idiom AC_STRUCT_ST_BLKSIZE AC_ST_BLKSIZE
AC_CACHE_CHECK([for struct stat.st_blksize], [ac_cv_member_struct_stat_st_blksize],
  [AC_COMPILE_IFELSE([AC_LANG_PROGRAM([AC_INCLUDES_DEFAULT
#include <inttypes.h>
#include <sys/stat.h>
#include <unistd.h>],
      [[static struct stat whole; if (whole.st_blksize) return 0;]])],
    [ac_cv_member_struct_stat_st_blksize=yes],
    [AC_COMPILE_IFELSE([AC_LANG_PROGRAM([AC_INCLUDES_DEFAULT
#include <inttypes.h>
#include <sys/stat.h>
#include <unistd.h>],
        [[static struct stat whole; if (sizeof whole.st_blksize) return 0;]])],
      [ac_cv_member_struct_stat_st_blksize=yes], [ac_cv_member_struct_stat_st_blksize=no])])])
AS_IF([test \"$ac_cv_member_struct_stat_st_blksize\" = yes],
  [AC_DEFINE([HAVE_STRUCT_STAT_ST_BLKSIZE], [1], [Define to 1 if there is struct stat.st_blksize.])
   AC_DEFINE([HAVE_ST_BLKSIZE], [1], [Define to 1 if there is struct stat.st_blksize.])])~idiom AC_STRUCT_ST_RDEV AC_ST_RDEV
AC_CACHE_CHECK([for struct stat.st_rdev], [ac_cv_member_struct_stat_st_rdev],
  [AC_COMPILE_IFELSE([AC_LANG_PROGRAM([AC_INCLUDES_DEFAULT
#include <inttypes.h>
#include <sys/stat.h>
#include <unistd.h>],
      [[static struct stat whole; if (whole.st_rdev) return 0;]])],
    [ac_cv_member_struct_stat_st_rdev=yes],
    [AC_COMPILE_IFELSE([AC_LANG_PROGRAM([AC_INCLUDES_DEFAULT
#include <inttypes.h>
#include <sys/stat.h>
#include <unistd.h>],
        [[static struct stat whole; if (sizeof whole.st_rdev) return 0;]])],
      [ac_cv_member_struct_stat_st_rdev=yes], [ac_cv_member_struct_stat_st_rdev=no])])])
AS_IF([test \"$ac_cv_member_struct_stat_st_rdev\" = yes],
  [AC_DEFINE([HAVE_STRUCT_STAT_ST_RDEV], [1], [Define to 1 if there is struct stat.st_rdev.])
   AC_DEFINE([HAVE_ST_RDEV], [1], [Define to 1 if there is struct stat.st_rdev.])])~none AC_STRUCT_DIRENT_D_TYPE AC_STRUCT_DIRENT_D_INO
write what AC_CHECK_MEMBERS of the member is written as: AC_COMPILE_IFELSE of a program that uses it~idiom AC_CHECK_SIZEOF AC_SIZEOF_TYPE
AC_CACHE_CHECK([size of $1{TYPE}], [ac_cv_sizeof_$1_{TYPE}],
  [AC_COMPILE_IFELSE([AC_LANG_PROGRAM([AC_INCLUDES_DEFAULT
#include <inttypes.h>
#include <sys/stat.h>
#include <unistd.h>],
      [[static int wanted[sizeof ($1{TYPE}) == 8 ? 1 : -1]; return wanted[0];]])],
    [ac_cv_sizeof_$1_{TYPE}=8],
    [AC_COMPILE_IFELSE([AC_LANG_PROGRAM([AC_INCLUDES_DEFAULT
#include <inttypes.h>
#include <sys/stat.h>
#include <unistd.h>],
        [[static int wanted[sizeof ($1{TYPE}) == 4 ? 1 : -1]; return wanted[0];]])],
      [ac_cv_sizeof_$1_{TYPE}=4],
      [AC_COMPILE_IFELSE([AC_LANG_PROGRAM([AC_INCLUDES_DEFAULT
#include <inttypes.h>
#include <sys/stat.h>
#include <unistd.h>],
          [[static int wanted[sizeof ($1{TYPE}) == 2 ? 1 : -1]; return wanted[0];]])],
        [ac_cv_sizeof_$1_{TYPE}=2],
        [AC_COMPILE_IFELSE([AC_LANG_PROGRAM([AC_INCLUDES_DEFAULT
#include <inttypes.h>
#include <sys/stat.h>
#include <unistd.h>],
            [[static int wanted[sizeof ($1{TYPE}) == 1 ? 1 : -1]; return wanted[0];]])],
          [ac_cv_sizeof_$1_{TYPE}=1],
          [AC_COMPILE_IFELSE([AC_LANG_PROGRAM([AC_INCLUDES_DEFAULT
#include <inttypes.h>
#include <sys/stat.h>
#include <unistd.h>],
              [[static int wanted[sizeof ($1{TYPE}) == 16 ? 1 : -1]; return wanted[0];]])],
            [ac_cv_sizeof_$1_{TYPE}=16],
            [AC_COMPILE_IFELSE([AC_LANG_PROGRAM([AC_INCLUDES_DEFAULT
#include <inttypes.h>
#include <sys/stat.h>
#include <unistd.h>],
                [[static int wanted[sizeof ($1{TYPE}) == 12 ? 1 : -1]; return wanted[0];]])],
              [ac_cv_sizeof_$1_{TYPE}=12],
              [AC_COMPILE_IFELSE([AC_LANG_PROGRAM([AC_INCLUDES_DEFAULT
#include <inttypes.h>
#include <sys/stat.h>
#include <unistd.h>],
                  [[return sizeof ($1{TYPE}) == 0;]])],
                [ac_cv_sizeof_$1_{TYPE}=none], [ac_cv_sizeof_$1_{TYPE}=0])])])])])])])])
AS_IF([test \"$ac_cv_sizeof_$1_{TYPE}\" = none], [AC_MSG_ERROR([$1{TYPE} has none of the sizes that are tried], [77])])
AC_DEFINE_UNQUOTED([SIZEOF_$1^{TYPE}], [$ac_cv_sizeof_$1_{TYPE}], [The size of $1{TYPE}, as computed by sizeof.])~idiom AC_CHECK_ALIGNOF
AC_CACHE_CHECK([alignment of $1{TYPE}], [ac_cv_alignof_$1_{TYPE}],
  [AC_COMPILE_IFELSE([AC_LANG_PROGRAM([AC_INCLUDES_DEFAULT
#include <inttypes.h>
#include <sys/stat.h>
#include <unistd.h>
struct both { char c; $1{TYPE} t; };],
      [[static int wanted[offsetof (struct both, t) == 8 ? 1 : -1]; return wanted[0];]])],
    [ac_cv_alignof_$1_{TYPE}=8],
    [AC_COMPILE_IFELSE([AC_LANG_PROGRAM([AC_INCLUDES_DEFAULT
#include <inttypes.h>
#include <sys/stat.h>
#include <unistd.h>
struct both { char c; $1{TYPE} t; };],
        [[static int wanted[offsetof (struct both, t) == 4 ? 1 : -1]; return wanted[0];]])],
      [ac_cv_alignof_$1_{TYPE}=4],
      [AC_COMPILE_IFELSE([AC_LANG_PROGRAM([AC_INCLUDES_DEFAULT
#include <inttypes.h>
#include <sys/stat.h>
#include <unistd.h>
struct both { char c; $1{TYPE} t; };],
          [[static int wanted[offsetof (struct both, t) == 2 ? 1 : -1]; return wanted[0];]])],
        [ac_cv_alignof_$1_{TYPE}=2],
        [AC_COMPILE_IFELSE([AC_LANG_PROGRAM([AC_INCLUDES_DEFAULT
#include <inttypes.h>
#include <sys/stat.h>
#include <unistd.h>
struct both { char c; $1{TYPE} t; };],
            [[static int wanted[offsetof (struct both, t) == 1 ? 1 : -1]; return wanted[0];]])],
          [ac_cv_alignof_$1_{TYPE}=1],
          [AC_COMPILE_IFELSE([AC_LANG_PROGRAM([AC_INCLUDES_DEFAULT
#include <inttypes.h>
#include <sys/stat.h>
#include <unistd.h>
struct both { char c; $1{TYPE} t; };],
              [[static int wanted[offsetof (struct both, t) == 16 ? 1 : -1]; return wanted[0];]])],
            [ac_cv_alignof_$1_{TYPE}=16], [ac_cv_alignof_$1_{TYPE}=0])])])])])])
AC_DEFINE_UNQUOTED([ALIGNOF_$1^{TYPE}], [$ac_cv_alignof_$1_{TYPE}], [The alignment of $1{TYPE}.])~none AC_COMPUTE_INT AC_INT_16_BITS AC_LONG_64_BITS AC_LONG_DOUBLE
write an AC_COMPILE_IFELSE for each value that can be, as for AC_CHECK_SIZEOF~idiom AC_C_BIGENDIAN AC_WORDS_BIGENDIAN
AC_CACHE_CHECK([whether byte ordering is bigendian], [ac_cv_c_bigendian],
  [AC_COMPILE_IFELSE([AC_LANG_SOURCE([[#if __BYTE_ORDER__ != __ORDER_BIG_ENDIAN__
#error little
#endif
int main (void) { return 0; }]])], [ac_cv_c_bigendian=yes], [ac_cv_c_bigendian=no])])
AS_IF([test \"$ac_cv_c_bigendian\" = yes],
  [AC_DEFINE([WORDS_BIGENDIAN], [1], [Define to 1 if words have the most significant byte first.])])~idiom AC_REPLACE_FUNCS
AC_CHECK_FUNCS([$1!{FUNCTION}], [], [EXTRA_OBJS=\"$EXTRA_OBJS $1!{FUNCTION}.o\"])
AC_SUBST([EXTRA_OBJS])~idiom AC_LIBOBJ
EXTRA_OBJS=\"$EXTRA_OBJS $1!{NAME}.o\"
AC_SUBST([EXTRA_OBJS])~drop AC_CONFIG_LIBOBJ_DIR AC_LIBSOURCE AC_LIBSOURCES
the Makefile says where the sources of the objects are~idiom AC_PATH_PROGS
dnl one line for each program of the list, in its order
AC_PATH_PROG([$1!{VARIABLE}], [PROGRAM])
AS_IF([test -z \"$$1!{VARIABLE}\"], [AC_PATH_PROG([$1!{VARIABLE}], [NEXT])])~none AC_PATH_PROGS_FEATURE_CHECK
no program that is found is run: let the user give its name by AC_ARG_VAR~none AC_CONFIG_COMMANDS AC_CONFIG_COMMANDS_PRE AC_CONFIG_COMMANDS_POST AC_CONFIG_LINKS AC_CONFIG_SUBDIRS AC_LINK_FILES AC_OUTPUT_COMMANDS AC_CONFIG_TESTDIR AC_CONFIG_ITEMS
write a rule of the Makefile~idiom AM_GNU_GETTEXT AM_WITH_NLS AM_GLIB_GNU_GETTEXT
AC_ARG_ENABLE([nls], [AS_HELP_STRING([--disable-nls], [do not translate messages])], [], [enable_nls=yes])
AS_IF([test \"$enable_nls\" != no],
  [AC_SEARCH_LIBS([gettext], [intl],
    [AC_DEFINE([ENABLE_NLS], [1], [Define to 1 if messages are translated.])], [enable_nls=no])])
AC_SUBST([USE_NLS], [\"$enable_nls\"])
AC_SUBST([LIBINTL])~drop AM_GNU_GETTEXT_VERSION AM_GNU_GETTEXT_REQUIRE_VERSION AM_GNU_GETTEXT_NEED AM_GNU_GETTEXT_INTL_SUBDIR AM_XGETTEXT_OPTION AM_PO_SUBDIRS AM_NLS IT_PROG_INTLTOOL AC_PROG_INTLTOOL AM_INTL_SUBDIR
the Makefile says how catalogues of messages are made~idiom AM_ICONV AM_ICONV_LINK
AC_SEARCH_LIBS([iconv_open], [iconv],
  [AC_DEFINE([HAVE_ICONV], [1], [Define to 1 if you have iconv.])])
AC_SUBST([LIBICONV])~idiom AM_LANGINFO_CODESET
AC_CHECK_FUNCS([nl_langinfo], [AC_DEFINE([HAVE_LANGINFO_CODESET], [1], [Define to 1 if there is nl_langinfo (CODESET).])])~idiom AX_CHECK_COMPILE_FLAG AX_APPEND_COMPILE_FLAGS AX_C_CHECK_FLAG gl_WARN_ADD gl_COMPILER_OPTION_IF
CFLAGS_before=$CFLAGS
CFLAGS=\"$CFLAGS $1!{FLAG}\"
AC_CACHE_CHECK([whether the compiler accepts $1!{FLAG}], [my_cv_flag_$1_{FLAG}],
  [AC_COMPILE_IFELSE([AC_LANG_PROGRAM([], [])], [my_cv_flag_$1_{FLAG}=yes], [my_cv_flag_$1_{FLAG}=no])])
AS_IF([test \"$my_cv_flag_$1_{FLAG}\" != yes], [CFLAGS=$CFLAGS_before])~idiom AX_CHECK_COMPILE_FLAG(actions) AX_CHECK_COMPILER_FLAGS
CFLAGS_before=$CFLAGS
CFLAGS=\"$CFLAGS $1{FLAG}\"
AC_CACHE_CHECK([whether the C compiler accepts $1{FLAG}], [ax_cv_check_cflags__$1_{FLAG}],
  [AC_COMPILE_IFELSE([AC_LANG_PROGRAM([], [])], [ax_cv_check_cflags__$1_{FLAG}=yes], [ax_cv_check_cflags__$1_{FLAG}=no])])
CFLAGS=$CFLAGS_before
AS_IF([test \"$ax_cv_check_cflags__$1_{FLAG}\" = yes], [$2{ACCEPTED}], [$3{REFUSED}])~idiom AX_CHECK_COMPILE_FLAG(flags)
CFLAGS_before=$CFLAGS
CFLAGS=\"$CFLAGS $4{FLAGS} $1{FLAG}\"
AC_CACHE_CHECK([whether the C compiler accepts $1{FLAG}], [ax_cv_check_cflags_$4_{FLAGS}_$1_{FLAG}],
  [AC_COMPILE_IFELSE([AC_LANG_PROGRAM([], [])], [ax_cv_check_cflags_$4_{FLAGS}_$1_{FLAG}=yes], [ax_cv_check_cflags_$4_{FLAGS}_$1_{FLAG}=no])])
CFLAGS=$CFLAGS_before
AS_IF([test \"$ax_cv_check_cflags_$4_{FLAGS}_$1_{FLAG}\" = yes], [$2{ACCEPTED}], [$3{REFUSED}])~idiom AX_APPEND_FLAG
CFLAGS=\"$CFLAGS $1{FLAGS}\"~idiom AX_CHECK_LINK_FLAG
LDFLAGS_before=$LDFLAGS
LDFLAGS=\"$LDFLAGS $1!{-Wl,FLAG}\"
AC_CACHE_CHECK([whether the linker accepts $1!{-Wl,FLAG}], [my_cv_flag_$1_{FLAG}],
  [AC_LINK_IFELSE([AC_LANG_PROGRAM([], [])], [my_cv_flag_$1_{FLAG}=yes], [my_cv_flag_$1_{FLAG}=no])])
AS_IF([test \"$my_cv_flag_$1_{FLAG}\" != yes], [LDFLAGS=$LDFLAGS_before])~idiom AX_CHECK_LINK_FLAG(actions)
LDFLAGS_before=$LDFLAGS
LDFLAGS=\"$LDFLAGS $1{FLAG}\"
AC_CACHE_CHECK([whether the linker accepts $1{FLAG}], [ax_cv_check_ldflags__$1_{FLAG}],
  [AC_LINK_IFELSE([AC_LANG_PROGRAM([], [])], [ax_cv_check_ldflags__$1_{FLAG}=yes], [ax_cv_check_ldflags__$1_{FLAG}=no])])
LDFLAGS=$LDFLAGS_before
AS_IF([test \"$ax_cv_check_ldflags__$1_{FLAG}\" = yes], [$2{ACCEPTED}], [$3{REFUSED}])~idiom AX_CHECK_LINK_FLAG(flags)
LDFLAGS_before=$LDFLAGS
LDFLAGS=\"$LDFLAGS $4{FLAGS} $1{FLAG}\"
AC_CACHE_CHECK([whether the linker accepts $1{FLAG}], [ax_cv_check_ldflags_$4_{FLAGS}_$1_{FLAG}],
  [AC_LINK_IFELSE([AC_LANG_PROGRAM([], [])], [ax_cv_check_ldflags_$4_{FLAGS}_$1_{FLAG}=yes], [ax_cv_check_ldflags_$4_{FLAGS}_$1_{FLAG}=no])])
LDFLAGS=$LDFLAGS_before
AS_IF([test \"$ax_cv_check_ldflags_$4_{FLAGS}_$1_{FLAG}\" = yes], [$2{ACCEPTED}], [$3{REFUSED}])~idiom AX_PTHREAD ACX_PTHREAD
AC_SEARCH_LIBS([pthread_create], [pthread],
  [AC_DEFINE([HAVE_PTHREAD], [1], [Define to 1 if you have POSIX threads.])])
AC_SUBST([PTHREAD_CC], [\"$CC\"])
AC_SUBST([PTHREAD_CFLAGS], [-pthread])
AC_SUBST([PTHREAD_LIBS])~idiom AM_WITH_DMALLOC
AC_ARG_WITH([dmalloc], [AS_HELP_STRING([--with-dmalloc], [use dmalloc])],
  [AS_IF([test \"$withval\" = yes], [AC_DEFINE([WITH_DMALLOC], [1], [Define to 1 if dmalloc is used.])
    LIBS=\"$LIBS -ldmalloc\"])])~idiom AM_PATH_PYTHON
AC_CHECK_PROGS([PYTHON], [python3 python], [:])~idiom AM_PATH_LISPDIR
AC_ARG_VAR([lispdir], [the directory of Emacs Lisp files])~idiom AC_PATH_X AC_PATH_XTRA AC_FIND_X AC_FIND_XTRA
AC_ARG_VAR([X_CFLAGS], [flags that compile with X])
AC_ARG_VAR([X_LIBS], [flags that link with X])
AC_SUBST([X_PRE_LIBS])
AC_SUBST([X_EXTRA_LIBS])~idiom AC_PREFIX_DEFAULT
AS_IF([test \"$prefix\" = NONE], [prefix=$1!{DIRECTORY}])~none AC_PREFIX_PROGRAM
the user gives --prefix~idiom AS_VAR_SET
$1!{VARIABLE}=\"$2{VALUE}\"~idiom AS_VAR_APPEND
$1!{VARIABLE}=\"${$1!{VARIABLE}}$2{TEXT}\"~idiom AS_VAR_COPY
$1={VARIABLE}=$$2!{OTHER}~idiom AS_VAR_IF
AS_IF([test \"$$1!{VARIABLE}\" = \"$2{VALUE}\"], [$3{THEN}], [$4{ELSE}])~idiom AS_VAR_TEST_SET
test -n \"$$1!{VARIABLE}\"~idiom AS_VAR_SET_IF
AS_IF([test -n \"$$1!{VARIABLE}\"], [$2{THEN}], [$3{ELSE}])~idiom AS_UNSET
$1!{VARIABLE}=~idiom AS_ECHO AS_ECHO_N AS_BOX
AC_MSG_NOTICE([$1{MESSAGE}])~idiom AS_EXIT
AC_MSG_ERROR([configuring ends here], [$1!{STATUS}])~none AS_MKDIR_P AS_EXECUTABLE_P AS_TMPDIR AS_DIRNAME AS_BASENAME AC_CHECK_FILE AC_CHECK_FILES
no command is run and no file is tested: let the user say it by AC_ARG_WITH or AC_ARG_VAR~none AS_FOR AS_WHILE
write one statement for each item, or a list macro with an action~none AS_VAR_PUSHDEF AS_VAR_POPDEF AS_VAR_GET AS_TR_SH AS_TR_CPP AS_LITERAL_IF AS_LITERAL_WORD_IF AS_VAR_ARITH AS_SET_CATFILE
write the name out~drop AS_INIT AS_SHELL_SANITIZE AS_BOURNE_COMPATIBLE AS_LINENO_PREPARE AS_ME_PREPARE AS_MESSAGE_FD AS_REQUIRE
there is no shell~none AC_DEFUN AC_DEFUN_ONCE AU_DEFUN AU_ALIAS m4_defun m4_copy m4_rename m4_include m4_sinclude m4_ifdef m4_ifndef m4_if m4_default m4_normalize m4_foreach m4_foreach_w m4_map m4_append m4_append_uniq m4_toupper m4_tolower m4_translit m4_bpatsubst m4_bpatsubsts m4_split m4_join m4_quote m4_dquote m4_expand m4_shift m4_version_prereq m4_pushdef m4_popdef m4_undefine m4_defn m4_set_add m4_format m4_incr m4_eval m4_chomp m4_strip m4_flatten m4_combine
write out what it expands to~none define m4_define
write the text itself in place of the name, and leave this out~none m4_esyscmd m4_esyscmd_s m4_syscmd m4_sysval
no command is run: write out what it prints, or let the user give it by AC_ARG_VAR~drop m4_pattern_allow m4_pattern_forbid m4_divert_text m4_divert_push m4_divert_pop m4_warn m4_warning m4_errprintn m4_assert AC_DIAGNOSE AC_WARNING AC_OBSOLETE AC_REQUIRE AC_PROVIDE AC_BEFORE AC_PROVIDE_IFELSE
it speaks to Autoconf alone; statements are run in their order~drop AC_COPYRIGHT AC_REVISION AC_PRESERVE_HELP_ORDER AC_PRESERVE_IFS AC_DISABLE_OPTION_CHECKING AC_PRESERVE
a comment says the same~drop AC_LANG_PUSH AC_LANG_POP AC_LANG_C AC_LANG_SAVE AC_LANG_RESTORE AC_LANG_ASSERT AC_LANG_COMPILER_REQUIRE AC_CHECK_INCLUDES_DEFAULT AC_C_CROSS AC_CACHE_SAVE AC_CACHE_LOAD AC_PROG_CC_WORKS AC_SITE_LOAD AC_REQUIRE_CPP AC_REQUIRE_AUX_FILE AC_CONFIG_MACRO_DIR_TRACE AC_USE_LOCAL_LANG AC_PROG_CPP_WERROR
C is the only language, and the cache is read and written by itself~drop AH_TEMPLATE AH_VERBATIM AH_TOP AH_BOTTOM AH_HEADER
its text is in config.h.in itself: a line #undef NAME is made by AC_DEFINE([NAME]), and every other line is copied~none AC_SUBST_FILE
put the text of the file into the template~none AC_LANG_CPLUSPLUS AC_PROG_F77 AC_PROG_FC AC_PROG_OBJC AC_PROG_OBJCXX AC_PROG_GO AC_PROG_JAVA AC_F77_LIBRARY_LDFLAGS AC_FC_LIBRARY_LDFLAGS AX_PROG_CC_FOR_BUILD AX_CXX_COMPILE_STDCXX AX_CXX_COMPILE_STDCXX_11
only C compilers are tried: let the user give the compiler by AC_ARG_VAR~none LT_OUTPUT LT_LANG LT_LIB_M LT_PATH_LD AC_LIBLTDL_CONVENIENCE AC_LIBLTDL_INSTALLABLE
there is no libtool: a rule of the Makefile links the library~drop LT_INIT LT_PREREQ AC_PROG_LIBTOOL AM_PROG_LIBTOOL AC_LIBTOOL_DLOPEN AC_LIBTOOL_WIN32_DLL AC_DISABLE_SHARED AC_DISABLE_STATIC AC_ENABLE_SHARED AC_ENABLE_STATIC AM_DISABLE_SHARED AM_DISABLE_STATIC AM_ENABLE_SHARED AM_ENABLE_STATIC
there is no libtool: a rule of the Makefile links the library~none AM_CFLAGS AM_CPPFLAGS AM_LDFLAGS AM_CXXFLAGS AM_YFLAGS AM_LFLAGS AM_MAKEFLAGS AM_DEFAULT_VERBOSITY AC_FD_MSG AC_FD_CC
a name that begins so is read as a macro: put it in brackets in an assignment, as [AM_CFLAGS]=\"-Wall\", or rename it~none gl_EARLY gl_INIT gl_gcc_warnings gl_MANYWARN_ALL_GCC gl_MANYWARN_COMPLEMENT gl_GCC_VERSION_IFELSE gl_WARN_ADD_MULTIPLE gl_LIBSOURCES gl_SET_LIBSOURCES
acrun doesn't support gnulib: check what the sources use by AC_CHECK_FUNCS and AC_CHECK_HEADERS~family AC_LIBTOOL_
there is no libtool: a rule of the Makefile links the library~family AC_HEADER_
check the header by AC_CHECK_HEADERS~family AC_STRUCT_
compile a program that uses the member by AC_COMPILE_IFELSE~family AC_ERLANG_
only C compilers are tried~family AM_PATH_
let the user give the flags by AC_ARG_VAR, and link a program with them~family AC_FUNC_
check the function by AC_CHECK_FUNCS~family AC_TYPE_
check the type by AC_CHECK_TYPES~family AC_F77_
only C compilers are tried~family AC_FC_
only C compilers are tried~family ACX_
it is of an archive of macros: write out the checks that its definition makes~family PKG_
no pkg-config is run: let the user give the flags by AC_ARG_VAR~family AX_
it is of the Autoconf Archive: write out the checks that its definition makes~family CF_
it is one of the package's own macros: write out the checks that its definition makes~family gl_
acrun doesn't support gnulib: check what the sources use by AC_CHECK_FUNCS and AC_CHECK_HEADERS~family gt_
acrun doesn't support gettext: check what the sources use by AC_CHECK_FUNCS and AC_SEARCH_LIBS~family LT_
there is no libtool: a rule of the Makefile links the library~family AM_
there is no Automake: write a plain Makefile.in~family AH_
its text is in config.h.in itself~family AS_
write the shell statement that it makes, as far as acrun supports it~family AU_
write out what it expands to~family m4_
write out what it expands to";

/// Returns the table.
pub(crate) fn table() -> &'static [u8]
    ensures { result.now ≡ TABLE.now }
{
    TABLE
}
