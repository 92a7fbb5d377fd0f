//! Names that Autoconf has in its own texts.

use lint_text::from;

/// Names of Autoconf 2.71 and of the scripts that it makes, with `_` or with letters of both cases,
/// but for those that begin as in [`FRONTS`]. A blank is before each and after each.
#[rattlefmt::skip]
const NAMES: &[u8] = b" ARGn ARGs AUTOTEST_PATH AmigaOS AutoscaN BASH_ARGV BASH_ENV BASH_SOURCE BIG_ENDIAN BIG_OK\
 BIGenDianSyS BIN_SH BOunds BYTE_ORDER BeOS BusyBox CACHE_VAR CHAR_BIT CLICOLOR_FORCE\
 CLOSEDIR_VOID COLLECT_GCC_OPTIONS COMPILER_PATH CONFTEST_MODULE COPYINGv3\
 CXX_NO_MINUS_C_MINUS_O C_ALLOCA C_GETLOADAVG DECnet DEFINEs DEFUN_ONCE DHAVE_CONFIG_H\
 D_HPUX_SOURCE D_STDC_C99 D__EXTENSIONS__ D_is_set ECHO_C ECHO_N ECHO_T EXEC_PAGESIZE\
 EXPRESSIONs F77_DUMMY_MAIN FCFLAGS_ FCFLAGS_F90 FCFLAGS_F95 FCFLAGS_f90 FEATURE_TEST\
 FLAGS_save FLEXIBLE_ARRAY_MEMBER FOO_BAR FreeBSD GETGROUPS_LIB GETGROUPS_T GETPGRP_VOID\
 GREP_OPTIONS GWINSZ_IN_SYS_IOCTL HOST_NOT_FOUND IF_FALSE IF_FOUND INIT_PREPARE\
 INSTALL_DATA INSTALL_PROGRAM INSTALL_SCRIPT INT_16_BITS INT_MAX IceConnectionNumber\
 KMEM_GROUP LARGE_OFF_T LC_ALL LD_RUN_PATH LEX_OUTPUT_ROOT LIBRARY_PATH LITTLE_ENDIAN\
 LLONG_MAX LN_S LOG_FD LONG_64_BITS LRuYz LSTAT_FOLLOWS_SLASHED_SYMLINK LiTTleEnDian\
 LibDir LynxOS MAIN_ MAIN__ MAJOR_IN_MKDEV MAJOR_IN_SYSMACROS MAP_FAILED MAP_FIXED\
 MAP_PRIVATE MAP_SHARED MKDIR_P M_UNIX M_XENIX MacKenzie McGrath McMahon MinGW NAGWare\
 NEED_MEMORY_H NEED_SETGID NLIST_NAME_UNION NONENONEs NOT_FOUND NO_GLOB_SUBST\
 NO_MINUS_C_MINUS_O N_STRINGS NaN NeXT NetBSD NextStep NonStop OCTAVE_FLIBS OPENMP_\
 OPENMP_CFLAGS OPENMP_CXXFLAGS OPENMP_FFLAGS OSx O_CREAT O_CREATE O_EXCL O_RDWR O_TRUNC\
 O_WRONLY OpenBSD OpenFile OpenMP OpenServer OpenStep OpenVMS PARSE_ARGS PATH_SEPARATOR\
 POW_LIB PROT_READ PROT_WRITE PathScale PowerStation ReturnValue SA_RESTART SEPARGn\
 SETPGRP_VOID SETVBUF_REVERSED SET_MAKE SHELL_FN SIG_DFL STACK_DIRECTION\
 STAT_MACROS_BROKEN STDC_HEADERS STRERROR_R_CHAR_P S_IFCHR S_IFDIR S_IFREG S_IS S_ISBLK\
 S_ISLNK S_ISSOCK S_LEN S_USED S_is_set StepStone SunOS SunOS4 SunPRO SysV TABs TAGs\
 TEST2a TEST2b TESTn THING_ TIME_WITH_SYS_TIME TM_IN_SYS_TIME TOP_SRCDIR TRUEn UMAX4_3\
 USE_SYSTEM_EXTENSIONS UnixWare VALUEs VALn WORDS_BIGENDIAN WorkShop X11Rn XFree86 XLine\
 XOpenDisplay X_CFLAGS X_DISPLAY_MISSING X_EXTRA_LIBS X_LIBS X_PRE_LIBS XrmInitialize\
 YYTEXT_POINTER ZSH_VERSION Z_ Z_0 aC aCC a_out add_one aligned_as_double aligned_as_int\
 alignof_ args_copy ascii_ii ascii_mm bI bad_name bigtime_test build_alias cC cEDITION\
 cache_file cfortran_test char16_t char32_t char_alignment check_bounds clock_gettime\
 confXXXXXX configure_input conftest_ipa8_conftest conftest_module conftest_routine\
 cpp_keep cross_compile cross_compiling cxxEDITION dSYM d_ino d_type dg_sys_info\
 do_nothing does_not_return dynamic_array ebcdic_ii ebcdic_mm echo_n elf_begin\
 error_at_line exec_prefix exit_status extend_source fF fd_set find_stack_direction\
 fnmatch_ foo_LDFLAGS foo_bar foo_t fp_FUNC_FNMATCH fs_info fs_stat_dev fs_types\
 function_name get_val gid_t have_x host_alias host_os html_node implicit_none\
 incomplete_array initializer_list innocuous_ inq_stats inq_status int16_t int32_t int64_t\
 int8_t intNBITS_t int_alignment int_array_alignment int_ptr intmax_t intptr_t inttypes_h\
 irix_6_4_bug item_1 item_2 item_n kstat_open kvm_open lICE lLR lLRu lSM lSystem lX11\
 ldnet_stub lgL libPW libX11 lib_dir lib_fun lnsl_s localtime_r long_ptr longer_than_132\
 longer_than_72 longer_than_80 mGLOB mGLOB_options_string macOS macro_expand main_ main__\
 mbstate_t mkdir_p mktime_test mktime_test1 mode_t my_func my_var n_name n_un named_init\
 next_dev nl_langinfo nl_types no_create no_recursion no_special_alignment no_x\
 obstack_chunk_alloc obstack_chunk_free obstack_free obstack_init off_t off_t_is_large\
 osf4_cc_array pR pid_t pstat_getdynamic ptrdiff_t pw_gecos re_comp root_dir rpl_fnmatch\
 rpl_malloc rpl_putenv rpl_realloc ru_majflt ru_minflt ru_nvcsw ru_stime sB sSrwx size_t\
 sizeof_ sparc_address_test spring_forward_gap ssize_t st_blksize st_blocks st_gid\
 st_mtime st_rdev st_uid stat_val static_cast static_foo stdint_h stdio_ext stdio_h\
 stdlib_h strerror_r string_h strings_h sys_siglist sys_stat_h sys_types_h system_info\
 target_alias time_t time_t_max time_t_min tm_hour tm_isdst tm_mday tm_min tm_mon tm_sec\
 tm_wday tm_yday tm_year tm_zone top_build top_build_prefix top_builddir top_srcdir tv_sec\
 tv_usec type_traits tz_strings uLL uid_t uint16_t uint32_t uint64_t uint8_t uintNBITS_t\
 uintmax_t uintptr_t unistd_h use_ascii use_ebcdic utf8_literal va_arg va_copy va_end\
 va_list va_start variable_that_contains_cr wchar_t write_file x656C x694C x6E44 x6E45\
 x6E53 x6E61 x86_64 x89C4 x89D3 x95C4 x95C5 x95E2 xA8E2 xC2C9 xC785 xE3E3 xHH xNONE xSYM\
 xXxX x_includes x_libraries xlC xlC_r xlc6_cc_array xxXX xx_REQUIRE year_2050_test zA ";

/// With what other such names begin.
const FRONTS: [&[u8]; 40] = [
    b"_",
    b"ac_",
    b"as_",
    b"at_",
    b"AC_",
    b"AS_",
    b"AT_",
    b"m4_",
    b"AH_",
    b"AM_",
    b"AU_",
    b"AN_",
    b"lt_",
    b"LT_",
    b"HAVE_",
    b"PACKAGE_",
    b"SIZEOF_",
    b"DECL_",
    b"ALIGNOF_",
    b"CONFIG_",
    b"FC_",
    b"DBL_",
    b"LDBL_",
    b"LDAV_",
    b"FNM_",
    b"HELP_",
    b"ERLANG_",
    b"GETLOADAVG_",
    b"SELECT_",
    b"VERSION_",
    b"test_",
    b"enable_",
    b"with_",
    b"config_",
    b"acx_",
    b"abs_",
    b"omp_",
    b"inet_",
    b"program_",
    b"dnet_",
];

/// Returns whether a byte is before the name and after it in a list.
fn is_listed_at(at: usize, name: &[u8]) -> bool {
    let rest = from(NAMES, at);
    rest.starts_with(name) && rest.get(name.len()) == Some(&b' ')
}

/// Returns whether the list has a name.
fn is_listed(name: &[u8]) -> bool {
    for at in 1..NAMES.len() {
        if NAMES[at - 1] == b' ' && is_listed_at(at, name) {
            return true;
        }
    }
    false
}

/// Returns whether a name has letters of both cases after its first letter, or `_`.
fn is_composed(name: &[u8]) -> bool {
    let has_lower = name.iter().any(|byte| byte.is_ascii_lowercase());
    let has_upper = from(name, 1).iter().any(|byte| byte.is_ascii_uppercase());
    name.contains(&b'_') || has_lower && has_upper
}

/// Returns whether Autoconf may have a name in its own texts. It is taken to have each name that is
/// one plain word.
pub(crate) fn may_be_of_autoconf(name: &[u8]) -> bool {
    !is_composed(name) || FRONTS.iter().any(|front| name.starts_with(*front)) || is_listed(name)
}
