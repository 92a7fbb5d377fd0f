//! The command, over a log in a file.

use cmd_call::Heard;
use cmd_why::run_why;
use deftable::Bytes;
use file_disk::Host;
use std::fs;
use std::test::Fail;
use test_rows::{Page, RowCall, cut, try_rows_in};

/// The words with commas between them, a bar, and the log, which is `config.status` too: the exit
/// status, standard output and standard error.
const WHYS: &[u8] = b"
// a header that is missing: by its message, the symbol, and the name of the cached value
sys/stat.h|checking for sys/stat.h... ^J$ cc -c conftest1.c^Ja.c:6:10: none^Jstatus 1^Jfailed program was:^J| #include <sys/stat.h>^Jno^J => 0[checking for sys/stat.h... no^Jchild 1:^J$ cc -c conftest1.c^Ja.c:6:10: none^Jstatus 1^Jfailed program was:^J| #include <sys/stat.h>^J][]
stat|checking for sys/stat.h... ^J$ cc -c conftest1.c^Ja.c:6:10: none^Jstatus 1^Jfailed program was:^J| #include <sys/stat.h>^Jno^J => 0[checking for sys/stat.h... no^Jchild 1:^J$ cc -c conftest1.c^Ja.c:6:10: none^Jstatus 1^Jfailed program was:^J| #include <sys/stat.h>^J][]
HAVE_SYS_STAT_H|checking for sys/stat.h... ^J$ cc -c conftest1.c^Ja.c:6:10: none^Jstatus 1^Jfailed program was:^J| #include <sys/stat.h>^Jno^J => 0[checking for sys/stat.h... no^Jchild 1:^J$ cc -c conftest1.c^Ja.c:6:10: none^Jstatus 1^Jfailed program was:^J| #include <sys/stat.h>^J][]
ac_cv_header_sys_stat_h|checking for sys/stat.h... ^J$ cc -c conftest1.c^Ja.c:6:10: none^Jstatus 1^Jfailed program was:^J| #include <sys/stat.h>^Jno^J => 0[checking for sys/stat.h... no^Jchild 1:^J$ cc -c conftest1.c^Ja.c:6:10: none^Jstatus 1^Jfailed program was:^J| #include <sys/stat.h>^J][]
// a function, the second child of a list
getline|checking for a.h... ^J$ cc -c conftest1.c^Jstatus 0^Jyes^Jchecking for getline... ^J$ cc -o conftest2 conftest2.c^Jx^Jstatus 1^Jno^J => 0[checking for getline... no^Jchild 2:^J$ cc -o conftest2 conftest2.c^Jx^Jstatus 1^J][]
HAVE_GETLINE|checking for a.h... ^J$ cc -c conftest1.c^Jstatus 0^Jyes^Jchecking for getline... ^J$ cc -o conftest2 conftest2.c^Jx^Jstatus 1^Jno^J => 0[checking for getline... no^Jchild 2:^J$ cc -o conftest2 conftest2.c^Jx^Jstatus 1^J][]
ac_cv_func_getline|checking for a.h... ^J$ cc -c conftest1.c^Jstatus 0^Jyes^Jchecking for getline... ^J$ cc -o conftest2 conftest2.c^Jx^Jstatus 1^Jno^J => 0[checking for getline... no^Jchild 2:^J$ cc -o conftest2 conftest2.c^Jx^Jstatus 1^J][]
// both checks of a log, in its order
for|checking for a.h... ^J$ cc -c conftest1.c^Jstatus 0^Jyes^Jchecking for getline... ^J$ cc -o conftest2 conftest2.c^Jx^Jstatus 1^Jno^J => 0[checking for a.h... yes^Jchild 1:^J$ cc -c conftest1.c^Jstatus 0^Jchecking for getline... no^Jchild 2:^J$ cc -o conftest2 conftest2.c^Jx^Jstatus 1^J][]
// a check that is cut, by what it defines too
strlcpy|checking whether strlcpy is declared... ^J$ cc -c conftest.c^Jstart refused^Jrefused^J => 0[checking whether strlcpy is declared... refused^Jchild 1:^J$ cc -c conftest.c^Jstart refused^J][]
HAVE_DECL_STRLCPY|checking whether strlcpy is declared... ^J$ cc -c conftest.c^Jstart refused^Jrefused^J => 0[checking whether strlcpy is declared... refused^Jchild 1:^J$ cc -c conftest.c^Jstart refused^J][]
ac_cv_have_decl_strlcpy|checking whether strlcpy is declared... ^J$ cc -c conftest.c^Jstart refused^Jrefused^J => 0[checking whether strlcpy is declared... refused^Jchild 1:^J$ cc -c conftest.c^Jstart refused^J][]
a|checking for a... ^Jconfigure: error: none^J => 0[checking for a... ^JIt has no answer: the run ended before.^J][]
// answers that were there before their checks, and no record
a.h|checking for a.h... ^J(cached) no^J => 0[checking for a.h... (cached) no^JThis answer was there before the check was made, as the value of ac_cv_header_a_h.^JIt may be from an argument, a cache, the environment or the source: there is no config.status with arguments.^JAnswers in the log that were there before: 1 of 1.^J][]
HAVE_LIBZ|checking for inflate in -lz... ^J(cached) no^J => 0[checking for inflate in -lz... (cached) no^JThis answer was there before the check was made, as the value of ac_cv_lib_z_inflate.^JIt may be from an argument, a cache, the environment or the source: there is no config.status with arguments.^JAnswers in the log that were there before: 1 of 1.^J][]
ac_cv_lib_z_inflate|checking for inflate in -lz... ^J(cached) no^J => 0[checking for inflate in -lz... (cached) no^JThis answer was there before the check was made, as the value of ac_cv_lib_z_inflate.^JIt may be from an argument, a cache, the environment or the source: there is no config.status with arguments.^JAnswers in the log that were there before: 1 of 1.^J][]
ac_cv_search_f|checking for library containing f... ^J(cached) no^J => 0[checking for library containing f... (cached) no^JThis answer was there before the check was made, as the value of ac_cv_search_f.^JIt may be from an argument, a cache, the environment or the source: there is no config.status with arguments.^JAnswers in the log that were there before: 1 of 1.^J][]
HAVE_DECL_X|checking whether x is declared... ^J(cached) no^J => 0[checking whether x is declared... (cached) no^JThis answer was there before the check was made, as the value of ac_cv_have_decl_x.^JIt may be from an argument, a cache, the environment or the source: there is no config.status with arguments.^JAnswers in the log that were there before: 1 of 1.^J][]
HAVE_SIZE_T|checking for size_t... ^J(cached) no^J => 0[checking for size_t... (cached) no^JThis answer was there before the check was made, as the value of ac_cv_func_size_t or ac_cv_type_size_t (of a program, ac_cv_prog_VARIABLE or ac_cv_path_VARIABLE).^JIt may be from an argument, a cache, the environment or the source: there is no config.status with arguments.^JAnswers in the log that were there before: 1 of 1.^J][]
shell|checking shell... ^J(cached) no^J => 0[checking shell... (cached) no^JThis answer was there before the check was made, as the value of the name that AC_CACHE_CHECK gives it.^JIt may be from an argument, a cache, the environment or the source: there is no config.status with arguments.^JAnswers in the log that were there before: 1 of 1.^J][]
// a check around another one: its own children, and the program that failed last
working alloca|checking for working alloca... ^J$ cc 1^Jstatus 1^Jfailed program was:^J| int x^Jconfigure: note^Jchecking for alloca... ^J$ cc 2^Jstatus 0^Jyes^J$ cc 3^Jstatus 0^Jno^J => 0[checking for working alloca... no^Jchild 1:^J$ cc 1^Jstatus 1^Jchild 3:^J$ cc 3^Jstatus 0^Jfailed program was:^J| int x^J][]
HAVE_ALLOCA|checking for working alloca... ^J$ cc 1^Jstatus 1^Jfailed program was:^J| int x^Jconfigure: note^Jchecking for alloca... ^J$ cc 2^Jstatus 0^Jyes^J$ cc 3^Jstatus 0^Jno^J => 0[checking for alloca... yes^Jchild 2:^J$ cc 2^Jstatus 0^J][]
// a word that is nowhere, and what is nearest to it
getlien|checking for getline... ^Jyes^Jchecking for a.h... ^Jno^J => 1[No check in the log is about getlien.^JThe nearest are:^J  checking for getline^J][]
HAVE_SYS_STATS_H|checking for sys/stat.h... ^J$ cc -c conftest1.c^Ja.c:6:10: none^Jstatus 1^Jfailed program was:^J| #include <sys/stat.h>^Jno^Jchecking for sys/stat.h... ^J$ cc -c conftest1.c^Ja.c:6:10: none^Jstatus 1^Jfailed program was:^J| #include <sys/stat.h>^Jno^J => 1[No check in the log is about HAVE_SYS_STATS_H.^JThe nearest are:^J  checking for sys/stat.h^J][]
gf9|checking for f10... ^Jno^Jchecking for f1... ^Jno^Jchecking for f2... ^Jno^Jchecking for f3... ^Jno^Jchecking for f4... ^Jno^Jchecking for f5... ^Jno^J => 1[No check in the log is about gf9.^JThe nearest are:^J  checking for f1^J  checking for f2^J  checking for f3^J  checking for f4^J  checking for f5^J][]
qqqq|checking for a.h... ^Jno^J => 1[No check in the log is about qqqq.^J][]
// a log that can be read in two ways: a message has the form of a line that only a child has
a.h|checking for a.h... ^J$ cc^Jstatus 0^Jyes^Jstatus 1^J => 0[checking for a.h... yes^Jchild 1:^J$ cc^Jstatus 0^JThis log can be read in two ways: among its messages is a line as only a child has it. If a compiler wrote lines as acrun does, a check may be none of the run, and an answer may be another one. For a definition see config.status.^J][]
b|checking for a.h... ^Jyes^Jstart refused^J => 1[No check in the log is about b.^JThis log can be read in two ways: among its messages is a line as only a child has it. If a compiler wrote lines as acrun does, a check may be none of the run, and an answer may be another one. For a definition see config.status.^J][]
a.h|checking for a.h... ^Jyes^J| int^J => 0[checking for a.h... yes^JThis log can be read in two ways: among its messages is a line as only a child has it. If a compiler wrote lines as acrun does, a check may be none of the run, and an answer may be another one. For a definition see config.status.^J][]
// no log, and no file
a|configure: error: no C compiler^J => 1[No check in the log is about a.^J][]
a|hello => 2[][acrun: log config.log^J]
a|hello^J => 2[][acrun: log config.log^J]
a| => 2[][acrun: log config.log^J]
a|checking for a... ^J$ cc^J => 2[][acrun: log config.log^J]
a,missing| => 2[][acrun: file missing^J]
a,.| => 2[][acrun: file .^J]
// without a word: the arguments of config.status, as words of a shell
|acrun-record 2^Jsrcdir .^Jend^J => 0[The run that config.status is of: acrun configure^J][]
|acrun-record 2^Jsrcdir .^Jarg -C^Jarg CFLAGS=-O2 -g^Jarg ^Jarg it's^Jend^J => 0[The run that config.status is of: acrun configure -C 'CFLAGS=-O2 -g' '' 'it'\\''s'^J][]
// a record without arguments, and a text that is no record
|acrun-record 1^Jsrcdir .^Jend^J => 2[][acrun: record has no arguments^J]
|acrun-record 1^Jsrcdir .^Jdef A 1^Jend^J => 2[][acrun: record has no arguments^J]
|acrun-record 1^Jsrcdir .^Jarg -C^Jend^J => 2[][acrun: record 2 at 3^J]
|acrun-record 2^Jsrcdir .^Jarg a^J => 2[][acrun: record 3^J]
|acrun-record 2^Jsrcdir .^Jarg a^Jnone^Jend^J => 2[][acrun: record 2 at 4^J]
| => 2[][acrun: record 1^J]
// words that mean nothing
a,config.log,b| => 2[][acrun: usage^J]
stat,config.log|checking for sys/stat.h... ^J$ cc -c conftest1.c^Ja.c:6:10: none^Jstatus 1^Jfailed program was:^J| #include <sys/stat.h>^Jno^J => 0[checking for sys/stat.h... no^Jchild 1:^J$ cc -c conftest1.c^Ja.c:6:10: none^Jstatus 1^Jfailed program was:^J| #include <sys/stat.h>^J][]
";

/// The words with commas between them, the text of `config.status`, that of `config.cache`, and the
/// log, with semicolons between them: the exit status, standard output and standard error. The log
/// is `other.log` too.
const CACHED: &[u8] = b"
// what the record has of a definition
HAVE_A_H;acrun-record 2^Jsrcdir .^Jdef HAVE_A_H 1^Jend^J;;checking for a.h... ^J$ cc^Jstatus 0^Jyes^J => 0[checking for a.h... yes^Jchild 1:^J$ cc^Jstatus 0^Jconfig.status has this definition: HAVE_A_H 1^J][]
HAVE_A_H;acrun-record 2^Jsrcdir .^Jdef HAVE_A_HX 1^Jend^J;;checking for a.h... ^J$ cc^Jstatus 0^Jyes^J => 0[checking for a.h... yes^Jchild 1:^J$ cc^Jstatus 0^Jconfig.status has no definition of HAVE_A_H.^J][]
OTHER;acrun-record 2^Jsrcdir .^Jdef OTHER a b^Jend^J;;checking for a.h... ^Jyes^J => 1[No check in the log is about OTHER.^JThe nearest are:^J  checking for a.h^Jconfig.status has this definition: OTHER a b^J][]
a.h;acrun-record 2^Jsrcdir .^Jdef HAVE_A_H 1^Jend^J;;checking for a.h... ^J$ cc^Jstatus 0^Jyes^J => 0[checking for a.h... yes^Jchild 1:^J$ cc^Jstatus 0^J][]
HAVE_A_H;acrun-record 1^Jsrcdir .^Jdef HAVE_A_H 1^Jend^J;;checking for a.h... ^Jyes^J => 0[checking for a.h... yes^J][]
// a cache that the arguments name
a.h;acrun-record 2^Jsrcdir .^Jarg -C^Jend^J;ac_cv_header_a_h=${ac_cv_header_a_h=no}^J;checking for a.h... ^J(cached) no^J => 0[checking for a.h... (cached) no^JThis answer was there before the check was made, as the value of ac_cv_header_a_h.^JThe cache config.cache has it now. To ask again, remove there:^J  ac_cv_header_a_h=${ac_cv_header_a_h=no}^JAnswers in the log that were there before: 1 of 1.^J][]
a.h;acrun-record 2^Jsrcdir .^Jarg --cache-file=config.cache^Jend^J;# a^Jac_cv_header_a_h=${ac_cv_header_a_h=no}^J;checking for a.h... ^J(cached) no^J => 0[checking for a.h... (cached) no^JThis answer was there before the check was made, as the value of ac_cv_header_a_h.^JThe cache config.cache has it now. To ask again, remove there:^J  ac_cv_header_a_h=${ac_cv_header_a_h=no}^JAnswers in the log that were there before: 1 of 1.^J][]
a.h;acrun-record 2^Jsrcdir .^Jarg --cache-file^Jarg config.cache^Jend^J;ac_cv_header_a_h=${ac_cv_header_a_h=no}^J;checking for a.h... ^J(cached) no^J => 0[checking for a.h... (cached) no^JThis answer was there before the check was made, as the value of ac_cv_header_a_h.^JThe cache config.cache has it now. To ask again, remove there:^J  ac_cv_header_a_h=${ac_cv_header_a_h=no}^JAnswers in the log that were there before: 1 of 1.^J][]
// the last one counts
a.h;acrun-record 2^Jsrcdir .^Jarg -C^Jarg --cache-file=/dev/null^Jend^J;ac_cv_header_a_h=${ac_cv_header_a_h=no}^J;checking for a.h... ^J(cached) no^J => 0[checking for a.h... (cached) no^JThis answer was there before the check was made, as the value of ac_cv_header_a_h.^JNo argument in config.status sets a name that the log gives, and no cache that they name has one. It may be from the environment, from the source, or from a cache that isn't there now, or its name is not in the log.^JAnswers in the log that were there before: 1 of 1.^J][]
a.h;acrun-record 2^Jsrcdir .^Jarg --cache-file=^Jarg --config-cache^Jend^J;ac_cv_header_a_h=${ac_cv_header_a_h=no}^J;checking for a.h... ^J(cached) no^J => 0[checking for a.h... (cached) no^JThis answer was there before the check was made, as the value of ac_cv_header_a_h.^JThe cache config.cache has it now. To ask again, remove there:^J  ac_cv_header_a_h=${ac_cv_header_a_h=no}^JAnswers in the log that were there before: 1 of 1.^J][]
// each form of a line, and names that only begin alike
a.h;acrun-record 2^Jsrcdir .^Jarg -C^Jend^J;ac_cv_header_a_hx=no^Jtest ${ac_cv_header_a_h+y} || ac_cv_header_a_h=no^J# ac_cv_header_a_h=no^Jtest \"${ac_cv_header_a_h+set}\" = set || ac_cv_header_a_h=no^Jac_cv_header_a_h=no;checking for a.h... ^J(cached) no^J => 0[checking for a.h... (cached) no^JThis answer was there before the check was made, as the value of ac_cv_header_a_h.^JThe cache config.cache has it now. To ask again, remove there:^J  test ${ac_cv_header_a_h+y} || ac_cv_header_a_h=no^J  test \"${ac_cv_header_a_h+set}\" = set || ac_cv_header_a_h=no^J  ac_cv_header_a_h=no^JAnswers in the log that were there before: 1 of 1.^J][]
// a cache without it, and one that isn't named
a.h;acrun-record 2^Jsrcdir .^Jarg -C^Jend^J;ac_cv_header_b_h=no^J;checking for a.h... ^J(cached) no^J => 0[checking for a.h... (cached) no^JThis answer was there before the check was made, as the value of ac_cv_header_a_h.^JNo argument in config.status sets a name that the log gives, and no cache that they name has one. It may be from the environment, from the source, or from a cache that isn't there now, or its name is not in the log.^JAnswers in the log that were there before: 1 of 1.^J][]
a.h;acrun-record 2^Jsrcdir .^Jend^J;ac_cv_header_a_h=${ac_cv_header_a_h=no}^J;checking for a.h... ^J(cached) no^J => 0[checking for a.h... (cached) no^JThis answer was there before the check was made, as the value of ac_cv_header_a_h.^JNo argument in config.status sets a name that the log gives, and no cache that they name has one. It may be from the environment, from the source, or from a cache that isn't there now, or its name is not in the log.^JAnswers in the log that were there before: 1 of 1.^J][]
// an argument that sets it, the last one, and both
a.h;acrun-record 2^Jsrcdir .^Jarg ac_cv_header_a_h=yes^Jarg ac_cv_header_a_h=n o^Jend^J;;checking for a.h... ^J(cached) no^J => 0[checking for a.h... (cached) no^JThis answer was there before the check was made, as the value of ac_cv_header_a_h.^Jconfig.status keeps an argument that sets it: 'ac_cv_header_a_h=n o'^JTo ask again, leave that argument out.^JAnswers in the log that were there before: 1 of 1.^J][]
a.h;acrun-record 2^Jsrcdir .^Jarg -C^Jarg ac_cv_header_a_h=no^Jend^J;ac_cv_header_a_h=${ac_cv_header_a_h=no}^J;checking for a.h... ^J(cached) no^J => 0[checking for a.h... (cached) no^JThis answer was there before the check was made, as the value of ac_cv_header_a_h.^Jconfig.status keeps an argument that sets it: 'ac_cv_header_a_h=no'^JTo ask again, leave that argument out.^JThe cache config.cache has it now. To ask again, remove there:^J  ac_cv_header_a_h=${ac_cv_header_a_h=no}^JAnswers in the log that were there before: 1 of 1.^J][]
// the value of an option sets nothing
a.h;acrun-record 2^Jsrcdir .^Jarg --prefix^Jarg ac_cv_header_a_h=no^Jend^J;;checking for a.h... ^J(cached) no^J => 0[checking for a.h... (cached) no^JThis answer was there before the check was made, as the value of ac_cv_header_a_h.^JNo argument in config.status sets a name that the log gives, and no cache that they name has one. It may be from the environment, from the source, or from a cache that isn't there now, or its name is not in the log.^JAnswers in the log that were there before: 1 of 1.^J][]
// a record of the first version
a.h;acrun-record 1^Jsrcdir .^Jend^J;ac_cv_header_a_h=${ac_cv_header_a_h=no}^J;checking for a.h... ^J(cached) no^J => 0[checking for a.h... (cached) no^JThis answer was there before the check was made, as the value of ac_cv_header_a_h.^JIt may be from an argument, a cache, the environment or the source: there is no config.status with arguments.^JAnswers in the log that were there before: 1 of 1.^J][]
// another log
a.h,other.log;acrun-record 2^Jsrcdir .^Jarg -C^Jend^J;ac_cv_header_a_h=${ac_cv_header_a_h=no}^J;checking for a.h... ^J(cached) no^J => 0[checking for a.h... (cached) no^JThis answer was there before the check was made, as the value of ac_cv_header_a_h.^JIt may be from an argument, a cache, the environment or the source: config.status is read only for config.log.^JAnswers in the log that were there before: 1 of 1.^J][]
a.h,config.log;acrun-record 2^Jsrcdir .^Jarg -C^Jend^J;ac_cv_header_a_h=${ac_cv_header_a_h=no}^J;checking for a.h... ^J(cached) no^J => 0[checking for a.h... (cached) no^JThis answer was there before the check was made, as the value of ac_cv_header_a_h.^JThe cache config.cache has it now. To ask again, remove there:^J  ac_cv_header_a_h=${ac_cv_header_a_h=no}^JAnswers in the log that were there before: 1 of 1.^J][]
// a function or a type, and a name that the log doesn't give
size_t;acrun-record 2^Jsrcdir .^Jarg -C^Jend^J;ac_cv_func_size_t=${ac_cv_func_size_t=no}^Jac_cv_type_size_t=${ac_cv_type_size_t=yes}^J;checking for size_t... ^J(cached) yes^J => 0[checking for size_t... (cached) yes^JThis answer was there before the check was made, as the value of ac_cv_func_size_t or ac_cv_type_size_t (of a program, ac_cv_prog_VARIABLE or ac_cv_path_VARIABLE).^JThe cache config.cache has it now. To ask again, remove there:^J  ac_cv_func_size_t=${ac_cv_func_size_t=no}^J  ac_cv_type_size_t=${ac_cv_type_size_t=yes}^JAnswers in the log that were there before: 1 of 1.^J][]
shell;acrun-record 2^Jsrcdir .^Jarg -C^Jend^J;my_cv_shell=${my_cv_shell=no}^J;checking shell... ^J(cached) no^J => 0[checking shell... (cached) no^JThis answer was there before the check was made, as the value of the name that AC_CACHE_CHECK gives it.^JNo argument in config.status sets a name that the log gives, and no cache that they name has one. It may be from the environment, from the source, or from a cache that isn't there now, or its name is not in the log.^JAnswers in the log that were there before: 1 of 1.^J][]
// how many
a.h;acrun-record 2^Jsrcdir .^Jarg -C^Jend^J;ac_cv_header_a_h=${ac_cv_header_a_h=no}^J;checking for b.h... ^J(cached) yes^Jchecking for c.h... ^J$ cc^Jstatus 0^Jyes^Jchecking for a.h... ^J(cached) no^Jchecking for d.h... ^J => 0[checking for a.h... (cached) no^JThis answer was there before the check was made, as the value of ac_cv_header_a_h.^JThe cache config.cache has it now. To ask again, remove there:^J  ac_cv_header_a_h=${ac_cv_header_a_h=no}^JAnswers in the log that were there before: 2 of 3.^J][]
c.h;acrun-record 2^Jsrcdir .^Jarg -C^Jend^J;ac_cv_header_a_h=${ac_cv_header_a_h=no}^J;checking for b.h... ^J(cached) yes^Jchecking for c.h... ^J$ cc^Jstatus 0^Jyes^J => 0[checking for c.h... yes^Jchild 1:^J$ cc^Jstatus 0^J][]
";

#[derive(Drop)]
struct Whys<'a>(&'a HostRuntime);

/// Adds the words of a text with commas between them. An empty text has none.
fn add_words(page: &mut Page, words: &mut Vec<Bytes>, text: &[u8]) {
    for piece in text.split(|byte| *byte == b',') {
        if !piece.is_empty() {
            let word = Bytes::from_slice(page.alloc(), piece);
            if let Some(word) = page.given(word) {
                if words.push(word).is_err() {
                    page.cut();
                }
            }
        }
    }
}

fn put_answer(page: &mut Page, rt: &HostRuntime, words: &[Bytes]) {
    let mut output = Vec::new(page.alloc());
    let mut errors = Vec::new(page.alloc());
    let disk = Host::new(rt);
    let status = run_why(
        page.alloc(),
        &disk,
        words,
        &mut output,
        &mut Heard::new(&mut errors),
    );
    page.put_number(usize::from(status));
    page.put_text(output.as_slice());
    page.put_text(errors.as_slice());
}

fn put_file(page: &mut Page, rt: &HostRuntime, name: &str, text: &[u8]) {
    if fs::write(rt, name, text).is_err() {
        page.put(b"no file");
    }
}

fn put_whys(page: &mut Page, rt: &HostRuntime, words: &[u8]) {
    let mut list = Vec::new(page.alloc());
    add_words(page, &mut list, words);
    put_answer(page, rt, list.as_slice());
}

impl RowCall for Whys<'_> {
    fn put(&self, page: &mut Page, given: &[u8]) {
        let (words, log) = cut(given, b"|");
        put_file(page, self.0, "config.log", log);
        put_file(page, self.0, "config.status", log);
        put_whys(page, self.0, words);
    }
}

#[derive(Drop)]
struct Cached<'a>(&'a HostRuntime);

impl RowCall for Cached<'_> {
    fn put(&self, page: &mut Page, given: &[u8]) {
        let (words, files) = cut(given, b";");
        let (record, others) = cut(files, b";");
        let (cache, log) = cut(others, b";");
        put_file(page, self.0, "config.status", record);
        put_file(page, self.0, "config.cache", cache);
        put_file(page, self.0, "config.log", log);
        put_file(page, self.0, "other.log", log);
        put_whys(page, self.0, words);
    }
}

#[test]
fn whys_of_answers(rt: HostRuntime) -> Result<(), Fail> {
    try_rows_in(&rt, "whys_of_answers", &Whys(&rt), WHYS)
}

#[test]
fn whys_of_cached_answers(rt: HostRuntime) -> Result<(), Fail> {
    try_rows_in(&rt, "whys_of_cached_answers", &Cached(&rt), CACHED)
}
