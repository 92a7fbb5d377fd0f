//! Laws of the meaning: theorems on what a run of statements asks for, prints, defines and leaves
//! set.
//!
//! There is no code here. Each function does nothing, and its contract is a theorem on the
//! definitions of `meaning`. Read `specs/Ends.antt` (what holds at the ends of a run),
//! `specs/Cached.antt` (cached tests: their names), `specs/Commands.antt` (tests that set their
//! name alone), `specs/Questions.antt` (questions that test: their answer), `specs/Linking.antt`
//! (tests of libraries: what they leave in LIBS), `specs/Deeds.antt` (what each name that is set at
//! the end comes from), `specs/Logged.antt` (the children in the log), then `specs/Batched.antt`
//! (batches: lists of tests whose children are asked for at once, each of which may be in one). `specs/Finished.antt` is a run
//! under given replies, with which `specs/Refusals.antt` says which runs are cut,
//! `specs/Types.antt` what the test of a type finds, and `specs/Programs.antt` what AC_CHECK_PROGS
//! and AC_PROG_CC find.
//!
//! For example, say that AC_CACHE_CHECK of the name `v_cv_x` has the commands `v_cv_x=no` and then
//! a program that is compiled, and that the compiler can't be started. By `broken_check_is_unset`
//! the name is unset at the end, and by `broken_check_leaves_variables` all variables and
//! definitions are as they were.
#![tactic(auto)]

ghost use Rattle.meaning_laws.specs.Batched.{BatchCommits, BatchAsksUnset, BatchStops, BatchKeepsSet, BatchAsksFew, BatchAsksOnce, EntriesAreBatched, EntriesAreSingle, SinglesAreReplied};
ghost use Rattle.meaning_laws.specs.Cached.{NamesStandOnce, BrokenIsUnset, BrokenRowIsUnset, BrokenCheckIsUnset, SetStaysSet, SetTestsAskNothing, SetRowAsksNothing};
ghost use Rattle.meaning_laws.specs.Commands.{BrokenLeavesVariables, BrokenRowLeavesVariables, CommandsWriteAlone, BrokenCheckLeavesVariables};
ghost use Rattle.meaning_laws.specs.Deeds.{DeedsAccount, AnswersAreLeft, TestedAreCached};
ghost use Rattle.meaning_laws.specs.Linking.{LibsChecked, LibsSearched};
ghost use Rattle.meaning_laws.specs.Logged.{ChildrenAreLogged};
ghost use Rattle.meaning_laws.specs.Programs.{ProgramsAreSought, CachedIsNotSought, OwnIsNotSought};
ghost use Rattle.meaning_laws.specs.Questions.{FoundByValue, FoundByCached};
ghost use Rattle.meaning_laws.specs.Refusals.{CutsAtRefusals, CutsAreTold};
ghost use Rattle.meaning_laws.specs.Types.{TypeByReplies};

/// Statements never give a name a second entry in the variables.
pub fn names_stand_once()
    ensures once { NamesStandOnce }
{}

/// A test that doesn't continue leaves its name unset, if its body never gives the name a second
/// entry.
pub fn broken_is_unset()
    ensures unset { BrokenIsUnset }
{}

/// Each test of a statement or a question leaves its name unset if it doesn't continue.
pub fn broken_row_is_unset()
    ensures unset { BrokenRowIsUnset }
{}

/// AC_CACHE_CHECK that doesn't continue leaves its name unset, whatever its commands.
pub fn broken_check_is_unset()
    ensures unset { BrokenCheckIsUnset }
{}

/// A name that is set is set at each end of any statements.
pub fn set_stays_set()
    ensures set { SetStaysSet }
{}

/// A test whose name is set asks for nothing, and prints its value.
pub fn set_tests_ask_nothing()
    ensures nothing { SetTestsAskNothing }
{}

/// A test in a statement asks for nothing if its name is set. Variables and definitions are those
/// from before, and then what is done with the value is done.
pub fn set_row_asks_nothing()
    ensures nothing { SetRowAsksNothing }
{}

/// A test that doesn't continue leaves the variables as they were, if its body sets its name alone.
pub fn broken_leaves_variables()
    ensures unchanged { BrokenLeavesVariables }
{}

/// Each test of a statement or a question leaves variables and definitions as they were if it doesn't
/// continue.
pub fn broken_row_leaves_variables()
    ensures unchanged { BrokenRowLeavesVariables }
{}

/// The commands that AC_CACHE_CHECK may have set its name alone, and define nothing.
pub fn commands_write_alone()
    ensures alone { CommandsWriteAlone }
{}

/// AC_CACHE_CHECK with such commands leaves variables and definitions as they were if it doesn't
/// continue.
pub fn broken_check_leaves_variables()
    ensures unchanged { BrokenCheckLeavesVariables }
{}

/// The names that are set at the end of a run are exactly those that were set at its beginning,
/// those that a statement assigned, and those that a completed test left set: a test of a
/// statement, of an entry of a batch, or of a question in one of its rounds. Such a test was of a
/// name that was unset at the beginning. A name that was set and that no statement assigned keeps
/// its value. AC_CACHE_CHECK counts for its own name alone, if its commands set that name alone.
pub fn deeds_account()
    ensures account { DeedsAccount }
{}

/// A batch leaves a name set that was unset exactly if the child of that name was answered,
/// whatever the number of replies, and whether or not there is a compiler.
pub fn answers_are_left()
    ensures left { AnswersAreLeft }
{}

/// A test that came to its end and left its name set has a cache name.
pub fn tested_names_are_cached()
    ensures cached { TestedAreCached }
{}

/// A question of a test is answered by the cached value when the test is over: yes if it is `yes`,
/// and no if it isn't. If the form says so, as that of a search for libraries does, the answer is
/// yes if the value is set and is not `no`. If the name is set, the question asks for nothing, and
/// the value that the name has decides.
pub fn found_by_value()
    ensures value { FoundByValue }
    ensures cached { FoundByCached }
{}

/// When the actions of a test of libraries begin, LIBS is what it was before the test, with a
/// library and a blank in front in exactly two cases: AC_CHECK_LIB has found its library and has no
/// first action, or AC_SEARCH_LIBS has found that one of its libraries is needed. If the run ends
/// in the test, LIBS is as it was.
pub fn libs_gets_libraries()
    ensures checked { LibsChecked }
    ensures searched { LibsSearched }
{}

/// The children in the log of a run are the jobs that it asked for with their replies, in order.
pub fn children_are_logged()
    ensures logged { ChildrenAreLogged }
{}

/// If there is a compiler, a batch is cut exactly if one of its children is refused. Each name has
/// its value from before, or the one that the reply to its child gives. By these values the results
/// are defined and printed, one after the other, and a test whose child was refused defines nothing.
/// The children are logged in the order of the list.
pub fn batch_commits()
    ensures commits { BatchCommits }
{}

/// If there is a compiler, a batch asks for a child for each name of a test that is unset when it
/// begins, and for no other name.
pub fn batch_asks_unset()
    ensures unset { BatchAsksUnset }
{}

/// If there is no compiler, a batch asks for nothing and leaves the variables as they were. The run
/// stops with status 1, unless the name of each test is set.
pub fn batch_stops()
    ensures stops { BatchStops }
{}

/// If each of its names is set, a batch asks for nothing and leaves the variables as they were,
/// whether or not there is a compiler. It defines and prints what the values say, a test after the
/// other.
pub fn batch_keeps_set()
    ensures set { BatchKeepsSet }
{}

/// The tests of headers, functions and declarations may be in a batch, as the other laws of batches
/// want of each test: it has a first try, and what is done with its value sets no variable.
pub fn entries_are_batched()
    ensures entries { EntriesAreBatched }
{}

/// A test of one try, after which the value is `yes` or `no`, does with its reply what it does in a
/// batch. Those of headers, functions and declarations are such tests.
pub fn singles_are_replied()
    ensures replied { SinglesAreReplied }
    ensures entries { EntriesAreSingle }
{}

/// A batch asks for no more children than it has tests.
pub fn batch_asks_few()
    ensures within { BatchAsksFew }
{}

/// A batch asks for at most one child for a name, also if the name is listed twice.
pub fn batch_asks_once()
    ensures once { BatchAsksOnce }
{}

/// A whole run that is played with as many replies as jobs is cut exactly if one of them is
/// refused. Its last message is then the line with the place of the first refused reply. A run that
/// isn't cut prints what its statements print.
pub fn cuts_at_refusals()
    ensures law { CutsAtRefusals }
    ensures told { CutsAreTold }
{}

/// The test of a type whose name is unset asks for one child or two: for the second only if the
/// first succeeds. Its value is `yes` exactly if the first succeeds and the second fails, and
/// otherwise `no`.
pub fn type_by_replies()
    ensures replies { TypeByReplies }
{}

/// AC_CHECK_PROGS and AC_PROG_CC look for the first program in all directories of PATH, then for
/// the next, up to the first that is found. The variable gets the name of that program. If none is
/// found it gets the default, or the empty text. If the cache name is set, or else if the variable
/// has a value that isn't empty, nothing is asked for, and that value counts.
pub fn programs_are_sought()
    ensures sought { ProgramsAreSought }
    ensures cached { CachedIsNotSought }
    ensures own { OwnIsNotSought }
{}
