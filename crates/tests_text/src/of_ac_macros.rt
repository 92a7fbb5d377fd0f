//! The table of macros, their readers, and what statements and questions use. What `declare` makes
//! of declarations shows in the lists of a source (`sources`): its contract would make each
//! function that calls it slow to prove.

use crate::told::{Next, Told, add, put_each, put_if, put_made, put_next, put_of, put_parts};
use ac_args::ParseFault;
use ac_macros::checks::complete;
use ac_macros::list_kind::{ListKind, check_list_kind};
use ac_macros::placement::{as_statement, bare_fault, check_place};
use ac_macros::rows::{plain, question};
use ac_macros::table::{row_named, takes};
use ac_macros::{
    ArgumentMacro, ChoiceMacro, DeclaringMacro, Macro, Named, PlainMacro, QuestionMacro,
};
use ac_tree::uses::{Reads, Uses, uses_asked, uses_of};
use ac_tree::{Declarations, Declares, Effect, OptionKind, OutputKind, Question, Stage, Try};
use deftable::Texts;
use m4quote::{Arg, Item, read_items};
use std::alloc::{AllocError, Global};
use test_rows::{Page, RowCall};
use test_trees::{put_plain, put_question, put_sought};

// ---- the table

/// The most bytes of a source: so many arguments are any number of them.
const LONGEST_SOURCE: usize = 1_048_576;

/// Returns the word for a macro that declares something.
fn declaring(m: DeclaringMacro) -> &'static [u8] {
    match m {
        DeclaringMacro::Subst => b"statement Subst ",
        DeclaringMacro::ConfigOutputs(OutputKind::File) => b"statement ConfigFiles ",
        DeclaringMacro::Init => b"statement Init ",
        _ => b"another ",
    }
}

/// Returns the word for what a name names.
fn meaning(named: Named) -> &'static [u8] {
    match named {
        Named::Statement(Macro::Plain(PlainMacro::Declares(m))) => declaring(m),
        Named::Statement(Macro::Choice(ChoiceMacro::Case)) => b"choice Case ",
        Named::Statement(Macro::Question(QuestionMacro::Given(OptionKind::Package))) => {
            b"question Package "
        }
        Named::Statement(Macro::Question(QuestionMacro::Tries(Try::Link))) => b"question Link ",
        Named::Statement(Macro::Question(QuestionMacro::Tries(Try::Run))) => b"question Run ",
        Named::Statement(Macro::Question(QuestionMacro::Library)) => b"question Library ",
        Named::Statement(Macro::Question(QuestionMacro::Libraries)) => b"question Libraries ",
        Named::Statement(Macro::Check) => b"check ",
        Named::Argument(ArgumentMacro::LangSource) => b"argument LangSource ",
        _ => b"another ",
    }
}

/// Puts the word for what a name names.
fn put_meaning(page: &mut Page, named: Named) {
    match named {
        Named::Statement(Macro::Question(QuestionMacro::Checks(sought))) => {
            page.put(b"one ");
            put_sought(page, sought);
            page.put(b" ");
        }
        Named::Statement(Macro::Question(QuestionMacro::ChecksEach(sought))) => {
            page.put(b"each ");
            put_sought(page, sought);
            page.put(b" ");
        }
        _ => page.put(meaning(named)),
    }
}

/// Puts what a name names, how many arguments it takes, and whether it is the file's own list's
/// alone.
fn put_row_named(page: &mut Page, name: &[u8]) {
    let Some(row) = row_named(name) else {
        return;
    };
    put_meaning(page, row.named);
    page.put_number(row.least);
    page.put(b" to ");
    if row.most >= LONGEST_SOURCE {
        page.put(b"any number");
    } else {
        page.put_number(row.most);
    }
    put_if(page, row.top, b" at top");
}

// ---- places

/// Checks whether a call of this name, or a word that names no macro, may stand there.
fn allowed(is_top: bool, stage: Stage, name: &[u8]) -> Result<(), ParseFault> {
    let Some(row) = row_named(name) else {
        return Err(bare_fault(stage, 3));
    };
    let m = as_statement(stage, 3, row.named)?;
    check_place(is_top, stage, row.top, m, 3)
}

/// Checks whether the commands of AC_CACHE_CHECK may call a macro of this name.
fn allowed_in_commands(name: &[u8]) -> Result<(), ParseFault> {
    let list_kind = ListKind::Commands {
        name: b"v_cv_x",
        at: 9,
    };
    let Some(row) = row_named(name) else {
        return Err(bare_fault(Stage::Open, 3));
    };
    let m = as_statement(Stage::Open, 3, row.named)?;
    check_list_kind(list_kind.of_case(), m)
}

// ---- readers

/// Puts each text that is read.
fn put_reads(page: &mut Page, reads: &Reads<'_>) {
    match reads {
        Reads::Nothing => {}
        Reads::Variable(name) => {
            page.put(b" reads variable ");
            page.put(name.as_slice());
        }
        Reads::Text(text) => {
            page.put(b" reads ");
            put_parts(page, *text);
        }
        Reads::Texts(first, second) => {
            page.put(b" reads ");
            put_parts(page, *first);
            page.put(b" and ");
            put_parts(page, *second);
        }
    }
}

/// What is used: what is assigned, read, tested and tried.
impl Told for Uses<'_> {
    fn tell(&self, page: &mut Page) {
        page.put(b"uses");
        if let Some(name) = self.assigns {
            page.put(b" assigns ");
            page.put(name.as_slice());
        }
        put_reads(page, &self.reads);
        for name in self.tests.as_slice() {
            page.put(b" tests ");
            page.put(name.as_slice());
        }
        put_if(page, self.alone, b" alone");
        put_if(page, self.tries, b" tries");
    }
}

// The calls, in functions without their clauses.

fn used<'a>(
    alloc: Global,
    declares: &'a Declares,
    effect: &'a Effect,
) -> Result<Uses<'a>, AllocError> {
    uses_of(alloc, declares, effect)
}

fn used_by<'a>(alloc: Global, question: &'a Question) -> Result<Uses<'a>, AllocError> {
    uses_asked(alloc, question)
}

fn read_plain(
    alloc: Global,
    known: &Declarations,
    m: PlainMacro,
    at: usize,
    args: &[Arg<'_>],
) -> Result<(Declares, Effect), ParseFault> {
    plain(alloc, known, m, at, args)
}

fn read_question(
    alloc: Global,
    known: &Declarations,
    m: QuestionMacro,
    args: &[Arg<'_>],
) -> Result<(Declares, Question), ParseFault> {
    let (declares, question) = question(alloc, known, m, args)?;
    let question = complete(alloc, question, args)?;
    Ok((declares, question))
}

/// A call of a macro.
#[derive(Drop)]
struct Called<'a> {
    named: Named,
    at: usize,
    args: &'a [Arg<'a>],
    /// Whether what it uses is wanted, and not what it is read as.
    uses: bool,
}

/// What the statement declares and does, or what it uses.
impl Next<(Declares, Effect)> for Called<'_> {
    fn put_of(&self, page: &mut Page, made: &(Declares, Effect)) {
        if self.uses {
            return put_made(page, used(page.alloc(), &made.0, &made.1));
        }
        put_plain(page, &made.0, &made.1);
    }
}

/// The question with what is declared, or what it uses.
impl Next<(Declares, Question)> for Called<'_> {
    fn put_of(&self, page: &mut Page, made: &(Declares, Question)) {
        if self.uses {
            return put_made(page, used_by(page.alloc(), &made.1));
        }
        put_question(page, &made.0, &made.1);
    }
}

/// What the call is read as, or what it uses, if it is a statement.
impl Next<Declarations> for Called<'_> {
    fn put_of(&self, page: &mut Page, known: &Declarations) {
        let alloc = page.alloc();
        match self.named {
            Named::Statement(Macro::Plain(m)) => {
                put_next(page, read_plain(alloc, known, m, self.at, self.args), self);
            }
            Named::Statement(Macro::Question(m)) => {
                put_next(page, read_question(alloc, known, m, self.args), self);
            }
            _ => page.put(b"another macro"),
        }
    }
}

/// Returns whether nothing is known, and AC_INIT is still to come.
fn is_first(known: &Declarations) -> bool {
    matches!(known.stage, Stage::Before)
        && known.substituted.names().is_empty()
        && known.precious.names().is_empty()
        && known.features.names().is_empty()
        && known.packages.names().is_empty()
        && known.help.as_slice().is_empty()
        && known.files.is_empty()
}

/// Puts the names of a search of two programs.
fn put_programs(page: &mut Page) {
    let mut names = Vec::new(page.alloc());
    add(page, &mut names, b"gcc");
    add(page, &mut names, b"cc");
    put_each(page, Texts::from_vec(names).as_slice());
}

/// A call.
pub enum MacroReader {
    /// What the table has of a name.
    Row,
    /// Whether a call has arguments that its macro takes.
    Takes,
    /// What a call is read as.
    Reads,
    /// What it uses.
    Uses,
    /// Whether a call may stand in the file's own list, in another, before AC_INIT, or after
    /// AC_OUTPUT.
    Top,
    Inside,
    /// Whether it may stand in the commands of AC_CACHE_CHECK.
    Commands,
    Before,
    After,
    First,
    Programs,
}

pub const READERS: [(&[u8], MacroReader); 11] = [
    (b"row", MacroReader::Row),
    (b"takes", MacroReader::Takes),
    (b"reads", MacroReader::Reads),
    (b"uses", MacroReader::Uses),
    (b"top", MacroReader::Top),
    (b"inside", MacroReader::Inside),
    (b"commands", MacroReader::Commands),
    (b"before", MacroReader::Before),
    (b"after", MacroReader::After),
    (b"first", MacroReader::First),
    (b"programs", MacroReader::Programs),
];

/// Whether nothing is declared.
impl Next<Declarations> for MacroReader {
    fn put_of(&self, page: &mut Page, known: &Declarations) {
        page.put_yes(is_first(known));
    }
}

/// What is told of the first call of a text.
impl Next<Vec<Item<'_>>> for MacroReader {
    fn put_of(&self, page: &mut Page, items: &Vec<Item<'_>>) {
        let Some(Item::Call { name, args, at }) = items.first() else {
            return page.put(b"no call");
        };
        let Some(row) = row_named(name) else {
            return page.put(b"no macro");
        };
        match self {
            MacroReader::Takes => put_made(page, takes(page.alloc(), row, args.as_slice())),
            _ => {
                let called = Called {
                    named: row.named,
                    at: *at,
                    args: args.as_slice(),
                    uses: matches!(self, MacroReader::Uses),
                };
                put_of(page, Declarations::new(page.alloc()), &called);
            }
        }
    }
}

impl RowCall for MacroReader {
    fn put(&self, page: &mut Page, text: &[u8]) {
        let alloc = page.alloc();
        match self {
            MacroReader::Row => put_row_named(page, text),
            MacroReader::Takes | MacroReader::Reads | MacroReader::Uses => {
                put_next(page, read_items(alloc, text), self);
            }
            MacroReader::Top => put_made(page, allowed(true, Stage::Open, text)),
            MacroReader::Inside => put_made(page, allowed(false, Stage::Open, text)),
            MacroReader::Commands => put_made(page, allowed_in_commands(text)),
            MacroReader::Before => put_made(page, allowed(true, Stage::Before, text)),
            MacroReader::After => put_made(page, allowed(true, Stage::Ended, text)),
            MacroReader::First => put_of(page, Declarations::new(alloc), self),
            MacroReader::Programs => put_programs(page),
        }
    }
}
