//! Writes AC_EGREP_CPP of a word that stands for a symbol as AC_PREPROC_IFELSE, if all idioms are
//! wanted.

ghost use Rattle.std.specs.Prelude.{◌≡◌, ◌≤◌, ◌∷◌, ◌++◌, true, Some, length, map, slice_range, codes, Contains, IfOk, IfSome, OnOk, IsTrue};
ghost use Rattle.std.specs.List.{list_all};
ghost use Rattle.ac_calls.specs.Calls.{calls_in, macro_call_of};
ghost use Rattle.lint_macros.specs.Entries.{entry_of};
ghost use Rattle.lint_macros.specs.declared.text.TheConstants.{TABLE};
ghost use Rattle.port_idioms.specs.Filled.{text_of};
ghost use Rattle.port_idioms.specs.Rows.{put_by, Differs};
ghost use Rattle.port_idioms.specs.declared.idioms.Idioms.TheVariants.{All};
ghost use Rattle.port_spots.specs.Put.{arg_text, count_of, below, is_space_or_return, is_blank_or_return};
ghost use Rattle.port_passes.specs.Making as specs;
ghost use Rattle.port_passes.specs.Rewritten as rewritten;

use ac_calls::{CallAt, Extent};
use lint_text::{first_name, from, part};
use port_definitions::argument;
use port_idioms::{Idioms, Other, is_call_of, other_of, text_of};
use port_passes::{Pass, can_be_made, put_made};
use port_spots::{
    Known, Spot, are_blank, are_name_bytes, count_of, difference, joins_next_line, line_indent,
    put_named, texts,
};
use std::alloc::{AllocError, Global};

/// What a test of a symbol begins with.
const FRONT: &[u8] = b"#ifdef ";

/// Returns whether a text is one word, of letters, digits and `_`.
fn is_name(word: &[u8]) -> bool
    ensures { result ≡ specs.is_name word.now }
{
    0 < word.len() && are_name_bytes(word)
}

/// Returns whether two texts are each one word.
fn are_names(symbol: &[u8], word: &[u8]) -> bool
    ensures { IsTrue result
        → (specs.is_name symbol.now ≡ true) × (specs.is_name word.now ≡ true) }
{
    is_name(symbol) && is_name(word)
}

/// Returns the program that has a word if a symbol is defined, and this after it.
fn tested(alloc: Global, symbol: &[u8], word: &[u8], rest: &[u8]) -> Result<Vec<u8>, AllocError>
    ensures { IfOk result (λ v. v.items ≡ specs.tested symbol.now word.now rest.now) }
{
    let mut out = Vec::from_slice(alloc, b"#ifdef ")?;
    out.extend_from_slice(symbol)?;
    out.push(b'\n')?;
    out.extend_from_slice(word)?;
    out.push(b'\n')?;
    out.extend_from_slice(b"#endif")?;
    out.extend_from_slice(rest)?;
    Ok(out)
}

/// Returns the program that has an error if a symbol is not defined, in brackets.
fn with_error(alloc: Global, symbol: &[u8], rest: &[u8]) -> Result<Vec<u8>, AllocError>
    ensures { IfOk result (λ v. v.items ≡ specs.with_error symbol.now rest.now) }
{
    let mut out = Vec::new(alloc);
    out.push(b'[')?;
    out.extend_from_slice(b"#ifdef ")?;
    out.extend_from_slice(symbol)?;
    out.push(b'\n')?;
    out.extend_from_slice(b"#else")?;
    out.push(b'\n')?;
    out.extend_from_slice(b"#error none")?;
    out.push(b'\n')?;
    out.extend_from_slice(b"#endif")?;
    out.extend_from_slice(rest)?;
    out.push(b']')?;
    Ok(out)
}

/// Returns the program with an error in place of the word, if it has that if a symbol is defined,
/// with this after it.
#[tactic(auto, using(crate::proofs::Made::tests))]
fn with_parts(
    alloc: Global,
    program: &[u8],
    symbol: &[u8],
    word: &[u8],
    rest: &[u8],
) -> Result<Option<Vec<u8>>, AllocError>
    ensures { IfOk result (λ o.
        IfSome o (λ v. specs.IsTest program.now word.now v.items)) }
{
    if !are_names(symbol, word) || !are_blank(rest) {
        return Ok(None);
    }
    let expected = tested(alloc, symbol, word, rest)?;
    if program != expected.as_slice() {
        return Ok(None);
    }
    let made = with_error(alloc, symbol, rest)?;
    Ok(Some(made))
}

/// Returns the program with an error in place of a word, if it has that alone, and only if a symbol
/// is defined.
fn made_of(alloc: Global, program: &[u8], word: &[u8]) -> Result<Option<Vec<u8>>, AllocError>
    ensures { IfOk result (λ o.
        IfSome o (λ v. specs.IsTest program.now word.now v.items)) }
{
    let symbol = first_name(from(program, FRONT.len()));
    let used = FRONT
        .len()
        .saturating_add(symbol.len())
        .saturating_add(word.len());
    let rest = from(program, used.saturating_add(b"\n\n#endif".len()));
    with_parts(alloc, program, symbol, word, rest)
}

/// Returns the word of a pattern of a whole line, and otherwise the pattern.
fn word_of(pattern: &[u8]) -> &[u8]
    ensures { result.now ≡ specs.word_of pattern.now }
{
    let len = pattern.len();
    if len > 2 && pattern[0] == b'^' && pattern[len - 1] == b'$' {
        &pattern[1..len - 1]
    } else {
        pattern
    }
}

/// Returns the program of one argument with an error in place of the word of another one.
fn test_of(
    alloc: Global,
    text: &[u8],
    word: Extent,
    program: Extent,
) -> Result<Option<Vec<u8>>, AllocError>
    ensures { IfOk result (λ o.
        IfSome o (λ v.
        specs.IsTest (text_of (Some (arg_text text.now program)))
        (specs.word_of (text_of (Some (arg_text text.now word)))) v.items)) }
{
    let Some(pattern) = text_of(part(text, word.start, word.end)) else {
        return Ok(None);
    };
    let Some(inner) = text_of(part(text, program.start, program.end)) else {
        return Ok(None);
    };
    made_of(alloc, inner, word_of(pattern))
}

/// Returns the program of the call with an error in place of what it searches for, if that is a word
/// that the program has only if a symbol is defined.
#[tactic(auto, using(crate::proofs::Made::searches))]
fn search_of(alloc: Global, text: &[u8], call: &CallAt) -> Result<Option<Vec<u8>>, AllocError>
    ensures { IfOk result (λ o.
        IfSome o (λ v. specs.IsSearch text.now (macro_call_of call.now) v.items)) }
{
    let Some(word) = argument(call, 0) else {
        return Ok(None);
    };
    let Some(program) = argument(call, 1) else {
        return Ok(None);
    };
    match test_of(alloc, text, word, program)? {
        Some(made) => Ok(Some(made)),
        None => Ok(None),
    }
}

/// Appends the idiom with a program and the arguments after the second one. Returns whether they
/// could be put there.
fn put_actions(
    alloc: Global,
    out: &mut Vec<u8>,
    idiom: &[u8],
    text: &[u8],
    program: &[u8],
    args: &[Extent],
    indent: &[u8],
) -> Result<bool, AllocError>
    requires { 2 ≤ length args.now }
    ensures { IfOk result (λ b.
        IsTrue b
        → out.new.items
        ≡ out.old.items
        ++ below indent.now idiom.now
        (program.now ∷ map (arg_text text.now) (slice_range args.now 2 (length args.now)))) }
{
    let actions = texts(alloc, text, &args[2..args.len()])?;
    put_named(alloc, out, idiom, program, actions.as_slice(), indent)
}

/// Returns what is put in the place of a search: the idiom below a comment, unless an argument can't
/// be put into it.
#[tactic(auto, using(crate::proofs::Made::sought))]
fn search_text(
    alloc: Global,
    text: &[u8],
    indent: &[u8],
    call: &CallAt,
    program: &[u8],
    other: &Other,
) -> Result<Option<Vec<u8>>, AllocError>
    requires egrep { slice_range text.now (macro_call_of call.now).start (macro_call_of call.now).name_end
        ≡ codes "AC_EGREP_CPP" }
    requires indent { list_all is_space_or_return indent.now ≡ true }
    requires search { specs.IsSearch text.now (macro_call_of call.now) program.now }
    requires has { put_by (entry_of (codes "AC_EGREP_CPP(symbol)") TABLE.now) ≡ Some other.now.idiom.now }
    requires differs { Differs (codes "AC_EGREP_CPP(symbol)") (count_of text.now (macro_call_of call.now).args)
        other.now.said.now }
    ensures { IfOk result (λ o.
        IfSome o (λ v. specs.IsMade text.now (macro_call_of call.now) v.items)) }
{
    if call.args.len() < 2 {
        return Ok(None);
    }
    let mut out = difference(alloc, b"AC_EGREP_CPP", other.said)?;
    if put_actions(
        alloc,
        &mut out,
        other.idiom,
        text,
        program,
        call.args.as_slice(),
        indent,
    )? {
        Ok(Some(out))
    } else {
        Ok(None)
    }
}

/// Returns what is put in the place of a call of AC_EGREP_CPP, if it is such a search.
fn sought_text(
    alloc: Global,
    known: &Known,
    text: &[u8],
    indent: &[u8],
    call: &CallAt,
) -> Result<Option<Vec<u8>>, AllocError>
    requires egrep { slice_range text.now (macro_call_of call.now).start (macro_call_of call.now).name_end
        ≡ codes "AC_EGREP_CPP" }
    requires indent { list_all is_space_or_return indent.now ≡ true }
    ensures { IfOk result (λ o.
        IfSome o (λ v. specs.IsMade text.now (macro_call_of call.now) v.items)) }
{
    let Some(program) = search_of(alloc, text, call)? else {
        return Ok(None);
    };
    let count = count_of(text, call.args.as_slice());
    match other_of(alloc, &known.index, b"AC_EGREP_CPP(symbol)", count)? {
        Some(other) => search_text(alloc, text, indent, call, program.as_slice(), &other),
        None => Ok(None),
    }
}

/// Writes the idiom of a search in the place of a call of AC_EGREP_CPP, if it is such a search.
fn put_sought(
    alloc: Global,
    idioms: Idioms,
    known: &Known,
    text: &[u8],
    indent: &[u8],
    call: &CallAt,
    pass: &mut Pass,
) -> Result<(), AllocError>
    requires call { Contains (calls_in text.now) (macro_call_of call.now) }
    requires all { idioms ≡ All }
    requires egrep { slice_range text.now (macro_call_of call.now).start (macro_call_of call.now).name_end
        ≡ codes "AC_EGREP_CPP" }
    requires indent { list_all is_space_or_return indent.now ≡ true }
    requires begun { rewritten.IsPass idioms text.now pass.old.at pass.old.out.items }
    ensures { OnOk result (rewritten.IsPass idioms text.now pass.new.at pass.new.out.items) }
{
    match sought_text(alloc, known, text, indent, call)? {
        Some(put) => put_made(idioms, text, call, put.as_slice(), pass),
        None => Ok(()),
    }
}

/// Writes a program with an error in the place of a call of AC_EGREP_CPP, if all idioms are wanted.
pub fn pass_search(
    alloc: Global,
    idioms: Idioms,
    known: &Known,
    text: &[u8],
    spot: Spot,
    call: &CallAt,
    pass: &mut Pass,
) -> Result<(), AllocError>
    requires call { Contains (calls_in text.now) (macro_call_of call.now) }
    requires begun { rewritten.IsPass idioms text.now pass.old.at pass.old.out.items }
    ensures { OnOk result (rewritten.IsPass idioms text.now pass.new.at pass.new.out.items) }
{
    if !is_call_of(text, call, b"AC_EGREP_CPP")
        || !can_be_made(known, text, spot, call)
        || joins_next_line(text, call)
    {
        return Ok(());
    }
    let indent = line_indent(text, spot);
    match idioms {
        Idioms::Exact => Ok(()),
        Idioms::All => put_sought(alloc, idioms, known, text, indent, call, pass),
    }
}
