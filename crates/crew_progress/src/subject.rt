//! What is said of a job.

ghost use Rattle.std.specs.Prelude.{◌≡◌, List, ℕ, ◌∷◌, ◌++◌, option_map};
ghost use Rattle.crew_progress.specs.Subject as subject;

use crate::line::Line;
use crew_jobs::Job;
use deftable::Bytes;
use memchr::memrchr;

/// Returns the last line of a text.
fn last_line(text: &[u8]) -> &[u8]
    ensures { result.now ≡ subject.last_line text.now }
{
    match memrchr(b'\n', text) {
        Some(at) => &text[at + 1..],
        None => text,
    }
}

/// Returns the text before this end, if it has it.
#[tactic(auto, using(crate::proofs::Parts::before_end_is))]
fn before_end<'a>(back: &[u8], text: &'a [u8]) -> Option<&'a [u8]>
    ensures { option_map (λ t. t.now) result ≡ subject.before_end back.now text.now }
{
    text.strip_suffix(back)
}

/// Returns the text after this front, if it has it.
#[tactic(auto, using(crate::proofs::Parts::after_front_is))]
fn after_front<'a>(front: &[u8], text: &'a [u8]) -> Option<&'a [u8]>
    ensures { option_map (λ t. t.now) result ≡ subject.after_front front.now text.now }
{
    text.strip_prefix(front)
}

/// Returns what the text has between this front of a line and its end.
fn between<'a>(front: &[u8], back: &[u8], text: &'a [u8]) -> Option<&'a [u8]>
    ensures { option_map (λ t. t.now) result ≡ subject.between front.now back.now text.now }
{
    let before = before_end(back, text)?;
    after_front(front, last_line(before))
}

/// Returns what is tested, after a word for its kind, if the text tests something between this
/// front of a line and its end.
#[tactic(auto, unfolding(crate::specs::Subject::named))]
fn named<'a>(
    kind: &'a [u8],
    front: &[u8],
    back: &[u8],
    text: &'a [u8],
) -> Option<(&'a [u8], &'a [u8])>
    ensures { option_map (λ t. t.0.now ++ t.1.now) result
        ≡ subject.named kind.now front.now back.now text.now }
{
    let name = between(front, back, text)?;
    Some((kind, name))
}

/// Returns what the text of a conftest tests.
fn subject_in(text: &[u8]) -> Option<(&[u8], &[u8])>
    ensures { option_map (λ t. t.0.now ++ t.1.now) result ≡ subject.subject_in text.now }
{
    named(b" header ", b"#include <", b">\n", text).or(function_in(text).or(declaration_in(text).or(
        type_in(text),
    )))
}

/// Returns the function that a text calls.
fn function_in(text: &[u8]) -> Option<(&[u8], &[u8])>
    ensures { option_map (λ t. t.0.now ++ t.1.now) result ≡ subject.function_in text.now }
{
    let end = b" ();\n  ;\n  return 0;\n}\n";
    named(b" function ", b"return ", end, text)
}

/// Returns the name that a text uses if it is no macro.
fn declaration_in(text: &[u8]) -> Option<(&[u8], &[u8])>
    ensures { option_map (λ t. t.0.now ++ t.1.now) result ≡ subject.declaration_in text.now }
{
    let end = b";\n#endif\n  ;\n  return 0;\n}\n";
    named(b" declaration ", b"  (void) ", end, text)
}

/// Returns the type whose size a text takes. In the second test of a type it is in parentheses.
fn type_in(text: &[u8]) -> Option<(&[u8], &[u8])>
    ensures { option_map (λ t. t.0.now ++ t.1.now) result ≡ subject.type_in text.now }
{
    let second = named(
        b" type ",
        b"if (sizeof ((",
        b"))) return 0;\n  ;\n  return 0;\n}\n",
        text,
    );
    second.or(named(
        b" type ",
        b"if (sizeof (",
        b")) return 0;\n  ;\n  return 0;\n}\n",
        text,
    ))
}

/// Returns what the conftest of a job tests.
pub(crate) fn subject_of_file(file: &Option<(Bytes, Bytes)>) -> Option<(&[u8], &[u8])>
    ensures { option_map (λ t. t.0.now ++ t.1.now) result ≡ subject.subject_of_file file.now }
{
    match file {
        Some((_, text)) => subject_in(text.as_slice()),
        None => None,
    }
}

/// Returns whether the words are a command that looks whether a path is that of a program.
fn is_search(words: &[Bytes]) -> bool
    ensures { result ≡ subject.is_search words.now }
{
    words.len() == 5
        && words[0].as_slice() == b"sh".as_slice()
        && words[1].as_slice() == b"-c".as_slice()
        && words[2].as_slice() == b"test -f \"$1\" && test -x \"$1\"".as_slice()
        && words[3].as_slice() == b"sh".as_slice()
}

/// Returns the name and the directory of a file.
fn parts_of(path: &[u8]) -> (&[u8], &[u8])
    ensures name { result.0.now ≡ subject.name_in path.now }
    ensures directory { result.1.now ≡ subject.directory_in path.now }
{
    match memrchr(b'/', path) {
        Some(at) => (&path[at + 1..], &path[..at]),
        None => (path, b""),
    }
}

/// Returns the name of the program that a command looks for, and the directory in which it looks,
/// if the command does that.
#[tactic(auto, unfolding(crate::specs::Subject::search_of))]
pub(crate) fn search_of(words: &[Bytes]) -> Option<(&[u8], &[u8])>
    ensures { option_map (λ t. subject.search_text t.0.now t.1.now) result
        ≡ subject.search_of words.now }
{
    if is_search(words) {
        return Some(parts_of(words[4].as_slice()));
    }
    None
}

/// Appends the bytes that fit.
fn put_front(line: &mut Line, more: &[u8])
    ensures { (text : List ℕ) → line.old.items ≡ subject.line_front text
        → line.new.items ≡ subject.line_front (text ++ more.now) }
{
    let room = line.remaining_capacity().min(more.len());
    let _fits = line.try_extend_from_slice(&more[..room]);
}

/// Appends a word after a blank.
fn put_word(line: &mut Line, word: &Bytes)
    ensures { (text : List ℕ) → line.old.items ≡ subject.line_front text
        → line.new.items ≡ subject.line_front (text ++ 32 ∷ word.now) }
{
    put_front(line, b" ");
    put_front(line, word.as_slice());
}

/// Returns the words of a command.
fn command_of(words: &[Bytes]) -> Line
    ensures { result.items ≡ subject.line_front (subject.words_of words.now) }
{
    let mut line = Line::new();
    for word in words {
        put_word(&mut line, word);
    }
    line
}

/// Returns what is said of the search for a program of this name in a directory.
fn searching(name: &[u8], directory: &[u8]) -> Line
    ensures { result.items ≡ subject.line_front (subject.search_text name.now directory.now) }
{
    let mut line = Line::new();
    put_front(&mut line, b" looking for ");
    put_front(&mut line, name);
    put_front(&mut line, b" in ");
    put_front(&mut line, directory);
    line
}

/// Returns what is said of a command.
#[tactic(auto, unfolding(crate::specs::Subject::command_text))]
fn command_line(words: &[Bytes]) -> Line
    ensures { result.items ≡ subject.line_front (subject.command_text words.now) }
{
    match search_of(words) {
        Some((name, directory)) => searching(name, directory),
        None => command_of(words),
    }
}

/// Returns a text and a name, as much of them as a line can show.
fn joined(kind: &[u8], name: &[u8]) -> Line
    ensures { result.items ≡ subject.line_front (kind.now ++ name.now) }
{
    let mut line = Line::new();
    put_front(&mut line, kind);
    put_front(&mut line, name);
    line
}

/// Returns what the line of a terminal says of a job: what its conftest tests if the text shows
/// that, and otherwise its command.
#[tactic(auto, unfolding(crate::specs::Subject::subject_of))]
pub(crate) fn subject_of(job: &Job) -> Line
    ensures { result.items ≡ subject.subject_of job.now }
{
    match subject_of_file(&job.file) {
        Some((kind, name)) => joined(kind, name),
        None => command_line(job.words.as_slice()),
    }
}
