//! The line of a child that was started.

ghost use Rattle.std.specs.Prelude.{◌≡◌, ◌≤◌, ℕ, List, ◌∷◌, ◌++◌, length, option_map};
ghost use Rattle.crew_progress.specs.Child as child;
ghost use Rattle.crew_progress.specs.Screen.{IsShowing};
ghost use Rattle.crew_progress.specs.Subject.{command_text, search_text, words_of};

use crate::screen::{Screen, Text, empty, put};
use crate::subject::{search_of, subject_of_file};
use crew_jobs::Job;
use deftable::Bytes;
use itoa::Buffer;

/// The columns of a line before its mark and its newline.
type Row = Screen<396>;

/// Appends a word after a blank.
fn put_word(row: &mut Row, word: &Bytes)
    ensures { (text : List ℕ) → IsShowing 396 row.old.line.items row.old.is_cut text
        → IsShowing 396 row.new.line.items row.new.is_cut (text ++ 32 ∷ word.now) }
{
    put(row, b" ");
    put(row, word.as_slice());
}

/// Appends the words of a command.
fn put_words(row: &mut Row, words: &[Bytes])
    ensures { (text : List ℕ) → IsShowing 396 row.old.line.items row.old.is_cut text
        → IsShowing 396 row.new.line.items row.new.is_cut (text ++ words_of words.now) }
{
    for word in words {
        put_word(row, word);
    }
}

/// Appends what is said of the search for a program of this name in a directory.
fn put_search(row: &mut Row, name: &[u8], directory: &[u8])
    ensures { (text : List ℕ) → IsShowing 396 row.old.line.items row.old.is_cut text
        → IsShowing 396 row.new.line.items row.new.is_cut
        (text ++ search_text name.now directory.now) }
{
    put(row, b" looking for ");
    put(row, name);
    put(row, b" in ");
    put(row, directory);
}

/// Appends what is said of a command.
#[tactic(auto, unfolding(crate::specs::Subject::command_text))]
fn put_command(row: &mut Row, words: &[Bytes])
    ensures { (text : List ℕ) → IsShowing 396 row.old.line.items row.old.is_cut text
        → IsShowing 396 row.new.line.items row.new.is_cut (text ++ command_text words.now) }
{
    match search_of(words) {
        Some((name, directory)) => put_search(row, name, directory),
        None => put_words(row, words),
    }
}

/// Appends what a child is for.
fn put_purpose(row: &mut Row, told: Option<(&[u8], &[u8])>)
    ensures { (text : List ℕ) → IsShowing 396 row.old.line.items row.old.is_cut text
        → IsShowing 396 row.new.line.items row.new.is_cut
        (text ++ child.purpose (option_map (λ t. t.0.now ++ t.1.now) told.entry)) }
{
    if let Some((kind, name)) = told {
        put(row, b",");
        put(row, kind);
        put(row, name);
    }
}

/// Appends what is said of a child.
fn put_child(row: &mut Row, number: u64, job: &Job)
    ensures { (text : List ℕ) → IsShowing 396 row.old.line.items row.old.is_cut text
        → IsShowing 396 row.new.line.items row.new.is_cut
        (text ++ child.child_text number job.now) }
{
    let mut digits = Buffer::new();
    put(row, b"acrun: child ");
    put(row, digits.format(number).as_bytes());
    put_purpose(row, subject_of_file(&job.file));
    put(row, b":");
    put_command(row, job.words.as_slice());
}

/// Returns a line and what ends it.
fn ended(row: &Row, end: &[u8]) -> Text
    requires { length end.now ≤ 4 }
    ensures { result.items ≡ row.now.line.items ++ end.now }
{
    let mut text = Text::new();
    let _fits = text.try_extend_from_slice(row.line.as_slice());
    let _fits = text.try_extend_from_slice(end);
    text
}

/// Returns a line with its mark, if it is cut, and with its newline.
fn marked(row: &Row) -> Text
    ensures { (text : List ℕ) → IsShowing 396 row.now.line.items row.now.is_cut text
        → result.items ≡ child.row text }
{
    if row.is_cut {
        return ended(row, b"...\n");
    }
    ended(row, b"\n")
}

/// Returns the line of the child that has this number and does this job.
pub(crate) fn child_line(number: u64, job: &Job) -> Text
    ensures { result.items ≡ child.child_line number job.now }
{
    let mut row = empty();
    put_child(&mut row, number, job);
    marked(&row)
}
