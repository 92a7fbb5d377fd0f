//! Recipes that run `config.status`.

use bstr::ByteSlice;
use lint_text::{before, from, part};
use std::alloc::{AllocError, Global};

/// What ends the name of a record.
const RECORD: &[u8] = b"config.status";

/// The words before a command that are none.
#[rattlefmt::skip]
const BEFORE_COMMANDS: [&[u8]; 13] = [
    b"if", b"then", b"else", b"elif", b"while", b"until", b"do", b"!", b"exec", b"env", b"time", b"{", b"eval",
];

/// The names of shells, without their directories.
#[rattlefmt::skip]
const SHELLS: [&[u8]; 11] = [
    b"$(SHELL)", b"${SHELL}", b"@SHELL@", b"$(CONFIG_SHELL)", b"${CONFIG_SHELL}", b"$SHELL", b"sh", b"bash", b"dash", b"ksh", b"zsh",
];

/// What the next word of a recipe may be.
#[derive(Clone, Copy, PartialEq, Eq)]
enum Place {
    /// A command.
    Command,
    /// What a shell runs.
    Script,
    /// An argument.
    Argument,
}

/// Returns the text with two spaces in place of each backslash before a newline and of that, so that
/// a line that goes on is one line.
fn joined(alloc: Global, text: &[u8]) -> Result<Vec<u8>, AllocError> {
    let mut out = Vec::with_capacity(alloc, text.len())?;
    let mut is_after = false;
    for byte in text {
        if is_after && *byte == b'\n' {
            let _ = out.pop();
            out.extend_from_slice(b"  ")?;
        } else {
            out.push(*byte)?;
        }
        is_after = *byte == b'\\';
    }
    Ok(out)
}

/// Returns the last part of a path.
fn last_part(word: &[u8]) -> &[u8] {
    match word.rfind_byte(b'/') {
        Some(at) => from(word, at.saturating_add(1)),
        None => word,
    }
}

/// Returns whether a word is before a command, and none itself.
fn is_before_command(word: &[u8]) -> bool {
    let name_len = word
        .iter()
        .take_while(|byte| byte.is_ascii_alphanumeric() || **byte == b'_')
        .count();
    let is_assignment = name_len > 0 && from(word, name_len).starts_with(b"=");
    is_assignment || BEFORE_COMMANDS.iter().any(|other| *other == word)
}

/// Returns what comes after a word in this place, or `None` if it is a record that is run.
fn after_word(place: Place, word: &[u8]) -> Option<Place> {
    let name = last_part(word);
    match place {
        Place::Argument => Some(Place::Argument),
        Place::Script => {
            if word.starts_with(b"-") {
                Some(Place::Script)
            } else if name == RECORD {
                None
            } else {
                Some(Place::Argument)
            }
        }
        Place::Command => {
            if name == RECORD {
                None
            } else if SHELLS.iter().any(|other| *other == name) {
                Some(Place::Script)
            } else if is_before_command(word) {
                Some(Place::Command)
            } else {
                Some(Place::Argument)
            }
        }
    }
}

/// Returns whether a byte ends a command.
fn ends_command(byte: u8) -> bool {
    b";&|()`\n".contains(&byte)
}

/// Returns whether a byte is before or after a word, and no part of it: a blank or a quote.
fn is_border(byte: u8) -> bool {
    b" \t\"'".contains(&byte)
}

/// The most bytes of a variable of make, with its brackets.
const LONGEST: usize = 200;

/// Returns the length of the variable of make that a text begins with, or 0.
fn variable_len(text: &[u8]) -> usize {
    let close = if text.starts_with(b"$(") {
        b')'
    } else if text.starts_with(b"${") {
        b'}'
    } else {
        return 0;
    };
    match before(text, LONGEST).find_byte(close) {
        Some(at) => at.saturating_add(1),
        None => 0,
    }
}

/// Returns the length of the word that a text begins with.
fn word_len(text: &[u8]) -> usize {
    let mut at = 0usize;
    let mut is_dollar = false;
    let mut inside = 0usize;
    for byte in text {
        if inside == 0 && !is_dollar {
            inside = variable_len(from(text, at));
        }
        if inside == 0 && (ends_command(*byte) || is_border(*byte)) {
            return at;
        }
        is_dollar = *byte == b'$' && !is_dollar;
        inside = inside.saturating_sub(1);
        at = at.saturating_add(1);
    }
    at
}

/// Returns the length of what make takes off the front of a word that begins a command.
fn modifiers_len(word: &[u8]) -> usize {
    if word.starts_with(b"@SHELL@") {
        return 0;
    }
    word.iter()
        .take_while(|byte| b"@-+".contains(*byte))
        .count()
}

/// Returns the offset in the line of a recipe of a record that it runs.
fn run_in(line: &[u8]) -> Option<usize> {
    let mut place = Place::Command;
    let mut is_first = true;
    let mut next = 0usize;
    for at in 0..line.len() {
        let rest = from(line, at);
        if at < next {
            continue;
        }
        let len = word_len(rest);
        if len == 0 {
            if ends_command(line[at]) {
                place = Place::Command;
            }
            continue;
        }
        let skipped = if is_first {
            modifiers_len(before(rest, len))
        } else {
            0
        };
        is_first = false;
        next = at.saturating_add(len);
        if skipped == len {
            is_first = true;
            continue;
        }
        let start = at.saturating_add(skipped);
        match after_word(place, part(line, start, next)) {
            Some(after) => place = after,
            None => return Some(start),
        }
    }
    None
}

/// Returns the offset of the recipe in a line: after its tab, or after the semicolon of a rule.
fn recipe_at(line: &[u8]) -> Option<usize> {
    if line.starts_with(b"\t") {
        return Some(1);
    }
    let end = line.find_byte(b';')?;
    let rule = before(line, end);
    if rule.starts_with(b"#") || rule.contains(&b'=') || !rule.contains(&b':') {
        return None;
    }
    end.checked_add(1)
}

/// Returns the offset and the length of a record that a line of a text runs, if the line has a
/// recipe.
fn run_of_line(line: &[u8], at: usize) -> Option<(usize, usize)> {
    let front = recipe_at(line)?;
    let recipe = from(line, front);
    if recipe.trim_start().starts_with(b"#") {
        return None;
    }
    let start = run_in(recipe)?;
    let len = word_len(from(recipe, start));
    Some((at.saturating_add(front).saturating_add(start), len))
}

/// Returns where the recipes of a makefile run a record: by its name as a command, or as the script
/// of a shell, after assignments and words such as `then`. Each line counts once; one that goes on
/// is one line. A comment, and a record that is an argument, don't count (own).
pub(crate) fn record_runs(alloc: Global, text: &[u8]) -> Result<Vec<(usize, usize)>, AllocError> {
    let mut found = Vec::new(alloc);
    if !text.contains_str(RECORD) {
        return Ok(found);
    }
    let whole = joined(alloc, text)?;
    let mut at = 0usize;
    for line in whole.as_slice().split(|byte| *byte == b'\n') {
        if let Some(run) = run_of_line(line, at) {
            found.push(run)?;
        }
        at = at.saturating_add(line.len()).saturating_add(1);
    }
    Ok(found)
}
