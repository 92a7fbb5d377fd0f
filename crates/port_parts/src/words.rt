//! Words that stand in the source, and names of variables.

ghost use Rattle.std.specs.Prelude.{◌≡◌, ◌<◌, ◌≤◌, ◌-◌, true, false, length, slice_index, slice_range, IsTrue};
ghost use Rattle.std.specs.List.{list_all, list_any};
ghost use Rattle.port_parts.specs.Words as specs;

/// Returns whether a byte may be in the name of a variable.
pub fn is_of_name(byte: u8) -> bool
    ensures { result ≡ specs.is_of_name byte }
{
    byte.is_ascii_alphanumeric() || byte == b'_'
}

/// Returns whether a text has only bytes that may be in the name of a variable.
fn are_of_name(text: &[u8]) -> bool
    ensures { result ≡ list_all specs.is_of_name text.now }
{
    text.iter().all(|byte| is_of_name(*byte))
}

/// Returns how many bytes of a variable's name are at the front of a text.
pub fn name_length(text: &[u8]) -> usize {
    text.iter().take_while(|byte| is_of_name(**byte)).count()
}

/// Returns whether a text begins with a digit.
fn begins_with_digit(name: &[u8]) -> bool
    requires { 0 < length name.now }
    ensures { result ≡ specs.is_digit (slice_index name.now 0) }
{
    47 < name[0] && name[0] < 58
}

/// Returns whether a text is the name of a variable.
pub fn is_variable(name: &[u8]) -> bool
    ensures { IsTrue result → specs.IsVariable name.now }
{
    0 < name.len() && are_of_name(name) && !begins_with_digit(name)
}

/// Returns whether a byte means nothing to a shell within a word.
fn is_mark(byte: u8) -> bool
    ensures { result ≡ specs.is_mark byte }
{
    byte == b'-'
        || byte == b'.'
        || byte == b'/'
        || byte == b'+'
        || byte == b','
        || byte == b':'
        || byte == b'%'
        || byte == b'@'
        || byte == b'='
}

/// Returns whether a byte is `$` or a brace.
fn is_dollar(byte: u8) -> bool
    ensures { result ≡ specs.is_dollar byte }
{
    byte == b'$' || byte == b'{' || byte == b'}'
}

/// Returns whether a byte may be in a word without a command and without a pattern of file names.
pub fn is_value(byte: u8) -> bool
    ensures { result ≡ specs.is_value byte }
{
    is_of_name(byte) || is_mark(byte) || is_dollar(byte)
}

/// Returns whether a byte may be between the quotes of such a word.
fn is_quotable(byte: u8) -> bool
    ensures { result ≡ specs.is_quotable byte }
{
    is_value(byte) || byte == b' '
}

/// Returns whether a text has only bytes of a word without a command and without a pattern of file
/// names.
pub fn are_values(text: &[u8]) -> bool
    ensures { result ≡ list_all specs.is_value text.now }
{
    text.iter().all(|byte| is_value(*byte))
}

fn are_quotable(text: &[u8]) -> bool
    ensures { result ≡ list_all specs.is_quotable text.now }
{
    text.iter().all(|byte| is_quotable(*byte))
}

fn has_dollar(text: &[u8]) -> bool
    ensures { result ≡ list_any specs.is_dollar text.now }
{
    text.iter().any(|byte| is_dollar(*byte))
}

/// Returns whether a word is in double quotes.
fn is_in_quotes(word: &[u8]) -> bool
    ensures { IsTrue result → specs.IsInQuotes word.now }
{
    2 <= word.len()
        && word[0] == b'"'
        && word[word.len() - 1] == b'"'
        && are_quotable(&word[1..word.len() - 1])
}

/// Returns whether a text is one word, whose value a shell finds without running a command.
pub fn is_one_value(word: &[u8]) -> bool
    ensures { IsTrue result → specs.IsValue word.now }
{
    are_values(word) || is_in_quotes(word)
}

/// Returns whether a text is one word whose value is written there.
pub fn is_constant(word: &[u8]) -> bool
    ensures { IsTrue result → specs.IsConstant word.now }
{
    is_one_value(word) && !has_dollar(word)
}
