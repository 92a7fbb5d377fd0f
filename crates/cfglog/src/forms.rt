//! What a line of a log is.

ghost use Rattle.std.specs.Prelude.{◌≡◌, ◌&&◌, length, drop, nat_lt};
ghost use Rattle.std.specs.List.{list_all};
ghost use Rattle.cfglog.specs.Log as log;

/// What a line of a log is. A child has a command, then diagnostics, and then a status or what was
/// refused.
#[derive(Clone, Copy, PartialEq, Eq)]
pub enum LineKind {
    /// A line of a message.
    Message,
    /// The command of a child.
    Command,
    /// A line that the child wrote to standard error.
    Diagnostics,
    /// The status of a child.
    Status,
    /// That the start or the end of a child was refused.
    Refused,
    /// The line before the program that failed.
    Heading,
    /// A line of the program that failed.
    Program,
}

/// Returns whether the line is equal to the text.
fn is(line: &[u8], text: &[u8]) -> bool
    ensures { result ≡ log.is line.now text.now }
{
    line == text
}

fn is_command(line: &[u8]) -> bool
    ensures { result ≡ log.is_command line.now }
{
    line.starts_with(b"$")
}

fn is_number_byte(byte: u8) -> bool
    ensures { result ≡ log.is_number_byte byte }
{
    byte == b'\n' || (b'0' <= byte && byte <= b'9')
}

fn is_number(text: &[u8]) -> bool
    ensures { result ≡ list_all log.is_number_byte text.now }
{
    text.iter().all(|byte| is_number_byte(*byte))
}

/// Returns whether the line has a number after the first seven bytes.
fn has_number(line: &[u8]) -> bool
    ensures { result ≡ log.has_number line.now }
{
    if line.len() <= 8 {
        return false;
    }
    is_number(&line[7..])
}

fn is_status(line: &[u8]) -> bool
    ensures { result ≡ log.is_status line.now }
{
    line.starts_with(b"status ") && has_number(line)
}

fn is_refusal(line: &[u8]) -> bool
    ensures { result ≡ log.is_refusal line.now }
{
    is(line, b"start refused\n") || is(line, b"wait refused\n")
}

fn is_program(line: &[u8]) -> bool
    ensures { result ≡ log.is_program line.now }
{
    line.starts_with(b"| ")
}

/// Returns what a line outside children is.
fn outside(line: &[u8]) -> LineKind
    ensures { result ≡ log.outside line.now }
{
    if is_command(line) {
        LineKind::Command
    } else {
        LineKind::Message
    }
}

/// Returns what a line after a command is.
fn inside(line: &[u8]) -> LineKind
    ensures { result ≡ log.inside line.now }
{
    if is_status(line) {
        return LineKind::Status;
    }
    if is_refusal(line) {
        return LineKind::Refused;
    }
    LineKind::Diagnostics
}

fn is_heading(line: &[u8]) -> bool
    ensures { result ≡ log.is_heading line.now }
{
    is(line, b"failed program was:\n")
}

fn after_status(line: &[u8]) -> LineKind
    ensures { result ≡ log.after_status line.now }
{
    if is_heading(line) {
        return LineKind::Heading;
    }
    outside(line)
}

fn after_program(line: &[u8]) -> LineKind
    ensures { result ≡ log.after_program line.now }
{
    if is_program(line) {
        return LineKind::Program;
    }
    outside(line)
}

/// Returns what a line is, by what the line before it is.
#[tactic(auto, unfolding(crate::specs::Log::part_after))]
pub(crate) fn part_after(before: LineKind, line: &[u8]) -> LineKind
    ensures { result ≡ log.part_after before line.now }
{
    match before {
        LineKind::Command => inside(line),
        LineKind::Diagnostics => inside(line),
        LineKind::Status => after_status(line),
        LineKind::Heading => after_program(line),
        LineKind::Program => after_program(line),
        LineKind::Message => outside(line),
        LineKind::Refused => outside(line),
    }
}

/// Returns whether a line of a child has come and the child's end hasn't.
pub(crate) fn is_inside(part: LineKind) -> bool
    ensures { result ≡ log.is_inside part }
{
    match part {
        LineKind::Command => true,
        LineKind::Diagnostics => true,
        _ => false,
    }
}
