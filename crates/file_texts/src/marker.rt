//! Lines, and the line that separates a source from its template.

ghost use Rattle.std.specs.Prelude.{◌≡◌, ◌≤◌, ◌+◌, length, take, drop, IfSome, IfNone};
ghost use Rattle.file_texts.specs.Parted as words;
ghost use Rattle.file_texts.specs.Parted.{IsParted, HasNoMarker};

/// Returns the length of the first line, without its newline.
pub fn line_len(text: &[u8]) -> usize
    ensures value { result ≡ words.line_len text.now }
    ensures within { result ≤ length text.now }
{
    text.iter().take_while(|byte| **byte != b'\n').count()
}

fn is_marker(line: &[u8]) -> bool
    ensures { result ≡ words.is_marker line.now }
{
    line == b"%%".as_slice()
}

/// Returns the offset of the first line that is exactly `%%`.
pub fn marker_place(input: &[u8]) -> Option<usize>
    ensures parted { IfSome result (λ n.
        IsParted input.now (take n input.now) (drop (n + 3) input.now)) }
    ensures within { IfSome result (λ n. n ≤ length input.now) }
    ensures no_marker { IfNone result (HasNoMarker input.now) }
{
    let mut start = 0;
    // the label is for the proof only
    'lines: loop {
        let len = line_len(&input[start..]);
        if is_marker(&input[start..start + len]) {
            return Some(start);
        }
        if start + len == input.len() {
            return None;
        }
        start += len + 1;
    }
}
