//! Slashes at the end of a directory's name.

ghost use Rattle.std.specs.Prelude.{◌≡◌};
ghost use Rattle.options_line.specs.Slashes as words;

fn is_slashes(text: &[u8]) -> bool
    ensures { result ≡ words.is_slashes text.now }
{
    text.iter().all(|byte| *byte == b'/')
}

/// Returns the text up to its last byte that is no slash.
fn unslashed(text: &[u8]) -> &[u8]
    ensures { result.now ≡ words.unslashed text.now }
{
    let mut rest = text;
    while let Some((last, front)) = rest.split_last() {
        if *last != b'/' {
            return rest;
        }
        rest = front;
    }
    rest
}

/// Returns the text without its final slashes, unless it is slashes alone.
#[tactic(auto, unfolding(crate::specs::Slashes::without_slashes))]
pub fn without_slashes(text: &[u8]) -> &[u8]
    ensures { result.now ≡ words.without_slashes text.now }
{
    if is_slashes(text) {
        text
    } else {
        unslashed(text)
    }
}
