//! What is shown of a text in so many columns.

ghost use Rattle.std.specs.Prelude.{◌≡◌, ℕ, List, [], ◌∷◌, ◌++◌};
ghost use Rattle.crew_progress.specs.Screen.{IsShowing, shown_byte};

use arrayvec::ArrayVec;
use text_controls::escape;

/// What is written at once.
pub(crate) type Text = ArrayVec<u8, 400>;

/// A line of at most `N` columns, and whether something that came last had no room.
#[derive(Drop)]
pub(crate) struct Screen<const N: usize> {
    pub(crate) line: ArrayVec<u8, N>,
    pub(crate) is_cut: bool,
}

/// Returns a line on which nothing was put.
pub(crate) fn empty<const N: usize>() -> Screen<N>
    ensures { IsShowing N result.line.items result.is_cut [] }
{
    Screen {
        line: ArrayVec::new(),
        is_cut: false,
    }
}

/// Appends the form of one byte, if there is room and there was room before.
fn put_form<const N: usize>(screen: &mut Screen<N>, form: &[u8])
    ensures { (text : List ℕ) (byte : ℕ) → form.now ≡ shown_byte byte
        → IsShowing N screen.old.line.items screen.old.is_cut text
        → IsShowing N screen.new.line.items screen.new.is_cut (text ++ byte ∷ []) }
{
    if screen.is_cut {
        return;
    }
    if screen.line.remaining_capacity() < form.len() {
        screen.is_cut = true;
        return;
    }
    let _fits = screen.line.try_extend_from_slice(form);
}

/// Appends a byte, if it fits.
#[tactic(auto, unfolding(crate::specs::Screen::shown_byte))]
fn put_byte<const N: usize>(screen: &mut Screen<N>, byte: u8)
    ensures { (text : List ℕ) → IsShowing N screen.old.line.items screen.old.is_cut text
        → IsShowing N screen.new.line.items screen.new.is_cut (text ++ byte ∷ []) }
{
    if byte >= b' ' && byte <= b'~' {
        put_form(screen, &[byte]);
    } else {
        put_form(screen, &escape(byte));
    }
}

/// Appends the bytes that fit.
pub(crate) fn put<const N: usize>(screen: &mut Screen<N>, more: &[u8])
    ensures { (text : List ℕ) → IsShowing N screen.old.line.items screen.old.is_cut text
        → IsShowing N screen.new.line.items screen.new.is_cut (text ++ more.now) }
{
    for byte in more {
        put_byte(screen, *byte);
    }
}
