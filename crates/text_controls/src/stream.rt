//! The stream that shows.

ghost use Rattle.std.specs.Prelude.{◌≡◌, ◌<◌, ◌≤◌, IsTrue, IfOk, OnErr, OnOk, length, take};
ghost use Rattle.std.specs.Io.{WritesAtMost};
ghost use Rattle.std.specs.Io.KnownBytes.{Appends, Keeps, WriteAppends};
ghost use Rattle.text_controls.specs.Form.{nothing, shown, awaited_after};
ghost use Rattle.text_controls.specs.Stream.{contents_of};

use crate::awaited::{self, Awaited, after_all, is_escaped, plain_len};
use crate::escaping::escape;
use std::io::{self, Write};
use std::marker::Model;

/// A writer that hands texts on to a stream, with control bytes, and the last bytes of characters
/// that turn or hide text, as `\xNN` (own).
#[derive(Drop)]
pub struct Shown<W: Write + Drop> {
    stream: W,
    is_on: bool,
    awaited: Awaited,
}

impl<W: Write + Drop> Model for Shown<W> {
    ghost use Rattle.text_controls.specs.Stream.{Stream};

    ghost Value = { Stream W };

    ghost view = { λ s. record { stream = s.stream; is_on = s.is_on; awaited = s.awaited } };
}

impl<W: Write + Drop> Shown<W> {
    /// Returns a writer to the stream. If `is_on` is false, it hands on each text unchanged.
    pub fn new(stream: W, is_on: bool) -> Shown<W>
        ensures { result ≡ record { stream = stream; is_on = is_on; awaited = nothing } }
    {
        Shown {
            stream,
            is_on,
            awaited: awaited::nothing(),
        }
    }

    /// Returns the stream.
    pub fn stream(&self) -> &W
        ensures { result.now ≡ self.now.stream }
    {
        &self.stream
    }
}

impl<W: Write + Drop> Write for Shown<W> {
    ghost contents = { λ s. contents_of W.contents s };

    /// Writes a front of the text: the bytes before the first that isn't shown as it is, or that
    /// byte alone.
    ///
    /// # Errors
    ///
    /// Returns the stream's error. If it comes while `\xNN` is written, a part of that may have
    /// been written.
    fn write(&mut self, buf: &[u8]) -> io::Result<usize>
        ensures bound { WritesAtMost result buf.now }
        ensures bytes { WriteAppends (contents_of W.contents self.old)
            (contents_of W.contents self.new) result buf.now }
        ensures kept { self.new.is_on ≡ self.old.is_on }
        // If texts are shown, what was taken of this one is written in its shown form.
        ensures shown { IsTrue self.old.is_on
            → IfOk result (λ n.
            Appends (W.contents self.old.stream) (W.contents self.new.stream)
            (shown self.old.awaited (take n buf.now))) }
        ensures awaited { IsTrue self.old.is_on → IfOk result (λ n.
            self.new.awaited ≡ awaited_after self.old.awaited (take n buf.now)) }
        // After an error nothing was taken, and a character that has begun goes on.
        ensures failed { OnErr result (self.new.awaited ≡ self.old.awaited) }
    {
        if !self.is_on {
            return self.stream.write(buf);
        }
        let taken = write_front(&mut self.stream, self.awaited, buf)?;
        self.awaited = after_all(self.awaited, &buf[..taken]);
        Ok(taken)
    }

    /// Writes the whole text, with one write for each run of bytes that are shown as they are.
    ///
    /// # Errors
    ///
    /// Returns the stream's error. A part of the text may have been written.
    fn write_all(&mut self, buf: &[u8]) -> io::Result<()>
        ensures bytes { OnOk result (
            Appends (contents_of W.contents self.old) (contents_of W.contents self.new) buf.now) }
        ensures kept { self.new.is_on ≡ self.old.is_on }
        ensures shown { IsTrue self.old.is_on
            → OnOk result (
            Appends (W.contents self.old.stream) (W.contents self.new.stream)
            (shown self.old.awaited buf.now)) }
        ensures awaited { IsTrue self.old.is_on
            → OnOk result (self.new.awaited ≡ awaited_after self.old.awaited buf.now) }
        ensures failed { OnErr result (self.new.awaited ≡ self.old.awaited) }
    {
        if !self.is_on {
            return self.stream.write_all(buf);
        }
        put_all(&mut self.stream, self.awaited, buf)?;
        self.awaited = after_all(self.awaited, buf);
        Ok(())
    }

    fn flush(&mut self) -> io::Result<()>
        ensures bytes { Keeps (contents_of W.contents self.old) (contents_of W.contents self.new) }
        ensures kept { self.new.is_on ≡ self.old.is_on }
        ensures shown { Keeps (W.contents self.old.stream) (W.contents self.new.stream) }
        ensures awaited { self.new.awaited ≡ self.old.awaited }
    {
        self.stream.flush()
    }
}

/// Writes the bytes at the front of a text that are shown as they are, or the first byte as `\xNN`.
/// Returns how many it took.
fn write_front<W: Write>(stream: &mut W, awaited: Awaited, text: &[u8]) -> io::Result<usize>
    ensures bound { WritesAtMost result text.now }
    ensures shown { IfOk result (λ n.
        Appends (W.contents stream.old) (W.contents stream.new) (shown awaited (take n text.now))) }
{
    match text.first() {
        Some(first) if is_escaped(awaited, *first) => {
            stream.write_all(&escape(*first))?;
            Ok(1)
        }
        _ => stream.write(&text[..plain_len(awaited, text)]),
    }
}

/// Writes all of what [`write_front`] writes a part of. The text has a byte.
fn put_front<W: Write>(stream: &mut W, awaited: Awaited, text: &[u8]) -> io::Result<usize>
    requires { 0 < length text.now }
    ensures not_empty { IfOk result (λ n. 0 < n) }
    ensures within { IfOk result (λ n. n ≤ length text.now) }
    ensures shown { IfOk result (λ n.
        Appends (W.contents stream.old) (W.contents stream.new) (shown awaited (take n text.now))) }
{
    if is_escaped(awaited, text[0]) {
        stream.write_all(&escape(text[0]))?;
        return Ok(1);
    }
    let len = plain_len(awaited, text);
    stream.write_all(&text[..len])?;
    Ok(len)
}

/// Writes a whole text in its shown form.
fn put_all<W: Write>(stream: &mut W, awaited: Awaited, text: &[u8]) -> io::Result<()>
    ensures { OnOk result (
        Appends (W.contents stream.old) (W.contents stream.new) (shown awaited text.now)) }
{
    let mut lacking = awaited;
    let mut done = 0;
    while done < text.len() {
        let rest = &text[done..];
        let taken = put_front(stream, lacking, rest)?;
        lacking = after_all(lacking, &rest[..taken]);
        done += taken;
    }
    Ok(())
}
