//! A crew whose children are shown.

ghost use Rattle.std.specs.Prelude.{◌≡◌, ◌≢◌, ◌+◌, ◌^◌, ◌<◌, ◌≤◌, [], ◌∷◌, ◌++◌, false, true, OnOk, OnErr, length};
ghost use Rattle.std.specs.Io.KnownBytes.{Appends};
ghost use Rattle.crew_trait.specs.Events.{busy, IsSomeBusy, IsIdle, failure_of};
ghost use Rattle.crew_trait.specs.declared.event.CrewEvent.TheVariants.{Started, Ended};
ghost use Rattle.cmd_call.specs.declared.progress.Showing.TheVariants.{Nothing, Line as line, Lines as lines};
ghost use Rattle.crew_progress.specs.Child as child;
ghost use Rattle.crew_progress.specs.Progress as progress;

use crate::child::child_line;
use crate::line::{Line, text_of};
use crate::screen::Text;
use crate::subject::subject_of;
use cmd_call::{Hears, Showing};
use crew::{Crew, Refused, Reply};
use crew_jobs::Job;
use std::marker::Model;

/// A crew that shows its children on a stream (own): in the line of a terminal, which says how many
/// were started, how many have ended and what was started last, or in a line of its own for each
/// that is started, which has its number and its command.
///
/// Each line is one write. If a write fails, no further one is tried. What a call returns never
/// depends on it.
#[derive(Drop)]
pub struct Watched<C: Crew + Drop, W: Hears + Drop> {
    pub(crate) crew: C,
    stream: W,
    showing: Showing,
    // The starts that were tried.
    attempts: u64,
    // The starts that were taken.
    pub(crate) started: u64,
    ended: u64,
    command: Line,
}

impl<C: Crew + Drop, W: Hears + Drop> Model for Watched<C, W> {
    ghost use Rattle.crew_progress.specs.Watch.{Watch, IsCounted};

    ghost Value = { Watch C W };

    ghost view = { λ w. record { crew = w.crew; stream = w.stream; showing = w.showing } };

    ghost invariant = { λ w. IsCounted (C.account w.crew) w.attempts w.started w.ended w.command.items };
}

/// Returns what is written once a child was started: the text of the terminal's line, or the line
/// of the child.
fn text_at_start(
    showing: Showing,
    started: u64,
    ended: u64,
    command: &Line,
    number: u64,
    job: &Job,
) -> Text
    ensures line { showing ≡ line
        → result.items ≡ progress.text_of started ended command.now.items }
    ensures lines { showing ≡ lines → result.items ≡ child.child_line number job.now }
{
    match showing {
        Showing::Nothing => Text::new(),
        Showing::Line => text_of(started, ended, command),
        Showing::Lines => child_line(number, job),
    }
}

/// Writes a text, unless nothing is shown. Returns what is shown from then on.
fn write_text<W: Hears>(stream: &mut W, showing: Showing, text: &Text) -> Showing
    ensures off { showing ≡ Nothing → (result ≡ Nothing) × (stream.new ≡ stream.old) }
    ensures kept { result ≢ Nothing → result ≡ showing }
    ensures ended { showing ≢ Nothing → result ≡ Nothing → W.has_failed stream.new ≡ true }
    ensures written { result ≢ Nothing
        → Appends (W.contents stream.old) (W.contents stream.new) text.now.items }
{
    match showing {
        Showing::Nothing => Showing::Nothing,
        _ => match stream.say(text.as_slice()) {
            Ok(()) => showing,
            Err(_) => Showing::Nothing,
        },
    }
}

/// Writes the text of the terminal's line, if that is shown. Returns what is shown from then on.
fn write_end<W: Hears>(stream: &mut W, showing: Showing, text: &Text) -> Showing
    ensures off { showing ≢ line → (result ≡ showing) × (stream.new ≡ stream.old) }
    ensures kept { result ≢ Nothing → result ≡ showing }
    ensures ended { showing ≢ Nothing → result ≡ Nothing → W.has_failed stream.new ≡ true }
    ensures written { result ≡ line
        → Appends (W.contents stream.old) (W.contents stream.new) text.now.items }
{
    match showing {
        Showing::Line => write_text(stream, showing, text),
        _ => showing,
    }
}

impl<C: Crew + Drop, W: Hears + Drop> Watched<C, W> {
    /// Returns a crew that shows this of its children on the stream.
    pub fn new(crew: C, stream: W, showing: Showing) -> Watched<C, W>
        requires events { (C.account crew).events ≡ [] }
        requires attempts { (C.account crew).attempts ≡ 0 }
        ensures { result ≡ record { crew = crew; stream = stream; showing = showing } }
    {
        Watched {
            crew,
            stream,
            showing,
            attempts: 0,
            started: 0,
            ended: 0,
            command: Line::new(),
        }
    }

    /// Returns the stream.
    pub fn stream(&self) -> &W
        ensures { result.now ≡ self.now.stream }
    {
        &self.stream
    }
}

impl<C: Crew + Drop, W: Hears + Drop> Crew for Watched<C, W> {
    ghost account = { λ w. C.account w.crew };

    #[tactic(auto, using(crate::proofs::Children::short))]
    fn start(&mut self, slot: usize, job: Job) -> Result<(), Refused>
        requires slot { slot < 16 }
        requires free { busy slot (C.account self.old.crew).events ≡ false }
        requires attempts { (C.account self.old.crew).attempts < 2 ^ 62 }
        requires failures { (C.account self.old.crew).failures < 2 ^ 62 }
        ensures number { (C.account self.new.crew).attempts
            ≡ (C.account self.old.crew).attempts + 1 }
        ensures taken { OnOk result ((C.account self.new.crew).events
            ≡ (C.account self.old.crew).events
            ++ Started slot job ((C.account self.old.crew).attempts + 1) ∷ []) }
        ensures taken_count { OnOk result
            ((C.account self.new.crew).failures ≡ (C.account self.old.crew).failures) }
        ensures refused { OnErr result
            ((C.account self.new.crew).events ≡ (C.account self.old.crew).events) }
        ensures refused_count { OnErr result
            ((C.account self.new.crew).failures ≡ (C.account self.old.crew).failures + 1) }
        // If nothing is shown, nothing is written, and it never is. Nor is anything written after a
        // start that is refused.
        ensures off { self.old.showing ≡ Nothing
            → self.new ≡ record self.old { crew = self.new.crew } }
        ensures untouched { OnErr result (self.new ≡ record self.old { crew = self.new.crew }) }
        // What is shown stays the same, or from then on nothing is.
        ensures kept { self.new.showing ≢ Nothing → self.new.showing ≡ self.old.showing }
        // That nothing is shown from then on comes only of a stream that failed.
        ensures stopped { self.old.showing ≢ Nothing
            → self.new.showing ≡ Nothing → W.has_failed self.new.stream ≡ true }
        // On a terminal the text for all events so far is written, unless the write fails: the
        // erasure of the line and, while a child is in flight, the line, of at most 79 columns.
        ensures written { OnOk result (self.new.showing ≡ line
            → Appends (W.contents self.old.stream) (W.contents self.new.stream)
            (progress.text_after (C.account self.new.crew).events)) }
        // If there are lines, the child's is written, under the number of this attempt, unless the
        // write fails.
        ensures told { OnOk result (self.new.showing ≡ lines
            → Appends (W.contents self.old.stream) (W.contents self.new.stream)
            (child.child_line (C.account self.new.crew).attempts job)) }
        // That line has at most 400 bytes. What doesn't fit in 396 columns is three dots.
        ensures short { length (child.child_line (C.account self.new.crew).attempts job) ≤ 400 }
    {
        self.attempts += 1;
        let command = subject_of(&job);
        let text = text_at_start(
            self.showing,
            self.started + 1,
            self.ended,
            &command,
            self.attempts,
            &job,
        );
        self.crew.start(slot, job)?;
        self.started += 1;
        self.command = command;
        self.showing = write_text(&mut self.stream, self.showing, &text);
        Ok(())
    }

    fn next(&mut self) -> (usize, Reply)
        requires flying { IsSomeBusy (C.account self.old.crew).events }
        requires failures { (C.account self.old.crew).failures < 2 ^ 62 }
        ensures was_busy { busy result.0 (C.account self.old.crew).events ≡ true }
        ensures ended { (C.account self.new.crew).events
            ≡ (C.account self.old.crew).events
            ++ Ended result.0 result.1 (C.account self.old.crew).attempts ∷ [] }
        ensures number { (C.account self.new.crew).attempts ≡ (C.account self.old.crew).attempts }
        ensures reply { result.1 ≢ Reply.StartRefused }
        ensures count { (C.account self.new.crew).failures
            ≡ (C.account self.old.crew).failures + failure_of result.1 }
        // If nothing is shown, or lines are, nothing is written.
        ensures off { self.old.showing ≢ line
            → self.new ≡ record self.old { crew = self.new.crew } }
        ensures kept { self.new.showing ≢ Nothing → self.new.showing ≡ self.old.showing }
        ensures stopped { self.old.showing ≢ Nothing
            → self.new.showing ≡ Nothing → W.has_failed self.new.stream ≡ true }
        // On a terminal the text for all events so far is written, unless the write fails.
        ensures written { self.new.showing ≡ line
            → Appends (W.contents self.old.stream) (W.contents self.new.stream)
            (progress.text_after (C.account self.new.crew).events) }
        // If no child is left in flight, that text only erases the line.
        ensures gone { IsIdle (C.account self.new.crew).events
            → progress.text_after (C.account self.new.crew).events ≡ progress.erasure }
    {
        let (slot, reply) = self.crew.next();
        self.ended += 1;
        let text = text_of(self.started, self.ended, &self.command);
        self.showing = write_end(&mut self.stream, self.showing, &text);
        (slot, reply)
    }
}
