//! Outputs that are made again of the record of a run.

ghost use Rattle.engine.specs.Remaking.{RemakesAgree};

/// The record that a completed run hands over gives its outputs again. Given to
/// [`remake`](crate::remake) with any templates and any tags, it gives the files and headers that
/// the run would have handed over with those templates, without those that the tags leave out; or
/// the first fault, if a tag is the name of no output, or if a template isn't there. That the
/// record is read is what the contract of [`configure`](crate::configure) says.
pub fn remakes_agree()
    ensures agree { RemakesAgree }
{}
