//! The law of logs that a run wrote.

ghost use Rattle.std.specs.Prelude.{◌≡◌, List, true, flat_map};
ghost use Rattle.cfglog.specs.Texts.{log_of};
ghost use Rattle.crew_trait.specs.declared.entry.Entry.{Entry};
ghost use Rattle.cfglog.specs.Log.{is_log, lines_in};
ghost use Rattle.cfglog.specs.Written.{ArePlain, seen};

/// States that the text of a log gives its entries back, if no line of a message or of diagnostics
/// has the form of another line of a log, and each command is one line: the text is a log, and its
/// lines are those of the entries, each with what it is there.
pub fn written_logs_are_read()
    ensures log { (entries : List Entry) → ArePlain entries → is_log (log_of entries) ≡ true }
    ensures lines { (entries : List Entry) → ArePlain entries
        → lines_in (log_of entries) ≡ flat_map seen entries }
{}
