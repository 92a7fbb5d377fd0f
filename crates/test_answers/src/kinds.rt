//! The answers that a case may want.

use test_runs::RunView;

/// What a case may want to see.
#[derive(Clone, Copy)]
pub enum AnswerKind {
    /// The tree of the source, or its fault.
    Parsed,
    /// How much is in the tree.
    Counted,
    /// What each front of the source is.
    Fronts,
    /// The lengths of those fronts that are sources.
    Sources,
    /// Whether the source can be resumed.
    Resumable,
    /// What the filter writes.
    Filtered,
    /// All variables that a run begins with, without arguments and environment.
    Variables,
    /// What a run begins with by its arguments and environment.
    Opened,
    /// The help text.
    Help,
    /// The directory of the source.
    Srcdir,
    /// What is to be seen of a run.
    Run(RunView),
    /// What a whole run leaves and hands over.
    Configured,
    /// The same of a second run with the cache of the first.
    ConfiguredAgain,
    /// The text of the log of a whole run.
    LogText,
    /// The text of the record that a whole run hands over.
    RecordText,
    /// Whether a whole run leaves the same at each window.
    Windows,
    /// Whether each call of the crew, if it is refused, leaves the same at each window.
    RefusedCalls,
    /// What is made again of a record.
    Remade,
    /// The arguments with which the run of a record is done again.
    Rechecked,
}

/// The sections that are answers.
const ANSWERS: [(&[u8], AnswerKind); 22] = [
    (b"parsed", AnswerKind::Parsed),
    (b"counted", AnswerKind::Counted),
    (b"fronts", AnswerKind::Fronts),
    (b"sources", AnswerKind::Sources),
    (b"resumable", AnswerKind::Resumable),
    (b"filtered", AnswerKind::Filtered),
    (b"variables", AnswerKind::Variables),
    (b"opened", AnswerKind::Opened),
    (b"help", AnswerKind::Help),
    (b"srcdir", AnswerKind::Srcdir),
    (b"ran", AnswerKind::Run(RunView::Changes)),
    (b"logged", AnswerKind::Run(RunView::Log)),
    (b"conftests", AnswerKind::Run(RunView::Conftests)),
    (b"measured", AnswerKind::Run(RunView::Figures)),
    (b"configured", AnswerKind::Configured),
    (b"configured again", AnswerKind::ConfiguredAgain),
    (b"config.log", AnswerKind::LogText),
    (b"config.status", AnswerKind::RecordText),
    (b"at each window", AnswerKind::Windows),
    (b"with each call refused", AnswerKind::RefusedCalls),
    (b"remade", AnswerKind::Remade),
    (b"rechecked", AnswerKind::Rechecked),
];

/// Returns the answer that a section of this name is.
pub fn kind_of(name: &[u8]) -> Option<AnswerKind> {
    for (answer, kind) in &ANSWERS {
        if *answer == name {
            return Some(*kind);
        }
    }
    None
}

impl AnswerKind {
    /// Returns whether newlines at the end of the answer count.
    pub fn is_exact(self) -> bool {
        matches!(
            self,
            AnswerKind::Filtered | AnswerKind::Help | AnswerKind::LogText | AnswerKind::RecordText
        )
    }
}
