//! What the arguments of a macro may be, for an argument that is not.

use ac_macros::ArgumentKind;
use lint_table::{Key, Page, WordPart, keys};

/// Returns what is said of a bad name, or of a bad list of names.
fn key_of_names(kind: ArgumentKind) -> Key {
    match kind {
        ArgumentKind::Variable => keys::NO_VARIABLE,
        ArgumentKind::Symbol => keys::NO_SYMBOL,
        ArgumentKind::Header => keys::NO_HEADER,
        ArgumentKind::Headers => keys::NO_HEADERS,
        ArgumentKind::Function | ArgumentKind::LibraryFunction => keys::NO_FUNCTION,
        ArgumentKind::Functions => keys::NO_FUNCTIONS,
        ArgumentKind::Declaration => keys::NO_DECLARATION,
        ArgumentKind::Declarations => keys::NO_DECLARATIONS,
        ArgumentKind::TypeName => keys::NO_TYPE,
        ArgumentKind::TypeNames => keys::NO_TYPES,
        ArgumentKind::Files => keys::NO_FILES,
        ArgumentKind::MadeHeaders => keys::NO_MADE_HEADERS,
        ArgumentKind::Feature => keys::NO_FEATURE,
        ArgumentKind::Package => keys::NO_PACKAGE,
        ArgumentKind::Library => keys::NO_LIBRARY,
        ArgumentKind::Libraries => keys::NO_LIBRARIES,
        ArgumentKind::Program => keys::NO_PROGRAM,
        ArgumentKind::Programs => keys::NO_PROGRAMS,
        ArgumentKind::Compilers => keys::NO_COMPILERS,
        ArgumentKind::CacheName => keys::NO_CACHED_VALUE,
        _ => keys::BAD_ARGUMENT,
    }
}

/// Returns what is said of a bad argument of this kind.
fn key_of(kind: ArgumentKind) -> Key {
    match kind {
        ArgumentKind::Title | ArgumentKind::ArchiveName => keys::NO_TEXT,
        ArgumentKind::Definition | ArgumentKind::Value | ArgumentKind::VariableHelp => {
            keys::NO_LINE
        }
        ArgumentKind::FoundValue | ArgumentKind::OtherValue => keys::NO_LINE,
        ArgumentKind::Includes => keys::NO_INCLUDES,
        ArgumentKind::Version => keys::NO_VERSION,
        ArgumentKind::ExitStatus => keys::NO_EXIT_STATUS,
        ArgumentKind::Language => keys::NO_LANGUAGE,
        other => key_of_names(other),
    }
}

/// Writes what a bad argument of the macro is not, and what it may be.
pub(crate) fn put_bad_argument(page: &mut Page, argument: &[u8], name: &[u8], kind: ArgumentKind) {
    page.put(
        key_of(kind),
        &[WordPart::Quoted(argument), WordPart::AsItIs(name)],
    );
}
