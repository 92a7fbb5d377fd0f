//! The directories of an installation.

ghost use Rattle.std.specs.Prelude.{◌≡◌};
ghost use Rattle.std.specs.Option.{option_copied};
ghost use Rattle.std.specs.List.{find};
ghost use Rattle.std.specs.Str.{bytes_eq};
ghost use Rattle.deftable.specs.ShellName.{IsShellName};
ghost use Rattle.options_line.specs.Directories as words;

/// A directory that files are installed into, or a prefix of such directories (Autoconf's manual,
/// "Installation Directory Variables").
#[derive(Clone, Copy)]
pub enum Directory {
    /// The prefix of the other directories.
    Prefix,
    /// The prefix of directories for files that depend on the machine.
    ExecPrefix,
    /// Programs that users run.
    Bindir,
    /// Programs that administrators run.
    Sbindir,
    /// Programs that other programs run.
    Libexecdir,
    /// Libraries.
    Libdir,
    /// The root of the directories for read-only files that are the same on every machine.
    Datarootdir,
    /// Read-only files that are the same on every machine.
    Datadir,
    /// Read-only files of one machine.
    Sysconfdir,
    /// Files that change, and are the same on every machine.
    Sharedstatedir,
    /// Files of one machine that change.
    Localstatedir,
    /// Files of one machine that change while processes run.
    Runstatedir,
    /// C headers.
    Includedir,
    /// C headers for compilers other than GCC.
    Oldincludedir,
    /// Documentation.
    Docdir,
    /// Documentation in Info format.
    Infodir,
    /// Documentation in HTML.
    Htmldir,
    /// Documentation in DVI.
    Dvidir,
    /// Documentation in PDF.
    Pdfdir,
    /// Documentation in PostScript.
    Psdir,
    /// Message catalogs.
    Localedir,
    /// The root of the manual pages.
    Mandir,
}

/// All directories: `prefix` and `exec_prefix`, and then those below them.
const DIRECTORIES: [Directory; 22] = [
    Directory::Prefix,
    Directory::ExecPrefix,
    Directory::Bindir,
    Directory::Sbindir,
    Directory::Libexecdir,
    Directory::Libdir,
    Directory::Datarootdir,
    Directory::Datadir,
    Directory::Sysconfdir,
    Directory::Sharedstatedir,
    Directory::Localstatedir,
    Directory::Runstatedir,
    Directory::Includedir,
    Directory::Oldincludedir,
    Directory::Docdir,
    Directory::Infodir,
    Directory::Htmldir,
    Directory::Dvidir,
    Directory::Pdfdir,
    Directory::Psdir,
    Directory::Localedir,
    Directory::Mandir,
];

/// Returns all directories, each once: `prefix` and `exec_prefix`, and then those below them.
#[tactic(auto, unfolding(crate::specs::Directories::directories))]
pub fn directories() -> &'static [Directory]
    ensures { result.now ≡ words.directories }
{
    &DIRECTORIES
}

impl Directory {
    /// Returns the variable that holds the directory.
    #[tactic(auto, unfolding(crate::specs::Directories::variable_of))]
    pub fn variable(self) -> &'static [u8]
        ensures value { result.now ≡ words.variable_of self }
        ensures form { IsShellName (words.variable_of self) }
    {
        match self {
            Directory::Prefix => b"prefix",
            Directory::ExecPrefix => b"exec_prefix",
            Directory::Bindir => b"bindir",
            Directory::Sbindir => b"sbindir",
            Directory::Libexecdir => b"libexecdir",
            Directory::Libdir => b"libdir",
            Directory::Datarootdir => b"datarootdir",
            Directory::Datadir => b"datadir",
            Directory::Sysconfdir => b"sysconfdir",
            Directory::Sharedstatedir => b"sharedstatedir",
            Directory::Localstatedir => b"localstatedir",
            Directory::Runstatedir => b"runstatedir",
            Directory::Includedir => b"includedir",
            Directory::Oldincludedir => b"oldincludedir",
            Directory::Docdir => b"docdir",
            Directory::Infodir => b"infodir",
            Directory::Htmldir => b"htmldir",
            Directory::Dvidir => b"dvidir",
            Directory::Pdfdir => b"pdfdir",
            Directory::Psdir => b"psdir",
            Directory::Localedir => b"localedir",
            Directory::Mandir => b"mandir",
        }
    }

    /// Returns the value of the directory's variable if no argument sets it. Variables in it are
    /// not expanded.
    #[tactic(auto, unfolding(crate::specs::Directories::default_of))]
    pub fn default_value(self) -> &'static [u8]
        ensures { result.now ≡ words.default_of self }
    {
        match self {
            Directory::Prefix | Directory::ExecPrefix => b"NONE",
            Directory::Bindir => b"${exec_prefix}/bin",
            Directory::Sbindir => b"${exec_prefix}/sbin",
            Directory::Libexecdir => b"${exec_prefix}/libexec",
            Directory::Libdir => b"${exec_prefix}/lib",
            Directory::Datarootdir => b"${prefix}/share",
            Directory::Datadir => b"${datarootdir}",
            Directory::Sysconfdir => b"${prefix}/etc",
            Directory::Sharedstatedir => b"${prefix}/com",
            Directory::Localstatedir => b"${prefix}/var",
            Directory::Runstatedir => b"${localstatedir}/run",
            Directory::Includedir => b"${prefix}/include",
            Directory::Oldincludedir => b"/usr/include",
            Directory::Docdir => b"${datarootdir}/doc/${PACKAGE_TARNAME}",
            Directory::Infodir => b"${datarootdir}/info",
            Directory::Htmldir | Directory::Dvidir | Directory::Pdfdir | Directory::Psdir => {
                b"${docdir}"
            }
            Directory::Localedir => b"${datarootdir}/locale",
            Directory::Mandir => b"${datarootdir}/man",
        }
    }

    /// Returns the directory's option, without the dashes in front.
    #[tactic(auto, unfolding(crate::specs::Directories::option_of))]
    fn option(self) -> &'static [u8]
        ensures { result.now ≡ words.option_of self }
    {
        match self {
            Directory::ExecPrefix => b"exec-prefix",
            other => other.variable(),
        }
    }
}

fn find_directory(option: &[u8]) -> Option<&'static Directory>
    ensures { option_copied result
        ≡ find (λ directory. bytes_eq (words.option_of directory) option.now) words.directories }
{
    directories()
        .iter()
        .find(|directory| directory.option() == option)
}

/// Returns the directory with this option, given without the dashes in front.
#[tactic(auto, unfolding(crate::specs::Directories::directory_named))]
pub fn directory_named(option: &[u8]) -> Option<Directory>
    ensures { result ≡ words.directory_named option.now }
{
    find_directory(option).copied()
}
