//! Makes the files and headers of a record.

ghost use Rattle.std.specs.Prelude.{◌≡◌, [], ◌∷◌, ◌++◌, map, codes, IfOk, OnOk};
ghost use Rattle.deftable.specs.Table.{with_entry};
ghost use Rattle.output_make.specs.Choice.{chosen};
ghost use Rattle.output_make.specs.Making as words;
ghost use Rattle.template.specs.Place.{configure_input_of, directories_of};

use crate::choosing::{is_chosen, template_of, text_of};
use crate::lookup::Templates;
use deftable::{Bytes, Defs};
use output_list::Output;
use output_put::{Artifact, Artifacts, Kind};
use status_record::Record;
use std::alloc::{AllocError, Global};
use template::{
    FileDirectories, Table, configure_input, fill, fill_header, header_note, place_vars,
};

/// Returns the table of these variables.
fn table_of(alloc: Global, vars: &Defs) -> Result<Table, AllocError>
    ensures { IfOk result (λ table. table ≡ vars.now) }
{
    let mut table = Table::new(alloc);
    'names: for i in 0..vars.len() {
        let (name, value) = vars.at(i);
        table.set(name, value)?;
    }
    Ok(table)
}

/// Adds the variables for the directories of a file.
#[tactic(auto, unfolding(crate::specs::Making::with_place))]
fn add_place(table: &mut Table, place: &FileDirectories) -> Result<(), AllocError>
    ensures { OnOk result (table.new ≡ words.with_place table.old place.now) }
{
    table.set(b"srcdir", place.srcdir.as_slice())?;
    table.set(b"top_srcdir", place.top_srcdir.as_slice())?;
    table.set(b"builddir", place.builddir.as_slice())?;
    table.set(b"top_builddir", place.top_builddir.as_slice())
}

/// Adds the variable for the names of a file and its template.
fn add_input(alloc: Global, table: &mut Table, file: &Output) -> Result<(), AllocError>
    ensures { OnOk result (
        table.new
        ≡ with_entry table.old (codes "configure_input")
        (configure_input_of file.now.name file.now.template)) }
{
    let input = configure_input(alloc, file.name.as_slice(), file.template.as_slice())?;
    table.set(b"configure_input", input.as_slice())
}

/// Adds the variables that a file has of its own.
fn add_own(alloc: Global, table: &mut Table, file: &Output, srcdir: &[u8]) -> Result<(), AllocError>
    ensures { OnOk result (
        table.new
        ≡ words.with_place (
        with_entry table.old (codes "configure_input") (
        configure_input_of file.now.name
        file.now.template)) (directories_of file.now.name srcdir.now)) }
{
    add_input(alloc, table, file)?;
    let place = place_vars(alloc, file.name.as_slice(), srcdir)?;
    add_place(table, &place)
}

/// Returns the table that the template of a file is filled from: the output variables, and the
/// file's own, which override them (Autoconf's manual, "Preset Output Variables").
#[tactic(auto, unfolding(crate::specs::Making::file_table))]
fn file_table(alloc: Global, recorded: &Record, file: &Output) -> Result<Table, AllocError>
    ensures { IfOk result (λ table. table ≡ words.file_table recorded.now file.now) }
{
    let mut table = table_of(alloc, &recorded.vars)?;
    add_own(alloc, &mut table, file, recorded.srcdir.as_slice())?;
    Ok(table)
}

/// Makes a file of the text of its template.
fn file_of(
    alloc: Global,
    recorded: &Record,
    template: &[u8],
    file: &Output,
) -> Result<Artifact, AllocError>
    ensures { IfOk result (λ artifact.
        artifact ≡ words.file_of recorded.now template.now file.now) }
{
    let table = file_table(alloc, recorded, file)?;
    let name = file.name.copy(alloc)?;
    let text = fill(alloc, template, &table)?;
    Ok(Artifact {
        kind: Kind::File,
        name,
        text: Bytes::from_vec(text),
    })
}

/// Makes a file of its template: the first template of that name, or the empty text if there is
/// none.
///
/// The table that the template is filled from has the output variables, and the file's own
/// variables, which override them (Autoconf's manual, "Preset Output Variables"). A value isn't
/// read again, and an output variable that is unset is nothing.
///
/// # Errors
///
/// Fails only if memory runs out.
#[tactic(auto, unfolding(crate::specs::Making::made_file))]
pub fn make_file(
    alloc: Global,
    recorded: &Record,
    templates: &[(Bytes, Bytes)],
    file: &Output,
) -> Result<Artifact, AllocError>
    ensures { IfOk result (λ artifact.
        artifact ≡ words.made_file recorded.now templates.now file.now) }
{
    let template = template_of(templates, file.template.as_slice());
    file_of(alloc, recorded, template, file)
}

/// Makes a file of its template, as [`make_file`] does.
#[tactic(auto, unfolding(crate::specs::Making::made_file))]
fn make_listed_file(
    alloc: Global,
    recorded: &Record,
    templates: &Templates<'_>,
    file: &Output,
) -> Result<Artifact, AllocError>
    ensures { IfOk result (λ artifact.
        artifact ≡ words.made_file recorded.now templates.now file.now) }
{
    let template = text_of(templates, file.template.as_slice());
    file_of(alloc, recorded, template, file)
}

/// Returns the text of a header: its first line, and then what is made of its template.
fn header_text(
    alloc: Global,
    recorded: &Record,
    templates: &Templates<'_>,
    header: &Output,
) -> Result<Bytes, AllocError>
    ensures { IfOk result (λ text. text ≡ words.header_text recorded.now templates.now header.now) }
{
    let template = text_of(templates, header.template.as_slice());
    let made = fill_header(alloc, template, &recorded.defs)?;
    let note = header_note(alloc, header.name.as_slice(), header.template.as_slice())?;
    Bytes::concat(alloc, &[note.as_slice(), made.as_slice()])
}

/// Makes a header of its template.
#[tactic(auto, unfolding(crate::specs::Making::made_header))]
fn make_header(
    alloc: Global,
    recorded: &Record,
    templates: &Templates<'_>,
    header: &Output,
) -> Result<Artifact, AllocError>
    ensures { IfOk result (λ artifact.
        artifact ≡ words.made_header recorded.now templates.now header.now) }
{
    let name = header.name.copy(alloc)?;
    let text = header_text(alloc, recorded, templates, header)?;
    Ok(Artifact {
        kind: Kind::Header,
        name,
        text,
    })
}

/// What is made of a template.
#[derive(Clone, Copy)]
enum Made {
    /// A file.
    File,
    /// A header.
    Header,
}

/// Makes an output of this kind of its template.
fn make_output(
    alloc: Global,
    made: Made,
    recorded: &Record,
    templates: &Templates<'_>,
    output: &Output,
) -> Result<Artifact, AllocError>
    ensures { IfOk result (λ artifact.
        artifact ≡ words.made_of made recorded.now templates.now output.now) }
{
    match made {
        Made::File => make_listed_file(alloc, recorded, templates, output),
        Made::Header => make_header(alloc, recorded, templates, output),
    }
}

/// Makes an output and appends it, unless the tags leave it out.
fn add_output(
    alloc: Global,
    artifacts: &mut Artifacts,
    made: Made,
    recorded: &Record,
    templates: &Templates<'_>,
    tags: &[Bytes],
    output: &Output,
) -> Result<(), AllocError>
    ensures { OnOk result (
        artifacts.new
        ≡ artifacts.old
        ++ map (words.made_of made recorded.now templates.now)
        (chosen tags.now (output.now ∷ []))) }
{
    if !is_chosen(tags, output) {
        return Ok(());
    }
    let artifact = make_output(alloc, made, recorded, templates, output)?;
    artifacts.push(artifact)
}

/// Makes the outputs of this kind that the tags do not leave out, and appends them.
fn add_each(
    alloc: Global,
    artifacts: &mut Artifacts,
    made: Made,
    recorded: &Record,
    templates: &Templates<'_>,
    tags: &[Bytes],
    outputs: &[Output],
) -> Result<(), AllocError>
    ensures { OnOk result (
        artifacts.new
        ≡ artifacts.old
        ++ map (words.made_of made recorded.now templates.now) (chosen tags.now outputs.now)) }
{
    'outputs: for output in outputs {
        add_output(alloc, artifacts, made, recorded, templates, tags, output)?;
    }
    Ok(())
}

/// Makes the files and then the headers of a record, each of its template, and appends them in the
/// record's order.
///
/// If memory runs out, some of them may have been appended. [`make_outputs`] says more.
#[tactic(auto, unfolding(crate::specs::Making::made))]
pub fn add_outputs(
    alloc: Global,
    artifacts: &mut Artifacts,
    recorded: &Record,
    templates: &[(Bytes, Bytes)],
    tags: &[Bytes],
) -> Result<(), AllocError>
    ensures { OnOk result (
        artifacts.new ≡ artifacts.old ++ words.made recorded.now templates.now tags.now) }
{
    let templates = Templates::new(alloc, templates)?;
    let files = recorded.files.as_slice();
    let headers = recorded.headers.as_slice();
    add_each(
        alloc,
        artifacts,
        Made::File,
        recorded,
        &templates,
        tags,
        files,
    )?;
    add_each(
        alloc,
        artifacts,
        Made::Header,
        recorded,
        &templates,
        tags,
        headers,
    )
}

/// Makes the files and then the headers of a record, each of its template, in the record's order.
///
/// A template is a name and a text. If two have one name, the first one counts; if none has the
/// name, the template is the empty text. If there are tags, makes only the outputs whose names are
/// tags; a tag that is no output's name makes nothing (own).
///
/// # Errors
///
/// Fails only if memory runs out.
pub fn make_outputs(
    alloc: Global,
    recorded: &Record,
    templates: &[(Bytes, Bytes)],
    tags: &[Bytes],
) -> Result<Artifacts, AllocError>
    ensures { IfOk result (λ artifacts.
        artifacts ≡ words.made recorded.now templates.now tags.now) }
{
    let mut artifacts = Artifacts::new(alloc);
    add_outputs(alloc, &mut artifacts, recorded, templates, tags)?;
    Ok(artifacts)
}
