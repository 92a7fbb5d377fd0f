//! The templates of a source, as they are read for warnings.

ghost use Rattle.std.specs.Prelude.{◌≡◌, length, option_map, slice_get};
ghost use Rattle.lint_sources.specs.Sheets as specs;

use crate::reading::shown_path;
use ac_tree::Source;
use deftable::Bytes;
use file_texts::path_in;
use output_list::Output;
use std::alloc::{AllocError, Global};

/// A file with findings: what it is called, and its text.
#[derive(Drop)]
pub(crate) struct Sheet {
    pub(crate) name: Bytes,
    pub(crate) text: Bytes,
}

/// The templates that are there. Findings count them from 1: those of files, each once, and then
/// those of headers.
#[derive(Drop)]
pub(crate) struct Sheets {
    read: Vec<Sheet>,
    files: Vec<usize>,
    headers: Vec<usize>,
}

impl Sheets {
    /// Returns no templates.
    pub(crate) fn none(alloc: Global) -> Sheets {
        Sheets {
            read: Vec::new(alloc),
            files: Vec::new(alloc),
            headers: Vec::new(alloc),
        }
    }

    /// Returns the place at an index among those of files, and then those of headers.
    #[tactic(auto, using(crate::proofs::Numbered::of_header, crate::proofs::Numbered::of_file))]
    fn place_at_index(&self, index: usize) -> Option<usize>
        ensures { result ≡ slice_get (specs.places_in self.now) index }
    {
        match index.checked_sub(self.files.len()) {
            Some(rest) => self.headers.get(rest).copied(),
            None => self.files.get(index).copied(),
        }
    }

    /// Returns the place of the template of this number, counted from 1.
    fn place(&self, number: usize) -> Option<usize>
        ensures { result ≡ specs.place_at (specs.places_in self.now) number }
    {
        match number.checked_sub(1) {
            Some(index) => self.place_at_index(index),
            None => None,
        }
    }

    /// Returns the template of this number, counted from 1.
    pub(crate) fn get(&self, number: usize) -> Option<&Sheet>
        ensures { option_map (λ sheet. sheet.now) result ≡ specs.sheet_at self.now number }
    {
        match self.place(number) {
            Some(place) => self.read.get(place),
            None => None,
        }
    }

    /// Returns the number of the templates of files.
    pub(crate) fn files(&self) -> usize
        ensures { result ≡ length self.now.files.items }
    {
        self.files.len()
    }

    /// Returns the number of all templates.
    pub(crate) fn count(&self) -> usize
        ensures { result ≡ specs.count_of self.now }
    {
        self.files.len().saturating_add(self.headers.len())
    }
}

/// Appends the place of the template of an output among those that were read, unless it isn't
/// there, or was appended before.
fn add_place(
    templates: &[(Bytes, Bytes)],
    output: &Output,
    places: &mut Vec<usize>,
) -> Result<(), AllocError> {
    let name = output.template.as_slice();
    let place = templates
        .iter()
        .position(|template| template.0.as_slice() == name);
    let Some(place) = place else {
        return Ok(());
    };
    if !places.iter().any(|other| *other == place) {
        places.push(place)?;
    }
    Ok(())
}

/// Returns the places of the templates of outputs among those that were read.
fn places_of(
    alloc: Global,
    templates: &[(Bytes, Bytes)],
    outputs: &[Output],
) -> Result<Vec<usize>, AllocError> {
    let mut places = Vec::new(alloc);
    for output in outputs {
        add_place(templates, output, &mut places)?;
    }
    Ok(places)
}

/// Returns templates as files with findings.
fn sheets_in(
    alloc: Global,
    directory: &[u8],
    templates: Vec<(Bytes, Bytes)>,
) -> Result<Vec<Sheet>, AllocError> {
    let mut sheets = Vec::new(alloc);
    for (name, text) in templates {
        let path = path_in(alloc, directory, name.as_slice())?;
        let name = shown_path(alloc, path.as_slice())?;
        sheets.push(Sheet { name, text })?;
    }
    Ok(sheets)
}

/// Returns the templates of a source that were read.
pub(crate) fn sheets_of(
    alloc: Global,
    directory: &[u8],
    source: &Source,
    templates: Vec<(Bytes, Bytes)>,
) -> Result<Sheets, AllocError> {
    let files = places_of(alloc, templates.as_slice(), source.files().as_slice())?;
    let headers = places_of(alloc, templates.as_slice(), source.headers().as_slice())?;
    let read = sheets_in(alloc, directory, templates)?;
    Ok(Sheets {
        read,
        files,
        headers,
    })
}
