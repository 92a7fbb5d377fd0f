//! The record of a run.

use deftable::{Bytes, Defs, Texts};
use output_list::OutputList;

/// What the outputs of a run are made from again, and the run is done again with (own): the source
/// directory, the arguments, the output variables, the definitions, the files and the headers, each
/// in order.
#[derive(Drop)]
pub struct Record {
    pub srcdir: Bytes,
    /// The arguments, or `None` in a record of the first version, which has no place for them.
    pub args: Option<Texts>,
    pub vars: Defs,
    pub defs: Defs,
    pub files: OutputList,
    pub headers: OutputList,
}
