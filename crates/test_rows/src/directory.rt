//! A directory of a test's own, since all tests run in one directory that nothing empties.

use crate::table::{RowCall, try_rows};
use std::test::Fail;
use std::{env, fs};

/// Tries each row of a table in a new directory, and removes the directory if no row has another
/// answer.
pub fn try_rows_in<C: RowCall>(
    rt: &HostRuntime,
    directory: &str,
    call: &C,
    table: &[u8],
) -> Result<(), Fail> {
    let _ = fs::remove_dir_all(rt, directory);
    if fs::create_dir(rt, directory).is_err() || env::set_current_dir(rt, directory).is_err() {
        return Err(Fail::new("no directory"));
    }
    try_rows(rt.alloc(), call, table)?;
    if env::set_current_dir(rt, "..").is_err() || fs::remove_dir_all(rt, directory).is_err() {
        return Err(Fail::new("the directory is not removed"));
    }
    Ok(())
}
