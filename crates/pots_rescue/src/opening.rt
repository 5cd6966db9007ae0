//! The file of an archive, opened in two ways.

use crate::kept_file::KeptFile;
use pot_files::{FileArchive, open_apart};
use pots_vault::{Visit, archive_name};
use std::alloc::AllocError;
use std::fs::OpenOptions;

/// The blocks of an archive, to be read alone. None where its file cannot be opened so.
pub(crate) fn open_to_look(visit: &Visit, number: u32) -> Result<Option<FileArchive>, AllocError> {
    let name = archive_name(visit.alloc(), number)?;
    let mut how = OpenOptions::new();
    how.read(true);
    match open_apart(&visit.rt, &how, name.as_str()) {
        Ok(file) => Ok(Some(FileArchive::new(file))),
        Err(_) => Ok(None),
    }
}

/// The blocks of an archive, and those that are kept behind them, to be read and written. None
/// where its file cannot be opened so. None is made.
pub(crate) fn open_both(
    visit: &Visit,
    number: u32,
) -> Result<Option<(FileArchive, KeptFile)>, AllocError> {
    let name = archive_name(visit.alloc(), number)?;
    let mut how = OpenOptions::new();
    how.read(true).write(true);
    let Ok(blocks) = open_apart(&visit.rt, &how, name.as_str()) else {
        return Ok(None);
    };
    let Ok(kept) = open_apart(&visit.rt, &how, name.as_str()) else {
        return Ok(None);
    };
    Ok(Some((FileArchive::new(blocks), KeptFile::new(kept))))
}
