//! What is shared of a desk.

use pot_bytes::NoMemory;
use pot_image::{Image, write_image};
use pot_machine::Entry;
use std::alloc::{AllocError, Global};
use std::mem;

/// The text that is shared of a desk: its image without logs. It has the records with their names,
/// digests and places, and the tables, so with it all is fetched and mended. None where the image
/// is beyond what can be written.
pub fn text_of(alloc: Global, image: &mut Image) -> Result<Option<Vec<u8>>, NoMemory> {
    let none = no_logs(alloc, image.tables.len())?;
    let group_logs = mem::replace(&mut image.group_logs, none);
    let index_log = mem::replace(&mut image.index_log, Vec::new(alloc));
    let text = written(alloc, image);
    image.group_logs = group_logs;
    image.index_log = index_log;
    text
}

fn written(alloc: Global, image: &Image) -> Result<Option<Vec<u8>>, NoMemory> {
    if image.is_countable() {
        Ok(Some(write_image(alloc, image)?))
    } else {
        Ok(None)
    }
}

// The empty logs of so many groups.
fn no_logs(alloc: Global, groups: usize) -> Result<Vec<Vec<Entry>>, AllocError> {
    let mut logs = Vec::new(alloc);
    for _ in 0..groups {
        logs.push(Vec::new(alloc))?;
    }
    Ok(logs)
}
