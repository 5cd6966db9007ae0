//! An archive that is to come in the place of another.

use crate::archives::{archive_name, look_for_file, named};
use crate::desk::image;
use crate::new_file::open_to_read;
use crate::stop::Stop;
use crate::visit::Visit;
use pot_report::holdings;
use std::fs::File;
use std::os::unix::fs::FileExt;

/// How many bytes of an archive's file a slot has: the first is 1 where a block stands there.
const SLOT_BYTES: u64 = 1025;

/// At so many slots of an archive's file is looked at most: no archive has half as many stripes.
const MOST_SLOTS: u64 = 8192;

/// Ends the command where an archive that is to come holds blocks from before. Who kept a copy of
/// it from then has shards that no audit counts.
///
/// An archive of which the desk speaks is left to the session: a move that was begun goes on.
pub fn look_for_empty(visit: &mut Visit, number: u32) -> Result<(), Stop> {
    let image = image(visit)?;
    let holdings = holdings(visit.alloc(), &image)?;
    if holdings.iter().any(|holding| holding.archive == number) {
        return Ok(());
    }
    look_for_file(visit, number)?;
    let name = archive_name(visit.alloc(), number)?;
    let name = name.as_str();
    let Some(file) = open_to_read(&visit.rt, name) else {
        return Ok(());
    };
    if !holds_blocks(&file) {
        return Ok(());
    }
    let name = named(visit, number)?;
    let line = format!(in visit.alloc();
        "{name} holds blocks from before: give an empty archive, by another number, or move that file away"
    )?;
    Err(visit.refuse(2, line.as_str()))
}

// Whether a block stands in some slot of an archive's file.
fn holds_blocks(file: &File) -> bool {
    let length = file.metadata().map_or(0, |found| found.len());
    let slots = length.div_ceil(SLOT_BYTES).min(MOST_SLOTS);
    for slot in 0..slots {
        let mut byte = [0u8; 1];
        if file
            .read_exact_at(&mut byte, slot.saturating_mul(SLOT_BYTES))
            .is_ok()
            && byte == [1]
        {
            return true;
        }
    }
    false
}
