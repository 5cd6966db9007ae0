//! The archives that are mounted.

use crate::shelf::Shelf;
use pot_bytes::Block;
use pot_image::Image;
use pot_report::holdings;
use pots_vault::{MOST_ARCHIVES, Stop, Visit, archive_name, open_to_read};
use std::fs;
use std::fs::File;
use std::os::unix::fs::FileExt;

/// How many bytes of an archive's file a slot has: the first is 1 where a block stands there.
const SLOT: usize = 1025;

/// The archives of the working folder that are here, opened to be read alone.
#[derive(Drop)]
pub struct Mounted {
    /// By their numbers.
    files: Vec<Option<File>>,
    /// The numbers of those that the desk names and that are not here.
    away: Vec<u32>,
}

impl Mounted {
    /// Those of which the desk speaks, but for those that the visit is to go on without.
    pub fn open(visit: &Visit, image: &Image) -> Result<Mounted, Stop> {
        let mut files = Vec::new(visit.alloc());
        for _ in 0..MOST_ARCHIVES {
            files.push(None)?;
        }
        let mut away = Vec::new(visit.alloc());
        for holding in holdings(visit.alloc(), image)?.iter() {
            match opened(visit, holding.archive)? {
                Some(file) => put(&mut files, holding.archive, file),
                None if holding.length > 0 => away.push(holding.archive)?,
                None => {}
            }
        }
        Ok(Mounted { files, away })
    }

    /// The numbers of the archives that are not here.
    pub fn away(&self) -> &[u32] {
        &self.away
    }
}

fn put(files: &mut [Option<File>], number: u32, file: File) {
    if let Some(place) = files.get_mut(number as usize) {
        *place = Some(file);
    }
}

// The file of an archive, where it is here and may be read.
fn opened(visit: &Visit, number: u32) -> Result<Option<File>, Stop> {
    let rt = &visit.rt;
    if visit.without.contains(&number) {
        return Ok(None);
    }
    let name = archive_name(visit.alloc(), number)?;
    match fs::metadata(rt, name.as_str()) {
        Ok(found) if found.is_file() => Ok(open_to_read(rt, name.as_str())),
        _ => Ok(None),
    }
}

impl Shelf for Mounted {
    fn block(&self, archive: u32, slot: u32) -> Option<Block> {
        let file = self.files.get(archive as usize)?.as_ref()?;
        let mut bytes = [0u8; SLOT];
        let start = u64::from(slot) * (SLOT as u64);
        if file.read_exact_at(&mut bytes, start).is_err() {
            return None;
        }
        match bytes.as_slice() {
            [1, rest @ ..] => {
                let mut block = [0u8; 1024];
                block.copy_from_slice(rest);
                Some(Block::from_bytes(block))
            }
            _ => None,
        }
    }
}
