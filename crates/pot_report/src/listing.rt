//! The files that are kept, each once, whether in one piece of the script or in parts.

use pot_bytes::Name;
use pot_client::read_part_name;
use pot_image::Image;
use std::alloc::{AllocError, Global};
use std::collections::BTreeMap;

/// What is stored under a name and the names of its parts.
#[derive(Clone, Copy, Debug, PartialEq, Eq)]
pub struct Kept {
    /// The length of the file of just this name.
    pub direct: Option<u64>,
    /// How many parts there are, and their bytes.
    pub parts: u32,
    pub length: u64,
    /// Whether the list of parts is there, which is stored last.
    pub complete: bool,
}

impl Kept {
    fn none() -> Kept {
        Kept {
            direct: None,
            parts: 0,
            length: 0,
            complete: false,
        }
    }

    /// Whether the file is there to its end.
    pub fn is_whole(&self) -> bool {
        self.direct.is_some() || self.complete
    }

    // One part more.
    fn add(&mut self, number: u32, length: u64) {
        if number == 0 {
            self.complete = true;
        } else {
            self.parts = self.parts.saturating_add(1);
            self.length = self.length.saturating_add(length);
        }
    }
}

/// The files of an image by name.
pub fn kept_files(alloc: Global, image: &Image) -> Result<BTreeMap<Name, Kept>, AllocError> {
    let mut files = BTreeMap::new(alloc);
    for record in image.records.iter() {
        add_record(&mut files, record.name, record.length)?;
    }
    Ok(files)
}

fn add_record(files: &mut BTreeMap<Name, Kept>, name: Name, length: u64) -> Result<(), AllocError> {
    match read_part_name(&name) {
        Some((stem, number)) => files
            .entry(stem)?
            .or_insert(Kept::none())
            .add(number, length),
        None => files.entry(name)?.or_insert(Kept::none()).direct = Some(length),
    }
    Ok(())
}
