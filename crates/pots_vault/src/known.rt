//! What is stored already, by the desk, and the room that is left beside it.

use pot_bytes::{Digest, Name};
use pot_client::{PART_SIZE, part_name};
use pot_image::Image;
use pot_report::{Kept, Room, kept_files};
use std::alloc::{AllocError, Global};
use std::collections::BTreeMap;

/// The most bytes of the list of a file of one part.
const LIST: u64 = 256;

/// Whether a file is there to its end. A list alone, whose file was refused, is no file.
pub fn is_stored(kept: &Kept) -> bool {
    kept.is_whole() && is_begun(kept)
}

// Whether something of a file is there, beside its list.
fn is_begun(kept: &Kept) -> bool {
    kept.direct.is_some() || kept.parts > 0
}

/// The files that a desk names.
#[derive(Drop)]
pub struct Known {
    image: Image,
    files: BTreeMap<Name, Kept>,
}

impl Known {
    /// The files that an image names.
    pub fn of(alloc: Global, image: Image) -> Result<Known, AllocError> {
        let files = kept_files(alloc, &image)?;
        Ok(Known { image, files })
    }

    /// What is stored under a name and the names of its parts.
    pub fn kept(&self, name: &Name) -> Option<Kept> {
        self.files.get(name).copied()
    }

    /// Whether something of a file of this name is stored, beside its list.
    pub fn is_begun(&self, name: &Name) -> bool {
        self.kept(name).is_some_and(|kept| is_begun(&kept))
    }

    /// The digest of the file of just this name.
    pub fn digest(&self, name: &Name) -> Option<Digest> {
        let record = self
            .image
            .records
            .iter()
            .find(|record| record.name == *name)?;
        Some(record.digest)
    }

    /// The room that is left beside what is stored.
    pub fn room(&self, alloc: Global) -> Result<Room, AllocError> {
        Room::left(alloc, &self.image)
    }

    /// Takes the room of what is still to be stored of a file of this name and length. Answers
    /// whether there was so much.
    pub fn take_room(&self, room: &mut Room, name: &Name, length: u64) -> bool {
        let in_parts = length > PART_SIZE as u64;
        match self.kept(name) {
            Some(kept) if is_stored(&kept) => true,
            _ if in_parts => self.take_parts(room, name, length),
            _ if self.is_begun(name) => true,
            _ => {
                let fits = room.take(length);
                room.take(LIST) && fits
            }
        }
    }

    // Takes the room of the parts that are not stored yet, and of the list of parts.
    fn take_parts(&self, room: &mut Room, name: &Name, length: u64) -> bool {
        let count = length.div_ceil(PART_SIZE as u64);
        let mut fits = room.take(count.saturating_mul(70).saturating_add(LIST));
        for number in 0..count {
            let start = number.saturating_mul(PART_SIZE as u64);
            let part = length.saturating_sub(start).min(PART_SIZE as u64);
            if !self.has_part(name, number.saturating_add(1)) && !room.take(part) {
                fits = false;
            }
        }
        fits
    }

    fn has_part(&self, name: &Name, number: u64) -> bool {
        let number = u32::try_from(number).unwrap_or(u32::MAX);
        match part_name(name, number) {
            Some(part) => self.digest(&part).is_some(),
            None => false,
        }
    }
}
