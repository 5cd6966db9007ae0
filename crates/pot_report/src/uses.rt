//! Which stripes are in use: those in which a block of the current split of a file stands.

use pot_bytes::Place;
use pot_image::Image;
use pot_index::Record;
use std::alloc::{AllocError, Global};

/// Of each group, which stripes are in use.
#[derive(Drop)]
pub struct Uses {
    groups: Vec<Vec<bool>>,
}

impl Uses {
    /// Those of the records of an image.
    pub fn of(alloc: Global, image: &Image) -> Result<Uses, AllocError> {
        let mut uses = Uses::none(alloc, image)?;
        for record in image.records.iter() {
            uses.add(record);
        }
        Ok(uses)
    }

    // No stripe is in use.
    fn none(alloc: Global, image: &Image) -> Result<Uses, AllocError> {
        let mut groups = Vec::new(alloc);
        for table in image.tables.iter() {
            groups.push(vec![in alloc; false; table.stripes() as usize]?)?;
        }
        Ok(Uses { groups })
    }

    // The blocks of the record's current split stand in stripes that are in use.
    fn add(&mut self, record: &Record) {
        for place in record.places.as_slice() {
            self.set(place);
        }
    }

    fn set(&mut self, place: &Place) {
        if let Some(stripes) = self.groups.get_mut(usize::from(place.group)) {
            if let Some(used) = stripes.get_mut(place.stripe as usize) {
                *used = true;
            }
        }
    }

    /// Whether the stripe is in use.
    pub fn has(&self, group: u8, stripe: u32) -> bool {
        match self.groups.get(usize::from(group)) {
            Some(stripes) => stripes.get(stripe as usize).copied().unwrap_or(false),
            None => false,
        }
    }
}
