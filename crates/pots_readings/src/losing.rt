//! What is lost where archives are gone.

use pot_image::Image;
use pot_index::Record;
use pot_report::{Holding, holdings};
use std::alloc::{AllocError, Global};

/// The groups that lose more than so many archives by these.
pub fn groups_without(
    alloc: Global,
    image: &Image,
    numbers: &[u32],
    more_than: u8,
) -> Result<Vec<u8>, AllocError> {
    let all = holdings(alloc, image)?;
    let mut groups = Vec::new(alloc);
    for group in 0..image.rack.groups {
        if count_gone(&all, group, numbers) > usize::from(more_than) {
            groups.push(group)?;
        }
    }
    Ok(groups)
}

// How many of these archives are of a group.
fn count_gone(all: &[Holding], group: u8, numbers: &[u32]) -> usize {
    all.iter()
        .filter(|holding| holding.group == group && numbers.contains(&holding.archive))
        .count()
}

/// Whether each fragment of each file has as many shards as it needs in other groups than these.
pub fn can_read_without(image: &Image, groups: &[u8]) -> bool {
    image
        .records
        .iter()
        .all(|record| has_enough(record, groups))
}

fn has_enough(record: &Record, groups: &[u8]) -> bool {
    let shards = usize::from(record.geometry.shards).max(1);
    for places in record.places.as_slice().chunks(shards) {
        let there = places
            .iter()
            .filter(|place| !groups.contains(&place.group))
            .count();
        if there < usize::from(record.geometry.need) {
            return false;
        }
    }
    true
}
