//! What the two ways to lay a vault's archives bear, told when it is made.

use pot_bytes::{Name, Rack};
use pot_report::{name_text, place_of, places_of};
use pots_vault::ranges_text;
use std::alloc::{AllocError, Global};

/// What the layout of a vault of this shape bears, and the commands that bring the archives of each
/// place there. With names each place has one disk, and else each archive has one.
pub fn layout_text(
    alloc: Global,
    rack: &Rack,
    names: Option<&[Name]>,
) -> Result<String, AllocError> {
    let mut text = match names {
        Some(_) => one_disk(alloc, rack)?,
        None => many_disks(alloc, rack)?,
    };
    text.push_str("bring the archives of each place there, with the folder of its disk:\n")?;
    for place in 0..places_of(rack) {
        let line = match names.and_then(|all| all.get(usize::from(place))) {
            Some(name) => named_line(alloc, name)?,
            None => numbered_line(alloc, rack, place)?,
        };
        text.push_str(line.as_str())?;
    }
    Ok(text)
}

// What a vault bears of which each place has one disk.
fn one_disk(alloc: Global, rack: &Rack) -> Result<String, AllocError> {
    let spare = rack.geometry.shards.saturating_sub(rack.geometry.need);
    let places = places_of(rack);
    format!(in alloc;
        "layout: one disk a place. Parity mends bad blocks and rot, and no dead disk: that is a lost place, and {spare} of {places} may be lost\nwhere a disk dies: put a new disk there, and give pots evacuate NAME FOLDER, which takes as much room as the files: keep half free\n"
    )
}

// What a vault bears of which each archive of a group has a disk of its own.
fn many_disks(alloc: Global, rack: &Rack) -> Result<String, AllocError> {
    let spare = rack.geometry.shards.saturating_sub(rack.geometry.need);
    let parity = rack.parity;
    let places = places_of(rack);
    format!(in alloc;
        "layout: a disk for each archive of a group. Then {parity} of each group may be dead and is mended, and {spare} of {places} places may be lost; with one disk for all of a place, make it with pots init --places home,office,sister\nwhere a disk dies: pots place NEW FOLDER, pots replace N NEW, and pots repair, with a number NEW that no archive has\n"
    )
}

// The command that brings a place of this name to a disk.
fn named_line(alloc: Global, name: &Name) -> Result<String, AllocError> {
    let name = name_text(name);
    format!(in alloc; "  pots place {name} /mnt/{name}\n")
}

// The command that brings the archives of a place without a name to a disk.
fn numbered_line(alloc: Global, rack: &Rack, place: u8) -> Result<String, AllocError> {
    let list = numbers_of(alloc, rack, place)?;
    let list = list.as_str();
    format!(in alloc; "  pots place {list} /mnt/place-{place}\n")
}

/// The archives that a new vault has at a place, as `0-3,12-15`.
pub fn numbers_of(alloc: Global, rack: &Rack, place: u8) -> Result<String, AllocError> {
    let width = u32::from(rack.columns).saturating_add(u32::from(rack.parity));
    let mut numbers = Vec::new(alloc);
    for group in 0..rack.groups {
        if place_of(rack, group) == place {
            let first = u32::from(group).saturating_mul(width);
            for column in 0..width {
                numbers.push(first.saturating_add(column))?;
            }
        }
    }
    ranges_text(alloc, &numbers)
}
