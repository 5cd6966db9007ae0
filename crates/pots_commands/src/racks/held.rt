//! What the racks hold, by their desks.

use crate::racks::entering::Home;
use crate::snapshots::{Stored, snapshots};
use pot_bytes::Name;
use pot_image::Image;
use pot_report::Room;
use pots_folders::Snapshot;
use pots_vault::{Known, Stop, Visit, image};
use std::alloc::{AllocError, Global};

/// What a rack holds, and the room that is left in it.
#[derive(Drop)]
pub struct Held {
    pub rack: u32,
    pub known: Known,
    pub room: Room,
    pub snapshots: Vec<Stored>,
}

impl Held {
    /// Whether there is room for what is still to be stored of a file of this name and length.
    pub fn has_room(&self, alloc: Global, name: &Name, length: u64) -> Result<bool, AllocError> {
        let mut room = self.room.copied(alloc)?;
        Ok(self.known.take_room(&mut room, name, length))
    }

    /// Takes that room. Answers whether there was so much.
    pub fn take_room(&mut self, name: &Name, length: u64) -> bool {
        self.known.take_room(&mut self.room, name, length)
    }
}

/// The image of a rack's desk.
///
/// # Errors
/// Why it could not be read was said; the program is in the folder of the vault.
pub fn image_in(visit: &Visit, home: &Home, rack: u32) -> Result<Image, Stop> {
    let rt = &visit.rt;
    home.enter(rt, rack)?;
    let read = image_here(rt);
    home.leave(rt)?;
    read
}

// The image of the desk of the working folder, which is unlocked again.
fn image_here(rt: &HostRuntime) -> Result<Image, Stop> {
    let mut visit = Visit::begin(rt, false, None)?;
    image(&mut visit)
}

/// What each rack holds of which the desk can be read, and how many have a desk that cannot be.
pub fn readable(visit: &Visit, home: &Home) -> Result<(Vec<Held>, u32), Stop> {
    let mut all = Vec::new(visit.alloc());
    let mut unread = 0u32;
    for before in 0..home.count {
        let rack = before.saturating_add(1);
        match image_in(visit, home, rack) {
            Ok(image) => all.push(held_by(visit, rack, image)?)?,
            Err(Stop::Said(_)) => {
                unread = unread.saturating_add(1);
                tell_unread(visit, home, rack)?;
            }
            Err(stop) => return Err(stop),
        }
    }
    Ok((all, unread))
}

fn held_by(visit: &Visit, rack: u32, image: Image) -> Result<Held, Stop> {
    let snapshots = snapshots(visit, &image)?;
    let known = Known::of(visit.alloc(), image)?;
    let room = known.room(visit.alloc())?;
    Ok(Held {
        rack,
        known,
        room,
        snapshots,
    })
}

/// The snapshots of racks whose lists are there, each with the number of its rack.
pub fn all_snapshots(alloc: Global, racks: &[Held]) -> Result<Vec<(u32, Snapshot)>, AllocError> {
    let mut all = Vec::new(alloc);
    for held in racks {
        for stored in held.snapshots.iter() {
            all.push((held.rack, stored.snapshot))?;
        }
    }
    Ok(all)
}

/// Tells that the desk of a rack cannot be read.
pub fn tell_unread(visit: &Visit, home: &Home, rack: u32) -> Result<(), Stop> {
    let rt = &visit.rt;
    let path = home.path(visit.alloc(), rack)?;
    let _ = eprintln!(rt;
        "pots: this is of {path}: what that rack has is left out, and pots -C {path} works on it alone"
    );
    Ok(())
}
