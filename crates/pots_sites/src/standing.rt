//! How each place stands: whether it is mounted, and whether all that it held is there.

use crate::named::{Named, places_here};
use pot_image::Image;
use pot_report::{Holding, Size, holdings, place_of};
use pots_vault::{Standing, Stop, Visit, archive_name, look_at};
use serde_json::json;
use std::fs;

/// The bytes of a slot.
const SLOT: u64 = 1_025;

/// What the archives of a place have.
#[derive(Clone, Copy)]
pub struct Sum {
    archives: u64,
    /// So many of them are here.
    here: u64,
    live: u64,
    gone: u64,
    /// The slots that are free.
    free: u64,
}

/// Tells of each place that has a name whether it is mounted, whether all that it held is there,
/// and how much more its archives take.
pub fn tell_places(visit: &Visit, image: &Image) -> Result<(), Stop> {
    let Some(named) = places_here(&visit.rt)? else {
        return Ok(());
    };
    let mut sums = no_sums(visit, &named)?;
    add_sums(visit, image, (&named, &mut sums))?;
    tell_sums(visit, &named, &sums)
}

/// A sum for each place, of no archive yet.
pub fn no_sums(visit: &Visit, named: &Named) -> Result<Vec<Sum>, Stop> {
    let mut sums = Vec::new(visit.alloc());
    for _ in 0..named.names.len() {
        sums.push(Sum {
            archives: 0,
            here: 0,
            live: 0,
            gone: 0,
            free: 0,
        })?;
    }
    Ok(sums)
}

/// Adds what the archives of each place have, by the desk, and how many are here.
pub fn add_sums(
    visit: &Visit,
    image: &Image,
    (named, sums): (&Named, &mut [Sum]),
) -> Result<(), Stop> {
    named.look_at_count(visit, &image.rack)?;
    for holding in holdings(visit.alloc(), image)?.iter() {
        let place = place_of(&image.rack, holding.group);
        let is_here = is_here(visit, holding)?;
        if let Some(sum) = sums.get_mut(usize::from(place)) {
            sum.add(holding, image.rack.stripes, is_here);
        }
    }
    Ok(())
}

impl Sum {
    fn add(&mut self, holding: &Holding, stripes: u32, is_here: bool) {
        let used = holding.live.saturating_add(holding.gone());
        let free = stripes.saturating_sub(used);
        self.archives = self.archives.saturating_add(1);
        self.here = self.here.saturating_add(u64::from(is_here));
        self.live = self.live.saturating_add(u64::from(holding.live));
        self.gone = self.gone.saturating_add(u64::from(holding.to_mend()));
        self.free = self.free.saturating_add(u64::from(free));
    }
}

/// Tells how each place stands.
pub fn tell_sums(visit: &Visit, named: &Named, sums: &[Sum]) -> Result<(), Stop> {
    for (place, sum) in sums.iter().enumerate() {
        let place = u8::try_from(place).unwrap_or(u8::MAX);
        tell_one(visit, named, place, sum)?;
    }
    Ok(())
}

// Whether the file of an archive is here, with all blocks that it should have.
fn is_here(visit: &Visit, holding: &Holding) -> Result<bool, Stop> {
    let name = archive_name(visit.alloc(), holding.archive)?;
    let is_file = fs::metadata(&visit.rt, name.as_str()).is_ok_and(|found| found.is_file());
    Ok(is_file && look_at(&visit.rt, holding)? == Standing::There)
}

fn tell_one(visit: &Visit, named: &Named, place: u8, sum: &Sum) -> Result<(), Stop> {
    let alloc = visit.alloc();
    let name = named.name(place);
    let folder = named.folder(alloc, place)?;
    let path = match fs::read_link(&visit.rt, folder.as_str()) {
        Ok(target) => target.into_string(),
        Err(_) => folder,
    };
    let path = path.as_str();
    let Sum {
        archives,
        here,
        live,
        gone,
        free,
    } = *sum;
    let room = free.saturating_mul(SLOT);
    if visit.json {
        let line =
            json!(in alloc; {"place": name, "at": path, "archives": archives, "here": here, "live": live, "gone": gone, "takes": room})?;
        let line = line.to_string(alloc)?;
        return println!(visit; "{line}");
    }
    let mounted = mounted_text(visit, sum)?;
    let mounted = mounted.as_str();
    let sound = if gone == 0 {
        String::from_str(alloc, "all its blocks are there by the desk")?
    } else {
        format!(in alloc; "{gone} of its blocks are gone")?
    };
    let sound = sound.as_str();
    let room = Size(room);
    println!(visit; "place {name} at {path}: {mounted}; {sound}; its archives take {room} more")
}

// Whether a place is mounted.
fn mounted_text(visit: &Visit, sum: &Sum) -> Result<String, Stop> {
    let archives = sum.archives;
    let here = sum.here;
    Ok(if here == archives {
        String::from_str(visit.alloc(), "mounted")?
    } else if here == 0 {
        String::from_str(visit.alloc(), "not mounted")?
    } else {
        format!(in visit.alloc(); "{here} of {archives} archives are here")?
    })
}
