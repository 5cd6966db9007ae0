//! Where the shares of a desk belong: beside the archives of each place.

use pot_image::Image;
use pot_machine::Column;
use pot_report::place_of;
use pots_vault::{Stop, Visit, lying_of, own_folder};
use std::fs;

/// A folder in which archives of a place lie.
#[derive(Drop)]
pub struct Spot {
    pub place: u8,
    pub folder: String,
    /// Whether an archive of the place is there.
    pub is_there: bool,
}

/// The folders of each place, each once.
pub fn spots_of(visit: &Visit, image: &Image) -> Result<Vec<Spot>, Stop> {
    let mut spots = Vec::new(visit.alloc());
    for (group, table) in image.tables.iter().enumerate() {
        let group = u8::try_from(group).unwrap_or(u8::MAX);
        let place = place_of(&image.rack, group);
        for column in table.columns().iter() {
            add_column(visit, &mut spots, place, column)?;
        }
    }
    Ok(spots)
}

// Adds the folder of a column's archive, and of the one that it moves to.
fn add_column(
    visit: &Visit,
    spots: &mut Vec<Spot>,
    place: u8,
    column: &Column,
) -> Result<(), Stop> {
    add_archive(visit, spots, place, column.home)?;
    match column.moving {
        Some(moving) => add_archive(visit, spots, place, moving.to),
        None => Ok(()),
    }
}

fn add_archive(visit: &Visit, spots: &mut Vec<Spot>, place: u8, archive: u32) -> Result<(), Stop> {
    let lying = lying_of(visit, archive)?;
    for spot in spots.iter_mut() {
        if spot.place == place && spot.folder.as_str() == lying.folder.as_str() {
            spot.is_there = spot.is_there || lying.is_there;
            return Ok(());
        }
    }
    spots.push(Spot {
        place,
        folder: lying.folder,
        is_there: lying.is_there,
    })?;
    Ok(())
}

/// Whether some archive lies in another folder than the vault's own, and than those of its places
/// that are still in it.
pub fn are_apart(visit: &Visit, spots: &[Spot]) -> Result<bool, Stop> {
    let own = own_folder(visit)?;
    let places = places_in(visit, own.as_str())?;
    Ok(
        spots.iter().any(|spot| spot.folder.as_str() != own.as_str()
            && !is_below(spot.folder.as_str(), &places)),
    )
}

// The path of the folder of places of the vault, with a slash behind it. None where its places have
// no names.
fn places_in(visit: &Visit, own: &str) -> Result<Option<String>, Stop> {
    let rt = &visit.rt;
    if fs::metadata(rt, "PLACES").is_ok() {
        return Ok(Some(format!(in visit.alloc(); "{own}/places/")?));
    }
    Ok(match own.rsplit_once('/') {
        Some((above, name)) if name.starts_with("rack-") && fs::metadata(rt, "../PLACES").is_ok() =>
            { Some(format!(in visit.alloc(); "{above}/places/")?) }
        _ => None,
    })
}

fn is_below(folder: &str, places: &Option<String>) -> bool {
    match places {
        Some(places) => folder.starts_with(places.as_str()),
        None => false,
    }
}
