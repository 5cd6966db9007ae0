//! Shares are laid beside the archives of the places, behind each session.

use crate::spots::{Spot, are_apart, spots_of};
use pot_desk_places::{made_share, random_size, terms_of, text_of};
use pot_image::Image;
use pot_report::places_of;
use pots_vault::{MOST_PLACES, Stop, Visit, own_folder, put_file, share_path};
use rand::rngs::SysRng;
use rand_core::TryRng;
use std::{fs, io};

/// Lays the shares of the desk of this image beside the archives of each place, each in the place
/// of the one before. A place where that fails is told by its path, and ends nothing.
///
/// Where all archives lie in the vault's own folder none are laid: they would be lost with the
/// desk.
pub fn lay_shares(visit: &Visit, image: &mut Image) -> Result<(), Stop> {
    let spots = spots_of(visit, image)?;
    if !are_apart(visit, &spots)? {
        return Ok(());
    }
    let need = image.rack.geometry.need;
    let Some(terms) = terms_of(need, places_of(&image.rack), image.session) else {
        return Ok(());
    };
    let Some(text) = text_of(visit.alloc(), image)? else {
        tell_unshared(visit, "its image is too long");
        return Ok(());
    };
    let Some(size) = random_size(&terms, &text) else {
        tell_unshared(visit, "its image is too long");
        return Ok(());
    };
    let Ok(random) = drawn(&visit.rt, size) else {
        tell_unshared(visit, "the system gave no random bytes");
        return Ok(());
    };
    for place in 0..terms.count {
        if let Some(share) = made_share(visit.alloc(), &text, &terms, &random, place)? {
            lay_at_place(visit, &spots, place, &share)?;
        }
    }
    forget_moved(visit, &spots)
}

// Takes the shares out of the vault's own folder that belong to places which have no archive there
// any more.
fn forget_moved(visit: &Visit, spots: &[Spot]) -> Result<(), Stop> {
    let own = own_folder(visit)?;
    for place in 0..MOST_PLACES {
        let is_here = spots.iter().any(|spot| spot.place == place
            && spot.folder.as_str() == own.as_str());
        if !is_here {
            let path = share_path(visit.alloc(), own.as_str(), place)?;
            let _ = fs::remove_file(&visit.rt, path.as_str());
        }
    }
    Ok(())
}

fn tell_unshared(visit: &Visit, why: &str) {
    let rt = &visit.rt;
    let _ = eprintln!(rt;
        "pots: no shares of the desk were laid, since {why}: keep a copy of it, with pots backup-desk"
    );
}

// So many random bytes of the system.
fn drawn(rt: &HostRuntime, size: usize) -> io::Result<Vec<u8>> {
    let mut bytes = vec![in rt.alloc(); 0u8; size]?;
    SysRng::new(rt).try_fill_bytes(&mut bytes)?;
    Ok(bytes)
}

// Lays a share into each folder of a place.
fn lay_at_place(visit: &Visit, spots: &[Spot], place: u8, share: &[u8]) -> Result<(), Stop> {
    for spot in spots.iter() {
        if spot.place == place {
            lay_one(visit, spot, share)?;
        }
    }
    Ok(())
}

fn lay_one(visit: &Visit, spot: &Spot, share: &[u8]) -> Result<(), Stop> {
    let rt = &visit.rt;
    let path = share_path(visit.alloc(), spot.folder.as_str(), spot.place)?;
    if !spot.is_there {
        let _ = eprintln!(rt;
            "pots: {path} was not written, and holds no share of the desk as it is now: no archive is there; see that its disk is mounted"
        );
        return Ok(());
    }
    if let Err(e) = put_file(rt, path.as_str(), share, true) {
        let _ = eprintln!(rt;
            "pots: {path} could not be written, and holds no share of the desk as it is now: {e}; see that its disk has room and may be written"
        );
    }
    Ok(())
}
