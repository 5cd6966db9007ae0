//! How many places hold a share of the desk as it is now.

use crate::finding::share_at;
use crate::spots::{Spot, are_apart, spots_of};
use pot_desk_places::terms_of;
use pot_desk_shares::{ShareHead, Terms, read_share};
use pot_image::Image;
use pot_report::places_of;
use pots_vault::{Stop, Visit};
use serde_json::json;

/// Tells how many places hold a share of the desk of this image.
pub fn tell_shares(visit: &Visit, image: &Image) -> Result<(), Stop> {
    let need = image.rack.geometry.need;
    let Some(terms) = terms_of(need, places_of(&image.rack), image.session) else {
        return Ok(());
    };
    let spots = spots_of(visit, image)?;
    let apart = are_apart(visit, &spots)?;
    let held = if apart {
        most_of_one_set(&heads_in(visit, &spots, &terms)?)
    } else {
        0
    };
    let Terms { need, count, .. } = terms;
    if visit.json {
        let line = json!(in visit.alloc(); {"shares": held, "places": count, "need": need})?;
        let line = line.to_string(visit.alloc())?;
        println!(visit; "{line}")
    } else if apart {
        println!(visit;
            "desk: {held} of {count} places hold a share of it as it is now, and any {need} of them give it back"
        )
    } else {
        println!(visit;
            "desk: no place holds a share of it, since all archives lie in this folder: bring those of each place to a disk of its own, with pots place"
        )
    }
}

// The heads of the shares of the desk that has these terms, each at the place where it belongs.
fn heads_in(visit: &Visit, spots: &[Spot], terms: &Terms) -> Result<Vec<ShareHead>, Stop> {
    let mut heads = Vec::new(visit.alloc());
    for spot in spots.iter() {
        if let Some(head) = head_at(visit, spot, terms)? {
            if !heads.contains(&head) {
                heads.push(head)?;
            }
        }
    }
    Ok(heads)
}

fn head_at(visit: &Visit, spot: &Spot, terms: &Terms) -> Result<Option<ShareHead>, Stop> {
    let Some(found) = share_at(visit, spot.folder.as_str(), spot.place)? else {
        return Ok(None);
    };
    let Some(share) = read_share(&found.bytes) else {
        return Ok(None);
    };
    let head = share.head;
    let of_these = Terms {
        need: head.need,
        count: head.count,
        generation: head.generation,
    };
    if of_these == *terms && head.point == spot.place.saturating_add(1) {
        Ok(Some(head))
    } else {
        Ok(None)
    }
}

// Of these shares, the most that are of one set. No two of one set are at one point.
fn most_of_one_set(heads: &[ShareHead]) -> u64 {
    let mut most = 0;
    for head in heads.iter() {
        let same = heads.iter().filter(|other| other.set == head.set).count();
        most = most.max(same as u64);
    }
    most
}
