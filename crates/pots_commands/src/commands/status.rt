//! `status`: how the archives stand, by the desk alone.

use crate::words::command;
use pot_image::Image;
use pot_report::{Holding, Room, Size, holdings, kept_files, place_of};
use pots_looks::tell_habits;
use pots_shares::tell_shares;
use pots_sites::{place_word, places_here, tell_places};
use pots_vault::{Standing, Stop, Visit, image, look_at, place_text};
use serde_json::json;
use std::alloc::{AllocError, Global};

/// Its words.
pub fn words<'a>(alloc: Global) -> Result<clap::Command<'a>, AllocError> {
    command(
        alloc,
        "status",
        "Tell how each archive stands by the desk, and how much room is left",
    )
}

/// Tells how each archive stands, and how much room is left.
pub fn work(visit: &mut Visit) -> Result<u8, Stop> {
    let image = image(visit)?;
    tell_archives(visit, &image)?;
    tell_places(visit, &image)?;
    let room = Room::left(visit.alloc(), &image)?.bytes();
    if visit.json {
        let files = kept_files(visit.alloc(), &image)?.len() as u64;
        let line =
            json!(in visit.alloc(); {"session": image.session, "files": files, "room": room})?;
        let line = line.to_string(visit.alloc())?;
        println!(visit; "{line}")?;
    } else {
        let left = Size(room);
        println!(visit; "room for {left} more")?;
    }
    tell_shares(visit, &image)?;
    tell_habits(visit)?;
    Ok(0)
}

/// Tells how each archive stands.
pub fn tell_archives(visit: &Visit, image: &Image) -> Result<(), Stop> {
    if !visit.json {
        println!(visit; "archive  place  group  kind    blocks    gone  file")?;
    }
    let named = places_here(&visit.rt)?;
    for holding in holdings(visit.alloc(), image)?.iter() {
        let file = file_text(visit, holding)?;
        if visit.json {
            tell_holding_json(visit, holding, file.as_str())?;
        } else {
            let place = place_of(&image.rack, holding.group);
            let place = place_word(visit.alloc(), &named, place)?;
            tell_holding(visit, holding, place.as_str(), file.as_str())?;
        }
    }
    Ok(())
}

fn tell_holding(visit: &Visit, holding: &Holding, place: &str, file: &str) -> Result<(), Stop> {
    let Holding {
        archive,
        group,
        parity,
        live,
        ..
    } = *holding;
    let gone = holding.gone();
    let kind = if parity { "parity" } else { "data" };
    println!(visit; "{archive:>7}  {place:>5}  {group:>5}  {kind:<6}  {live:>6}  {gone:>6}  {file}")
}

fn tell_holding_json(visit: &Visit, holding: &Holding, file: &str) -> Result<(), Stop> {
    let line =
        json!(in visit.alloc(); {"archive": holding.archive, "group": holding.group, "column": holding.column, "parity": holding.parity, "live": holding.live, "lost": holding.lost, "broken": holding.broken, "idle": holding.idle, "file": file})?;
    let line = line.to_string(visit.alloc())?;
    println!(visit; "{line}")
}

// How the file of an archive stands, and where it lies.
fn file_text(visit: &Visit, holding: &Holding) -> Result<String, Stop> {
    let word = match look_at(&visit.rt, holding)? {
        Standing::There => "",
        Standing::Missing => ", missing",
        Standing::Short => ", too short",
        Standing::NoFile => ", no file",
    };
    let place = place_text(visit, holding.archive)?;
    Ok(format!(in visit.alloc(); "{place}{word}")?)
}
