//! What is looked at before a session: that each archive of which the desk speaks is there, in a
//! file of its own and under its own number, and gives what it holds, and whether the session
//! before came to its end.

use crate::archives::{Standing, archive_name, look_at, look_for_file, named};
use crate::desk::{image_bytes, parsed};
use crate::kept_images::keep_image;
use crate::sampling::{look_for_silent, look_for_strangers};
use crate::stop::Stop;
use crate::twins::look_for_twins;
use crate::visit::Visit;
use pot_files::{Shut, open_archive_file};
use pot_image::Image;
use pot_report::{Holding, holdings};
use std::fs;
use std::io::ErrorKind;

/// The desk's image, once all archives are there of which it speaks, or of those that are not it
/// was asked to go on without them. Before the first session the image is kept as it is.
///
/// # Errors
/// What is not as it should be was said, and nothing was written.
pub fn image_for_session(visit: &mut Visit) -> Result<Image, Stop> {
    let bytes = image_bytes(visit)?;
    let image = parsed(visit, &bytes)?;
    let all = holdings(visit.alloc(), &image)?;
    look_for_files(visit, &all)?;
    look_at_access(visit, &all)?;
    look_for_twins(visit, &all)?;
    look_for_silent(visit, &image, &all)?;
    look_for_strangers(visit, &image, &all)?;
    look_at_archives(visit, &all)?;
    if !visit.kept {
        keep_image(visit, image.session, &bytes)?;
        visit.kept = true;
    }
    Ok(image)
}

/// Whether the session that wrote an image did not come to its end: one that begins leaves its
/// number and empty logs, and each that `pots` holds logs at least that the files were listed.
pub fn was_stopped(image: &Image) -> bool {
    image.session > 0
        && image.index_log.is_empty()
        && image.group_logs.iter().all(|log| log.is_empty())
}

/// Whether all archives are there of which the desk speaks.
pub fn are_all_there(visit: &Visit, image: &Image) -> Result<bool, Stop> {
    for holding in holdings(visit.alloc(), image)?.iter() {
        if look_at(&visit.rt, holding)? != Standing::There {
            return Ok(false);
        }
    }
    Ok(true)
}

// Ends the command where something else than a file has the place of an archive.
fn look_for_files(visit: &Visit, all: &[Holding]) -> Result<(), Stop> {
    for holding in all.iter() {
        look_for_file(visit, holding.archive)?;
    }
    Ok(())
}

// Ends the command where archives are missing or too short that it was not asked to go on without,
// or where no session can begin without one.
fn look_at_archives(visit: &Visit, all: &[Holding]) -> Result<(), Stop> {
    look_at_links(visit)?;
    let mut list = String::new(visit.alloc());
    for holding in all.iter() {
        look_at_one(visit, holding, &mut list)?;
    }
    if list.is_empty() {
        return Ok(());
    }
    let line = format!(in visit.alloc();
        "see that all disks are mounted and all archives are in their places; only where these are gone for good give --without {list}: what they held counts as lost until it is mended, as far as parity goes, or found again when they come back"
    )?;
    Err(visit.refuse(8, line.as_str()))
}

// Ends the command where archives that it was asked to go on without are links that lead nowhere:
// no session makes their files.
fn look_at_links(visit: &Visit) -> Result<(), Stop> {
    let mut links = String::new(visit.alloc());
    for number in visit.without.iter() {
        let name = archive_name(visit.alloc(), *number)?;
        let name = name.as_str();
        if fs::read_link(&visit.rt, name).is_ok() && fs::metadata(&visit.rt, name).is_err() {
            links.push_str(" ")?;
            links.push_str(name)?;
        }
    }
    if links.is_empty() {
        return Ok(());
    }
    let line = format!(in visit.alloc();
        "these lead nowhere:{links}; see that their disks are mounted; where they are gone for good, move the links into another folder, with mkdir gone and mv{links} gone, or make empty files where they lead, and give the command once more"
    )?;
    Err(visit.refuse(8, line.as_str()))
}

// Says that an archive is not there as it should be, and lists it, unless the command was asked to
// go on without it.
fn look_at_one(visit: &Visit, holding: &Holding, list: &mut String) -> Result<(), Stop> {
    let number = holding.archive;
    let standing = look_at(&visit.rt, holding)?;
    if standing == Standing::There || visit.without.contains(&number) {
        return Ok(());
    }
    tell_absent(visit, number, standing)?;
    if !list.is_empty() {
        list.push_str(",")?;
    }
    list.push_str(format!(in visit.alloc(); "{number}")?.as_str())?;
    Ok(())
}

fn tell_absent(visit: &Visit, number: u32, standing: Standing) -> Result<(), Stop> {
    let rt = &visit.rt;
    let name = named(visit, number)?;
    if standing == Standing::Short {
        let _ = eprintln!(rt; "pots: {name} is shorter than the desk knows it");
        return Ok(());
    }
    let file = archive_name(visit.alloc(), number)?;
    match fs::metadata(rt, file.as_str()) {
        Err(e) if e.kind() != ErrorKind::NotFound => {
            let _ = eprintln!(rt; "pots: {name} could not be reached: {e}");
        }
        _ => {
            let _ = eprintln!(rt; "pots: {name} is missing");
        }
    }
    Ok(())
}

// Ends the command where the file of an archive cannot be opened as a session opens it. Those that
// can only be read are told before the first session of a command.
fn look_at_access(visit: &Visit, all: &[Holding]) -> Result<(), Stop> {
    let mut shut = 0u32;
    let mut read_only = 0u32;
    for holding in all.iter() {
        match access_of(visit, holding.archive)? {
            Access::Open => {}
            Access::ReadOnly => read_only = read_only.saturating_add(1),
            Access::Shut => shut = shut.saturating_add(1),
        }
    }
    if shut > 0 {
        return Err(visit.refuse(
            8,
            "no session can begin without these, and nothing was written: see that each can be read, and that each link leads to the file of its archive",
        ));
    }
    if read_only > 0 && !visit.kept {
        let rt = &visit.rt;
        let _ = eprintln!(rt;
            "pots: what these hold is fetched, and nothing is stored or mended there until they can be written again"
        );
    }
    Ok(())
}

/// How a session can open the file of an archive.
enum Access {
    /// As it is wanted, or it is not there.
    Open,
    ReadOnly,
    Shut,
}

// How a session can open the file of an archive. What is not as it is wanted is told.
fn access_of(visit: &Visit, number: u32) -> Result<Access, Stop> {
    let name = archive_name(visit.alloc(), number)?;
    match open_archive_file(&visit.rt, name.as_str(), false) {
        Ok((_, true)) => Ok(Access::Open),
        Ok((_, false)) => {
            if !visit.kept {
                tell_read_only(visit, number)?;
            }
            Ok(Access::ReadOnly)
        }
        Err(Shut::LeadsNowhere) => Ok(Access::Open),
        Err(Shut::Failed(e)) if e.kind() == ErrorKind::NotFound => Ok(Access::Open),
        Err(why) => {
            tell_shut(visit, number, &why)?;
            Ok(Access::Shut)
        }
    }
}

fn tell_read_only(visit: &Visit, number: u32) -> Result<(), Stop> {
    let rt = &visit.rt;
    let name = named(visit, number)?;
    let _ = eprintln!(rt; "pots: {name} can only be read");
    Ok(())
}

// Tells why the file of an archive is not opened.
fn tell_shut(visit: &Visit, number: u32, why: &Shut) -> Result<(), Stop> {
    let rt = &visit.rt;
    let name = named(visit, number)?;
    match why {
        Shut::LeadsNowhere => {
            let _ = eprintln!(rt; "pots: {name} leads nowhere");
        }
        Shut::Foreign => {
            let _ = eprintln!(rt;
                "pots: {name} leads to a file with no blocks of an archive, and would be written over"
            );
        }
        Shut::Failed(e) => {
            let _ = eprintln!(rt; "pots: {name} could not be opened: {e}");
        }
    }
    Ok(())
}
