//! The emergency sheet: what is to be known of a vault where nobody is left who knows it, in lines
//! of at most 72 columns.

use crate::clock::now;
use crate::where_they_lie::{Row, rows};
use pot_bytes::{Geometry, Rack, digest_of};
use pot_image::{Image, read_image};
use pot_looks::{append_paragraph, date_text};
use pot_report::{Room, Size, digest_text, kept_files, places_of};
use pots_sites::{place_word, places_here};
use pots_vault::{Stop, Visit, image_bytes};

/// How many rows of archives are told at most, so that the sheet has no more than two pages.
const MOST_ROWS: usize = 20;

/// The emergency sheet of the vault.
pub fn sheet_text(visit: &mut Visit) -> Result<String, Stop> {
    let bytes = image_bytes(visit)?;
    let Ok(image) = read_image(visit.alloc(), &bytes) else {
        return Err(visit.refuse(
            7,
            "the desk's image is damaged, so there is nothing to tell: put a copy back with pots restore-desk",
        ));
    };
    let mut text = String::new(visit.alloc());
    append_head(visit, &mut text, &image.rack)?;
    append_vault(visit, &mut text, &image)?;
    append_digest(visit, &mut text, &bytes)?;
    append_rows(visit, &mut text, &image)?;
    append_blanks(&mut text)?;
    if places_here(&visit.rt)?.is_some() {
        append_named_gone(&mut text)?;
    } else {
        append_disk_dead(&mut text, &image.rack)?;
    }
    append_place_gone(visit, &mut text, &image.rack)?;
    append_desk_gone(visit, &mut text, &image)?;
    append_no_program(&mut text)?;
    Ok(text)
}

// Adds a paragraph, and an empty line behind it.
fn append_part(text: &mut String, part: &str) -> Result<(), Stop> {
    append_paragraph(text, part, "")?;
    text.push_str("\n")?;
    Ok(())
}

fn append_head(visit: &Visit, text: &mut String, rack: &Rack) -> Result<(), Stop> {
    let date = date_text(visit.alloc(), now(&visit.rt))?;
    let places = places_of(rack);
    let need = rack.geometry.need;
    let spare = rack.geometry.shards.saturating_sub(need);
    append_paragraph(
        text,
        format!(in visit.alloc(); "EMERGENCY SHEET of a potshards vault, {date}")?.as_str(),
        "",
    )?;
    append_part(
        text,
        "It has no key and no password. Print it anew where disks or folders change.",
    )?;
    append_part(
        text,
        format!(in visit.alloc();
            "While at most {spare} of {places} places are gone, the archives of the others give every file. Who has fewer than {need} places learns how long files are."
        )?.as_str(),
    )
}

fn append_vault(visit: &Visit, text: &mut String, image: &Image) -> Result<(), Stop> {
    let Rack {
        groups,
        columns,
        parity,
        stripes,
        geometry,
    } = image.rack;
    let Geometry {
        fragments,
        need,
        shards,
        blur,
    } = geometry;
    let (count, bytes) = stored(visit, image)?;
    let bytes = Size(bytes);
    let room = Size(Room::left(visit.alloc(), image)?.bytes());
    let session = image.session;
    let files = format!(in visit.alloc();
        "  files: {count}, {bytes}; room for {room} more; session {session}"
    )?;
    let shape = format!(in visit.alloc();
        "  groups: {groups}, each of {columns} data and {parity} parity archives of {stripes} blocks"
    )?;
    let split = format!(in visit.alloc();
        "  geometry: m {need} of n {shards}, {fragments} fragments, blur {blur}"
    )?;
    text.push_str("THE VAULT\n")?;
    append_paragraph(text, files.as_str(), "  ")?;
    append_paragraph(text, shape.as_str(), "  ")?;
    append_paragraph(text, split.as_str(), "  ")?;
    Ok(())
}

// How many files there are, and their bytes.
fn stored(visit: &Visit, image: &Image) -> Result<(u64, u64), Stop> {
    let mut count = 0u64;
    let mut bytes = 0u64;
    for (_, kept) in kept_files(visit.alloc(), image)?.iter() {
        count = count.saturating_add(1);
        let length = kept.direct.unwrap_or(kept.length);
        bytes = bytes.saturating_add(length);
    }
    Ok((count, bytes))
}

fn append_digest(visit: &Visit, text: &mut String, bytes: &[u8]) -> Result<(), Stop> {
    let digest = digest_text(visit.alloc(), &digest_of(bytes))?;
    append_part(
        text,
        format!(in visit.alloc();
            "  SHA-256 of the desk's image of that session, as pots backup-desk writes it: {digest}"
        )?.as_str(),
    )
}

fn append_rows(visit: &Visit, text: &mut String, image: &Image) -> Result<(), Stop> {
    let all = rows(visit, image)?;
    text.push_str("WHERE THE ARCHIVES ARE\n")?;
    for row in all.iter().take(MOST_ROWS) {
        append_row(visit, text, row)?;
    }
    if all.len() > MOST_ROWS {
        text.push_str("  and more: pots place tells of all\n")?;
    }
    text.push_str("\n")?;
    Ok(())
}

fn append_row(visit: &Visit, text: &mut String, row: &Row) -> Result<(), Stop> {
    let named = places_here(&visit.rt)?;
    let place = place_word(visit.alloc(), &named, row.place)?;
    let place = place.as_str();
    let group = row.group;
    let numbers = row.numbers(visit)?;
    let folder = front_of(visit, row.folder.as_str())?;
    let line = format!(in visit.alloc();
        "  place {place}, group {group}: archives {numbers} in {folder}"
    )?;
    append_paragraph(text, line.as_str(), "    ")?;
    Ok(())
}

// The front of a long path.
fn front_of(visit: &Visit, path: &str) -> Result<String, Stop> {
    let mut front = String::new(visit.alloc());
    for letter in path.chars().take(120) {
        front.push(letter)?;
    }
    if path.chars().count() > 120 {
        front.push_str("..")?;
    }
    Ok(front)
}

// What only the keeper can write down.
fn append_blanks(text: &mut String) -> Result<(), Stop> {
    text.push_str("BY HAND\n")?;
    text.push_str("  copies of the desk are at\n")?;
    text.push_str("  ____________________________________________________________\n")?;
    text.push_str("  who keeps the places, and the programs\n")?;
    text.push_str("  ____________________________________________________________\n\n")?;
    Ok(())
}

fn append_disk_dead(text: &mut String, rack: &Rack) -> Result<(), Stop> {
    text.push_str("A DISK IS DEAD, with archive N on it\n")?;
    text.push_str("  mkdir gone; mv archive-N gone\n")?;
    text.push_str("  pots check --without N; pots repair; pots check\n")?;
    text.push_str("  pots place N /mnt/new\n")?;
    append_part(
        text,
        if rack.parity == 1 {
            "  Of each group one archive may be gone. A disk that is only not mounted is to be mounted, and not named by --without."
        } else {
            "  Of each group two archives may be gone. A disk that is only not mounted is to be mounted, and not named by --without."
        },
    )
}

// Where a place has one disk, that is all that a dead disk takes.
fn append_named_gone(text: &mut String) -> Result<(), Stop> {
    text.push_str("A DISK IS DEAD, and so the place NAME is gone\n")?;
    text.push_str("  pots fetch --read-only --all --to ../back\n")?;
    text.push_str("  pots evacuate NAME /mnt/new; pots check\n")?;
    append_part(
        text,
        "  A disk that is mounted in another folder is not dead: pots place NAME FOLDER tells where it is.",
    )
}

fn append_place_gone(visit: &Visit, text: &mut String, rack: &Rack) -> Result<(), Stop> {
    let spare = rack.geometry.shards.saturating_sub(rack.geometry.need);
    text.push_str("A PLACE IS GONE, with archives N,N,.. on its disks\n")?;
    text.push_str("  pots fetch --without N,N,.. --all --to ../back\n")?;
    append_part(
        text,
        format!(in visit.alloc();
            "  While at most {spare} places are gone, the archives of the others give all files. Store them in a new vault, in another folder, or give them new shards with pots renew."
        )?.as_str(),
    )
}

fn append_desk_gone(visit: &Visit, text: &mut String, image: &Image) -> Result<(), Stop> {
    let Rack {
        columns,
        parity,
        stripes,
        ..
    } = image.rack;
    let blur = image.rack.geometry.blur;
    let archives = highest(visit, image)?;
    text.push_str("THE DESK IS GONE (desk.pss)\n")?;
    text.push_str("  With a copy:  pots restore-desk COPY; pots check; pots repair\n")?;
    text.push_str("  Without one, with all archives in a folder as archive-0 and so on:\n")?;
    append_paragraph(
        text,
        format!(in visit.alloc();
            "  pots recover --archives {archives} --stripes {stripes} --columns {columns} --parity {parity} --blur {blur} --to ../found"
        )?.as_str(),
        "    ",
    )?;
    append_part(
        text,
        "  Files that were stored in parts have their names there, others a number: the command file tells what they are.",
    )
}

// One more than the highest number of an archive.
fn highest(visit: &Visit, image: &Image) -> Result<u32, Stop> {
    let mut count = 0u32;
    for row in rows(visit, image)?.iter() {
        count = count.max(row.last.saturating_add(1));
    }
    Ok(count)
}

fn append_no_program(text: &mut String) -> Result<(), Stop> {
    text.push_str("THERE IS NO PROGRAM ANY MORE\n")?;
    append_paragraph(
        text,
        "  docs/FORMATS.md of potshards tells each byte, and tools/reader/potread.py reads a vault with Python alone: keep both at each place. More is told by man potshards-recovery.",
        "  ",
    )?;
    Ok(())
}
