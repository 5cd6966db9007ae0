//! Files by their names, with the replies that a session would give.

use crate::mounted::Mounted;
use crate::reading::{ReadFault, read_file};
use pot_bytes::{Bytes, Name};
use pot_image::Image;
use pot_script::Reply;
use pots_vault::{Stop, Visit, image, ranges_text};

/// Reads these files over what is mounted, and answers what a session would reply to a fetch of
/// each. Where one is refused, it tells which archives are not here.
pub fn read_files(visit: &mut Visit, names: &[Name]) -> Result<Vec<Reply>, Stop> {
    let image = image(visit)?;
    let mounted = Mounted::open(visit, &image)?;
    let mut replies = Vec::new(visit.alloc());
    let mut is_refused = false;
    for name in names {
        let reply = reply_of(visit, &mounted, &image, name)?;
        is_refused = is_refused || reply.is_refusal();
        replies.push(reply)?;
    }
    if is_refused {
        tell_away(visit, &mounted)?;
    }
    Ok(replies)
}

fn reply_of(visit: &Visit, mounted: &Mounted, image: &Image, name: &Name) -> Result<Reply, Stop> {
    let name = *name;
    let Some(record) = image.records.iter().find(|record| record.name == name) else {
        return Ok(Reply::Absent { name });
    };
    match read_file(visit.alloc(), mounted, &image.tables, record) {
        Ok(bytes) => Ok(Reply::File {
            name,
            bytes: Bytes::from_vec(bytes),
        }),
        Err(ReadFault::NoMemory) => Err(Stop::NoMemory),
        Err(ReadFault::Odd { found }) => Ok(Reply::Odd {
            name,
            wanted: record.digest,
            found,
        }),
        Err(
            ReadFault::Lost {
                piece,
                fragment,
                have,
                need,
            },
        ) => Ok(Reply::Lost {
            name,
            piece,
            fragment,
            have,
            need,
        }),
    }
}

// Tells which archives are not here.
fn tell_away(visit: &Visit, mounted: &Mounted) -> Result<(), Stop> {
    if mounted.away().is_empty() {
        return Ok(());
    }
    let rt = &visit.rt;
    let list = ranges_text(visit.alloc(), mounted.away())?;
    let list = list.as_str();
    let _ = eprintln!(rt; "pots: archives {list} are not here: mount the disks of more places");
    Ok(())
}
