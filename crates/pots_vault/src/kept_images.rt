//! The last images of the desk, which are kept beside it.

use crate::new_file::put_file;
use crate::numbers::read_number;
use crate::stop::Stop;
use crate::visit::Visit;
use std::fs;

/// How many images of the desk are kept.
const KEPT: usize = 10;

/// Keeps an image of the desk as `desk-NNNN.bak`, by the number of the session that wrote it, and
/// forgets those before the last ten.
pub fn keep_image(visit: &Visit, session: u32, image: &[u8]) -> Result<(), Stop> {
    let rt = &visit.rt;
    let name = kept_name(visit, session)?;
    if put_file(rt, name.as_str(), image, true).is_err() {
        return Err(visit.refuse(
            6,
            "a copy of the desk could not be kept: see that files can be made in this folder and that its disk has room",
        ));
    }
    forget_images(visit, session)
}

fn kept_name(visit: &Visit, session: u32) -> Result<String, Stop> {
    Ok(format!(in visit.alloc(); "desk-{session:04}.bak")?)
}

// Forgets images but for ten: first those of later sessions, from before the desk was put back, and
// then the oldest.
fn forget_images(visit: &Visit, session: u32) -> Result<(), Stop> {
    let mut kept = kept_sessions(visit, session)?;
    kept.sort()?;
    let forgotten = kept.len().saturating_sub(KEPT);
    for (_, old) in kept.iter().take(forgotten) {
        let name = kept_name(visit, *old)?;
        let _ = fs::remove_file(&visit.rt, name.as_str());
    }
    Ok(())
}

// The sessions of the images that are kept, each with whether it is no later than this one. A
// folder that cannot be listed has none.
fn kept_sessions(visit: &Visit, session: u32) -> Result<Vec<(bool, u32)>, Stop> {
    let mut kept = Vec::new(visit.alloc());
    let Ok(folder) = fs::read_dir(&visit.rt, ".") else {
        return Ok(kept);
    };
    for entry in folder {
        let Ok(entry) = entry else {
            continue;
        };
        if let Some(number) = session_of(entry.file_name()) {
            kept.push((number <= session, number))?;
        }
    }
    Ok(kept)
}

// The number in the name of an image that is kept.
fn session_of(name: &str) -> Option<u32> {
    let digits = name.strip_prefix("desk-")?.strip_suffix(".bak")?;
    if digits.len() < 4 {
        return None;
    }
    read_number(digits)
}
