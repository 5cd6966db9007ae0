//! Rings within one archive, which are left out.

use crate::reaching::Reach;
use pot_remnants::{Survey, inside_of};
use pots_vault::{Stop, Visit, named};

/// The slots of each archive that are left out, since their shards lead to shards of that archive
/// alone, or those alone lead to them. Where all are to be read they are told, and none is left
/// out. Answers also whether there are none.
///
/// # Errors
/// Memory ran out.
pub fn hidden_of(
    visit: &Visit,
    survey: &Survey,
    reach: Reach,
    all: bool,
) -> Result<(bool, Vec<Vec<u32>>), Stop> {
    let slots = inside_of(&visit.rt, survey, reach.reading())?;
    let none = tell_inside(visit, &slots, all)?;
    if all {
        return Ok((none, Vec::new(visit.alloc())));
    }
    Ok((none, slots))
}

// Tells of each archive how many of its shards are in doubt. Answers whether none is.
fn tell_inside(visit: &Visit, slots: &[Vec<u32>], all: bool) -> Result<bool, Stop> {
    let rt = &visit.rt;
    let mut none = true;
    for (number, own) in slots.iter().enumerate() {
        let count = own.len();
        if count == 0 {
            continue;
        }
        none = false;
        let text = named(visit, u32::try_from(number).unwrap_or(u32::MAX))?;
        let _ = if all {
            eprintln!(rt;
                "pots: {text}: {count} shards are linked to others of this archive alone, as no store lays them: files of them may be forged"
            )
        } else {
            eprintln!(rt;
                "pots: {text}: {count} shards are left out: they are linked to others of this archive alone, as no store lays them, and may be forged; --all reads them too"
            )
        };
    }
    Ok(none)
}
