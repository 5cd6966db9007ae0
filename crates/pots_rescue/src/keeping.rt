//! The parity of the stripes that are being filled is kept over a session.

use crate::bringing::{Brought, bring};
use crate::opening::open_both;
use crate::parity::{ParitySlot, parity_slots};
use pot_image::Image;
use pot_outside::Failed;
use pots_vault::{Stop, Visit, named};

/// Copies the parity blocks of the stripes at the cursors, of which each archive then keeps its own
/// behind all stripes, and brings these copies to the disk. A slot that the desk does not call Live
/// is passed over: no session puts into its stripe. So is an archive that cannot be opened to be
/// read and written: no session writes to it.
///
/// # Errors
/// An archive that cannot keep its block is named. No session has begun.
pub fn keep_parity(visit: &Visit, image: &Image) -> Result<(), Stop> {
    for slot in parity_slots(visit.alloc(), image)?.iter() {
        if slot.live && keep_one(visit, slot)?.is_err() {
            return Err(not_kept(visit, slot.archive)?);
        }
    }
    Ok(())
}

/// Puts the parity blocks back that were kept, where a parity slot holds no block of the desk's
/// digest and the slot behind all stripes holds one. Tells how many, and which could not be.
pub fn put_parity_back(visit: &Visit, image: &Image) -> Result<(), Stop> {
    let mut count = 0u32;
    for slot in parity_slots(visit.alloc(), image)?.iter() {
        match put_one_back(visit, slot)? {
            Ok(Brought::Copied) => count = count.saturating_add(1),
            Ok(Brought::There) | Ok(Brought::Nowhere) => {}
            Err(Failed) => tell_not_put(visit, slot.archive)?,
        }
    }
    if count > 0 {
        let rt = &visit.rt;
        let _ = eprintln!(rt;
            "pots: {count} parity blocks were put back as they were before a session that was stopped"
        );
    }
    Ok(())
}

// Copies the block of a parity slot into the slot behind all stripes.
fn keep_one(visit: &Visit, slot: &ParitySlot) -> Result<Result<(), Failed>, Stop> {
    let Some((mut blocks, mut kept)) = open_both(visit, slot.archive)? else {
        return Ok(Ok(()));
    };
    let brought = bring(slot.digest, &mut blocks, slot.stripe, &mut kept, slot.spare);
    match brought {
        Ok(Brought::There) | Ok(Brought::Copied) => Ok(kept.sync()),
        Ok(Brought::Nowhere) => Ok(Ok(())),
        Err(Failed) => Ok(Err(Failed)),
    }
}

// Copies the block of the slot behind all stripes into the parity slot.
fn put_one_back(visit: &Visit, slot: &ParitySlot) -> Result<Result<Brought, Failed>, Stop> {
    let Some((mut blocks, mut kept)) = open_both(visit, slot.archive)? else {
        return Ok(Ok(Brought::Nowhere));
    };
    let brought = bring(slot.digest, &mut kept, slot.spare, &mut blocks, slot.stripe);
    match brought {
        Ok(Brought::Copied) => match blocks.sync() {
            Ok(()) => Ok(Ok(Brought::Copied)),
            Err(Failed) => Ok(Err(Failed)),
        },
        other => Ok(other),
    }
}

// The end of the command where an archive cannot keep its parity block.
fn not_kept(visit: &Visit, number: u32) -> Result<Stop, Stop> {
    let name = named(visit, number)?;
    let line = format!(in visit.alloc();
        "{name}: its parity could not be copied before the session, and nothing was written: see that its disk can be read and written and has room; where a block of it cannot be read, pots check notes that"
    )?;
    Ok(visit.refuse(8, line.as_str()))
}

fn tell_not_put(visit: &Visit, number: u32) -> Result<(), Stop> {
    let rt = &visit.rt;
    let name = named(visit, number)?;
    let _ = eprintln!(rt; "pots: {name}: a parity block that was kept could not be put back");
    Ok(())
}
