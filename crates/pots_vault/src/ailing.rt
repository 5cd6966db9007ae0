//! Which archives are ailing, and which command mends them.

use crate::archives::numbered;
use crate::stop::Stop;
use crate::visit::Visit;
use pot_image::Image;
use pot_report::{Holding, holdings};
use serde_json::json;
use std::alloc::{AllocError, Global};

/// How many blocks are gone, of all archives.
#[derive(Clone, Copy)]
pub struct Gone {
    /// So many are to be mended.
    to_mend: u64,
    /// So many of these are not given back by parity.
    stuck: u64,
    /// So many need no mending, since no file has a block of its current split beside them.
    idle: u64,
}

impl Gone {
    fn none() -> Gone {
        Gone {
            to_mend: 0,
            stuck: 0,
            idle: 0,
        }
    }

    /// Those of these groups, by the desk.
    pub fn in_groups(visit: &Visit, image: &Image, groups: &[u8]) -> Result<Gone, AllocError> {
        let mut gone = Gone::none();
        for holding in holdings(visit.alloc(), image)?.iter() {
            if groups.contains(&holding.group) {
                gone.add(holding);
            }
        }
        Ok(gone)
    }

    fn add(&mut self, holding: &Holding) {
        self.to_mend = self.to_mend.saturating_add(u64::from(holding.to_mend()));
        self.stuck = self.stuck.saturating_add(u64::from(holding.stuck));
        self.idle = self.idle.saturating_add(u64::from(holding.idle));
    }

    /// Tells how many of those that are to be mended are left, and what to do. Answers whether
    /// there are any.
    pub fn tell_left(&self, rt: &HostRuntime) -> bool {
        if self.to_mend > 0 {
            tell_stuck(rt, self.to_mend);
        }
        self.to_mend > 0
    }

    /// Tells of those that need no mending.
    pub fn tell_idle(&self, visit: &Visit) -> Result<(), Stop> {
        let idle = self.idle;
        if idle == 0 {
            Ok(())
        } else if visit.json {
            let line = json!(in visit.alloc(); {"idle": idle})?;
            let line = line.to_string(visit.alloc())?;
            println!(visit; "{line}")
        } else {
            println!(visit;
                "{idle} of the blocks that are gone are of no file any more, or of a split from before pots renew: they need no mending"
            )
        }
    }
}

/// Tells which archives have lost blocks and what to do, and answers whether there is one.
pub fn tell_ailing(visit: &Visit, image: &Image) -> Result<bool, Stop> {
    let mut gone = Gone::none();
    for holding in holdings(visit.alloc(), image)?.iter() {
        gone.add(holding);
        if holding.to_mend() > 0 {
            tell_one(visit, holding)?;
        }
    }
    gone.tell_idle(visit)?;
    if gone.stuck > 0 {
        tell_stuck(&visit.rt, gone.stuck);
    }
    if gone.to_mend == 0 && !visit.json {
        tell_whole(visit, &gone)?;
    }
    Ok(gone.to_mend > 0)
}

fn tell_one(visit: &Visit, holding: &Holding) -> Result<(), Stop> {
    let rt = &visit.rt;
    let archive = holding.archive;
    let name = numbered(visit, archive)?;
    let mend = what_mends(visit.alloc(), holding)?;
    let gone = holding.gone();
    let to_mend = holding.to_mend();
    if holding.live == 0 {
        let _ = eprintln!(rt;
            "pots: {name} is ailing: all its {gone} blocks are gone; if its disk is dead, bring a new archive to another disk with pots place NEW FOLDER, put it in its place with pots replace {archive} NEW, and then {mend}"
        );
    } else {
        let _ = eprintln!(rt; "pots: {name} is ailing: {to_mend} of its blocks are gone; {mend}");
    }
    Ok(())
}

/// What to do about the blocks of an archive that are gone, as far as parity gives them back.
pub(crate) fn what_mends(alloc: Global, holding: &Holding) -> Result<String, AllocError> {
    let Holding { group, stuck, .. } = *holding;
    if stuck == 0 {
        format!(in alloc; "mend with pots repair {group}")
    } else if stuck < holding.to_mend() {
        format!(in alloc; "mend all but {stuck} with pots repair {group}")
    } else {
        String::from_str(
            alloc,
            "renew what they are of with pots renew, since parity gives none of them back",
        )
    }
}

// Tells how many blocks parity does not give back, and what to do.
fn tell_stuck(rt: &HostRuntime, blocks: u64) {
    let _ = eprintln!(rt;
        "pots: {blocks} blocks are not given back by parity: pots fetch --all --to FOLDER while the other places have every file, and pots renew for each that it gives; where archives are only not mounted, mount them, and what they hold is found again"
    );
}

// Tells that nothing is to be mended.
fn tell_whole(visit: &Visit, gone: &Gone) -> Result<(), Stop> {
    if gone.idle == 0 {
        println!(visit; "all blocks are there")
    } else {
        println!(visit; "all other blocks are there")
    }
}
