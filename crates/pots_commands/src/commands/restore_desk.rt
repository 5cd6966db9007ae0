//! `restore-desk`: a copy of the desk is put back.

use crate::words::{command, operand, switch};
use clap::ArgMatches;
use pots_looks::restore;
use pots_vault::{Stop, Visit};
use std::alloc::{AllocError, Global};

/// Its words.
pub fn words<'a>(alloc: Global) -> Result<clap::Command<'a>, AllocError> {
    let about = "Put a copy of the desk back, where the desk is missing or damaged";
    command(alloc, "restore-desk", about)?
        .arg(operand(
            alloc,
            "FILE",
            "A file that pots backup-desk wrote, or a desk-NNNN.bak",
        ))?
        .arg(switch(
            alloc,
            "force",
            "Put it in the place of a sound desk too, which is kept as desk-NNNN.bak",
        ))
}

/// Puts a copy of the desk back.
pub fn work(visit: &mut Visit, words: &ArgMatches) -> Result<u8, Stop> {
    let path = words.get_str("FILE").unwrap_or("");
    restore(visit, path, words.get_flag("force"))?;
    Ok(0)
}
