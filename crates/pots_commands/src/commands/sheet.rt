//! `sheet`: an emergency sheet to print.

use crate::commands::backup_desk::put_text;
use crate::words::{command, operand, switch};
use clap::ArgMatches;
use pots_looks::sheet_text;
use pots_vault::{Stop, Visit};
use std::alloc::{AllocError, Global};

/// Its words.
pub fn words<'a>(alloc: Global) -> Result<clap::Command<'a>, AllocError> {
    let about = "Write a sheet to print, with what is to be known of the archive in an emergency";
    command(alloc, "sheet", about)?
        .arg(operand(alloc, "FILE", "The file to write"))?
        .arg(switch(alloc, "force", "Write over a file that is there"))
}

/// Writes the emergency sheet.
pub fn work(visit: &mut Visit, words: &ArgMatches) -> Result<u8, Stop> {
    let text = sheet_text(visit)?;
    put_text(visit, words, text.as_str())
}
