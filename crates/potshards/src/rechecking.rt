//! The word `recheck`: slots that are lost or broken are looked at again by the next session.

use pot_commands::write_out;
use pot_files::{DeskFile, Output};
use pot_outside::Failed;
use pot_recheck::{code_of, recheck, text_of};

/// The exit status where standard output failed.
const SINK_FAULT: u8 = 5;

/// The exit status where memory ran out.
const NO_MEMORY: u8 = 70;

/// Whether these words are `recheck` alone.
pub(crate) fn is_recheck(words: &[String]) -> bool {
    match words {
        [word] => word.as_str() == "recheck",
        _ => false,
    }
}

/// Rechecks the desk of the working folder, writes what came of it, and answers the exit status.
pub(crate) fn recheck_desk(rt: &HostRuntime) -> u8 {
    let mut desk = DeskFile::new(rt);
    let rechecked = recheck(rt.alloc(), &mut desk);
    let Ok(text) = text_of(rt.alloc(), &rechecked) else {
        return NO_MEMORY;
    };
    match write_out(&mut Output::new(rt), &text) {
        Ok(()) => code_of(&rechecked),
        Err(Failed) => SINK_FAULT,
    }
}
