//! Standard input, as a file that is to be stored.

use pots_vault::{Stop, Visit};
use std::io::{ErrorKind, Read};

/// The bytes of standard input to its end, which are held in memory.
pub fn read_input(visit: &Visit) -> Result<Vec<u8>, Stop> {
    let mut bytes = Vec::new(visit.alloc());
    match visit.rt.stdin().read_to_end(&mut bytes) {
        Ok(_) => Ok(bytes),
        Err(e) if e.kind() == ErrorKind::OutOfMemory => Err(Stop::NoMemory),
        Err(_) => Err(visit.refuse(
            4,
            "standard input could not be read to its end, and nothing was stored",
        )),
    }
}
