//! The folder of a vault of racks, and the ways into its racks and back.

use pots_racks::{VAULT_FILE, folder_of, is_of_other_version, read_vault, vault_text};
use pots_vault::{Stop, put_file, refuse};
use std::alloc::{AllocError, Global};
use std::io::ErrorKind;
use std::str::from_utf8;
use std::{env, fs};

/// The bytes of the file of a vault that has the most racks.
const LONGEST: u64 = 9_013;

/// A vault of racks.
#[derive(Drop)]
pub struct Home {
    /// The path of its folder, from the root.
    pub folder: String,
    /// How many racks it has.
    pub count: u32,
}

impl Home {
    /// A vault in the working folder that has no rack yet.
    pub fn new(rt: &HostRuntime) -> Result<Home, Stop> {
        match fs::canonicalize(rt, ".") {
            Ok(folder) => Ok(Home {
                folder: folder.into_string(),
                count: 0,
            }),
            Err(_) => Err(refuse(
                rt,
                7,
                "the path of this folder could not be read: see that it is there, and that its path is UTF-8",
            )),
        }
    }

    /// The vault of racks of the working folder. None where that is no such vault, also where it is
    /// one with a desk of its own and has something else of the name `RACKS`.
    ///
    /// # Errors
    /// What is wrong with the file of the vault was said.
    pub fn found(rt: &HostRuntime) -> Result<Option<Home>, Stop> {
        let Some(text) = text_of_vault(rt)? else {
            return Ok(None);
        };
        match (read_vault(rt.alloc(), &text)?, has_desk(rt)) {
            (Some(count), false) => {
                let mut home = Home::new(rt)?;
                home.count = count;
                Ok(Some(home))
            }
            (None, true) => Ok(None),
            (None, false) => Err(unread(rt, &text)),
            (Some(_), true) => Err(refuse(
                rt,
                7,
                "this folder has the file RACKS and a desk of its own, and nothing was done: move one of the two vaults to another folder",
            )),
        }
    }

    /// The path of the folder of a rack.
    pub fn path(&self, alloc: Global, rack: u32) -> Result<String, AllocError> {
        let folder = self.folder.as_str();
        let bytes = folder_of(rack);
        let name = from_utf8(&bytes).unwrap_or("rack-000");
        format!(in alloc; "{folder}/{name}")
    }

    /// A path that the words give, from the root.
    pub fn whole(&self, alloc: Global, path: &str) -> Result<String, AllocError> {
        if path.starts_with('/') {
            return String::from_str(alloc, path);
        }
        let folder = self.folder.as_str();
        format!(in alloc; "{folder}/{path}")
    }

    /// Goes into the folder of a rack.
    ///
    /// # Errors
    /// It could not be entered, which was said, and the program is where it was.
    pub fn enter(&self, rt: &HostRuntime, rack: u32) -> Result<(), Stop> {
        let path = self.path(rt.alloc(), rack)?;
        if env::set_current_dir(rt, path.as_str()).is_ok() {
            return Ok(());
        }
        let line = format!(in rt.alloc();
            "{path} could not be entered: see that the folder of this rack is there, and that its disk is mounted"
        )?;
        Err(refuse(rt, 7, line.as_str()))
    }

    /// Goes back into the folder of the vault.
    pub fn leave(&self, rt: &HostRuntime) -> Result<(), Stop> {
        if env::set_current_dir(rt, self.folder.as_str()).is_ok() {
            return Ok(());
        }
        Err(refuse(
            rt,
            7,
            "the folder of the vault could not be entered any more: see that its disk is mounted, and give the command once more",
        ))
    }

    /// Writes the file that says how many racks the vault has, in the place of the one before.
    pub fn write(&self, rt: &HostRuntime) -> Result<(), Stop> {
        let text = vault_text(rt.alloc(), self.count)?;
        if put_file(rt, VAULT_FILE, &text, true).is_ok() {
            return Ok(());
        }
        Err(refuse(
            rt,
            5,
            "RACKS could not be written, and is as it was: see that this folder may be written and that its disk has room, and give the command once more",
        ))
    }
}

// The bytes of the file of a vault, none of one that cannot be such a file. None where there is
// nothing of its name.
fn text_of_vault(rt: &HostRuntime) -> Result<Option<Vec<u8>>, Stop> {
    match fs::metadata(rt, VAULT_FILE) {
        Ok(found) if found.is_file() && found.len() <= LONGEST => {}
        Err(e) if e.kind() == ErrorKind::NotFound => return Ok(None),
        _ => return Ok(Some(Vec::new(rt.alloc()))),
    }
    match fs::read(rt, VAULT_FILE) {
        Ok(text) => Ok(Some(text)),
        Err(e) if e.kind() == ErrorKind::OutOfMemory => Err(Stop::NoMemory),
        Err(_) => Ok(Some(Vec::new(rt.alloc()))),
    }
}

// The end of a command where the file of the vault is not as it should be.
fn unread(rt: &HostRuntime, text: &[u8]) -> Stop {
    let line = if is_of_other_version(text) {
        "RACKS is of another version of pots, and nothing was done: take the version that made it"
    } else {
        "RACKS is damaged or cannot be read, and nothing was done: write it anew with a line potshards-racks 1, a line for each rack from rack-001 on, and a line end; each rack works by itself, as pots -C rack-001 list"
    };
    refuse(rt, 7, line)
}

/// Whether the working folder has a desk.
pub fn has_desk(rt: &HostRuntime) -> bool {
    let has_new = match fs::metadata(rt, "desk.pss") {
        Ok(desk) => desk.len() > 0,
        Err(_) => false,
    };
    has_new || fs::metadata(rt, "desk.psi").is_ok()
}
