//! Where fetched files are written to.

use crate::new_file::NewFile;
use crate::stop::Stop;
use crate::visit::Visit;
use pot_bytes::Name;
use pot_report::name_text;
use std::fs;
use std::io::ErrorKind;

/// Where files are written to.
#[derive(Drop)]
pub struct Goal {
    folder: String,
    may_replace: bool,
    /// Whether the folder is that of the archive.
    own: bool,
}

impl Goal {
    /// The folder of this path, which is made where it is missing.
    pub fn of(visit: &Visit, folder: &str, may_replace: bool) -> Result<Goal, Stop> {
        let rt = &visit.rt;
        make_folder(visit, folder)?;
        let own = match (fs::canonicalize(rt, folder), fs::canonicalize(rt, ".")) {
            (Ok(folder), Ok(here)) => folder.as_str() == here.as_str(),
            _ => true,
        };
        Ok(Goal {
            folder: String::from_str(visit.alloc(), folder)?,
            may_replace,
            own,
        })
    }

    /// Whether a file may be written under this name. Where it may not, what to do is said.
    pub fn may_write(&self, visit: &Visit, name: &Name) -> Result<bool, Stop> {
        let rt = &visit.rt;
        let text = name_text(name);
        if self.own && is_of_archive(text) {
            let _ = eprintln!(rt;
                "pots: {text} is a name of the archive's own files: fetch it into another folder with --to"
            );
            return Ok(false);
        }
        if self.may_replace {
            return Ok(true);
        }
        let path = self.path(visit, name)?;
        match fs::symlink_metadata(rt, path.as_str()) {
            Err(e) if e.kind() == ErrorKind::NotFound => Ok(true),
            _ => {
                let _ = eprintln!(rt;
                    "pots: {path} is there, and stays as it is: give --force to write over it, or another folder with --to"
                );
                Ok(false)
            }
        }
    }

    fn path(&self, visit: &Visit, name: &Name) -> Result<String, Stop> {
        let folder = self.folder.as_str();
        let text = name_text(name);
        Ok(format!(in visit.alloc(); "{folder}/{text}")?)
    }

    /// Begins a file that gets this name once it is whole. None where it could not be made, which
    /// is told.
    pub fn begin(&self, visit: &Visit, name: &Name) -> Result<Option<NewFile>, Stop> {
        let path = self.path(visit, name)?;
        match NewFile::begin(&visit.rt, path.as_str()) {
            Ok(file) => Ok(Some(file)),
            Err(_) => {
                self.tell_unwritten(visit, name)?;
                Ok(None)
            }
        }
    }

    /// Writes bytes behind those that a file has. None where they could not be written, which is
    /// told: then the file is taken away.
    pub fn append(
        &self,
        visit: &Visit,
        name: &Name,
        mut file: NewFile,
        bytes: &[u8],
    ) -> Result<Option<NewFile>, Stop> {
        if file.append(bytes).is_ok() {
            return Ok(Some(file));
        }
        file.abandon(&visit.rt);
        self.tell_unwritten(visit, name)?;
        Ok(None)
    }

    /// Gives a whole file its name, and tells it. Answers whether it is there.
    pub fn settle(&self, visit: &Visit, name: &Name, file: NewFile) -> Result<bool, Stop> {
        if file.settle(&visit.rt, self.may_replace).is_err() {
            self.tell_unwritten(visit, name)?;
            return Ok(false);
        }
        let path = self.path(visit, name)?;
        visit.tell_file("fetched", path.as_str())?;
        Ok(true)
    }

    /// Writes a file under its name. Answers whether it is there.
    pub fn write(&self, visit: &Visit, name: &Name, bytes: &[u8]) -> Result<bool, Stop> {
        let Some(file) = self.begin(visit, name)? else {
            return Ok(false);
        };
        match self.append(visit, name, file, bytes)? {
            Some(file) => self.settle(visit, name, file),
            None => Ok(false),
        }
    }

    fn tell_unwritten(&self, visit: &Visit, name: &Name) -> Result<(), Stop> {
        let rt = &visit.rt;
        let path = self.path(visit, name)?;
        let _ = eprintln!(rt;
            "pots: {path} could not be written: see that its disk has room, the folder may be written, and ulimit -f lets it be so long"
        );
        Ok(())
    }
}

/// Makes a folder that files are to be written to, where it is missing.
///
/// # Errors
/// Why it could not be made was said.
pub fn make_folder(visit: &Visit, folder: &str) -> Result<(), Stop> {
    if fs::create_dir_all(&visit.rt, folder).is_ok() {
        return Ok(());
    }
    let line = match fs::metadata(&visit.rt, folder) {
        Ok(_) => format!(in visit.alloc();
            "{folder} is a file: give a folder, or a name that nothing has yet"
        )?,
        Err(_) => format!(in visit.alloc();
            "the folder {folder} could not be made: see that its disk has room and may be written"
        )?,
    };
    Err(visit.refuse(5, line.as_str()))
}

// Whether the archive may have a file of this name.
fn is_of_archive(text: &str) -> bool {
    text.starts_with("archive-") || text.starts_with("desk")
}
