//! The real objects of a session: archives, desk and streams in files of the working folder, and a
//! seed.
//!
//! Nothing is decided here. The real objects stand on the C library, and no clause speaks of what a
//! file or a stream holds, so they tell no contents.
//!
//! Invariants, each kept by the type that it names:
//! 1. each count of faults (`Input`, `Output`, `FileArchive`, `FileDisk`, `Folder`, `DeskFile`)
//!    begins at 0, never falls, and rises in each call that answers `Failed`;
//! 2. a `Folder` keeps the numbers of the archives that are out, and an archive is handed out once
//!    until it is given back;
//! 3. no archive file has the number of a standard stream (`FileArchive`), nor the desk's
//!    (`FileDisk`), and no other file is opened under one (`open_apart`), so that a stream that was
//!    closed at the start is no file of ours;
//! 4. a `DeskFile` reads and writes under its lock alone, which it keeps.
#![tactic(auto)]

mod advice;
mod archive;
mod archive_file;
mod desk;
#[cfg(test)]
mod desk_tests;
mod disk;
mod faults;
mod folder;
mod gate;
mod limit;
mod opening;
mod progress;
mod seed;
mod streams;
#[cfg(test)]
mod tests;
mod voice;

pub use advice::advice_at;
pub use archive::FileArchive;
pub use archive_file::{Shut, open_archive_file};
pub use desk::DeskFile;
pub use folder::Folder;
pub use gate::NoGate;
pub use limit::longest_file;
pub use opening::{open_apart, read_file};
pub use seed::drawn;
pub use streams::{Input, Output};
