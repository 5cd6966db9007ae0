//! A visit to an archive: its folder, its desk under its lock, and how things are told.

use crate::numbers::{MOST_ARCHIVES, read_number, read_numbers};
use crate::stop::{Stop, UNREAD, refuse};
use crate::unread::unread_line;
use pot_files::DeskFile;
use pot_report::{reply_json, reply_line};
use pot_script::Reply;
use serde_json::json;
use std::alloc::Global;
use std::cell::Cell;
use std::fmt::Display;
use std::io;

/// A visit to the archive of the working folder.
#[derive(Drop)]
pub struct Visit {
    pub rt: HostRuntime,
    pub desk: DeskFile,
    /// Whether what comes of it is told as lines of JSON.
    pub json: bool,
    /// Whether nothing is printed on standard output.
    pub quiet: bool,
    /// Whether files are read over what is mounted, and no session is held.
    pub read_only: bool,
    /// The archives that a session is held without.
    pub without: Vec<u32>,
    /// Whether the desk's image was kept already, as it was before the first session.
    pub kept: bool,
    /// Whether something was printed that nobody reads any more.
    unread: Cell<bool>,
}

impl Visit {
    /// A visit that tells in JSON or in plain lines, without the archives that a text lists.
    pub fn begin(rt: &HostRuntime, json: bool, without: Option<&str>) -> Result<Visit, Stop> {
        let without = match without {
            Some(text) => listed_archives(rt, text)?,
            None => Vec::new(rt.alloc()),
        };
        Ok(Visit {
            rt: *rt,
            desk: DeskFile::new(rt),
            json,
            quiet: false,
            read_only: false,
            without,
            kept: false,
            unread: Cell::new(false),
        })
    }

    /// What memory is taken from.
    pub fn alloc(&self) -> Global {
        self.rt.alloc()
    }

    /// Ends the command with a line that says what failed and what to do next.
    pub fn refuse(&self, status: u8, line: &str) -> Stop {
        refuse(&self.rt, status, line)
    }

    /// Prints a line. Where nobody reads standard output any more the command goes on to its end.
    pub fn println<D: Display + Drop>(&self, line: D) -> Result<(), Stop> {
        if self.quiet {
            return Ok(());
        }
        self.printed(self.rt.println(line))
    }

    /// Prints a text as it is. Where nobody reads standard output any more the command goes on to
    /// its end.
    pub fn print<D: Display + Drop>(&self, text: D) -> Result<(), Stop> {
        if self.quiet {
            return Ok(());
        }
        self.printed(self.rt.print(text))
    }

    fn printed(&self, done: io::Result<()>) -> Result<(), Stop> {
        match done {
            Ok(()) => Ok(()),
            Err(e) if e.kind() == io::ErrorKind::BrokenPipe => {
                self.unread.set(true);
                Ok(())
            }
            Err(_) => Err(Stop::Output),
        }
    }

    /// The exit status of a command that came to this one. Where all went well but nobody read what
    /// was printed, it is another.
    pub fn status(&self, status: u8) -> u8 {
        if status == 0 && self.unread.get() {
            UNREAD
        } else {
            status
        }
    }

    /// Tells what was done, in a word, to the file of a path.
    pub fn tell_file(&self, word: &str, path: &str) -> Result<(), Stop> {
        if self.json {
            let line = json!(in self.alloc(); {"did": word, "path": path})?;
            let line = line.to_string(self.alloc())?;
            println!(self; "{line}")
        } else {
            println!(self; "{word} {path}")
        }
    }

    /// Tells a reply, and answers whether it is a refusal.
    pub fn tell(&self, reply: &Reply) -> Result<bool, Stop> {
        let refused = reply.is_refusal();
        if self.json {
            let line = reply_json(self.alloc(), reply)?;
            println!(self; "{line}")?;
        }
        if refused && (!self.json || self.unread.get()) {
            let rt = &self.rt;
            let line = if self.read_only {
                unread_line(self.alloc(), reply)?
            } else {
                reply_line(self.alloc(), reply)?
            };
            let _ = eprintln!(rt; "pots: {line}");
        } else if !self.json {
            let line = reply_line(self.alloc(), reply)?;
            println!(self; "{line}")?;
        }
        Ok(refused)
    }

    /// Tells replies, and answers 1 where one of them is a refusal, and else 0.
    pub fn tell_all(&self, replies: &[Reply]) -> Result<u8, Stop> {
        let mut status = 0;
        for reply in replies {
            if self.tell(reply)? {
                status = 1;
            }
        }
        Ok(status)
    }
}

/// The archives that a word lists.
pub fn listed_archives(rt: &HostRuntime, text: &str) -> Result<Vec<u32>, Stop> {
    match read_numbers(rt.alloc(), text, MOST_ARCHIVES)? {
        Some(numbers) => Ok(numbers),
        None => Err(refuse(
            rt,
            2,
            "archives are given by their numbers from 0 to 511, as 4,5 or 0-3",
        )),
    }
}

/// The number that a text gives for an option of this name, where there is a text.
pub fn number_in(visit: &Visit, name: &str, text: Option<&str>) -> Result<Option<u32>, Stop> {
    let Some(text) = text else {
        return Ok(None);
    };
    if let Some(number) = read_number(text) {
        return Ok(Some(number));
    }
    let line = format!(in visit.alloc(); "--{name} takes a number, and not {text}")?;
    Err(visit.refuse(2, line.as_str()))
}
