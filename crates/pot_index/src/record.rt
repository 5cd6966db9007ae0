//! What the index keeps of a file.
ghost use Rattle.std.specs.Prelude.{◌≡◌, ◌<◌, length, IfOk, OnOk, OnErr};

use crate::splits::Splits;
use pot_bytes::{Digest, Geometry, Name, NoMemory, Place, Sequence};
use std::alloc::Global;

/// Where the blocks of a split stand, by piece, fragment and point.
pub type Places = Sequence<Place>;

/// How a file was split, and where its blocks stand.
#[derive(Drop)]
pub struct Split {
    pub geometry: Geometry,
    pub places: Places,
}

/// A published file: its name, its length in bytes, its digest, and its splits. A record has 1 to
/// 16 splits.
#[derive(Drop)]
pub struct Record {
    pub name: Name,
    pub length: u64,
    pub digest: Digest,
    /// The geometry of the current split.
    pub geometry: Geometry,
    /// The places of the current split.
    pub places: Places,
    /// The earlier splits, the oldest first.
    pub older: Splits,
}

impl Split {
    /// An equal split.
    pub fn copy(&self, alloc: Global) -> Result<Split, NoMemory>
        ensures { IfOk result (λ s. s ≡ self.now) }
    {
        Ok(Split {
            geometry: self.geometry,
            places: self.places.copy(alloc)?,
        })
    }
}

impl Record {
    ghost use Rattle.pot_index.specs.Records.{renewed};

    /// An equal record.
    pub fn copy(&self, alloc: Global) -> Result<Record, NoMemory>
        ensures { IfOk result (λ r. r ≡ self.now) }
    {
        Ok(Record {
            name: self.name,
            length: self.length,
            digest: self.digest,
            geometry: self.geometry,
            places: self.places.copy(alloc)?,
            older: self.older.copy(alloc)?,
        })
    }

    /// The split becomes the current one, and the old one goes to the end of the older ones. On
    /// refusal the record is as before.
    pub(crate) fn renew(&mut self, split: Split) -> Result<(), NoMemory>
        requires { length self.old.older < 15 }
        ensures ok { OnOk result (self.new ≡ renewed self.old split) }
        ensures err { OnErr result (self.new ≡ self.old) }
    {
        let Split { geometry, places } = split;
        self.older.add(self.geometry, &mut self.places, places)?;
        self.geometry = geometry;
        Ok(())
    }
}
