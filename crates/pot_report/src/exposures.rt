//! What an audit wrote, told file by file, and what it wrote of blocks that stand in no record.

use pot_bytes::Name;
use pot_client::read_part_name;
use std::alloc::{AllocError, Global};
use std::collections::BTreeMap;
use std::str::from_utf8;

/// How much of a file is exposed, over all its parts and splits.
#[derive(Clone, Copy, Debug, PartialEq, Eq)]
pub struct Exposure {
    /// The pieces, those of each split.
    pub pieces: u32,
    /// Those of which as many points of each fragment are exposed as give it back.
    pub bare: u32,
    /// The fewest points that are wanting to give one of them back.
    pub wanting: u8,
}

impl Exposure {
    fn none() -> Exposure {
        Exposure {
            pieces: 0,
            bare: 0,
            wanting: u8::MAX,
        }
    }

    // One piece more, of which so many points are wanting.
    fn add(&mut self, wanting: u8) {
        self.pieces = self.pieces.saturating_add(1);
        if wanting == 0 {
            self.bare = self.bare.saturating_add(1);
        }
        self.wanting = self.wanting.min(wanting);
    }
}

/// An exposed column with blocks that stand in no record.
#[derive(Clone, Copy, Debug, PartialEq, Eq)]
pub struct LooseColumn {
    pub group: u8,
    pub column: u8,
    /// How many of its blocks these are.
    pub blocks: u32,
}

/// What an audit wrote.
#[derive(Drop)]
pub struct Exposures {
    /// How much of each file is exposed, by its name.
    pub files: BTreeMap<Name, Exposure>,
    /// The columns, ascending by group and then by column.
    pub loose: Vec<LooseColumn>,
}

/// What these bytes tell, where they are what an audit writes.
pub fn read_exposures(alloc: Global, bytes: &[u8]) -> Result<Option<Exposures>, AllocError> {
    let mut files = BTreeMap::new(alloc);
    let mut loose = Vec::new(alloc);
    let Ok(text) = from_utf8(bytes) else {
        return Ok(None);
    };
    for line in text.lines() {
        if let Some(column) = read_loose(line) {
            loose.push(column)?;
            continue;
        }
        let Some((name, wanting)) = read_veil(line) else {
            return Ok(None);
        };
        files
            .entry(file_of(name))?
            .or_insert(Exposure::none())
            .add(wanting);
    }
    Ok(Some(Exposures { files, loose }))
}

// The column of a line `loose GROUP COLUMN COUNT`.
fn read_loose(line: &str) -> Option<LooseColumn> {
    let mut words = line.strip_prefix("loose ")?.split(' ');
    let group = words.next()?.parse::<u8>().ok()?;
    let column = words.next()?.parse::<u8>().ok()?;
    let blocks = words.next()?.parse::<u32>().ok()?;
    if words.next().is_some() {
        return None;
    }
    Some(LooseColumn {
        group,
        column,
        blocks,
    })
}

// The name of the file of which this is the name, or that of a part.
fn file_of(name: Name) -> Name {
    match read_part_name(&name) {
        Some((file, _)) => file,
        None => name,
    }
}

// The name in a line `veil NAME SPLIT PIECE FRAGMENT HAVE NEED`, and how many points are wanting.
fn read_veil(line: &str) -> Option<(Name, u8)> {
    let mut words = line.strip_prefix("veil ")?.split(' ');
    let name = Name::read(words.next()?.as_bytes())?;
    let _split = words.next()?.parse::<u8>().ok()?;
    let _piece = words.next()?.parse::<u32>().ok()?;
    let _fragment = words.next()?.parse::<u8>().ok()?;
    let have = words.next()?.parse::<u8>().ok()?;
    let need = words.next()?.parse::<u8>().ok()?;
    if words.next().is_some() {
        return None;
    }
    Some((name, need.saturating_sub(have)))
}
