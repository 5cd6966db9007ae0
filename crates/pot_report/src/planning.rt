//! The shape of a new archive, chosen from what people know, and what follows from it.

use crate::leaving::PIECE;
use crate::sizes::Size;
use pot_bytes::{Geometry, Rack};
use std::alloc::{AllocError, Global};
use std::fmt;

/// What is asked of a new archive.
#[derive(Clone, Copy, Debug, PartialEq, Eq)]
pub struct Wish {
    /// At how many places archives are kept.
    pub sites: u8,
    /// How many of these places may vanish.
    pub survive: u8,
    /// How many bytes of files are to be kept.
    pub room: u64,
}

/// Why no archive has what is asked of it.
#[derive(Clone, Copy, Debug, PartialEq, Eq)]
pub enum Unplanned {
    /// There are fewer than two places, or more than sixteen.
    Sites,
    /// So many places may vanish that one of those that are left would see the files.
    Survive,
    /// There is more to be kept than an archive of this form has room for, which is so many bytes.
    Room { most: u64 },
    /// The numbers are no rack's.
    Rack,
}

impl fmt::Display for Unplanned {
    fn fmt<W: fmt::Write>(&self, f: &mut fmt::Formatter<W>) -> fmt::Result {
        match self {
            Unplanned::Sites => write!(f, "an archive has 2 to 16 places: give --sites so many"),
            Unplanned::Survive => write!(
                f,
                "where so many places may vanish one of the others sees all files: give --survive a number that is at least 2 below --sites"
            ),
            Unplanned::Room { most } => {
                let most = Size(*most);
                write!(
                    f,
                    "an archive of this form has room for {most}: give --room no more, and keep the rest in a second one"
                )
            }
            Unplanned::Rack => write!(
                f,
                "no archive has these numbers: see pots help init for the limits of each"
            ),
        }
    }
}

/// A new archive's shape.
#[derive(Clone, Copy, Debug, PartialEq, Eq)]
pub struct Plan {
    pub rack: Rack,
}

/// The fragments of a piece where nobody asks for more.
const FRAGMENTS: u8 = 2;

/// The most groups of an archive.
const MOST_GROUPS: u8 = 16;

/// The most stripes of a group.
const MOST_STRIPES: u64 = 4096;

/// The bits that a pointer leaves out where nobody asks for another number.
const BLUR: u8 = 16;

// How many groups, data columns and stripes have room for so many blocks of a place: first more
// groups at each place, up to 16 in all, and then more columns than three.
fn shape_for(sites: u8, blocks: u64) -> Option<(u8, u8, u32)> {
    for columns in 3u8..=16 {
        for groups in 1u8..=MOST_GROUPS {
            let all = groups.checked_mul(sites)?;
            if all > MOST_GROUPS {
                break;
            }
            let slots = u64::from(groups) * u64::from(columns);
            let stripes = blocks.div_ceil(slots.max(1)).max(1);
            if stripes <= MOST_STRIPES {
                return Some((all, columns, u32::try_from(stripes).ok()?));
            }
        }
    }
    None
}

impl Wish {
    /// The shape that has what is asked.
    pub fn plan(self) -> Result<Plan, Unplanned> {
        if self.sites < 2 || self.sites > 16 {
            return Err(Unplanned::Sites);
        }
        let need = self.sites.saturating_sub(self.survive);
        if need < 2 {
            return Err(Unplanned::Survive);
        }
        let blocks = self
            .room
            .div_ceil(PIECE)
            .saturating_mul(u64::from(FRAGMENTS));
        let Some((groups, columns, stripes)) = shape_for(self.sites, blocks) else {
            let groups = u64::from(MOST_GROUPS / self.sites.max(1));
            let most = MOST_STRIPES * 16 * groups / u64::from(FRAGMENTS) * PIECE;
            return Err(Unplanned::Room { most });
        };
        let geometry = Geometry {
            fragments: FRAGMENTS,
            need,
            shards: self.sites,
            blur: BLUR,
        };
        Plan::of(Rack {
            groups,
            columns,
            parity: 1,
            stripes,
            geometry,
        })
    }
}

impl Plan {
    /// The shape with these numbers.
    pub fn of(rack: Rack) -> Result<Plan, Unplanned> {
        if rack.fits() {
            Ok(Plan { rack })
        } else {
            Err(Unplanned::Rack)
        }
    }

    // How many archives a group has.
    fn width(&self) -> u64 {
        u64::from(self.rack.columns) + u64::from(self.rack.parity)
    }

    // How many archives there are.
    fn count(&self) -> u64 {
        self.width().saturating_mul(u64::from(self.rack.groups))
    }

    // How many bytes all archives have where they are full.
    fn whole(&self) -> u64 {
        self.count().saturating_mul(self.archive_size())
    }

    // How many bytes an archive has where it is full.
    fn archive_size(&self) -> u64 {
        u64::from(self.rack.stripes) * 1025
    }

    // How many pieces there is room for.
    fn pieces(&self) -> u64 {
        let rack = &self.rack;
        let columns = u64::from(rack.groups) * u64::from(rack.columns);
        let blocks = columns.saturating_mul(u64::from(rack.stripes));
        let each = u64::from(rack.geometry.fragments) * u64::from(rack.geometry.shards);
        blocks / each.max(1)
    }

    /// What follows from the shape, in lines.
    pub fn text(&self, alloc: Global) -> Result<String, AllocError> {
        let mut text = self.losses(alloc)?;
        text.push_str(self.sizes(alloc)?.as_str())?;
        for place in 0..places_of(&self.rack) {
            text.push_str(self.place(alloc, place)?.as_str())?;
        }
        Ok(text)
    }

    // What the archive bears, and who sees nothing.
    fn losses(&self, alloc: Global) -> Result<String, AllocError> {
        let places = places_of(&self.rack);
        let need = self.rack.geometry.need;
        let spare = self.rack.geometry.shards.saturating_sub(need);
        format!(in alloc;
            "places: {places}; files come back with {spare} of them gone, and with no more\nwho has the data archives of {need} places has the files; who has those of fewer learns their lengths and nothing else\n"
        )
    }

    // What it has room for, and what it takes.
    fn sizes(&self, alloc: Global) -> Result<String, AllocError> {
        let width = self.width();
        let count = self.count();
        let parity = self.rack.parity;
        let groups = self.rack.groups;
        let each = Size(self.archive_size());
        let files = self.pieces().saturating_mul(PIECE);
        let room = Size(files);
        let tenths = self.whole().saturating_mul(10).saturating_add(files / 2) / files.max(1);
        let whole = tenths / 10;
        let tenth = tenths % 10;
        format!(in alloc;
            "archives: {count} of up to {each}, in {groups} groups of {width}; of a group {parity} may be lost at a time and is mended, so give those of a group disks of their own\nroom: {room} of files; a byte of file takes {whole}.{tenth} bytes, and a file at least two pieces of 864 bytes, its own and its list's\n"
        )
    }

    // Which archives belong at a place.
    fn place(&self, alloc: Global, place: u8) -> Result<String, AllocError> {
        let width = self.width();
        let mut line = format!(in alloc; "place {place}: archives")?;
        for group in 0..self.rack.groups {
            if place_of(&self.rack, group) == place {
                let first = u64::from(group).saturating_mul(width);
                let last = first.saturating_add(width).saturating_sub(1);
                line.push_str(format!(in alloc; " {first}-{last}")?.as_str())?;
            }
        }
        line.push_str("\n")?;
        Ok(line)
    }
}

/// How many places an archive has: one for each shard, where as many groups are at each, and else
/// one for each group.
pub fn places_of(rack: &Rack) -> u8 {
    let shards = rack.geometry.shards;
    if shards > 0 && rack.groups % shards == 0 {
        shards
    } else {
        rack.groups
    }
}

/// The place of a group. Shards of one fragment stand in groups one after another, and so at
/// different places.
pub fn place_of(rack: &Rack, group: u8) -> u8 {
    group % places_of(rack).max(1)
}
