//! The shape of an archive: how files are split, how many groups there are, and where a block
//! stands.
ghost use Rattle.std.specs.Prelude.{◌↔◌, IsTrue};
ghost use Rattle.pot_bytes.specs.Rack.{FitsIn, IsRack};

/// The most entries that the log of a group, or of the index, has in one session.
pub const LOG_BOUND: usize = 262_144;

/// How a file is split.
#[derive(Clone, Copy, Debug, PartialEq, Eq)]
pub struct Geometry {
    /// The number of fragments of an object.
    pub fragments: u8,
    /// How many shards give a fragment back.
    pub need: u8,
    /// The number of shards of a fragment.
    pub shards: u8,
    /// The number of low bits that a pointer leaves out.
    pub blur: u8,
}

/// The groups of an archive, and how files are split over them.
#[derive(Clone, Copy, Debug, PartialEq, Eq)]
pub struct Rack {
    /// The number of groups.
    pub groups: u8,
    /// The number of data columns of a group.
    pub columns: u8,
    /// The number of parity columns of a group.
    pub parity: u8,
    /// The number of stripes of a group.
    pub stripes: u32,
    /// How files are split.
    pub geometry: Geometry,
}

/// Where a block stands: a slot of a group.
#[derive(Clone, Copy, Debug, PartialEq, Eq)]
pub struct Place {
    /// The number of the group.
    pub group: u8,
    /// The column of the group.
    pub column: u8,
    /// The stripe of the group.
    pub stripe: u32,
}

impl Geometry {
    /// Whether files may be split so over this many groups: 2 to 8 fragments, a threshold of at
    /// least 1 and at most the number of shards, at most 16 shards and at most as many as groups,
    /// and a blur of at most 63.
    pub fn fits(&self, groups: u8) -> bool
        ensures { IsTrue result ↔ FitsIn groups self.now }
    {
        2 <= self.fragments
            && self.fragments <= 8
            && 1 <= self.need
            && self.need <= self.shards
            && self.shards <= 16
            && self.blur <= 63
            && self.shards <= groups
    }
}

impl Rack {
    /// Whether the rack is within the limits: 2 to 8 fragments, a threshold of at least 1 and at
    /// most the number of shards, at most 16 shards, at least as many groups as shards and at most
    /// 16, 1 to 16 data columns, one or two parity columns, 1 to 4,096 stripes, and a blur of at
    /// most 63.
    pub fn fits(&self) -> bool
        ensures { IsTrue result ↔ IsRack self.now }
    {
        self.geometry.fits(self.groups)
            && self.groups <= 16
            && 1 <= self.columns
            && self.columns <= 16
            && 1 <= self.parity
            && self.parity <= 2
            && 1 <= self.stripes
            && self.stripes <= 4096
    }
}

#[cfg(test)]
mod tests {
    use super::*;
    use std::test::Fail;

    #[test]
    fn racks(rt: HostRuntime) -> Result<(), Fail> {
        let geometry = Geometry {
            fragments: 2,
            need: 2,
            shards: 3,
            blur: 16,
        };
        assert!(rt; geometry.fits(3));
        assert!(rt; !geometry.fits(2));
        assert!(rt;
            !Geometry {
                fragments: 9,
                ..geometry
            }
            .fits(16)
        );
        let rack = Rack {
            groups: 3,
            columns: 3,
            parity: 1,
            stripes: 16,
            geometry,
        };
        assert!(rt; rack.fits());
        assert!(rt; !Rack { groups: 2, ..rack }.fits());
        assert!(rt; !Rack { parity: 3, ..rack }.fits());
        Ok(())
    }
}
