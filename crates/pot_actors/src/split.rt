//! A split under way, and what was read at a place.
ghost use Rattle.std.specs.Prelude.{◌≡◌, IfOk};
ghost use Rattle.pot_world.specs.World.{renewal_begun, store_begun};
ghost use Rattle.pot_actors.specs.Splits.{under_way_of};

use pot_bytes::{Block, Bytes, Geometry, Name, NoMemory, Place};
use std::alloc::Global;
use std::marker::Model;

/// A block that was read at a place.
#[derive(Clone, Copy)]
pub(crate) struct Reading {
    pub(crate) place: Place,
    pub(crate) block: Block,
}

impl Model for Reading {
    ghost use Rattle.pot_world.specs.World.{Gathered};

    ghost Value = { Gathered };

    ghost view = { λ x. record { place = x.place; block = x.block } };

    ghost inverse = { λ v. record { place = v.place; block = v.block } };
}

/// A store, or the renewal of a published file, with the places of the blocks put so far.
#[derive(Drop)]
pub(crate) struct OpenSplit {
    pub(crate) name: Name,
    pub(crate) file: Bytes,
    pub(crate) geometry: Geometry,
    pub(crate) random: Bytes,
    pub(crate) renews: bool,
    pub(crate) places: Vec<Place>,
}

impl OpenSplit {
    /// A store of which no block was put.
    pub(crate) fn store(
        alloc: Global,
        name: &Name,
        file: &Bytes,
        geometry: Geometry,
        random: &Bytes,
    ) -> Result<OpenSplit, NoMemory>
        ensures { IfOk result
            (λ u. under_way_of u ≡ store_begun name.now file.now geometry random.now) }
    {
        Ok(OpenSplit {
            name: *name,
            file: file.copy(alloc)?,
            geometry,
            random: random.copy(alloc)?,
            renews: false,
            places: Vec::new(alloc),
        })
    }

    /// A renewal of which no block was put.
    pub(crate) fn renewal(
        alloc: Global,
        name: &Name,
        file: &Bytes,
        geometry: Geometry,
        random: &Bytes,
    ) -> Result<OpenSplit, NoMemory>
        ensures { IfOk result
            (λ u. under_way_of u ≡ renewal_begun name.now file.now geometry random.now) }
    {
        Ok(OpenSplit {
            name: *name,
            file: file.copy(alloc)?,
            geometry,
            random: random.copy(alloc)?,
            renews: true,
            places: Vec::new(alloc),
        })
    }
}
