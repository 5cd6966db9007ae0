//! The blocks of a drawing with their digests.
ghost use Rattle.std.specs.Prelude.{◌≡◌, ◌<◌, ◌+◌, [], slice_index_or};
ghost use Rattle.pot_store.specs.Drawing.{all_blocks, count_of};

use crate::drawing::Drawing;
use crate::expecting::Expected;
use pot_bytes::Place;
use pot_group::Standing;
use pot_shared::SealedPut;
use std::marker::Model;

/// A drawing whose blocks are sealed two at a time, each beside the parity block that is expected
/// of its put.
#[derive(Drop)]
pub(crate) struct SealedDrawing<'a> {
    drawing: Drawing<'a>,
    // How many blocks were not drawn yet.
    left: u32,
    expected: Expected,
    // The block that was sealed with the one before it, until it is handed out.
    ready: Option<SealedPut>,
}

impl<'a> Model for SealedDrawing<'a> {
    ghost use Rattle.std.specs.Prelude.{◌-◌};
    ghost use Rattle.pot_store.specs.Drawing.{Drawn};
    ghost use Rattle.pot_store.specs.Sealing.{waiting, IsSealing};

    ghost Value = { Drawn };

    ghost view = { λ a. record a.drawing { next = a.drawing.next - waiting a.ready } };

    ghost invariant = { λ a. IsSealing a.drawing a.left a.ready };
}

impl<'a> SealedDrawing<'a> {
    /// A drawing that has handed out no block, of as many blocks, for groups of as many data
    /// columns.
    pub(crate) fn new(drawing: Drawing<'a>, count: u32, columns: u8) -> SealedDrawing<'a>
        requires first { drawing.next ≡ 0 }
        requires count { count ≡ count_of drawing }
        ensures { result ≡ drawing.entry }
    {
        SealedDrawing {
            drawing,
            left: count,
            expected: Expected::new(columns),
            ready: None,
        }
    }

    /// Whether the next two blocks are sealed now, and others put into a group in between.
    pub(crate) fn looks_ahead(&self) -> bool {
        self.ready.is_none() && self.expected.met_others()
    }

    /// A group stands so: what is sealed for it is expected there.
    pub(crate) fn see(&mut self, group: u8, standing: &Standing)
        ensures { self.new ≡ self.old }
    {
        self.expected.see(group, standing);
    }

    /// The next block, which is put into this group, as the one after it is into the second.
    pub(crate) fn next(&mut self, groups: (u8, u8)) -> SealedPut
        requires { self.old.next < count_of self.old }
        ensures block { result.block.block ≡ slice_index_or (all_blocks self.old) self.old.next [] }
        ensures next { self.new ≡ record self.old { next = self.old.next + 1 } }
    {
        if let Some(next) = self.ready {
            self.ready = None;
            return next;
        }
        let first = self.drawing.next();
        if self.left == 1 {
            self.left = 0;
            return self.expected.seal(groups.0, &first);
        }
        let second = self.drawing.next();
        self.left -= 2;
        let (next, ready) = self.expected.seal_two(groups, &first, &second);
        self.ready = Some(ready);
        next
    }

    /// The block handed out last was put at this place.
    pub(crate) fn note(&mut self, place: Place, put: &SealedPut)
        ensures { self.new ≡ self.old }
    {
        self.expected.note(place, put);
    }
}
