//! What the next puts of a store are expected to write, so that its digests are taken four at a
//! time.
ghost use Rattle.std.specs.Prelude.{◌≡◌};

use pot_bytes::{Block, Place};
use pot_group::Standing;
use pot_sealed::{Sealed, seal_four};
use pot_shared::SealedPut;

/// Where the next put of each group is expected, and the parity block of its stripe.
#[derive(Clone, Copy)]
pub struct Expected {
    // How many data columns a stripe has.
    columns: u8,
    // By group the data column of the next put, and the parity block of the last one.
    next: [u8; 16],
    parities: [Block; 16],
    // By group the column behind the last block that was put there, if one was.
    behind: [Option<u8>; 16],
    // Whether a block stands where only puts of others can have led.
    others: bool,
}

impl Expected {
    /// Each group is expected at the beginning of a stripe of as many data columns.
    pub fn new(columns: u8) -> Expected {
        Expected {
            columns,
            next: [0; 16],
            parities: [Block::zero(); 16],
            behind: [None; 16],
            others: false,
        }
    }

    /// The column behind this one.
    fn after(&self, column: u8) -> u8 {
        let after = column.saturating_add(1);
        if after < self.columns { after } else { 0 }
    }

    /// Expects a put into a group: its column, and its parity block.
    fn put(&mut self, group: u8, block: &Block) -> (u8, Block) {
        let place = usize::from(group % 16);
        let column = self.next[place];
        let mut parity = *block;
        if column > 0 {
            parity.xor(&self.parities[place]);
        }
        self.next[place] = self.after(column);
        self.parities[place] = parity;
        (column, parity)
    }

    /// Seals a block that is put into a group.
    pub fn seal(&mut self, group: u8, block: &Block) -> SealedPut
        ensures { result.block.block ≡ block.now }
    {
        let (column, parity) = self.put(group, block);
        SealedPut {
            block: Sealed::new(block),
            parity: Sealed::new(&parity),
            column,
        }
    }

    /// Seals two blocks that are put one after the other, each into its group.
    pub fn seal_two(
        &mut self,
        groups: (u8, u8),
        first: &Block,
        second: &Block,
    ) -> (SealedPut, SealedPut)
        ensures first { result.0.block.block ≡ first.now }
        ensures second { result.1.block.block ≡ second.now }
    {
        let (column, parity) = self.put(groups.0, first);
        let (second_column, second_parity) = self.put(groups.1, second);
        let sealed = seal_four(first, second, &parity, &second_parity);
        (
            SealedPut {
                block: sealed[0],
                parity: sealed[2],
                column,
            },
            SealedPut {
                block: sealed[1],
                parity: sealed[3],
                column: second_column,
            },
        )
    }

    /// Whether only puts of others can have led to a place: its column is neither the one behind
    /// the last block that was put into its group, nor the first of a stripe, which comes behind
    /// one that is passed.
    fn is_by_others(&self, place: Place) -> bool {
        match self.behind[usize::from(place.group % 16)] {
            Some(behind) => place.column > 0 && place.column != behind,
            None => false,
        }
    }

    /// Notes where a block was put. Where it was expected in another column, what comes next in its
    /// group is expected behind it.
    pub fn note(&mut self, place: Place, put: &SealedPut) {
        let group = usize::from(place.group % 16);
        let behind = self.after(place.column);
        self.others = self.others || self.is_by_others(place);
        self.behind[group] = Some(behind);
        if place.column == put.column {
            return;
        }
        self.next[group] = behind;
        self.parities[group] = *put.block.block();
    }

    /// Whether others put into a group in between. It stays so, and never is so where nobody else
    /// puts.
    pub fn met_others(&self) -> bool {
        self.others
    }

    /// Expects the next put of a group where the group stands.
    pub fn see(&mut self, group: u8, standing: &Standing) {
        let place = usize::from(group % 16);
        self.next[place] = standing.cursor.column;
        self.parities[place] = standing.parity;
    }
}
