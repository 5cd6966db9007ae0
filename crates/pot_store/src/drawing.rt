//! The blocks of a file, drawn piece by piece.
ghost use Rattle.std.specs.Prelude.{◌≡◌, ◌≤◌, ◌<◌, ◌+◌, ◌*◌, [], length, slice_index_or, IfOk};
ghost use Rattle.pot_bytes.specs.Rack.{IsGeometry};
ghost use Rattle.pot_object.specs.Pieces.{longest, pieces_of};
ghost use Rattle.pot_pads.specs.Pads.{moved, next_bytes};
ghost use Rattle.pot_shard.specs.FileBlocks.{piece_blocks, piece_len};
ghost use Rattle.pot_store.specs.Drawing.{all_blocks, count_of};

use pot_bytes::{Block, Geometry, NoMemory};
use pot_pads::PadStream;
use pot_shard::{piece_blocks, piece_len};
use std::alloc::Global;
use std::marker::Model;
use std::snapshot::Snapshot;

/// A piece that was drawn: its random bytes, and its blocks.
#[derive(Drop)]
struct DrawnPiece {
    random: Vec<u8>,
    blocks: Vec<Block>,
}

/// The blocks of a file, one after another, by piece, fragment and point. Each piece is drawn when
/// its first block is asked for, in place of the one before it.
#[derive(Drop)]
pub(crate) struct Drawing<'a> {
    geometry: Geometry,
    file: &'a [u8],
    // The stream as it was handed in, which clauses alone see.
    start: Snapshot<PadStream>,
    pads: PadStream,
    id: [u8; 16],
    // The piece that was drawn last, or room for the first one.
    last: DrawnPiece,
    // How many pieces were drawn, and how many blocks of the last one were not handed out yet.
    piece: u32,
    left: usize,
}

impl<'a> Model for Drawing<'a> {
    ghost use Rattle.std.specs.Prelude.{◌-◌, ◌*◌};
    ghost use Rattle.pot_store.specs.Drawing.{Drawn, IsDrawing};

    ghost Value = { Drawn };

    ghost view = { λ a. record {
      geometry = a.geometry;
      file = a.file.now;
      start = a.start.value;
      next = a.piece * (a.geometry.fragments * a.geometry.shards) - a.left;
    } };

    ghost invariant = { λ a.
        IsDrawing a.geometry a.file.now a.start.value a.pads a.id a.last.random.items
        a.last.blocks.items a.piece a.left };
}

impl<'a> Drawing<'a> {
    /// A drawing that has handed out no block. The id of the file is drawn here.
    pub(crate) fn start(
        alloc: Global,
        geometry: &Geometry,
        file: &'a [u8],
        mut pads: PadStream,
    ) -> Result<Drawing<'a>, NoMemory>
        requires geometry { IsGeometry geometry.now }
        requires fits { length file.now ≤ longest }
        ensures { IfOk result
            (λ d. d ≡ record { geometry = geometry.now; file = file.now; start = pads; next = 0 }) }
    {
        let start = Snapshot::of(&pads);
        let mut id = [0; 16];
        pads.fill(&mut id);
        let random = vec![in alloc; 0; piece_len(geometry)]?;
        let count = usize::from(geometry.fragments) * usize::from(geometry.shards);
        let blocks = vec![in alloc; Block::zero(); count]?;
        Ok(Drawing {
            geometry: *geometry,
            file,
            start,
            pads,
            id,
            last: DrawnPiece { random, blocks },
            piece: 0,
            left: 0,
        })
    }

    /// The next block.
    pub(crate) fn next(&mut self) -> Block
        requires { self.old.next < count_of self.old }
        ensures block { result ≡ slice_index_or (all_blocks self.old) self.old.next [] }
        ensures next { self.new ≡ record self.old { next = self.old.next + 1 } }
    {
        if self.left == 0 {
            draw(
                &mut self.pads,
                &self.id,
                self.file,
                self.piece,
                &self.geometry,
                &mut self.last,
            );
            self.piece += 1;
            self.left = self.last.blocks.len();
        }
        let block = self.last.blocks[self.last.blocks.len() - self.left];
        self.left -= 1;
        block
    }
}

/// Draws the random bytes of a piece, and makes its blocks.
fn draw(
    pads: &mut PadStream,
    id: &[u8; 16],
    file: &[u8],
    piece: u32,
    geometry: &Geometry,
    last: &mut DrawnPiece,
)
    requires fits { length file.now ≤ longest }
    requires exists { piece < pieces_of (length file.now) }
    requires geometry { IsGeometry geometry.now }
    requires random { length last.old.random.items ≡ piece_len geometry.now }
    requires blocks { length last.old.blocks.items ≡ geometry.now.fragments * geometry.now.shards }
    ensures place { pads.new ≡ moved pads.old (piece_len geometry.now) }
    ensures random { length last.new.random.items ≡ length last.old.random.items }
    ensures many { length last.new.blocks.items ≡ length last.old.blocks.items }
    ensures blocks { last.new.blocks.items
        ≡ piece_blocks geometry.now id.now file.now piece
        (next_bytes pads.old (piece_len geometry.now)) }
{
    pads.fill(&mut last.random);
    piece_blocks(id, file, piece, geometry, &last.random, &mut last.blocks);
}
