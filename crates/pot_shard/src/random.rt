//! The random bytes of a store: how many there are, and how they are cut.
ghost use Rattle.std.specs.Prelude.{◌≡◌, ◌≤◌, ◌+◌, ◌-◌, ◌*◌, length};
ghost use Rattle.pot_bytes.specs.Rack.{IsGeometry};
ghost use Rattle.pot_object.specs.Pieces.{content_size};
ghost use Rattle.pot_shard.specs.FileBlocks.{fragment_len, head_len, names_at, piece_len};
ghost use Rattle.pot_shard.specs.FileBlocks.{random_len};

use pot_bytes::{Geometry, read_be64};
use pot_object::{CONTENT, OBJECT};

/// How many random bytes the store of a file of so many pieces takes: 16 for the file id, and for
/// each piece those of its object, of its pads and of its fragments.
pub fn random_len(pieces: u32, geometry: &Geometry) -> u64
    requires some { 1 ≤ pieces }
    requires fits { pieces ≤ 1024 }
    requires geometry { IsGeometry geometry.now }
    ensures { result ≡ random_len pieces geometry.now }
{
    16 + u64::from(pieces) * piece_len(geometry) as u64
}

/// How many random bytes a piece takes: those of its object, of its pads and of its fragments.
pub fn piece_len(geometry: &Geometry) -> usize
    requires { IsGeometry geometry.now }
    ensures value { result ≡ piece_len geometry.now }
    ensures few { result ≤ 126576 }
{
    head_len(geometry) + usize::from(geometry.fragments) * fragment_len(geometry)
}

/// How many of them stand before those of its fragments: its object id and its pads.
pub fn head_len(geometry: &Geometry) -> usize
    requires { IsGeometry geometry.now }
    ensures value { result ≡ head_len geometry.now }
    ensures few { result ≤ 6512 }
{
    16 + (usize::from(geometry.fragments) - 1) * OBJECT
}

/// How many random bytes a fragment takes: those of its coefficients and of its names.
pub fn fragment_len(geometry: &Geometry) -> usize
    requires { IsGeometry geometry.now }
    ensures value { result ≡ fragment_len geometry.now }
    ensures few { result ≤ 15008 }
{
    rows_len(geometry) + usize::from(geometry.shards) * 8
}

/// How many bytes its rows of coefficients are, which stand first.
pub fn rows_len(geometry: &Geometry) -> usize
    requires { IsGeometry geometry.now }
    ensures value { result ≡ (geometry.now.need - 1) * content_size }
    ensures few { result ≤ 14880 }
{
    (usize::from(geometry.need) - 1) * CONTENT
}

/// Reads names that stand one after another, each with its highest byte first.
pub(crate) fn read_names(bytes: &[u8], names: &mut [u64])
    requires { length bytes.now ≡ length names.old * 8 }
    ensures { names.new ≡ names_at (length names.old) bytes.now }
{
    for (place, name) in names.iter_mut().enumerate() {
        *name = read_be64(bytes, place * 8);
    }
}
