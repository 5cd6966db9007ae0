//! Laws of the blocks of a file.
ghost use Rattle.std.specs.Prelude.{◌≡◌, ◌<◌, ◌*◌, ℕ, List, length, take, drop};
ghost use Rattle.std.specs.List.{Contains};
ghost use Rattle.pot_bytes.specs.declared.rack.Geometry.{Geometry};
ghost use Rattle.pot_object.specs.Pieces.{pieces_of};
ghost use Rattle.pot_shard.specs.Draws.{DrawLaws};
ghost use Rattle.pot_shard.specs.Fetches.{FetchLaws};
ghost use Rattle.pot_shard.specs.FileBlocks.{blocks_at, file_blocks};
ghost use Rattle.pot_shard.specs.FileLaws.{shards_in, FileLaws, IsStore};
ghost use Rattle.pot_shard.specs.LinkedRings.{IsLinkedRing};
ghost use Rattle.pot_shard.specs.Places.{PlaceLaws};
ghost use Rattle.pot_shard.specs.Shards.{shard_bytes, IsShardBlock};
ghost use Rattle.pot_shard.specs.Stretches.{StretchLaws};
ghost use Rattle.pot_shard.specs.Veils.{ShardVeilLaws};
ghost use Rattle.pot_shard.specs.declared.shard.Shard.{Shard};

/// Any m shards of each fragment give the file back: their shares are joined to the contents, the
/// fragments in these XOR to the objects, and the objects are assembled to the file.
pub fn file_laws()
    ensures { FileLaws }
{}

/// The blocks of a file are those of its pieces one after another, each is the block of its shard
/// alone, and the shards of a fragment are linked in a ring.
pub fn block_laws()
    ensures pieces { (g : Geometry) (file random : List ℕ) (i : ℕ) → i < pieces_of (length file)
        → take (g.fragments * g.shards)
        (drop (i * (g.fragments * g.shards)) (file_blocks g file random))
        ≡ blocks_at g file random i }
    ensures shards { (g : Geometry) (file random : List ℕ) (i j : ℕ) (s : Shard)
        → IsStore g file random
        → i < pieces_of (length file) → j < g.fragments → Contains (shards_in g file random i j) s
        → IsShardBlock s (shard_bytes s) }
    ensures rings { (g : Geometry) (file random : List ℕ) (i j : ℕ)
        → IsLinkedRing g.shards (shards_in g file random i j) }
{}

/// Different pieces and fragments of a file use disjoint stretches of its random bytes.
pub fn stretch_laws()
    ensures { StretchLaws }
{}

/// How many blocks a file has, where the block of each piece, fragment and point stands, and what
/// it says. At each byte of a share the shards of a fragment are the values of one polynomial.
pub fn place_laws()
    ensures { PlaceLaws }
{}

/// What the shares in the blocks of any m points of each fragment are joined to gives the file
/// back, cut to its length.
pub fn fetch_laws()
    ensures { FetchLaws }
{}

/// What a store draws from a stream piece by piece is what the definition of its blocks cuts from
/// the whole.
pub fn draw_laws()
    ensures { DrawLaws }
{}

/// Other random bytes with which another file has the same shards but for those at the points of
/// one fragment that nobody sees, fewer than m of which are seen.
pub fn veil_laws()
    ensures { ShardVeilLaws }
{}
