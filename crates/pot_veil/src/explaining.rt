//! The random bytes with which another object has the same seen blocks, in place of the first ones.
ghost use Rattle.std.specs.Prelude.{◌≡◌, ◌≤◌, ◌<◌, ◌+◌, ◌-◌, ◌*◌, ◌/◌, length};
ghost use Rattle.pot_bytes.specs.Rack.{IsGeometry};
ghost use Rattle.pot_object.specs.Pieces.{content_size};
ghost use Rattle.pot_split.specs.Secrecy.{IsRows};
ghost use Rattle.pot_split.specs.Threshold.{changed_rows, explaining};
ghost use Rattle.pot_shard.specs.FileBlocks.{piece_len};
ghost use Rattle.pot_veil.specs.Explained.{explained, with_pads};
ghost use Rattle.pot_veil.specs.Seen.{AreSeen};

use pot_bytes::{Geometry, add_weighted, xor_into};
use pot_gf::Poly;
use pot_object::{CONTENT, OBJECT};
use pot_shard::{fragment_content, fragment_len, head_len, rows_len};

/// Changes the random bytes of a piece so that another object gives the same shares at the seen
/// points of a fragment, and the same blocks of every other fragment. Called again with the two
/// objects exchanged, it gives them back.
///
/// The fragment's number is from 1. Its pad changes, but for the last fragment, which has none, and
/// its coefficients. The seen points are fewer than are needed. It takes no memory.
pub fn explain(
    object: &[u8; OBJECT],
    other: &[u8; OBJECT],
    geometry: &Geometry,
    fragment: u8,
    seen: &[u8],
    random: &mut [u8],
)
    requires geometry { IsGeometry geometry.now }
    requires random { length random.old ≡ piece_len geometry.now }
    requires first { 1 ≤ fragment }
    requires last { fragment ≤ geometry.now.fragments }
    requires seen { AreSeen geometry.now.shards seen.now }
    requires few { length seen.now < geometry.now.need }
    ensures { random.new
        ≡ explained geometry.now object.now other.now (fragment - 1) seen.now random.old }
{
    let number = fragment - 1;
    let content = fragment_content(object, geometry, random, number);
    explain_pad(object, other, geometry, number, random);
    let changed = fragment_content(other, geometry, random, number);
    let start = head_len(geometry) + usize::from(number) * fragment_len(geometry);
    let rows = &mut random[start..start + rows_len(geometry)];
    explain_rows(&content, &changed, seen, rows);
}

/// Adds the XOR of both objects to the pad of this number, from 0. The last fragment has none.
fn explain_pad(
    object: &[u8; OBJECT],
    other: &[u8; OBJECT],
    geometry: &Geometry,
    number: u8,
    random: &mut [u8],
)
    requires geometry { IsGeometry geometry.now }
    requires random { length random.old ≡ piece_len geometry.now }
    requires exists { number < geometry.now.fragments }
    ensures { random.new ≡ with_pads geometry.now object.now other.now number random.old }
{
    if number + 1 < geometry.fragments {
        let mut difference = *object;
        xor_into(&mut difference, other);
        let at = 16 + usize::from(number) * OBJECT;
        xor_into(&mut random[at..at + OBJECT], &difference);
    }
}

/// Changes the coefficients of a content to those with which another content has the same shares at
/// the seen points.
fn explain_rows(content: &[u8; CONTENT], other: &[u8; CONTENT], seen: &[u8], rows: &mut [u8])
    requires seen { AreSeen 16 seen.now }
    requires few { length seen.now ≤ 15 }
    requires rows { IsRows content_size rows.old }
    requires fits { length rows.old ≤ 15 * content_size }
    ensures { rows.new ≡ explaining content.now other.now seen.now rows.old }
{
    let mut difference = *content;
    xor_into(&mut difference, other);
    add_rows(
        &difference,
        Poly::vanish(seen).coefficients(),
        rows.len() / CONTENT,
        rows,
    );
}

/// Adds to each of `count` rows the difference times its factor: to the first that at place 1.
fn add_rows(difference: &[u8; CONTENT], factors: &[u8; 16], count: usize, rows: &mut [u8])
    requires few { count ≤ 15 }
    requires whole { length rows.old ≡ count * content_size }
    ensures { rows.new ≡ changed_rows difference.now factors.now 1 count rows.old }
{
    for row in 0..count {
        let at = row * CONTENT;
        add_weighted(&mut rows[at..at + CONTENT], factors[row + 1], difference);
    }
}
