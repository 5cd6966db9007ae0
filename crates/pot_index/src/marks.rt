//! The mark of a record: the digest of its bytes, taken without writing them down.
ghost use Rattle.std.specs.Prelude.{◌≡◌};
ghost use Rattle.std.specs.List.{flat_map};
ghost use Rattle.pot_index.specs.Records.{head_bytes, split_bytes, mark_of};
ghost use Rattle.pot_index.specs.Writing.{Hashes};

use crate::record::{Record, Split};
use crate::spelling::{geometry_bytes, place_bytes};
use pot_bytes::{Digest, Geometry, Place};
use sha2::{Digest as Hash, Sha256};

/// The digest of the record's bytes.
pub(crate) fn mark_of(kept: &Record) -> Digest
    ensures { result ≡ mark_of kept.now }
{
    let mut hasher = Sha256::new();
    hash_head(&mut hasher, kept);
    hash_splits(&mut hasher, kept.older.as_slice());
    hash_split(&mut hasher, kept.geometry, kept.places.as_slice());
    Digest {
        bytes: hasher.finalize(),
    }
}

fn hash_head(hasher: &mut Sha256, kept: &Record)
    ensures { Hashes hasher.old hasher.new (head_bytes kept.now) }
{
    let name = kept.name.bytes();
    let splits = kept.older.as_slice().len() as u8 + 1;
    hasher.update(&[name.len() as u8]);
    hasher.update(name);
    hasher.update(&kept.length.to_be_bytes());
    hasher.update(&kept.digest.bytes);
    hasher.update(&[splits]);
}

fn hash_splits(hasher: &mut Sha256, splits: &[Split])
    ensures { Hashes hasher.old hasher.new (flat_map split_bytes splits.now) }
{
    for split in splits {
        hash_split(hasher, split.geometry, split.places.as_slice());
    }
}

fn hash_split(hasher: &mut Sha256, geometry: Geometry, places: &[Place])
    ensures { Hashes hasher.old hasher.new
        (split_bytes (record { geometry = geometry; places = places.now })) }
{
    hasher.update(&geometry_bytes(geometry));
    for place in places {
        hasher.update(&place_bytes(*place));
    }
}
