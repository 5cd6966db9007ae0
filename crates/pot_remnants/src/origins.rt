//! From which archives the blocks of a file are.
//!
//! The ring of each shard of the first point is followed, by the first shard that each one leads
//! to, and its first m shares are joined. The fragments of one object are added up, which tells the
//! file. Where shards lead to several, other rings are passed by. So this tells some archives of a
//! file, and of what `recover` found nothing else.

use crate::inside::{Index, Linked};
use crate::remains::{Reading, linked_in};
use crate::remnant::Remnant;
use crate::survey::Survey;
use pot_bytes::{add_weighted, xor_into};
use pot_gf::weight_at_zero;
use pot_object::read_content;
use pot_pointer::equal_range;
use pot_shard::decode_shard;
use std::alloc::{AllocError, Global};

/// The bytes of a share.
const SHARE: usize = 992;

/// Where the bytes of a fragment begin in its content.
const HEAD: usize = 64;

/// A file by the 32 hexadecimal digits of its id, and archives that blocks of it are from, in
/// order.
#[derive(Drop)]
pub struct Origin {
    pub id: String,
    pub archives: Vec<u32>,
}

// A fragment of an object, and the archives that the shards of its ring are from.
#[derive(Drop)]
struct Fragment {
    object: [u8; 16],
    number: u8,
    count: u8,
    bytes: [u8; 928],
    archives: Vec<u32>,
}

/// The archives that blocks of files are from. All blocks are read for it.
pub fn origins_of(
    rt: &HostRuntime,
    survey: &Survey,
    reading: Reading,
) -> Result<Vec<Origin>, AllocError> {
    let alloc = rt.alloc();
    let linked = linked_in(rt, survey, reading)?;
    let index = Index::of(alloc, &linked)?;
    let mut archives = Vec::new(alloc);
    for number in 0..reading.archives {
        let none = Vec::new(alloc);
        archives.push(Remnant::open(rt, survey, reading.shape, number, none)?)?;
    }
    let mut fragments = Vec::new(alloc);
    for first in linked.iter().filter(|shard| shard.point == 1) {
        if let Some(ring) = index.ring(alloc, &linked, first)? {
            if let Some(fragment) = fragment_of(alloc, &mut archives, &ring)? {
                fragments.push(fragment)?;
            }
        }
    }
    added_up(alloc, &fragments)
}

// The fragment that the first shares of a ring mean. None where they mean none.
fn fragment_of(
    alloc: Global,
    archives: &mut [Remnant],
    ring: &[Linked],
) -> Result<Option<Fragment>, AllocError> {
    let mut points = Vec::new(alloc);
    for shard in ring.iter().take(need_of(ring)) {
        points.push(shard.point)?;
    }
    let mut content = [0u8; SHARE];
    for shard in ring.iter().take(need_of(ring)) {
        let Some(archive) = archives.get_mut(shard.archive as usize) else {
            return Ok(None);
        };
        let Some(block) = archive.block_at(shard.slot) else {
            return Ok(None);
        };
        let Some(found) = decode_shard(&block) else {
            return Ok(None);
        };
        let weight = weight_at_zero(&points, shard.point);
        add_weighted(&mut content, weight, &found.share);
    }
    let Some(head) = read_content(&content) else {
        return Ok(None);
    };
    let mut bytes = [0u8; 928];
    bytes.copy_from_slice(&content[HEAD..]);
    Ok(Some(Fragment {
        object: head.object_id,
        number: head.number,
        count: head.count,
        bytes,
        archives: archives_of(alloc, ring)?,
    }))
}

fn need_of(ring: &[Linked]) -> usize {
    match ring.first() {
        Some(shard) => usize::from(shard.need),
        None => 0,
    }
}

fn archives_of(alloc: Global, ring: &[Linked]) -> Result<Vec<u32>, AllocError> {
    let mut archives = Vec::new(alloc);
    for shard in ring.iter() {
        archives.push(shard.archive)?;
    }
    Ok(archives)
}

// Where a fragment stands among all, by its object and its number.
#[derive(Clone, Copy, PartialEq, Eq, PartialOrd, Ord, Debug)]
struct Place {
    object: [u8; 16],
    number: u8,
    at: usize,
}

fn places_of(alloc: Global, fragments: &[Fragment]) -> Result<Vec<Place>, AllocError> {
    let mut places = Vec::new(alloc);
    for (at, fragment) in fragments.iter().enumerate() {
        places.push(Place {
            object: fragment.object,
            number: fragment.number,
            at,
        })?;
    }
    places.sort_unstable();
    Ok(places)
}

// The origins of the files whose objects these fragments add up to.
fn added_up(alloc: Global, fragments: &[Fragment]) -> Result<Vec<Origin>, AllocError> {
    let places = places_of(alloc, fragments)?;
    let mut origins: Vec<Origin> = Vec::new(alloc);
    for first in fragments.iter().filter(|fragment| fragment.number == 1) {
        let own = equal_range(&places, |place| place.object.cmp(&first.object));
        if let Some(origin) = object_of(alloc, fragments, first, own)? {
            add_origin(&mut origins, origin)?;
        }
    }
    Ok(origins)
}

// The file of an object, by one fragment of each number. None where one is not there.
fn object_of(
    alloc: Global,
    fragments: &[Fragment],
    first: &Fragment,
    places: &[Place],
) -> Result<Option<Origin>, AllocError> {
    let mut object = first.bytes;
    let mut archives = Vec::new(alloc);
    add_numbers(&mut archives, &first.archives)?;
    for number in 2..=first.count {
        let Some(place) = places.iter().find(|place| place.number == number) else {
            return Ok(None);
        };
        let Some(fragment) = fragments.get(place.at) else {
            return Ok(None);
        };
        xor_into(&mut object, &fragment.bytes);
        add_numbers(&mut archives, &fragment.archives)?;
    }
    Ok(Some(Origin {
        id: id_text(alloc, &object)?,
        archives,
    }))
}

// The file id of an object as 32 hexadecimal digits.
fn id_text(alloc: Global, object: &[u8; 928]) -> Result<String, AllocError> {
    let mut text = String::new(alloc);
    for byte in object.iter().take(16) {
        let byte = *byte;
        text.push_str(format!(in alloc; "{byte:02x}")?.as_str())?;
    }
    Ok(text)
}

fn add_origin(origins: &mut Vec<Origin>, origin: Origin) -> Result<(), AllocError> {
    for other in origins.iter_mut() {
        if other.id.as_str() == origin.id.as_str() {
            return add_numbers(&mut other.archives, &origin.archives);
        }
    }
    origins.push(origin)?;
    Ok(())
}

// Adds numbers that are not among these, and keeps the order.
fn add_numbers(numbers: &mut Vec<u32>, others: &[u32]) -> Result<(), AllocError> {
    for other in others.iter() {
        if !numbers.contains(other) {
            numbers.push(*other)?;
        }
    }
    numbers.sort_unstable();
    Ok(())
}
