//! A file and back at the corners of the geometry.
ghost use Rattle.std.specs.Prelude.{◌≡◌, ◌≤◌, ◌<◌, length, nat_eq, IfOk};
ghost use Rattle.std.specs.List.{All, IsDistinct};
ghost use Rattle.pot_bytes.specs.Rack.{IsGeometry};
ghost use Rattle.pot_object.specs.Assembly.{objects_of};

use crate::*;
use pot_bytes::{Block, Geometry, xor_into};
use pot_object::{CONTENT, OBJECT, assemble, read_content, write_object};
use pot_split::share_join;
use std::alloc::{AllocError, Global};
use std::process::Abort;

/// The points of a ring of 16.
const SIXTEEN: [u8; 16] = [1, 2, 3, 4, 5, 6, 7, 8, 9, 10, 11, 12, 13, 14, 15, 16];

/// The highest bytes of a linear congruential sequence from a seed on.
fn scatter(out: &mut [u8], seed: u64) {
    let mut state = seed;
    for byte in out.iter_mut() {
        state = state
            .wrapping_mul(6_364_136_223_846_793_005)
            .wrapping_add(1_442_695_040_888_963_407);
        *byte = state.to_be_bytes()[0];
    }
}

/// The shards of a ring stand by point, and each points to the next.
fn assert_linked(rt: &impl Abort, ring: &[Block], geometry: &Geometry)
    requires { IsGeometry geometry.now }
{
    let bits = geometry.blur;
    for (place, block) in ring.iter().enumerate() {
        let following = if place + 1 < ring.len() { place + 1 } else { 0 };
        let shard = decode_shard(block).expect(rt, "a shard");
        let next = decode_shard(&ring[following]).expect(rt, "a shard");
        assert_eq!(rt; usize::from(shard.x), place + 1);
        assert_eq!(rt; shard.m, geometry.need);
        assert_eq!(rt; shard.n, geometry.shards);
        assert_eq!(rt; shard.blur, bits);
        assert_eq!(rt; shard.pointer >> bits, next.name >> bits);
        assert!(rt; shard.pointer.trailing_zeros() >= u32::from(bits));
    }
}

/// The content that the last shards of a ring give, which have these points.
fn joined_content(rt: &impl Abort, ring: &[Block], points: &[u8]) -> [u8; CONTENT]
    requires some { 0 < length points.now }
    requires few { length points.now ≤ 16 }
    requires enough { length points.now ≤ length ring.now }
    requires distinct { IsDistinct nat_eq points.now }
    requires not_zero { All (λ x. 0 < x) points.now }
{
    let mut shares = [0; 15_872];
    let last = &ring[ring.len() - points.len()..];
    for (place, block) in last.iter().enumerate() {
        let shard = decode_shard(block).expect(rt, "a shard");
        assert_eq!(rt; shard.x, points[place]);
        shares[place * CONTENT..place * CONTENT + CONTENT].copy_from_slice(&shard.share);
    }
    let mut content = [0; CONTENT];
    share_join(points, &shares[..points.len() * CONTENT], &mut content);
    content
}

/// The object whose fragments these rings give, by their last shards.
fn joined_object(
    rt: &impl Abort,
    blocks: &[Block],
    geometry: &Geometry,
    points: &[u8],
) -> [u8; OBJECT]
    requires geometry { IsGeometry geometry.now }
    requires some { 0 < length points.now }
    requires enough { length points.now ≤ geometry.now.shards }
    requires distinct { IsDistinct nat_eq points.now }
    requires not_zero { All (λ x. 0 < x) points.now }
{
    let mut object = [0; OBJECT];
    for (place, ring) in blocks.chunks(usize::from(geometry.shards)).enumerate() {
        assert_eq!(rt; ring.len(), usize::from(geometry.shards));
        assert_linked(rt, ring, geometry);
        let content = joined_content(rt, ring, points);
        let head = read_content(&content).expect(rt, "a content");
        assert_eq!(rt; Some(usize::from(head.number)), place.checked_add(1));
        assert_eq!(rt; head.count, geometry.fragments);
        xor_into(&mut object, &content[64..]);
    }
    object
}

/// The objects of a file of two pieces.
fn written_objects(alloc: Global, id: &[u8; 16], file: &[u8; 865]) -> Result<Vec<u8>, AllocError>
    ensures { IfOk result (λ v. v.items ≡ objects_of id.now file.now) }
{
    let mut objects = Vec::new(alloc);
    let mut object = [0; OBJECT];
    write_object(id, file, 0, &mut object);
    objects.extend_from_slice(&object)?;
    write_object(id, file, 1, &mut object);
    objects.extend_from_slice(&object)?;
    Ok(objects)
}

/// These are the objects of the file, and they are assembled to it.
fn assert_assembled(
    rt: &(impl Abort + Alloc<A = Global>),
    id: &[u8; 16],
    file: &[u8; 865],
    objects: &[u8],
) {
    let written = written_objects(rt.alloc(), id, file).expect(rt, "memory");
    assert!(rt; objects == written.as_slice());
    let again = assemble(rt.alloc(), objects).expect(rt, "memory");
    assert!(rt; again.as_slice() == file.as_slice());
}

/// A file of two pieces is cut to shards, and the last of them, which have these points, give it
/// back.
fn comes_back(rt: &(impl Abort + Alloc<A = Global>), geometry: &Geometry, points: &[u8])
    requires geometry { IsGeometry geometry.now }
    requires some { 0 < length points.now }
    requires enough { length points.now ≤ geometry.now.shards }
    requires distinct { IsDistinct nat_eq points.now }
    requires not_zero { All (λ x. 0 < x) points.now }
{
    let mut file = [0; 865];
    scatter(&mut file, 1);
    let mut random = vec![in rt.alloc(); 0; random_len(2, geometry) as usize].expect(rt, "memory");
    scatter(&mut random, 2);
    let blocks = blocks_of(rt.alloc(), &file, geometry, &random).expect(rt, "memory");
    let of_piece = usize::from(geometry.fragments) * usize::from(geometry.shards);
    assert_eq!(rt; blocks.len(), 2 * of_piece);
    let (first, second) = blocks.split_at(of_piece);
    let mut objects = Vec::new(rt.alloc());
    for blocks in [first, second] {
        let object = joined_object(rt, blocks, geometry, points);
        objects.extend_from_slice(&object).expect(rt, "memory");
    }
    let id = id_in(&random);
    assert_assembled(rt, &id, &file, &objects);
}

/// The corners of the threshold and of the number of shards.
fn come_back(rt: &(impl Abort + Alloc<A = Global>), fragments: u8, blur: u8)
    requires two { 2 ≤ fragments }
    requires eight { fragments ≤ 8 }
    requires bits { blur ≤ 63 }
{
    let corner = |need, shards| Geometry {
        fragments,
        need,
        shards,
        blur,
    };
    comes_back(rt, &corner(1, 1), &[1]);
    comes_back(rt, &corner(1, 16), &[16]);
    comes_back(rt, &corner(16, 16), &SIXTEEN);
}

#[test]
fn last_shards_give_the_file_back(rt: HostRuntime) {
    for blur in [0, 63] {
        come_back(&rt, 2, blur);
        come_back(&rt, 8, blur);
    }
}
