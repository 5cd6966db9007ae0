ghost use Rattle.std.specs.Prelude.{◌≡◌, ◌≤◌, ◌<◌, length, IfOk};
ghost use Rattle.pot_object.specs.Pieces.{longest, pieces_of};
ghost use Rattle.pot_object.specs.Assembly.{objects_of};

use crate::*;
use pot_bytes::digest_of_two;
use std::alloc::{AllocError, Global};
use std::test::Fail;

// The first 64 bytes of an object and of a content, computed apart from this crate by Python's
// hashlib.
const FILE_ID: [u8; 16] = [
    0xa0, 0xa1, 0xa2, 0xa3, 0xa4, 0xa5, 0xa6, 0xa7, 0xa8, 0xa9, 0xaa, 0xab, 0xac, 0xad, 0xae, 0xaf,
];

const OBJECT_START: [u8; 64] = [
    0xa0, 0xa1, 0xa2, 0xa3, 0xa4, 0xa5, 0xa6, 0xa7, 0xa8, 0xa9, 0xaa, 0xab, 0xac, 0xad, 0xae, 0xaf,
    0x00, 0x00, 0x00, 0x01, 0x00, 0x00, 0x00, 0x02, 0x00, 0x00, 0x00, 0x00, 0x00, 0x00, 0x03, 0xe8,
    0x55, 0xe9, 0x17, 0x35, 0xa4, 0x0a, 0x87, 0x75, 0xcc, 0x96, 0x4d, 0x4d, 0x57, 0x91, 0x49, 0xa9,
    0x14, 0x08, 0x25, 0x3f, 0xa4, 0x6b, 0x79, 0xb6, 0x67, 0xa6, 0xc0, 0x9f, 0x1b, 0x90, 0xcc, 0x2c,
];

const OBJECT_ID: [u8; 16] = [
    0x10, 0x11, 0x12, 0x13, 0x14, 0x15, 0x16, 0x17, 0x18, 0x19, 0x1a, 0x1b, 0x1c, 0x1d, 0x1e, 0x1f,
];

const CONTENT_START: [u8; 64] = [
    0x10, 0x11, 0x12, 0x13, 0x14, 0x15, 0x16, 0x17, 0x18, 0x19, 0x1a, 0x1b, 0x1c, 0x1d, 0x1e, 0x1f,
    0x03, 0x05, 0x00, 0x00, 0x00, 0x00, 0x00, 0x00, 0x00, 0x00, 0x00, 0x00, 0x00, 0x00, 0x00, 0x00,
    0x9d, 0x85, 0x9c, 0x48, 0x64, 0xe3, 0xa2, 0x03, 0xbd, 0x4f, 0xbe, 0x49, 0x68, 0xfa, 0x3e, 0x4d,
    0x57, 0x13, 0x36, 0x15, 0x47, 0xa0, 0xe3, 0x76, 0x00, 0xdb, 0xdf, 0x38, 0x56, 0x70, 0x31, 0xa0,
];

/// The SHA-256 of `hello`.
const OF_HELLO: [u8; 32] = [
    0x2c, 0xf2, 0x4d, 0xba, 0x5f, 0xb0, 0xa3, 0x0e, 0x26, 0xe8, 0x3b, 0x2a, 0xc5, 0xb9, 0xe2, 0x9e,
    0x1b, 0x16, 0x1e, 0x5c, 0x1f, 0xa7, 0x42, 0x5e, 0x73, 0x04, 0x33, 0x62, 0x93, 0x8b, 0x98, 0x24,
];

/// The SHA-256 of no bytes.
const OF_NOTHING: [u8; 32] = [
    0xe3, 0xb0, 0xc4, 0x42, 0x98, 0xfc, 0x1c, 0x14, 0x9a, 0xfb, 0xf4, 0xc8, 0x99, 0x6f, 0xb9, 0x24,
    0x27, 0xae, 0x41, 0xe4, 0x64, 0x9b, 0x93, 0x4c, 0xa4, 0x95, 0x99, 0x1b, 0x78, 0x52, 0xb8, 0x55,
];

/// Writes 0, 1, .. and begins again at `period`.
fn count_up(out: &mut [u8], period: u8)
    requires { 0 < period }
{
    for (place, byte) in out.iter_mut().enumerate() {
        *byte = (place % usize::from(period)) as u8;
    }
}

/// The objects of all pieces of a file, in order.
fn objects_in_order(
    alloc: Global,
    file_id: &[u8; 16],
    file: &[u8],
    pieces: u32,
) -> Result<Vec<u8>, AllocError>
    requires fits { length file.now ≤ longest }
    requires pieces { pieces ≡ pieces_of (length file.now) }
    ensures { IfOk result (λ v. v.items ≡ objects_of file_id.now file.now) }
{
    let mut objects = Vec::new(alloc);
    for piece in 0..pieces {
        let mut object = [0; OBJECT];
        write_object(file_id, file, piece, &mut object);
        objects.extend_from_slice(&object)?;
    }
    Ok(objects)
}

/// The file that the objects of all pieces of a file make.
fn cut_and_assembled(alloc: Global, file: &[u8]) -> Result<Vec<u8>, AssembleFault>
    requires { length file.now ≤ longest }
{
    match cut_file(file.len() as u64) {
        Ok(pieces) => assemble(alloc, &objects_in_order(alloc, &FILE_ID, file, pieces)?),
        Err(_) => Err(AssembleFault::NoMemory),
    }
}

/// What one object of a file of two pieces makes.
fn assembled_alone(alloc: Global, file: &[u8; 1728], piece: u32) -> Result<Vec<u8>, AssembleFault>
    requires { piece < 2 }
{
    let mut object = [0; OBJECT];
    write_object(&FILE_ID, file, piece, &mut object);
    assemble(alloc, &object)
}

#[test]
fn cuts_files(rt: HostRuntime) {
    let rows = [
        (0, 1),
        (1, 1),
        (863, 1),
        (864, 1),
        (865, 2),
        (1728, 2),
        (1729, 3),
        (884_736, 1024),
    ];
    for (length, pieces) in rows {
        assert_eq!(rt; cut_file(length), Ok(pieces), "at {length}");
    }
    for length in [884_737, u64::MAX] {
        assert_eq!(rt; cut_file(length), Err(TooLong { length }), "at {length}");
    }
    assert_eq!(rt; count_pieces(1_729), 3);
}

#[test]
fn digests_two_parts(rt: HostRuntime) {
    assert_eq!(rt; digest_of_two(b"hel", b"lo").bytes, OF_HELLO);
    assert_eq!(rt; digest_of_two(b"", b"hello").bytes, OF_HELLO);
    assert_eq!(rt; digest_of_two(b"", b"").bytes, OF_NOTHING);
}

#[test]
fn writes_what_another_program_writes(rt: HostRuntime) {
    let mut file = [0; 1000];
    count_up(&mut file, 251);
    let mut object = [0; OBJECT];
    write_object(&FILE_ID, &file, 1, &mut object);
    assert!(rt; object.starts_with(&OBJECT_START));
    assert!(rt; object[64..].starts_with(&file[864..]));
    assert!(rt; object[200..].iter().all(|b| *b == 0));

    let mut part = [0; OBJECT];
    count_up(&mut part, 253);
    let mut content = [0; CONTENT];
    write_content(&OBJECT_ID, 3, 5, &part, &mut content);
    assert!(rt; content.starts_with(&CONTENT_START));
    assert!(rt; content.ends_with(&part));
}

/// The head of an object of the second piece of 1,000 bytes 7 that has this byte at this place
/// and its own digest. None where the byte may not stand there.
fn object_head(place: usize, byte: u8) -> Option<ObjectHead> {
    let (least, greatest) = match place {
        // The file id.
        0..=15 => (0, 255),
        // The piece, one of two.
        16..=18 => (0, 0),
        19 => (0, 1),
        // The pieces, which the length gives.
        20..=22 => (0, 0),
        23 => (2, 2),
        // The length, 3 * 256 + 232: 865 to 1,728 in two pieces, and no 7 past the end.
        24..=29 => (0, 0),
        30 => (3, 5),
        31 => (232, 255),
        // The part, and zeros past the end of the file.
        64..=199 => (0, 255),
        _ => (0, 0),
    };
    if byte < least || byte > greatest {
        return None;
    }
    let mut head = ObjectHead {
        file_id: FILE_ID,
        piece: 1,
        pieces: 2,
        length: 1_000,
    };
    match place {
        0..=15 => head.file_id[place] = byte,
        19 => head.piece = u32::from(byte),
        30 => head.length = u64::from(byte) * 256 + 232,
        31 => head.length = 768 + u64::from(byte),
        _ => {}
    }
    Some(head)
}

/// The head of a content of the first of five fragments that has this byte at this place and its
/// own digest. None where the byte may not stand there.
fn fragment_head(place: usize, byte: u8) -> Option<FragmentHead> {
    let (least, greatest) = match place {
        // The object id.
        0..=15 => (0, 255),
        // The fragment's number and the number of fragments.
        16 => (1, 5),
        17 => (2, 8),
        // The fragment, and zeros before it.
        64..=991 => (0, 255),
        _ => (0, 0),
    };
    if byte < least || byte > greatest {
        return None;
    }
    let mut head = FragmentHead {
        object_id: OBJECT_ID,
        number: 1,
        count: 5,
    };
    match place {
        0..=15 => head.object_id[place] = byte,
        16 => head.number = byte,
        17 => head.count = byte,
        _ => {}
    }
    Some(head)
}

/// Writes the digest of bytes 0..32 and 64.. into bytes 32..64.
fn digest_anew(bytes: &mut [u8])
    requires { 64 ≤ length bytes.old }
{
    let whole = &bytes[..];
    let digest = digest_of_two(&whole[..32], &whole[64..]);
    bytes[32..64].copy_from_slice(&digest.bytes);
}

#[test]
fn reads_an_object_with_each_byte_changed(rt: HostRuntime) {
    let mut object = [0; OBJECT];
    write_object(&FILE_ID, &[7; 1000], 1, &mut object);
    for place in 0..OBJECT {
        for byte in 0..=255 {
            let mut changed = object;
            changed[place] = byte;
            let is_same = byte == object[place];
            assert_eq!(rt;
                read_object(&changed).is_some(),
                is_same,
                "{byte} at {place}"
            );
            if place < 32 || place >= 64 {
                digest_anew(&mut changed);
                let head = object_head(place, byte);
                assert_eq!(rt; read_object(&changed), head, "{byte} at {place}, sealed");
            }
        }
    }
}

#[test]
fn reads_a_content_with_each_byte_changed(rt: HostRuntime) {
    let mut content = [0; CONTENT];
    write_content(&OBJECT_ID, 1, 5, &[7; OBJECT], &mut content);
    for place in 0..CONTENT {
        for byte in 0..=255 {
            let mut changed = content;
            changed[place] = byte;
            let is_same = byte == content[place];
            assert_eq!(rt;
                read_content(&changed).is_some(),
                is_same,
                "{byte} at {place}"
            );
            if place < 32 || place >= 64 {
                digest_anew(&mut changed);
                let head = fragment_head(place, byte);
                assert_eq!(rt; read_content(&changed), head, "{byte} at {place}, sealed");
            }
        }
    }
}

#[test]
fn assembles_what_was_cut(rt: HostRuntime) {
    let mut bytes = [0; 1728];
    count_up(&mut bytes, 251);
    for length in [0, 1, 863, 864, 865, 1728] {
        let again = cut_and_assembled(rt.alloc(), &bytes[..length]);
        assert!(rt;
            again.is_ok_and(|file| file.as_slice() == &bytes[..length]),
            "at {length}"
        );
    }
    for piece in 0..2 {
        let missing = AssembleFault::Incomplete { piece: 1 - piece };
        let fault = assembled_alone(rt.alloc(), &bytes, piece);
        assert!(rt; fault.is_err_and(|e| e == missing), "at {piece}");
    }
}

#[test]
fn assembles_the_longest_file(rt: HostRuntime) -> Result<(), Fail> {
    let mut file = vec![in rt.alloc(); 0; 884_736]?;
    count_up(&mut file, 251);
    let again = cut_and_assembled(rt.alloc(), &file).map_err(|_| "no memory")?;
    assert!(rt; again == file);
    Ok(())
}
