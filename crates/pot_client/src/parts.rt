//! The parts of a file that is longer than a session stores.

ghost use Rattle.std.specs.Prelude.{◌≡◌, ◌≤◌, ◌*◌, ◌++◌, ℕ, List, length, flat_map};
ghost use Rattle.std.specs.List.{range_with_len};
ghost use Rattle.pot_client.specs.Parts.{part_count, part_of};

/// The most bytes of a part, which are the most of a stored file.
pub const PART_SIZE: usize = 884_736;

/// How many parts a file of so many bytes has.
pub fn count_parts(length: usize) -> usize
    ensures { result ≡ part_count length }
{
    length.div_ceil(PART_SIZE)
}

/// The bytes of a part, by its number from 0. Behind the last part there are none.
pub fn part(file: &[u8], number: usize) -> &[u8]
    ensures { result.now ≡ part_of file.now number }
{
    let start = number.saturating_mul(PART_SIZE);
    if start >= file.len() {
        return &[];
    }
    let (_, rest) = file.split_at(start);
    if rest.len() <= PART_SIZE {
        return rest;
    }
    let (part, _) = rest.split_at(PART_SIZE);
    part
}

/// The parts of a file joined are the file.
pub fn parts_are_whole()
    ensures { (file : List ℕ)
        → flat_map (part_of file) (range_with_len 0 (part_count (length file))) ≡ file }
{}
