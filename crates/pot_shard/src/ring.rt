ghost use Rattle.std.specs.Prelude.{◌≡◌, ◌≤◌, ◌<◌, ◌+◌, length, slice_index};
ghost use Rattle.pot_shard.specs.Rings.{ring};

use pot_pointer::blur;

/// The pointers of a ring of shards of these names: of each shard the blur of the name of the next,
/// and of the last that of the first.
pub fn ring_of(names: &[u64], bits: u8, pointers: &mut [u64])
    requires some { 0 < length names.now }
    requires same_length { length pointers.old ≡ length names.now }
    requires bits { bits ≤ 63 }
    ensures { pointers.new ≡ ring names.now bits }
{
    for (place, pointer) in pointers.iter_mut().enumerate() {
        *pointer = blur(next_name(names, place), bits);
    }
}

/// The name of the shard that comes next in a ring.
fn next_name(names: &[u64], place: usize) -> u64
    requires { place < length names.now }
    ensures next { place + 1 < length names.now → result ≡ slice_index names.now (place + 1) }
    ensures last { place + 1 ≡ length names.now → result ≡ slice_index names.now 0 }
{
    if place + 1 < names.len() {
        names[place + 1]
    } else {
        names[0]
    }
}
