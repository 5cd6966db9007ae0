ghost use Rattle.std.specs.Prelude.{◌≡◌, ◌≤◌, length, true, false};
ghost use Rattle.std.specs.List.{position};
ghost use Rattle.std.specs.List.Sorted.{IsPartitionPoint};
ghost use Rattle.pot_recover.specs.Fronts.{front_of, has_front, is_below, FrontsRise};

/// The place of the first object with this front, among objects in byte order.
pub(crate) fn first_front(objects: &[[u8; 928]], front: [u8; 32]) -> Option<usize>
    requires { FrontsRise objects.now }
    ensures { result ≡ position (has_front front) objects.now }
{
    let place = end_below(objects, front);
    if place == objects.len() {
        return None;
    }
    if front_of(&objects[place]) == front {
        Some(place)
    } else {
        None
    }
}

/// Where the objects end whose fronts are below this one.
fn end_below(objects: &[[u8; 928]], front: [u8; 32]) -> usize
    requires { FrontsRise objects.now }
    ensures bound { result ≤ length objects.now }
    ensures split { IsPartitionPoint (λ o. is_below front o ≡ true) (λ o. is_below front o ≡ false)
        objects.now result }
{
    objects.partition_point(|object| front_of(object).cmp(&front).is_lt())
}

/// The file id, the piece, the number of pieces and the length of an object.
fn front_of(object: &[u8; 928]) -> [u8; 32]
    ensures { result ≡ front_of object.now }
{
    let mut front = [0; 32];
    front.copy_from_slice(&object[..32]);
    front
}
