ghost use Rattle.std.specs.Prelude.{◌≡◌, [], ◌∷◌, ◌++◌, filter, OnOk};
ghost use Rattle.pot_recover.specs.HeldShards.{stands_at, PlacesRise};
ghost use Rattle.pot_recover.specs.Contents.{begins_with, head_of, HeadsRise};

use crate::held::Held;
use pot_bytes::NoMemory;
use pot_pointer::equal_range;

/// The shards of m, n and x, which stand side by side.
pub(crate) fn part_at<'a, 'b>(held: &'a [Held<'b>], place: [u8; 3]) -> &'a [Held<'b>]
    requires { PlacesRise held.now }
    ensures { result.now ≡ filter (stands_at place) held.now }
{
    equal_range(held, |shard| shard.place().cmp(&place))
}

/// The contents with this head, which stand side by side.
pub(crate) fn part_with<'a>(contents: &'a [[u8; 992]], head: [u8; 18]) -> &'a [[u8; 992]]
    requires { HeadsRise contents.now }
    ensures { result.now ≡ filter (begins_with head) contents.now }
{
    equal_range(contents, |content| head_of(content).cmp(&head))
}

/// Adds one part.
pub(crate) fn push_part<'a, T>(parts: &mut Vec<&'a [T]>, part: &'a [T]) -> Result<(), NoMemory>
    ensures { OnOk result (parts.new.items ≡ parts.old.items ++ part.entry ∷ []) }
{
    match parts.push(part) {
        Ok(()) => Ok(()),
        Err(_) => Err(NoMemory),
    }
}

/// The object id, the number and the count of a content.
pub(crate) fn head_of(content: &[u8; 992]) -> [u8; 18]
    ensures { result ≡ head_of content.now }
{
    let mut head = [0; 18];
    head.copy_from_slice(&content[..18]);
    head
}
