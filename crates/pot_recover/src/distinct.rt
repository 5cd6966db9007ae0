ghost use Rattle.std.specs.Prelude.{◌≡◌, ◌↔◌, ◌⊎◌, ℕ, List, OnOk};
ghost use Rattle.std.specs.Ordering.{nat_cmp};
ghost use Rattle.std.specs.List.Sorted.{IsStrictlySortedBy};
ghost use Rattle.std.specs.Cmp.Lexicographic.{slice_cmp};
ghost use Rattle.pot_chains.specs.Listed.{IsIn};

use pot_bytes::NoMemory;

/// Puts lists of bytes in byte order, each once.
pub(crate) fn sort_distinct<const N: usize>(lists: &mut Vec<[u8; N]>)
    ensures same { (l : List ℕ) → IsIn lists.new.items l ↔ IsIn lists.old.items l }
    ensures order { IsStrictlySortedBy (slice_cmp nat_cmp) lists.new.items }
{
    lists.sort_unstable();
    lists.dedup();
}

/// Adds a list of bytes. Where there is no room, what stands there twice is dropped first, so that
/// there is room for no more than twice the distinct ones.
pub(crate) fn push_distinct<const N: usize>(
    lists: &mut Vec<[u8; N]>,
    list: [u8; N],
) -> Result<(), NoMemory>
    ensures { OnOk result
        ((l : List ℕ) → IsIn lists.new.items l ↔ (IsIn lists.old.items l ⊎ (list.entry ≡ l))) }
{
    if lists.len() == lists.capacity() {
        make_room(lists)?;
    }
    push_list(lists, list)
}

/// Drops what stands there twice, and makes room for as many again.
fn make_room<const N: usize>(lists: &mut Vec<[u8; N]>) -> Result<(), NoMemory>
    ensures { OnOk result ((l : List ℕ) → IsIn lists.new.items l ↔ IsIn lists.old.items l) }
{
    sort_distinct(lists);
    lists.reserve(lists.len() / 2 + 1)?;
    Ok(())
}

/// Adds one list.
fn push_list<const N: usize>(lists: &mut Vec<[u8; N]>, list: [u8; N]) -> Result<(), NoMemory>
    ensures { OnOk result
        ((l : List ℕ) → IsIn lists.new.items l ↔ (IsIn lists.old.items l ⊎ (list.entry ≡ l))) }
{
    match lists.push(list) {
        Ok(()) => Ok(()),
        Err(_) => Err(NoMemory),
    }
}
