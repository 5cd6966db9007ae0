//! Which rack a file goes to.
ghost use Rattle.std.specs.Prelude.{◌≡◌, MatchOption};
ghost use Rattle.pots_racks.specs.Choices.{IsChosen, IsFirstMarked, IsNoneMarked};

/// Where a file goes, by the place of the rack in the list.
#[derive(Clone, Copy, Debug, PartialEq, Eq)]
pub enum Choice {
    /// It stands in this rack, or a part of it does: it goes on there.
    Stands(usize),
    /// It stands in none, and this is the first rack with room for all of it.
    Goes(usize),
    /// It stands in none, and none has room for all of it.
    Nowhere,
}

/// Chooses the rack of a file. The first list tells of each rack whether the file stands there, the
/// second whether there is room for all of it. What a list does not tell is no.
pub fn choose(stands: &[bool], has_room: &[bool]) -> Choice
    ensures { IsChosen stands.now has_room.now result }
{
    if let Some(rack) = first(stands) {
        return Choice::Stands(rack);
    }
    match first(has_room) {
        Some(rack) => Choice::Goes(rack),
        None => Choice::Nowhere,
    }
}

// The first place that is marked.
fn first(marks: &[bool]) -> Option<usize>
    ensures { MatchOption result (IsNoneMarked marks.now) (IsFirstMarked marks.now) }
{
    for at in 0..marks.len() {
        if marks[at] {
            return Some(at);
        }
    }
    None
}
