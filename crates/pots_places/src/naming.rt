//! The names that places may have.
ghost use Rattle.std.specs.Prelude.{◌≡◌, ◌↔◌, IsTrue, MatchOption};
ghost use Rattle.pots_places.specs.Places.{ArePlaces, IsNowhere, IsPlaceAt, IsPlaceName, are_apart};
ghost use Rattle.pots_places.specs.Places.{begins_with_letter, is_among};

use pot_bytes::Name;

/// The most places of a vault, and the fewest are two.
pub const MOST_PLACES: usize = 16;

/// Whether a place may have this name: it begins with a letter of `a-z`. So it is no list of
/// numbers, and leads into no other folder.
pub fn is_place_name(name: &Name) -> bool
    ensures { IsTrue result ↔ IsPlaceName name.now }
{
    match name.bytes() {
        [first, ..] => first.is_ascii_lowercase(),
        [] => false,
    }
}

/// Whether these are the names of the places of a vault: 2 to 16 of them, and no two alike.
pub fn are_places(names: &[Name]) -> bool
    ensures { IsTrue result ↔ ArePlaces names.now }
{
    names.len() >= 2
        && names.len() <= MOST_PLACES
        && names.iter().all(|name| is_place_name(name))
        && are_apart(names)
}

// Whether no name stands twice.
fn are_apart(names: &[Name]) -> bool
    ensures { result ≡ are_apart names.now }
{
    match names {
        [first, others @ ..] => !is_among(first, others) && are_apart(others),
        [] => true,
    }
}

// Whether a name is one of these.
fn is_among(name: &Name, names: &[Name]) -> bool
    ensures { result ≡ is_among name.now names.now }
{
    match names {
        [first, others @ ..] => first == name || is_among(name, others),
        [] => false,
    }
}

/// The number of the place that has this name. None exactly where no place has it.
pub fn place_named(names: &[Name], name: &Name) -> Option<usize>
    ensures { MatchOption result (IsNowhere names.now name.now) (IsPlaceAt names.now name.now) }
{
    for at in 0..names.len() {
        if names[at] == *name {
            return Some(at);
        }
    }
    None
}
