//! Finished jobs at their places.
ghost use Rattle.std.specs.Prelude.{◌≡◌, ◌<◌, ◌≤◌, ◌++◌, ℕ, List, [], Some, IsSome, length, map};
ghost use Rattle.std.specs.Prelude.{vec_capacity};
ghost use Rattle.pot_work.specs.Claims.{times};
ghost use Rattle.pot_work.specs.Works.{AreWorkOf, ArePlaced, AreWorked, Each};

use crate::Job;

/// Puts each of these jobs at its place.
pub fn place_finished<J: Job + Drop>(mut finished: Vec<(u32, J)>, places: &mut Vec<Option<J>>)
    requires within { Each (λ e. e.0 < length places.old.items) finished.items }
    ensures { (jobs : List J) → (taken : List ℕ) →
        ArePlaced J.done J.related jobs taken places.old.items →
        AreWorkOf J.done J.related jobs finished.items →
        ArePlaced J.done J.related jobs (taken ++ map (λ e. e.0) finished.items) places.new.items }
{
    while let Some((position, job)) = finished.pop() {
        places[position as usize] = Some(job);
    }
}

/// The jobs of all places, in order.
pub fn gather<J: Job + Drop>(places: Vec<Option<J>>, back: Vec<J>) -> Vec<J>
    requires none { back.items ≡ [] }
    requires room { length places.items ≤ vec_capacity back }
    requires full { Each IsSome places.items }
    ensures { map Some result.items ≡ places.items }
{
    let mut back = back;
    let mut places = places.into_iter();
    while let Some(place) = places.next() {
        let Some(job) = place else { unreachable!() };
        back.push_reserved(job);
    }
    back
}
