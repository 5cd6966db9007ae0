//! A place of a vault of racks that is brought to another folder, with the archives of all racks.

use crate::commands::place::{look_for_vault, tell_brought, whole_goal};
use crate::racks::entering::Home;
use pot_image::Image;
use pots_shares::lay_shares;
use pots_sites::{Named, Sum, Way, add_sums, heal, no_sums, places_here, swap, tell_sums};
use pots_vault::{Stop, Visit, image};

/// A rack whose desk is locked until the place is where it is to be.
#[derive(Drop)]
struct Held {
    rack: u32,
    visit: Visit,
    image: Image,
}

/// Brings all archives of a place to a folder, and leaves one link. No rack works until it is
/// there.
pub fn bring_place(
    visit: &Visit,
    home: &Home,
    (named, place, folder): (&Named, u8, &str),
) -> Result<u8, Stop> {
    look_for_vault(visit, named)?;
    heal(visit, named, place)?;
    let goal = whole_goal(visit, folder)?;
    let way = Way {
        named,
        place,
        goal: goal.as_str(),
    };
    way.look_at_goal(visit)?;
    let old = way.old_folder(visit)?;
    let mut all = all_held(visit, home)?;
    for held in all.iter() {
        in_rack(visit, home, (held, &way), Step::Copy)?;
    }
    swap(visit, &way)?;
    for held in all.iter() {
        in_rack(visit, home, (held, &way), Step::Link)?;
    }
    way.end(visit)?;
    tell_brought(visit, &way, &old)?;
    lay_all(visit, home, &mut all)?;
    Ok(0)
}

// All racks, whose desks are locked.
fn all_held(visit: &Visit, home: &Home) -> Result<Vec<Held>, Stop> {
    let mut all = Vec::new(visit.alloc());
    for before in 0..home.count {
        let rack = before.saturating_add(1);
        home.enter(&visit.rt, rack)?;
        let own = held_here(visit, rack);
        home.leave(&visit.rt)?;
        all.push(own?)?;
    }
    Ok(all)
}

fn held_here(visit: &Visit, rack: u32) -> Result<Held, Stop> {
    let mut own = Visit::begin(&visit.rt, visit.json, None)?;
    own.quiet = visit.quiet;
    let image = image(&mut own)?;
    Ok(Held {
        rack,
        visit: own,
        image,
    })
}

// What is done in each rack, before the place is at its goal and after.
#[derive(Clone, Copy, PartialEq, Eq)]
enum Step {
    Copy,
    Link,
    /// Empty archives are made at the goal.
    Empty,
}

fn in_rack(visit: &Visit, home: &Home, (held, way): (&Held, &Way), step: Step) -> Result<(), Stop> {
    home.enter(&visit.rt, held.rack)?;
    let done = step_here(held, way, step);
    home.leave(&visit.rt)?;
    done
}

fn step_here(held: &Held, way: &Way, step: Step) -> Result<(), Stop> {
    let Some(named) = places_here(&held.visit.rt)? else {
        return Ok(());
    };
    named.look_at_count(&held.visit, &held.image.rack)?;
    let own = Way {
        named: &named,
        place: way.place,
        goal: way.goal,
    };
    match step {
        Step::Copy => own.copy(&held.visit, &held.image),
        Step::Empty => own.make_empty(&held.visit, &held.image),
        Step::Link => {
            own.relink(&held.visit, &held.image)?;
            own.forget(&held.visit, &held.image)
        }
    }
}

// Lays the shares of all desks anew.
fn lay_all(visit: &Visit, home: &Home, all: &mut [Held]) -> Result<(), Stop> {
    for held in all.iter_mut() {
        home.enter(&visit.rt, held.rack)?;
        let laid = lay_shares(&held.visit, &mut held.image);
        home.leave(&visit.rt)?;
        laid?;
    }
    Ok(())
}

/// Makes empty archives of all racks at the goal of a place that is gone, and has its link lead
/// there.
pub fn bring_empty(
    visit: &Visit,
    home: &Home,
    (named, place, folder): (&Named, u8, &str),
) -> Result<(), Stop> {
    let goal = whole_goal(visit, folder)?;
    let way = Way {
        named,
        place,
        goal: goal.as_str(),
    };
    way.look_at_goal(visit)?;
    let all = all_held(visit, home)?;
    for held in all.iter() {
        in_rack(visit, home, (held, &way), Step::Empty)?;
    }
    swap(visit, &way)?;
    for held in all.iter() {
        in_rack(visit, home, (held, &way), Step::Link)?;
    }
    way.end(visit)
}

/// Tells how each place stands that has a name, with the archives of all racks. A rack whose desk
/// cannot be read is left out.
pub fn tell_totals(visit: &Visit, home: &Home) -> Result<(), Stop> {
    let Some(named) = places_here(&visit.rt)? else {
        return Ok(());
    };
    let mut sums = no_sums(visit, &named)?;
    for before in 0..home.count {
        home.enter(&visit.rt, before.saturating_add(1))?;
        let added = add_here(visit, &named, &mut sums);
        home.leave(&visit.rt)?;
        match added {
            Ok(()) | Err(Stop::Said(_)) => {}
            Err(stop) => return Err(stop),
        }
    }
    if !visit.json {
        println!(visit; "all racks")?;
    }
    tell_sums(visit, &named, &sums)
}

fn add_here(visit: &Visit, named: &Named, sums: &mut [Sum]) -> Result<(), Stop> {
    let mut own = Visit::begin(&visit.rt, false, None)?;
    let image = image(&mut own)?;
    add_sums(&own, &image, (named, sums))
}
