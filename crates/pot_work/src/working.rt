//! Workers at a line of jobs.
ghost use Rattle.std.specs.Prelude.{◌≡◌, ◌<◌, ◌≤◌, ◌-◌, ◌^◌, ◌++◌, ℕ, [], length, vec_capacity};
ghost use Rattle.crossbeam_queue.specs.Passes.{view, IsPassOf, ruled_capacity};
ghost use Rattle.pot_work.specs.Claims.{hand, all_parts, times};
ghost use Rattle.pot_work.specs.Works.{AreFresh, AreWorked, HasFinished, ArePlaced, AllPlaced};
ghost use Rattle.pot_work.specs.Works.{Each};
ghost use Rattle.pot_work.specs.Rooms.{AreRooms, IsHired, IsRoom};

use crate::Job;
use crate::claims::{Claim, Joins, Line, Parts, Takes};
use crate::placing::{gather, place_finished};
use crate::rooms::{Rooms, Worker};
use pot_outside::Gate;
use std::sync::Wait;
use std::thread;
use std::thread::Threads;

/// Works a job between the two calls of the gate for its position.
fn work_one<J: Job, W: Gate>(job: &mut J, position: u32, gate: &W)
    requires fresh { ¬ (J.done job.old) }
    ensures done { J.done job.new }
    ensures left { J.related job.old job.new }
{
    gate.before(position);
    job.work();
    gate.after(position);
}

/// Takes one position of the line after another and works its job, until the line is empty.
fn work_until_empty<J: Job, W: Gate, R: Wait>(
    rt: &R,
    line: &Line<J>,
    gate: &W,
    worker: &mut Worker<J>,
)
    requires own { IsPassOf line.now worker.old.claim }
    requires hired { IsHired J.done (view worker.old.claim) worker.old }
    ensures own { IsPassOf line.now worker.new.claim }
    ensures worked { HasFinished J.done J.related (view worker.old.claim) (view worker.new.claim)
        worker.new.finished.items }
    ensures all { (view worker.old.claim).parts ≡ all_parts → (p : ℕ) →
        p < length (view worker.old.claim).jobs → times p (view worker.new.claim).taken ≡ 1 }
{
    for _ in rt.forever() {
        let Some((position, mut job)) = line.pop_as::<Takes, R>(rt, &mut worker.claim) else {
            return;
        };
        work_one(&mut job, position, gate);
        worker.finished.push_reserved((position, job));
    }
    unreachable!()
}

/// Puts the jobs in line, in order.
fn line_up<J: Job + Drop, R: Wait>(rt: &R, line: &Line<J>, claim: &mut Claim<J>, jobs: Vec<J>)
    requires own { IsPassOf line.now claim.old }
    requires first { view claim.old ≡ hand all_parts [] [] }
    requires room { ruled_capacity line.now ≡ length jobs.items }
    requires few { length jobs.items < 2 ^ 32 }
    ensures own { IsPassOf line.now claim.new }
    ensures lined { view claim.new ≡ hand all_parts jobs.items [] }
{
    let mut jobs = jobs.into_iter();
    let mut position = 0;
    while let Some(job) = jobs.next() {
        let Ok(()) = line.push_as::<Joins, R>(rt, claim, (position, job)) else {
            unreachable!()
        };
        position += 1;
    }
}

/// Gives each room a worker with one part of the line.
fn hire<J: Job + Drop>(
    line: &Line<J>,
    claim: &mut Claim<J>,
    mut rooms: Vec<Vec<(u32, J)>>,
    workers: &mut Vec<Worker<J>>,
)
    requires own { IsPassOf line.now claim.old }
    requires parts { ((view claim.old).parts ≡ all_parts) × ((view claim.old).taken ≡ []) }
    requires fresh { AreFresh J.done (view claim.old).jobs }
    requires few { length rooms.items < all_parts }
    requires rooms { Each (IsRoom (length (view claim.old).jobs)) rooms.items }
    requires none { workers.old.items ≡ [] }
    requires room { length rooms.items ≤ vec_capacity workers.old }
    ensures own { IsPassOf line.now claim.new }
    ensures left { view claim.new ≡ hand (all_parts - length rooms.items) (view claim.old).jobs [] }
    ensures hired { Each (λ w. IsPassOf line.now w.claim ×
        IsHired J.done (hand 1 (view claim.old).jobs []) w) workers.new.items }
    ensures many { length workers.new.items ≡ length rooms.items }
{
    while let Some(finished) = rooms.pop() {
        let claim = line.another::<Parts>(claim);
        workers.push_reserved(Worker { claim, finished });
    }
}

/// Takes the claims of the workers back, and puts what they finished at its place.
fn dismiss<J: Job + Drop>(
    line: &Line<J>,
    claim: &mut Claim<J>,
    mut workers: Vec<Worker<J>>,
    places: &mut Vec<Option<J>>,
)
    requires own { IsPassOf line.now claim.old }
    requires parts { view claim.old
        ≡ hand (all_parts - length workers.items) (view claim.old).jobs [] }
    requires few { length workers.items < all_parts }
    requires worked { Each (λ w. IsPassOf line.now w.claim ×
        HasFinished J.done J.related (hand 1 (view claim.old).jobs []) (view w.claim) w.finished.items) workers.items }
    requires places { length places.old.items ≡ length (view claim.old).jobs }
    ensures own { IsPassOf line.now claim.new }
    ensures all { ((view claim.new).parts ≡ all_parts)
        × ((view claim.new).jobs ≡ (view claim.old).jobs) }
    ensures placed { ArePlaced J.done J.related (view claim.old).jobs (view claim.new).taken
        places.new.items }
{
    while let Some(worker) = workers.pop() {
        let Worker {
            claim: other,
            finished,
        } = worker;
        line.absorb::<Parts>(claim, other);
        place_finished(finished, places);
    }
}

/// Lets each worker work at the line, on a thread of its own where one can be made.
fn work_on_threads<J: Job + Send + Drop, W: Gate, R: Threads + Wait + Sync>(
    rt: &R,
    line: &Line<J>,
    gate: &W,
    claim: &Claim<J>,
    workers: &mut [Worker<J>],
)
    requires some { 0 < length workers.old }
    requires hired { Each (λ w. IsPassOf line.now w.claim ×
        IsHired J.done (hand 1 (view claim.now).jobs []) w) workers.old }
    ensures worked { Each (λ w. IsPassOf line.now w.claim ×
        HasFinished J.done J.related (hand 1 (view claim.now).jobs []) (view w.claim) w.finished.items) workers.new }
    ensures many { length workers.new ≡ length workers.old }
{
    let threads = workers.len();
    thread::for_each_mut(
        rt,
        workers,
        threads,
        &|_: usize, worker: &mut Worker<J>|
            requires { IsPassOf line.now worker.old.claim ×
                IsHired J.done (view worker.old.claim) worker.old }
            ensures { IsPassOf line.entry.now worker.new.claim ×
                HasFinished J.done J.related (view worker.old.claim) (view worker.new.claim) worker.new.finished.items }
        { work_until_empty(rt, line, gate, worker) },
    );
}

/// Works what no worker took, which is nothing, and puts it at its place: then each place has its
/// job.
fn work_what_is_left<J: Job + Drop, W: Gate, R: Wait>(
    rt: &R,
    line: &Line<J>,
    gate: &W,
    claim: Claim<J>,
    finished: Vec<(u32, J)>,
    places: &mut Vec<Option<J>>,
)
    requires own { IsPassOf line.now claim }
    requires all { (view claim).parts ≡ all_parts }
    requires fresh { AreFresh J.done (view claim).jobs }
    requires none { finished.items ≡ [] }
    requires room { length (view claim).jobs ≤ vec_capacity finished }
    requires placed { ArePlaced J.done J.related (view claim).jobs (view claim).taken
        places.old.items }
    ensures placed { AllPlaced J.done J.related (view claim).jobs places.new.items }
{
    let mut worker = Worker { claim, finished };
    work_until_empty(rt, line, gate, &mut worker);
    let Worker { claim: _, finished } = worker;
    place_finished(finished, places);
}

/// Works the jobs on the workers that there is room for, and gives them back in order.
pub fn work_in_line<J: Job + Send + Drop, W: Gate, R: Threads + Wait + Sync>(
    rt: &R,
    rooms: Rooms<J>,
    jobs: Vec<J>,
    gate: &W,
) -> Vec<J>
    requires rooms { AreRooms (length jobs.items) (length rooms.finished.items) rooms }
    requires workers { (0 < length rooms.finished.items)
        × (length rooms.finished.items < all_parts) }
    requires few { length jobs.items < 2 ^ 32 }
    requires fresh { AreFresh J.done jobs.items }
    ensures { AreWorked J.done J.related jobs.items result.items }
{
    let Rooms {
        line,
        mut claim,
        finished,
        mut workers,
        last,
        mut places,
        back,
    } = rooms;
    line_up(rt, &line, &mut claim, jobs);
    hire(&line, &mut claim, finished, &mut workers);
    work_on_threads(rt, &line, gate, &claim, workers.as_mut_slice());
    dismiss(&line, &mut claim, workers, &mut places);
    work_what_is_left(rt, &line, gate, claim, last, &mut places);
    gather(places, back)
}
