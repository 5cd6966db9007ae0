//! Workers: jobs that are worked at once, on threads, and come back in their order.
//!
//! A batch of jobs stands in a line (claims.rt). Each worker takes the next position of the line,
//! works its job between the two calls of the gate, and goes on until the line is empty.
//!
//! Invariants, each kept by what it names:
//! 1. each position stands in the line or was taken, once (`Claims`, the rule of the line), so
//!    whichever worker took which, every job is worked once;
//! 2. what a worker finished is the work of just the positions that it took (`work_until_empty`);
//! 3. a place has the job of its position, worked, once that position was taken (`dismiss`);
//! 4. all memory is taken before the first job begins (`take_rooms`).
//!
//! Nothing is promised of which worker takes a job, of when, or that two jobs are ever worked at
//! once.
#![tactic(auto)]

ghost use Rattle.std.specs.Prelude.{◌≡◌, ◌<◌, ◌^◌, length, IfOk, IfErr};
ghost use Rattle.pot_work.specs.Works.{AreFresh, AreWorked};

mod claims;
mod placing;
mod rooms;
mod working;

use pot_outside::Gate;
use rooms::take_rooms;
use std::alloc::Global;
use std::sync::Wait;
use std::thread::Threads;
use working::work_in_line;

/// What is to be done once.
pub trait Job {
    /// Whether the job is done.
    ghost done: { Self → Type 0 };

    /// What its work leaves of a job: the job before, and the job after.
    ghost related: { Self → Self → Type 0 };

    /// Does it.
    fn work(&mut self)
        requires { ¬ (done self.old) }
        ensures done { done self.new }
        ensures left { related self.old self.new };
}

/// There was no memory for the workers. No job began, and the jobs come back.
#[derive(Drop)]
pub struct JobsRefused<J> {
    pub jobs: Vec<J>,
}

/// Works the jobs on so many workers. Each job's work is called once, between the gate's two calls
/// for its position, and the jobs come back in their order. Where a thread can't be started, its
/// worker's jobs are worked by the caller's.
///
/// # Errors
/// `JobsRefused` only for want of memory, before any job began.
pub fn together<J: Job + Send + Drop, W: Gate, R: Threads + Wait + Sync>(
    rt: &R,
    alloc: Global,
    jobs: Vec<J>,
    workers: u8,
    gate: &W,
) -> Result<Vec<J>, JobsRefused<J>>
    requires workers { 0 < workers }
    requires few { length jobs.items < 2 ^ 32 }
    requires fresh { AreFresh J.done jobs.items }
    ensures worked { IfOk result (λ back. AreWorked J.done J.related jobs.items back.items) }
    ensures refused { IfErr result (λ refused. refused.jobs.items ≡ jobs.items) }
{
    if jobs.is_empty() {
        return Ok(jobs);
    }
    match take_rooms(alloc, jobs.len(), workers) {
        Ok(rooms) => Ok(work_in_line(rt, rooms, jobs, gate)),
        Err(_) => Err(JobsRefused { jobs }),
    }
}
