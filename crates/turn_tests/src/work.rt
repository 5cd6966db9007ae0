ghost use Rattle.std.specs.Prelude.{◌≡◌, ◌*◌, ◌<◌, ℕ, Some, IsSome, IfOk, length};
ghost use Rattle.pot_work.specs.Works.{AreFresh};

use pot_doubles::{OpenGate, PairGate};
use pot_outside::Gate;
use pot_work::{Job, JobsRefused, together};
use std::alloc::{AllocError, Global};
use std::sync::Wait;
use std::test::Fail;
use std::thread::Threads;

/// Squares a number.
#[derive(Drop)]
struct Square {
    number: u32,
    square: Option<u64>,
}

impl Job for Square {
    ghost done = { λ j. IsSome j.square };

    ghost related = { λ j k. (k.number ≡ j.number) × (k.square ≡ Some (j.number * j.number)) };

    fn work(&mut self) {
        let number = u64::from(self.number);
        self.square = Some(number * number);
    }
}

/// So many jobs, of the numbers from 0 on.
fn squares(alloc: Global, count: u32) -> Result<Vec<Square>, AllocError>
    ensures fresh { IfOk result (λ jobs. AreFresh (λ j. IsSome j.square) jobs.items) }
    ensures count { IfOk result (λ jobs. length jobs.items ≡ count) }
{
    let mut jobs = Vec::new(alloc);
    for number in 0..count {
        jobs.push(Square {
            number,
            square: None,
        })?;
    }
    Ok(jobs)
}

/// Whether each job has the square of its number, in order from 0 on.
fn are_in_order(jobs: &[Square]) -> bool {
    let mut number = 0;
    for job in jobs {
        if job.number != number || job.square != Some(u64::from(number) * u64::from(number)) {
            return false;
        }
        number = number.wrapping_add(1);
    }
    true
}

/// Works so many jobs on so many workers, and says whether they came back in order.
fn work_squares<W: Gate, R: Threads + Wait + Sync>(
    rt: &R,
    alloc: Global,
    count: u32,
    workers: u8,
    gate: &W,
) -> Result<bool, AllocError>
    requires { 0 < workers }
{
    let jobs = squares(alloc, count)?;
    match together(rt, alloc, jobs, workers, gate) {
        Ok(back) => Ok(back.len() == count as usize && are_in_order(&back)),
        Err(JobsRefused { jobs: _ }) => Err(AllocError),
    }
}

#[test]
fn two_jobs_run_at_once_on_two_workers(rt: HostRuntime) -> Result<(), Fail> {
    let gate = PairGate::new(50_000_000);
    assert!(rt; work_squares(&rt, rt.alloc(), 2, 2, &gate)?);
    assert!(rt; gate.met());
    Ok(())
}

#[test]
fn jobs_that_are_worked_one_after_another_never_meet(rt: HostRuntime) -> Result<(), Fail> {
    let gate = PairGate::new(1000);
    assert!(rt; work_squares(&rt, rt.alloc(), 2, 1, &gate)?);
    assert!(rt; !gate.met());
    Ok(())
}

#[test]
fn many_jobs_come_back_in_order(rt: HostRuntime) -> Result<(), Fail> {
    for workers in 1..=16u8 {
        assert!(rt; work_squares(&rt, rt.alloc(), 1024, workers, &OpenGate)?);
    }
    assert!(rt; work_squares(&rt, rt.alloc(), 0, 4, &OpenGate)?);
    assert!(rt; work_squares(&rt, rt.alloc(), 1, 16, &OpenGate)?);
    Ok(())
}
