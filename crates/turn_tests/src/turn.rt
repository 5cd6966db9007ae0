ghost use Rattle.std.specs.Prelude.{◌≡◌, ◌+◌, ◌<◌, ◌^◌, [], false, IfOk};
ghost use Rattle.pot_turn.specs.Passes.{view, turn_of, IsPassOf};
ghost use Rattle.pot_turn.specs.Views.{first_view};

use pot_turn::{Kept, NoMemory, Pass, Turn, TurnRefused};
use std::alloc::Global;
use std::sync::Wait;
use std::test::Fail;
use std::thread;
use std::thread::{Threads, join};
use std::time::{Clock, Duration};

/// A list of numbers with an owner. It is not `Drop`, as most values under a turn are not.
struct Ledger {
    owner: u8,
    numbers: Vec<u32>,
}

impl Kept for Ledger {
    type Entry = u32;

    type Origin = u8;

    ghost log = { λ l. l.numbers.items };

    ghost origin = { λ l. l.owner };

    fn length(&self) -> u64 {
        self.numbers.len() as u64
    }
}

fn needs_sync<X: Sync>(_x: &X) {}

fn needs_send<X: Send>(x: X) -> X
    ensures { result ≡ x }
{
    x
}

/// A turn may be shared by threads, and a pass may go from one to another.
fn crosses_threads<T: Kept + Send>(turn: &Turn<T>, pass: Pass<T>) -> Pass<T>
    ensures { result ≡ pass }
{
    needs_sync(turn);
    needs_send(pass)
}

fn opened(alloc: Global, owner: u8) -> Result<(Turn<Ledger>, Pass<Ledger>), NoMemory>
    ensures { IfOk result (λ p. IsPassOf p.0 p.1 × (view p.1 ≡ first_view [] owner)) }
{
    let numbers = Vec::new(alloc);
    Turn::new(alloc, Ledger { owner, numbers }).map_err(|refused| {
        let TurnRefused { value } = refused;
        let Ledger { owner: _, numbers } = value;
        drop(numbers);
        NoMemory
    })
}

fn write<R: Wait>(rt: &R, turn: &Turn<Ledger>, pass: &mut Pass<Ledger>, number: u32) -> bool
    requires own { IsPassOf turn.now pass.old }
    requires idle { (view pass.old).holds ≡ false }
    ensures own { IsPassOf turn.now pass.new }
    ensures idle { (view pass.new).holds ≡ false }
    ensures parts { (view pass.new).parts ≡ (view pass.old).parts }
{
    let mut ledger = turn.enter(rt, pass);
    let wrote = ledger.numbers.push(number).is_ok();
    turn.leave(pass, ledger);
    wrote
}

#[test]
fn two_passes_write_in_turn(rt: HostRuntime) -> Result<(), Fail> {
    let Ok((turn, first)) = opened(rt.alloc(), 7) else {
        return Err("no memory".into());
    };
    let mut first = crosses_threads(&turn, first);
    assert!(rt; write(&rt, &turn, &mut first, 5));
    let Ok(mut second) = turn.split(&mut first, 9) else {
        unreachable!()
    };
    assert!(rt; write(&rt, &turn, &mut second, 6));
    assert!(rt; write(&rt, &turn, &mut first, 7));
    turn.join(&mut first, second);
    assert!(rt; write(&rt, &turn, &mut first, 8));
    let Ledger { owner, numbers } = turn.close(first);
    assert_eq!(rt; owner, 7);
    assert!(rt; numbers.as_slice() == [5, 6, 7, 8].as_slice());
    Ok(())
}

/// Writes three times, and has the ledger for a while each time: whoever else wants it has to wait,
/// and to be woken.
fn write_slowly<R: Wait + Clock>(
    rt: &R,
    turn: &Turn<Ledger>,
    mut pass: Pass<Ledger>,
    number: u32,
) -> Pass<Ledger>
    requires own { IsPassOf turn.now pass }
    requires idle { (view pass).holds ≡ false }
    ensures own { IsPassOf turn.now result }
    ensures idle { (view result).holds ≡ false }
    ensures parts { (view result).parts ≡ (view pass).parts }
{
    hold_and_write(rt, turn, &mut pass, number);
    hold_and_write(rt, turn, &mut pass, number);
    hold_and_write(rt, turn, &mut pass, number);
    pass
}

fn hold_and_write<R: Wait + Clock>(
    rt: &R,
    turn: &Turn<Ledger>,
    pass: &mut Pass<Ledger>,
    number: u32,
)
    requires own { IsPassOf turn.now pass.old }
    requires idle { (view pass.old).holds ≡ false }
    ensures own { IsPassOf turn.now pass.new }
    ensures idle { (view pass.new).holds ≡ false }
    ensures parts { (view pass.new).parts ≡ (view pass.old).parts }
{
    let mut ledger = turn.enter(rt, pass);
    thread::sleep(rt, Duration::from_millis(20));
    let _wrote = ledger.numbers.push(number);
    turn.leave(pass, ledger);
}

/// Two threads write, each with a pass of its own.
fn two_write_slowly<R: Threads + Wait + Clock + Sync>(
    rt: &R,
    turn: &Turn<Ledger>,
    mut pass: Pass<Ledger>,
    number: u32,
) -> Pass<Ledger>
    requires own { IsPassOf turn.now pass }
    requires idle { (view pass).holds ≡ false }
    requires parts { 1 < (view pass).parts }
    requires fits { number < 100 }
    ensures own { IsPassOf turn.now result }
    ensures idle { (view result).holds ≡ false }
    ensures parts { (view result).parts ≡ (view pass).parts }
{
    let Ok(other) = turn.split(&mut pass, 1) else {
        unreachable!()
    };
    let (mut mine, theirs) = join(
        rt,
        || -> Pass<Ledger>
            requires { IsPassOf turn.now pass × ((view pass).holds ≡ false) }
            ensures { IsPassOf turn.entry.now result × ((view result).holds ≡ false) × ((view result).parts ≡ (view pass).parts) }
        { write_slowly(rt, turn, pass, number) },
        || -> Pass<Ledger>
            requires { IsPassOf turn.now other × ((view other).holds ≡ false) × (number < 100) }
            ensures { IsPassOf turn.entry.now result × ((view result).holds ≡ false) × ((view result).parts ≡ (view other).parts) }
        { write_slowly(rt, turn, other, number + 1) },
    );
    turn.join(&mut mine, theirs);
    mine
}

/// Four threads want the ledger while one of them has it: each that waits is woken in the end, and
/// all that they write is there.
#[test]
fn who_waits_is_woken(rt: HostRuntime) -> Result<(), Fail> {
    let Ok((turn, mut first)) = opened(rt.alloc(), 7) else {
        return Err("no memory".into());
    };
    let Ok(other) = turn.split(&mut first, 2) else {
        unreachable!()
    };
    let (mut mine, theirs) = join(
        &rt,
        || -> Pass<Ledger>
            requires { IsPassOf turn first × ((view first).holds ≡ false) × (1 < (view first).parts) }
            ensures { IsPassOf turn result × ((view result).holds ≡ false) × ((view result).parts ≡ (view first).parts) }
        { two_write_slowly(&rt, &turn, first, 0) },
        || -> Pass<Ledger>
            requires { IsPassOf turn other × ((view other).holds ≡ false) × (1 < (view other).parts) }
            ensures { IsPassOf turn result × ((view result).holds ≡ false) × ((view result).parts ≡ (view other).parts) }
        { two_write_slowly(&rt, &turn, other, 2) },
    );
    turn.join(&mut mine, theirs);
    let Ledger { owner: _, numbers } = turn.close(mine);
    for number in 0..4 {
        let written = numbers.iter().filter(|n| **n == number).count();
        assert_eq!(rt; written, 3, "of author {number}");
    }
    Ok(())
}
