ghost use Rattle.std.specs.Prelude.{◌≡◌, ◌<◌, ◌≤◌, ℕ, [], IfOk, length};
ghost use Rattle.std.specs.Vec.{vec_capacity};
ghost use Rattle.pot_rows.specs.Rows.{AreOf, view_at, IsIdle};
ghost use Rattle.pot_rows.specs.Ends.{HasAllParts};

use pot_rows::{Passes, Turns};
use pot_turn::Kept;
use std::alloc::Global;
use std::sync::Wait;
use std::test::Fail;

/// A list of numbers with an owner.
#[derive(Drop)]
struct Ledger {
    owner: u8,
    numbers: Vec<u32>,
}

impl Kept for Ledger {
    type Entry = u32;

    type Origin = u8;

    ghost log = { λ l. l.numbers.items };

    ghost origin = { λ l. l.owner };

    fn length(&self) -> u64 {
        self.numbers.len() as u64
    }
}

fn empty(alloc: Global, owner: u8) -> Ledger {
    Ledger {
        owner,
        numbers: Vec::new(alloc),
    }
}

/// Three turns over empty ledgers, whose owners are 7, 8 and 9, and the vector that they came in.
fn opened(alloc: Global) -> Result<(Turns<Ledger>, Passes<Ledger>, Vec<Ledger>), Fail>
    ensures own { IfOk result (λ r. AreOf r.0.names r.1 × (length r.0.names ≡ 3)) }
    ensures ready { IfOk result (λ r. IsIdle r.1 × HasAllParts r.1) }
    ensures room { IfOk result (λ r. (r.2.items ≡ []) × (3 ≤ vec_capacity r.2)) }
{
    let mut values = Vec::with_capacity(alloc, 3)?;
    values.push_reserved(empty(alloc, 7));
    values.push_reserved(empty(alloc, 8));
    values.push_reserved(empty(alloc, 9));
    let Ok((turns, passes)) = Turns::start(alloc, &mut values) else {
        return Err("no memory".into());
    };
    Ok((turns, passes, values))
}

fn write<R: Wait>(
    rt: &R,
    turns: &Turns<Ledger>,
    passes: &mut Passes<Ledger>,
    at: usize,
    number: u32,
) -> bool
    requires own { AreOf turns.now.names passes.old }
    requires within { at < length turns.now.names }
    requires idle { IsIdle passes.old }
    ensures own { AreOf turns.now.names passes.new }
    ensures idle { IsIdle passes.new }
    ensures parts { (i : ℕ) → (view_at passes.new i).parts ≡ (view_at passes.old i).parts }
{
    let mut ledger = turns.enter(rt, passes, at);
    let wrote = ledger.numbers.push(number).is_ok();
    turns.leave(passes, at, ledger);
    wrote
}

/// A second row of passes writes beside the first, and is taken in at the end.
fn write_by_two<R: Wait>(
    rt: &R,
    alloc: Global,
    turns: &Turns<Ledger>,
    passes: &mut Passes<Ledger>,
) -> bool
    requires own { AreOf turns.now.names passes.old × (length turns.now.names ≡ 3) }
    requires ready { IsIdle passes.old × HasAllParts passes.old }
    ensures own { AreOf turns.now.names passes.new }
    ensures ready { IsIdle passes.new × HasAllParts passes.new }
{
    let Ok(mut others) = turns.split(alloc, passes, 2) else {
        return false;
    };
    let first = write(rt, turns, passes, 1, 10);
    let second = write(rt, turns, &mut others, 1, 20);
    let third = write(rt, turns, &mut others, 2, 30);
    turns.tie(passes, &mut others);
    let fourth = write(rt, turns, passes, 1, 40);
    turns.join(passes, others);
    first & second & third & fourth
}

#[test]
fn ledgers_come_back_in_order_with_what_both_rows_wrote(rt: HostRuntime) -> Result<(), Fail> {
    let (turns, mut passes, mut values) = opened(rt.alloc())?;
    assert!(rt; write_by_two(&rt, rt.alloc(), &turns, &mut passes));
    turns.close(passes, &mut values);
    let wanted: [(u8, &[u32]); 3] = [(7, &[]), (8, &[10, 20, 40]), (9, &[30])];
    assert_eq!(rt; values.len(), 3);
    for (ledger, (owner, numbers)) in values.iter().zip(wanted) {
        assert_eq!(rt; ledger.owner, owner);
        assert!(rt; ledger.numbers.as_slice() == numbers, "of owner {owner}");
    }
    Ok(())
}
