//! The turn and its passes.
ghost use Rattle.std.specs.Prelude.{◌≡◌};
ghost use Rattle.pot_turn.specs.Rules.{slots_of};
ghost use Rattle.pot_turn.specs.Views.{IsPass, IsPass-prop};
ghost use Rattle.std.specs.Coded.{Coded-set, coded_list};

use crate::Kept;
use crate::rule::{Cut, Doze, Free, Look, Pair, Parts, Raise, Take, TurnRule};
use crate::view::Sight;
use atomic_table::{Refused, Seat, Table};
use std::alloc::{AllocFailed, Global};
use std::hint;
use std::marker::Brand;
use std::snapshot::Snapshot;
use std::sync::Wait;

/// How often a pass looks for the value before its thread sleeps: a turn is kept for a few
/// microseconds, and to be woken takes longer.
const LOOKS: u32 = 200;

/// A value that one pass at a time can have.
#[derive(Drop)]
pub struct Turn<T: Kept> {
    table: Table<Option<T>, Sight<T::Entry, T::Origin>, Snapshot<T>, TurnRule<T>, Global>,
    ghost shape: { (table.shared.table_id.words ≡ 3) × (table.shared.table_id.slots ≡ 1) },
}

/// The leave to take the value of one turn. It has no bytes, and it may be dropped; but only all
/// 2^62 parts together close the turn.
#[derive(Drop)]
pub struct Pass<T: Kept> {
    seat: Seat<Option<T>, Sight<T::Entry, T::Origin>>,
    // While it has the value, the turn's slot is out with it, and empty.
    ghost slots: { seat.me.1 ≡ slots_of seat.me.0.view.holds },
    pub ghost known: { IsPass seat.me.0.view } by { IsPass-prop (Coded-set (coded_list T.Entry.code)) seat.me.0.view },
}

/// There was no memory for a turn. The value comes back.
#[derive(Drop)]
pub struct TurnRefused<T> {
    pub value: T,
}

/// There was no memory for a pass.
#[derive(Debug, Clone, Copy, PartialEq, Eq)]
pub struct NoMemory;

impl<T: Kept> Turn<T> {
    ghost use Rattle.std.specs.Prelude.{◌≡◌, ◌≤◌, ◌<◌, ◌+◌, ◌^◌, ℕ, IfOk, IfErr, IsOk, [], length};
    ghost use Rattle.std.specs.Prelude.{true, false, Some, MatchOption};
    ghost use Rattle.pot_turn.specs.Logs.{StartsWith};
    ghost use Rattle.pot_turn.specs.Stretches.{times, IsOnceEach};
    ghost use Rattle.pot_turn.specs.Jobs.{EntriesAreCarried};
    ghost use Rattle.pot_turn.specs.Views.{stretches_of, first_view, took_view, left_view};
    ghost use Rattle.pot_turn.specs.Views.{cut_view, new_view, both_views};
    ghost use Rattle.pot_turn.specs.Passes.{view, turn_of, IsPassOf, made_with};

    /// A turn over the value, and its first pass, which has all parts and has seen the value's log.
    pub fn new(alloc: Global, value: T) -> Result<(Turn<T>, Pass<T>), TurnRefused<T>>
        ensures own { IfOk result (λ p. IsPassOf p.0 p.1) }
        ensures first { IfOk result (λ p. view p.1 ≡ first_view (T.log value) (T.origin value)) }
        ensures made { IfOk result (λ p. made_with p.0 ≡ value) }
        ensures back { IfErr result (λ r. r.value ≡ value) }
    {
        let count = value.length();
        let opened = Snapshot::of(&value);
        let mut slots = Vec::new(alloc);
        if let Err(failed) = slots.push(Some(value)) {
            slots.destroy_empty();
            let AllocFailed { value: back } = failed;
            let Some(value) = back else { unreachable!() };
            return Err(TurnRefused { value });
        }
        match Table::new(alloc, &[0, count, 0], slots, &opened) {
            Ok((table, seat)) => Ok((Turn { table }, Pass { seat })),
            Err(refused) => {
                let Refused { mut slots } = refused;
                let Some(Some(value)) = slots.pop() else {
                    unreachable!()
                };
                slots.destroy_empty();
                Err(TurnRefused { value })
            }
        }
    }

    /// Takes the value if it is at home.
    fn try_take(&self, pass: &mut Pass<T>) -> Option<T>
        requires own { IsPassOf self.now pass.old }
        requires idle { (view pass.old).holds ≡ false }
        ensures same { turn_of pass.new ≡ turn_of pass.old }
        ensures told { MatchOption result (view pass.new ≡ view pass.old)
            (λ v. StartsWith (T.log v) (view pass.old).seen × (Some (T.origin v) ≡ (view pass.old).origin)
            × (view pass.new ≡ took_view (T.log v) (view pass.old))) }
    {
        let shared = &self.table.shared;
        if shared.compare_exchange::<Take<T>>(&mut pass.seat, 0, 0, 1) == 0 {
            shared.exchange(&mut pass.seat, 0, None)
        } else {
            None
        }
    }

    /// Takes the value if it comes home within so many looks.
    fn spin(&self, pass: &mut Pass<T>) -> Option<T>
        requires own { IsPassOf self.now pass.old }
        requires idle { (view pass.old).holds ≡ false }
        ensures same { turn_of pass.new ≡ turn_of pass.old }
        ensures told { MatchOption result (view pass.new ≡ view pass.old)
            (λ v. StartsWith (T.log v) (view pass.old).seen × (Some (T.origin v) ≡ (view pass.old).origin)
            × (view pass.new ≡ took_view (T.log v) (view pass.old))) }
    {
        for _ in 0..LOOKS {
            if let Some(value) = self.try_take(pass) {
                return Some(value);
            }
            hint::spin_loop();
        }
        None
    }

    /// Sleeps while another pass has the value, and is counted meanwhile, so that whoever gives it
    /// back wakes one that sleeps.
    fn sleep<R: Wait>(&self, rt: &R, pass: &mut Pass<T>)
        requires own { IsPassOf self.now pass.old }
        ensures same { turn_of pass.new ≡ turn_of pass.old }
        ensures view { view pass.new ≡ view pass.old }
    {
        let shared = &self.table.shared;
        shared.fetch_add::<Doze>(&mut pass.seat, 2, 1);
        shared.park(rt, 0, 1);
        shared.fetch_sub::<Doze>(&mut pass.seat, 2, 1);
    }

    /// Waits for the value and takes it. Its log begins with all that the pass had seen, and the
    /// pass has then seen that log.
    pub fn enter<R: Wait>(&self, rt: &R, pass: &mut Pass<T>) -> T
        requires own { IsPassOf self.now pass.old }
        requires idle { (view pass.old).holds ≡ false }
        ensures same { turn_of pass.new ≡ turn_of pass.old }
        ensures begins { StartsWith (T.log result) (view pass.old).seen }
        ensures origin { Some (T.origin result) ≡ (view pass.old).origin }
        ensures seen { view pass.new ≡ took_view (T.log result) (view pass.old) }
    {
        for _ in rt.forever() {
            if let Some(value) = self.spin(pass) {
                return value;
            }
            self.sleep(rt, pass);
        }
        unreachable!()
    }

    /// Gives the value back. What its log has gained since `enter` is one more stretch of the pass.
    pub fn leave(&self, pass: &mut Pass<T>, value: T)
        requires own { IsPassOf self.now pass.old }
        requires had { (view pass.old).holds ≡ true }
        requires grown { StartsWith (T.log value) (view pass.old).seen }
        requires origin { Some (T.origin value) ≡ (view pass.old).origin }
        ensures same { turn_of pass.new ≡ turn_of pass.old }
        ensures left { view pass.new ≡ left_view (T.log value) (view pass.old) }
    {
        let shared = &self.table.shared;
        let length = value.length();
        let out = shared.exchange(&mut pass.seat, 0, Some(value));
        let None = out else { unreachable!() };
        shared.store::<Raise<T>>(&mut pass.seat, 1, length);
        shared.store::<Free>(&mut pass.seat, 0, 0);
        if shared.peek(2) > 0 {
            shared.wake_one(0);
        }
    }

    /// As `split`, with the number of parts as a type too, since a split of a seat takes no
    /// operand.
    fn cut<N: Parts>(&self, pass: &mut Pass<T>, parts: u64) -> Pass<T>
        requires own { IsPassOf self.now pass.old }
        requires idle { (view pass.old).holds ≡ false }
        requires some { (0 < parts) × (parts < (view pass.old).parts) × (parts ≡ N.parts) }
        ensures same { (turn_of pass.new ≡ turn_of pass.old) × (turn_of result ≡ turn_of pass.old) }
        ensures left { view pass.new ≡ cut_view parts (view pass.old) }
        ensures given { view result ≡ new_view parts (view pass.old) }
    {
        Pass {
            seat: self.table.shared.split_seat::<Cut<N>>(&mut pass.seat),
        }
    }

    /// A new pass, which has seen what the old one has, and takes these parts of it. It is never
    /// refused.
    pub fn split(&self, pass: &mut Pass<T>, parts: u64) -> Result<Pass<T>, NoMemory>
        requires own { IsPassOf self.now pass.old }
        requires idle { (view pass.old).holds ≡ false }
        requires some { (0 < parts) × (parts < (view pass.old).parts) }
        ensures succeeds { IsOk result }
        ensures same { turn_of pass.new ≡ turn_of pass.old }
        ensures left { view pass.new ≡ cut_view parts (view pass.old) }
        ensures own { IfOk result (λ p. turn_of p ≡ turn_of pass.old) }
        ensures given { IfOk result (λ p. view p ≡ new_view parts (view pass.old)) }
    {
        Ok(self.cut::<Brand>(pass, parts))
    }

    /// The pass takes in the other, which is spent: it has then seen what either had, and has the
    /// parts of both. Its own stretches stay, and those of the other stand beside them.
    pub fn join(&self, pass: &mut Pass<T>, other: Pass<T>)
        requires own { IsPassOf self.now pass.old }
        requires idle { (view pass.old).holds ≡ false }
        requires its_own { IsPassOf self.now other }
        requires its_idle { (view other).holds ≡ false }
        ensures same { turn_of pass.new ≡ turn_of pass.old }
        ensures both { view pass.new ≡ both_views (view pass.old) (view other) }
        ensures begins { StartsWith (view pass.new).seen (view pass.old).seen }
        ensures its_begins { StartsWith (view pass.new).seen (view other).seen }
        ensures alike { ((view other).opened ≡ (view pass.old).opened)
            × ((view other).origin ≡ (view pass.old).origin) }
        ensures apart { (i : ℕ) → times i (stretches_of (view pass.new)) ≤ 1 }
    {
        let shared = &self.table.shared;
        let Pass { seat: other } = other;
        shared.join_seat::<Pair>(&mut pass.seat, other);
        shared.load::<Look>(&mut pass.seat, 0);
    }

    /// Ends the turn with the pass that has all parts, and hands out the value. Every other pass is
    /// spent, so this one has seen the whole log, and each entry since `new` stands in just one of
    /// its stretches. Where no pass ever took the value, it is the very one that the turn was made
    /// with.
    pub fn close(self, pass: Pass<T>) -> T
        requires own { IsPassOf self pass }
        requires idle { (view pass).holds ≡ false }
        requires all { (view pass).parts ≡ 2 ^ 62 }
        ensures seen { T.log result ≡ (view pass).seen }
        ensures opened { StartsWith (T.log result) (view pass).opened }
        ensures origin { Some (T.origin result) ≡ (view pass).origin }
        ensures made { length (T.log result) ≡ length (view pass).opened + (view pass).made }
        ensures once { IsOnceEach (view pass).opened (T.log result) (stretches_of (view pass)) }
        ensures untouched { stretches_of (view pass) ≡ [] → result ≡ made_with self }
        ensures jobs { EntriesAreCarried (view pass) (T.log result) }
    {
        let Turn { table } = self;
        let Pass { seat } = pass;
        let mut closed = table.close_with(seat);
        let slot = closed.take(0);
        closed.free();
        let Some(value) = slot else { unreachable!() };
        value
    }
}
