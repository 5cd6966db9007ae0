//! How a vault that was opened ends.
ghost use Rattle.std.specs.Prelude.{◌≡◌, ◌<◌, ◌≤◌, ◌+◌, ◌++◌, ◌^◌, ℕ, List, [], ◌∷◌, IsTrue};
ghost use Rattle.std.specs.Prelude.{length, map, flat_map};
ghost use Rattle.std.specs.Vec.{vec_capacity};
ghost use Rattle.pot_group.specs.Group.{view_of};
ghost use Rattle.pot_shelves.specs.Shelves.{numbers_of};
ghost use Rattle.pot_shared.specs.Groups.{AreEnded, IsEnded, had_by};

use crate::ending::Closed;
use crate::hand::put_back;
use crate::member::Member;
use crate::remains::Remains;
use crate::vault::{Passes, Spaces, Vault};
use pot_execution::TrackedGroup;
use pot_group::Ended;
use pot_index::IndexEnded;
use pot_outside::Archive;

/// Ends groups: their tables, their logs and their archives come to what remains, behind those that
/// are there.
pub(crate) fn end_groups<A: Archive>(members: Vec<Member<A>>, remains: &mut Remains<A>)
    requires tables { length remains.old.tables.items + length members.items
        ≤ vec_capacity remains.old.tables }
    requires logs { length remains.old.logs.items + length members.items
        ≤ vec_capacity remains.old.logs }
    requires hand { length remains.old.hand.items
        + length (flat_map (λ m. had_by (view_of A.account.meaning m.group)) members.items)
        ≤ vec_capacity remains.old.hand }
    ensures tables { remains.new.tables.items
        ≡ remains.old.tables.items ++ map (λ m. m.group.table) members.items }
    ensures logs { map (λ v. v.items) remains.new.logs.items
        ≡ map (λ v. v.items) remains.old.logs.items ++ map (λ m. m.group.log) members.items }
    ensures hand { numbers_of remains.new.hand.items
        ≡ numbers_of remains.old.hand.items
        ++ flat_map (λ m. had_by (view_of A.account.meaning m.group)) members.items }
    ensures shelves { remains.new.hand.items
        ≡ remains.old.hand.items ++ flat_map (λ m. m.group.shelves.shelves) members.items }
    ensures ended { AreEnded (IsTrue A.account.tells) (λ m. view_of A.account.meaning m.group)
        members.items }
{
    let mut members = members;
    while !members.is_empty() {
        let Member { group } = members.remove(0);
        end_group(group, remains);
    }
    members.destroy_empty();
}

/// Ends a group: its table, its log and its archives come to what remains, behind those that are
/// there.
fn end_group<A: Archive>(group: TrackedGroup<A>, remains: &mut Remains<A>)
    requires tables { length remains.old.tables.items < vec_capacity remains.old.tables }
    requires logs { length remains.old.logs.items < vec_capacity remains.old.logs }
    requires hand { length remains.old.hand.items
        + length (had_by (view_of A.account.meaning group))
        ≤ vec_capacity remains.old.hand }
    ensures tables { remains.new.tables.items ≡ remains.old.tables.items ++ group.table ∷ [] }
    ensures logs { map (λ v. v.items) remains.new.logs.items
        ≡ map (λ v. v.items) remains.old.logs.items ++ group.log ∷ [] }
    ensures hand { numbers_of remains.new.hand.items
        ≡ numbers_of remains.old.hand.items ++ had_by (view_of A.account.meaning group) }
    ensures shelves { remains.new.hand.items ≡ remains.old.hand.items ++ group.shelves.shelves }
    ensures spaces { (vec_capacity remains.new.tables ≡ vec_capacity remains.old.tables)
        × (vec_capacity remains.new.logs ≡ vec_capacity remains.old.logs)
        × (vec_capacity remains.new.hand ≡ vec_capacity remains.old.hand) }
    ensures ended { IsEnded (IsTrue A.account.tells) (view_of A.account.meaning group) }
{
    let Ended {
        table,
        log,
        shelves,
    } = group.end();
    remains.tables.push_reserved(table);
    remains.logs.push_reserved(log);
    put_back(&mut remains.hand, shelves);
}

impl<A: Archive> Vault<A> {
    ghost use Rattle.pot_outside.specs.Archives.{Meaning};
    ghost use Rattle.pot_shared.specs.Groups.{AreLow, AreServed, HaveCome, IsServedFrom};
    ghost use Rattle.pot_shared.specs.Groups.{tables_read};
    ghost use Rattle.pot_shared.specs.Hands.{AreApart, AreSame};
    ghost use Rattle.pot_shared.specs.Leaving.{AreOpened, AreShort, IsInHand, LeaveGroups};
    ghost use Rattle.pot_shared.specs.Leaving.{LeavesLogs, RoseInHand, RoseOftenInHand, still};
    ghost use Rattle.pot_shared.specs.Opening.{CanEnd};
    ghost use Rattle.pot_shared.specs.Remains.{HasSpace, IsBare};
    ghost use Rattle.pot_shared.specs.Blinded.{HaveBlinds};
    ghost use Rattle.pot_shared.specs.Works.{Known, blinds_by, section_of};

    /// Ends a vault that was opened, and takes no memory. The tables and logs of its groups, in
    /// their order, the records and the log of its index, and all archives remain, those that came
    /// since it was opened too. In which order the archives are is not told, nor what relays the
    /// tables have.
    pub fn end(self, passes: Passes<A>, spaces: Spaces<A>, remains: Remains<A>) -> Remains<A>
        requires served { (old : Known) × (numbers : List ℕ) × AreServed old passes
            × HaveCome old passes numbers × AreApart numbers × AreLow numbers }
        requires vault { CanEnd self passes spaces }
        requires bare { IsBare remains }
        requires space { HasSpace (length (tables_read passes.groups)) 512 remains }
        ensures hand { (old : Known) (numbers : List ℕ) → AreServed old passes
            → HaveCome old passes numbers
            → AreSame (numbers_of result.hand.items) numbers }
        ensures groups { (old : Known) (meant : ℕ → Meaning)
            → IsServedFrom (IsTrue A.account.tells) meant old passes
            → (left : LeaveGroups (IsTrue A.account.tells) meant
            (IsInHand A.account.meaning result.hand.items) (tables_read passes.groups)
            (map (λ v. v.items) result.logs.items) (map still result.tables.items))
            × ((job : ℕ) → 0 < job
            → HaveBlinds left job (blinds_by job old.groups passes.groups)) }
        ensures opened { (old : Known) (meant : ℕ → Meaning)
            → IsServedFrom (IsTrue A.account.tells) meant old passes
            → IsTrue A.account.tells
            → AreOpened meant (RoseInHand A.account.meaning result.hand.items meant)
            (RoseOftenInHand A.account.meaning result.hand.items meant) (tables_read passes.groups)
            (section_of old passes) }
        ensures logs { (old : Known) → AreServed old passes
            → LeavesLogs old passes self.rack (map (λ v. v.items) result.logs.items)
            result.index_log.items result.records.items }
        ensures countable { (length result.records.items < 2 ^ 32)
            × AreShort (map (λ v. v.items) result.logs.items)
            × (length result.index_log.items < 2 ^ 32) }
    {
        let Closed { members, index } = self.close(passes, spaces);
        let mut remains = remains;
        end_groups(members, &mut remains);
        let IndexEnded { records, log } = index.end();
        let Remains {
            tables,
            logs,
            records: _,
            index_log: _,
            hand,
        } = remains;
        Remains {
            tables,
            logs,
            records,
            index_log: log,
            hand,
        }
    }
}
