//! How a vault is made.
ghost use Rattle.std.specs.Prelude.{◌≡◌, ◌≤◌, ℕ, [], ◌∷◌, IfOk, IfErr, Some, length, slice_get};
ghost use Rattle.std.specs.Vec.{vec_capacity};
ghost use Rattle.pot_turn.specs.Views.{first_view};
ghost use Rattle.pot_rows.specs.Ends.{HasAllParts};
ghost use Rattle.pot_rows.specs.Parts.{RowCut};
ghost use Rattle.pot_rows.specs.Rows.{AreOf, HasMoreParts};
ghost use Rattle.pot_group.specs.Group.{view_of};
ghost use Rattle.pot_shared.specs.Ready.{AreReady};
ghost use Rattle.pot_shared.specs.Sharing.{SamePasses};

use crate::catalog::Catalog;
use crate::member::Member;
use crate::vault::{Passes, Spaces, Vault};
use pot_bytes::Rack;
use pot_index::Index;
use pot_outside::Archive;
use pot_rows::Turns;
use pot_turn::NoMemory;
use std::alloc::Global;

/// Want of memory for the turns. The very groups, in their order, and the very index come back.
#[derive(Drop)]
pub struct VaultRefused<A: Archive> {
    pub members: Vec<Member<A>>,
    pub index: Index,
}

/// Puts the index under a turn, with two parts of each group's pass. Where memory is short it comes
/// back, and so do the parts.
fn share_index<A: Archive>(
    alloc: Global,
    rack: &Rack,
    groups: &Turns<Member<A>>,
    passes: &mut pot_rows::Passes<Member<A>>,
    index: Index,
    catalogs: &mut Vec<Catalog<A>>,
) -> Result<(Turns<Catalog<A>>, pot_rows::Passes<Catalog<A>>), Index>
    requires ready { AreReady rack.now groups.now.names passes.old }
    requires parts { HasMoreParts 2 passes.old }
    requires rack { index.rack ≡ rack.now }
    requires log { index.log ≡ [] }
    requires count { length groups.now.names ≡ rack.now.groups }
    requires room { (catalogs.old.items ≡ []) × (1 ≤ vec_capacity catalogs.old) }
    ensures own { AreOf groups.now.names passes.new }
    ensures left { IfOk result (λ p. RowCut 2 passes.old passes.new) }
    ensures made { IfOk result
        (λ p.
        AreOf p.0.names p.1
        × (p.1.views
        ≡ first_view []
        (record { rack = rack.now; read = index.read; names = groups.now.names })
        ∷ [])) }
    ensures refused { IfErr result (λ i. (i ≡ index) × SamePasses passes.old passes.new) }
    ensures room { (catalogs.new.items ≡ [])
        × (vec_capacity catalogs.new ≡ vec_capacity catalogs.old) }
{
    let kept = match groups.split(alloc, passes, 2) {
        Ok(kept) => kept,
        Err(NoMemory) => return Err(index),
    };
    index.logged();
    catalogs.push_reserved(Catalog { index, kept });
    match Turns::start(alloc, catalogs) {
        Ok(made) => Ok(made),
        Err(NoMemory) => {
            let Some(catalog) = catalogs.pop() else {
                unreachable!()
            };
            let Catalog { index, kept } = catalog;
            groups.join(passes, kept);
            Err(index)
        }
    }
}

impl<A: Archive> Vault<A> {
    ghost use Rattle.pot_shared.specs.Catalogs.{IsIndexReady};
    ghost use Rattle.pot_shared.specs.Sharing.{HasAllButKept, IsRackGroup, AreFirstGroupPasses};

    /// Puts each group and the index under a turn. The passes have seen all logs, and have all
    /// parts of the index's turn and all but two of each group's, which the index keeps. The group
    /// at place g has number g and a table of the rack. The spaces are those that `close` wants.
    ///
    /// # Errors
    /// Want of memory alone. The very groups come back, in their order, and the very index.
    pub fn start(
        alloc: Global,
        rack: &Rack,
        members: Vec<Member<A>>,
        index: Index,
    ) -> Result<(Vault<A>, Passes<A>, Spaces<A>), VaultRefused<A>>
        requires count { length members.items ≡ rack.now.groups }
        requires groups { (n : ℕ) (m : _) → slice_get members.items n ≡ Some m
            → IsRackGroup rack.now n (view_of A.account.meaning m.group) }
        requires rack { index.rack ≡ rack.now }
        requires log { index.log ≡ [] }
        ensures rack { IfOk result (λ p. p.0.rack ≡ rack.now) }
        ensures count { IfOk result (λ p. length p.0.groups ≡ rack.now.groups) }
        ensures ready { IfOk result
            (λ p.
            AreReady rack.now p.0.groups p.1.groups
            × IsIndexReady rack.now p.0.groups p.0.index p.1.index) }
        ensures parts { IfOk result (λ p. HasAllButKept p.1.groups × HasAllParts p.1.index) }
        ensures first { IfOk result
            (λ p. AreFirstGroupPasses (λ m. view_of A.account.meaning m.group) members.items
            p.1.groups) }
        ensures index { IfOk result
            (λ p.
            p.1.index.views
            ≡ first_view []
            (record { rack = rack.now; read = index.read; names = p.0.groups })
            ∷ []) }
        ensures room { IfOk result (λ p. length p.0.groups ≤ p.2) }
        ensures refused { IfErr result
            (λ r.
            (r.index ≡ index) × (r.members.items ≡ members.items)) }
    {
        let mut members = members;
        let Ok(mut catalogs) = Vec::with_capacity(alloc, 1) else {
            return Err(VaultRefused { members, index });
        };
        let (groups, mut row) = match Turns::start(alloc, &mut members) {
            Ok(made) => made,
            Err(NoMemory) => {
                catalogs.destroy_empty();
                return Err(VaultRefused { members, index });
            }
        };
        match share_index(alloc, rack, &groups, &mut row, index, &mut catalogs) {
            Ok((turn, pass)) => {
                let vault = Vault {
                    rack: *rack,
                    groups,
                    index: turn,
                };
                let passes = Passes {
                    groups: row,
                    index: pass,
                };
                Ok((vault, passes, Spaces { members, catalogs }))
            }
            Err(index) => {
                catalogs.destroy_empty();
                groups.close(row, &mut members);
                Err(VaultRefused { members, index })
            }
        }
    }
}
