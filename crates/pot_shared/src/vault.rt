//! The groups and the index of a session, each under a turn.
ghost use Rattle.std.specs.Prelude.{◌≡◌};

use crate::catalog::Catalog;
use crate::member::Member;
use pot_bytes::Rack;
use pot_outside::Archive;
use pot_rows::Turns;
use std::alloc::Global;
use std::marker::Model;

/// The groups of a session, each under a turn. Contracts see the rack, and the names of the turns.
#[derive(Drop)]
pub struct Vault<A: Archive> {
    /// The shape of the archive.
    pub(crate) rack: Rack,
    /// The turn of each group, in the order of their numbers.
    pub(crate) groups: Turns<Member<A>>,
    /// The turn of the index, alone in its row.
    pub(crate) index: Turns<Catalog<A>>,
}

impl<A: Archive> Model for Vault<A> {
    ghost use Rattle.pot_shared.specs.Vaults.{VaultView, vault_view};

    ghost Value = { VaultView };

    ghost view = { λ v. vault_view v.rack v.groups.names v.index.names };
}

impl<A: Archive> Vault<A> {
    /// The shape of the archive.
    pub fn rack(&self) -> &Rack
        ensures { result.now ≡ self.now.rack }
    {
        &self.rack
    }
}

/// What a job has of a vault: a pass of each turn. Contracts see what these know.
#[derive(Drop)]
pub struct Passes<A: Archive> {
    /// A pass of each group.
    pub(crate) groups: pot_rows::Passes<Member<A>>,
    /// A pass of the index.
    pub(crate) index: pot_rows::Passes<Catalog<A>>,
}

impl<A: Archive> Model for Passes<A> {
    ghost use Rattle.pot_shared.specs.Works.{Known, known};

    ghost Value = { Known };

    ghost view = { λ p. known p.groups p.index };
}

impl<A: Archive> Passes<A> {
    /// No passes, of no turns.
    pub(crate) fn none(alloc: Global) -> Passes<A> {
        Passes {
            groups: pot_rows::Passes::none(alloc),
            index: pot_rows::Passes::none(alloc),
        }
    }
}

/// Room for the groups and the index of a vault at its end, so that a close takes no memory. A
/// vault does not hold it, since threads share the vault. Contracts see for how many groups it has
/// room.
#[derive(Drop)]
pub struct Spaces<A: Archive> {
    pub(crate) members: Vec<Member<A>>,
    pub(crate) catalogs: Vec<Catalog<A>>,
}

impl<A: Archive> Model for Spaces<A> {
    ghost use Rattle.std.specs.Prelude.{◌≡◌, ◌≤◌, ℕ, []};
    ghost use Rattle.std.specs.Vec.{vec_capacity};

    ghost Value = { ℕ };

    ghost view = { λ s. vec_capacity s.members };

    ghost invariant = { λ s.
        (s.members.items ≡ []) × (s.catalogs.items ≡ []) × (1 ≤ vec_capacity s.catalogs) };
}
