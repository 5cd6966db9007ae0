//! How a vault ends.
ghost use Rattle.std.specs.Prelude.{◌≡◌, ◌≤◌, [], length};
ghost use Rattle.pot_rows.specs.Ends.{HasAllParts};
ghost use Rattle.pot_rows.specs.Rows.{view_at};

use crate::catalog::Catalog;
use crate::member::Member;
use crate::vault::{Passes, Spaces, Vault};
use pot_index::Index;
use pot_outside::Archive;

/// What a vault was: the groups in the order of their numbers, and the index.
#[derive(Drop)]
pub struct Closed<A: Archive> {
    pub members: Vec<Member<A>>,
    pub index: Index,
}

impl<A: Archive> Vault<A> {
    ghost use Rattle.pot_group.specs.Group.{view_of};
    ghost use Rattle.pot_shared.specs.Members.{kept_log, origin_of};
    ghost use Rattle.pot_shared.specs.Ready.{AreReady};
    ghost use Rattle.pot_shared.specs.Catalogs.{IsIndexReady};
    ghost use Rattle.pot_shared.specs.Sharing.{HasAllButKept, EndsVault};

    /// Ends the turns with passes that have all parts but those of the kept ones, and hands out the
    /// groups and the index. It takes no memory, since the spaces that `start` made have room.
    pub fn close(self, passes: Passes<A>, spaces: Spaces<A>) -> Closed<A>
        requires ready { AreReady self.rack self.groups passes.groups }
        requires index { IsIndexReady self.rack self.groups self.index passes.index }
        requires parts { HasAllButKept passes.groups × HasAllParts passes.index }
        requires room { length self.groups ≤ spaces }
        ensures { EndsVault (λ m. kept_log (view_of A.account.meaning m.group))
            (λ m. origin_of (view_of A.account.meaning m.group)) self.rack self.groups passes.groups
            (view_at passes.index 0) result.members.items result.index }
    {
        let Vault {
            rack: _,
            groups,
            index,
        } = self;
        let Spaces {
            mut members,
            mut catalogs,
        } = spaces;
        let Passes {
            groups: mut row,
            index: pass,
        } = passes;
        index.close(pass, &mut catalogs);
        let Some(catalog) = catalogs.pop() else {
            unreachable!()
        };
        catalogs.destroy_empty();
        catalog.rules();
        let Catalog { index, kept } = catalog;
        groups.join(&mut row, kept);
        groups.close(row, &mut members);
        Closed { members, index }
    }
}
