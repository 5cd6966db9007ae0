//! Which archives a group uses, and as what.
ghost use Rattle.std.specs.Prelude.{◌≡◌, Some, None, find};
ghost use Rattle.pot_machine.specs.Table.{column_at, holder_of};
ghost use Rattle.pot_group.specs.Uses.{brings, brought_to, home_of, role_in, target_in};

use crate::group::Group;
use pot_machine::{Entry, GroupTable, Moving};
use pot_outside::Archive;

/// What an archive is to its column.
#[derive(Clone, Copy, PartialEq, Eq, Debug)]
pub enum Role {
    /// It serves the slots, but for those that moved on.
    Home,
    /// The column moves to it.
    Target,
    /// It was the home or the target of the column, and is neither of any column now.
    Retired,
}

/// What a group uses an archive as.
#[derive(Clone, Copy, PartialEq, Eq, Debug)]
pub struct Use {
    pub group: u8,
    pub column: u8,
    pub role: Role,
}

/// A column with this home.
#[derive(Clone, Copy, PartialEq, Eq, Debug)]
pub struct HomeAt {
    pub group: u8,
    pub column: u8,
    /// Where the column moves to, if it moves.
    pub moving: Option<u32>,
}

/// What a group tells of two archives, of which the second may replace the first.
#[derive(Clone, Copy, PartialEq, Eq, Debug)]
pub struct Trace {
    /// The column whose home the first is, if there is one.
    pub home: Option<HomeAt>,
    /// Whether the group uses the second.
    pub taken: bool,
}

impl<A: Archive> Group<A> {
    ghost use Rattle.pot_group.specs.Group.{view_of};
    ghost use Rattle.pot_group.specs.Uses.{IsTrace, IsUse};

    /// What the group uses the archive of this number as, if it does. An archive that was retired
    /// keeps its use.
    pub fn use_of(&self, number: u32) -> Option<Use>
        ensures { IsUse (view_of A.account.meaning self.now) number result }
    {
        match self.table.holder_of(number) {
            Some(column) => Some(Use {
                group: self.number,
                column,
                role: role_in(&self.table, column, number),
            }),
            None => self.retired(number),
        }
    }

    /// The column whose home is the archive `from`, and whether the archive `to` has a use in the
    /// group.
    pub fn trace(&self, from: u32, to: u32) -> Trace
        ensures { IsTrace (view_of A.account.meaning self.now) from to result }
    {
        let home = match self.table.holder_of(from) {
            Some(column) => home_of(&self.table, self.number, column, from),
            None => None,
        };
        Trace {
            home,
            taken: self.use_of(to).is_some(),
        }
    }

    /// The use of an archive that is no home and no target.
    fn retired(&self, number: u32) -> Option<Use>
        requires { holder_of self.now.table number ≡ None }
        ensures { IsUse (view_of A.account.meaning self.now) number result }
    {
        let had = match self.first.holder_of(number) {
            Some(column) => Some(column),
            None => brought_to(self.bringer(number)),
        };
        match had {
            Some(column) => Some(Use {
                group: self.number,
                column,
                role: Role::Retired,
            }),
            None => None,
        }
    }

    /// The first entry of the log that brought the archive of this number.
    fn bringer(&self, number: u32) -> Option<Entry>
        ensures { result ≡ find (brings number) self.now.log }
    {
        for entry in &self.log {
            if brings(*entry, number) {
                return Some(*entry);
            }
        }
        None
    }
}

/// Whether the archive of this number, which the column names, is its home.
fn role_in(table: &GroupTable, column: u8, number: u32) -> Role
    requires { holder_of table.now number ≡ Some column }
    ensures { result ≡ role_in (column_at table.now column) number }
{
    let columns = table.columns();
    if columns[usize::from(column)].home == number {
        Role::Home
    } else {
        Role::Target
    }
}

/// The column, which names the archive of this number, where that is its home.
fn home_of(table: &GroupTable, group: u8, column: u8, number: u32) -> Option<HomeAt>
    requires { holder_of table.now number ≡ Some column }
    ensures { result ≡ home_of group table.now column number }
{
    let columns = table.columns();
    let served = columns[usize::from(column)];
    if served.home == number {
        Some(HomeAt {
            group,
            column,
            moving: target_in(served.moving),
        })
    } else {
        None
    }
}

/// Where a column moves to.
fn target_in(moving: Option<Moving>) -> Option<u32>
    ensures { result ≡ target_in moving }
{
    match moving {
        Some(moving) => Some(moving.to),
        None => None,
    }
}

/// Whether an entry brings the archive of this number.
fn brings(entry: Entry, number: u32) -> bool
    ensures { result ≡ brings number entry }
{
    match entry {
        Entry::MoveBegin { to, .. } => to == number,
        Entry::Swapped { to, .. } => to == number,
        _ => false,
    }
}

/// The column that an entry brings an archive to.
fn brought_to(entry: Option<Entry>) -> Option<u8>
    ensures { result ≡ brought_to entry }
{
    match entry {
        Some(Entry::MoveBegin { column, .. }) => Some(column),
        Some(Entry::Swapped { column, .. }) => Some(column),
        _ => None,
    }
}
