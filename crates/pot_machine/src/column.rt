//! The columns of a group, and the archives that serve them.
ghost use Rattle.std.specs.Prelude.{◌≡◌, ◌<◌, IfSome};
ghost use Rattle.pot_machine.specs.Column.{names, serving};
ghost use Rattle.pot_machine.specs.Machine.{moved_on, moved_home};

/// A column on its way to another archive.
#[derive(Clone, Copy, PartialEq, Eq, Debug)]
pub struct Moving {
    /// The number of the archive that it moves to.
    pub to: u32,
    /// The position: stripes below it are at the new archive.
    pub upto: u32,
}

/// A column of a group.
#[derive(Clone, Copy, PartialEq, Eq, Debug)]
pub struct Column {
    /// The number of the archive that serves it, or served it before it began to move.
    pub home: u32,
    /// Where it moves to, if it moves.
    pub moving: Option<Moving>,
}

impl Column {
    /// Whether the archive of this number is the column's home or target.
    pub(crate) fn names(self, number: u32) -> bool
        ensures { result ≡ names self number }
    {
        match self.moving {
            None => self.home == number,
            Some(moving) => self.home == number || moving.to == number,
        }
    }

    /// The number of the archive that serves the column's slot of this stripe.
    pub(crate) fn serving(self, stripe: u32) -> u32
        ensures { result ≡ serving self stripe }
    {
        match self.moving {
            None => self.home,
            Some(moving) => {
                if stripe < moving.upto {
                    moving.to
                } else {
                    self.home
                }
            }
        }
    }

    /// A move goes on by one stripe.
    pub(crate) fn moved_on(self) -> Column
        requires { IfSome self.moving (λ m. m.upto < 4096) }
        ensures { result ≡ moved_on self }
    {
        match self.moving {
            None => self,
            Some(moving) => Column {
                home: self.home,
                moving: Some(Moving {
                    to: moving.to,
                    upto: moving.upto + 1,
                }),
            },
        }
    }

    /// The home becomes the target.
    pub(crate) fn moved_home(self) -> Column
        ensures { result ≡ moved_home self }
    {
        match self.moving {
            None => self,
            Some(moving) => Column {
                home: moving.to,
                moving: None,
            },
        }
    }
}
