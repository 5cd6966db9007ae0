//! Relays.
ghost use Rattle.std.specs.Prelude.{◌≡◌};
ghost use Rattle.pot_machine.specs.Machine.{hopped};

/// A relay, which rebuilds one slot of a stripe.
#[derive(Clone, Copy, PartialEq, Eq, Debug)]
pub struct Relay {
    /// The stripe that it stands in.
    pub stripe: u32,
    /// The column of the slot that it rebuilds.
    pub target: u8,
    /// The other Lost slot of the stripe, if there was one when it began.
    pub skip: Option<u8>,
    /// The last column that it went over, if it went over one.
    pub last: Option<u8>,
}

impl Relay {
    /// The relay after a hop over a column, if it is this stripe's.
    pub(crate) fn hopped(self, stripe: u32, column: u8) -> Relay
        ensures { result ≡ hopped stripe column self }
    {
        Relay {
            stripe: self.stripe,
            target: self.target,
            skip: self.skip,
            last: if self.stripe == stripe {
                Some(column)
            } else {
                self.last
            },
        }
    }
}
