ghost use Rattle.std.specs.Prelude.{◌≡◌, ◌≤◌, IsTrue};
ghost use Rattle.pot_outside.specs.Counts.{Caused, Rose};
ghost use Rattle.pot_doubles.specs.Calls.{IsFresh, is_due, begun, starving, failing, covering};

/// The calls of a double so far: which ones are to fail, and how often it failed.
#[derive(Drop)]
pub struct Calls {
    fails: Vec<u32>,
    made: u64,
    faults: u64,
    starved: bool,
}

impl Calls {
    /// No call was made, and those of these numbers are to fail.
    pub fn new(fails: Vec<u32>) -> Calls
        ensures { IsFresh result fails.items }
    {
        Calls {
            fails,
            made: 0,
            faults: 0,
            starved: false,
        }
    }

    /// Whether the next call is to fail.
    fn is_due(&self) -> bool
        ensures { result ≡ is_due self.now }
    {
        self.fails
            .iter()
            .any(|number| u64::from(*number) == self.made)
    }

    /// Begins a call, and says whether it is to fail. It then counts a fault.
    pub fn begin(&mut self) -> bool
        ensures due { result ≡ is_due self.old }
        ensures counted { self.new ≡ begun self.old }
        ensures cause { Caused self.old.faults self.new.faults (IsTrue result) }
    {
        let due = self.is_due();
        self.made = self.made.saturating_add(1);
        if due {
            self.faults = self.faults.saturating_add(1);
        }
        due
    }

    /// Counts a fault for a call that fails for another reason.
    pub fn fail(&mut self)
        ensures counted { self.new ≡ failing self.old }
        ensures cause { Caused self.old.faults self.new.faults (Unit {0}) }
    {
        self.faults = self.faults.saturating_add(1);
    }

    /// Counts a fault for a call that found no memory.
    pub fn starve(&mut self)
        ensures counted { self.new ≡ starving self.old }
        ensures cause { Caused self.old.faults self.new.faults (Unit {0}) }
    {
        self.faults = self.faults.saturating_add(1);
        self.starved = true;
    }

    /// Counts a fault where another count rose from `before` to `now`.
    pub fn cover(&mut self, before: u64, now: u64)
        ensures covers { Rose before now → Rose self.old.faults self.new.faults }
        ensures later { self.old.faults ≤ self.new.faults }
        ensures counted { self.new ≡ covering before now self.old }
    {
        if before < now || now == u64::MAX {
            self.faults = self.faults.saturating_add(1);
        }
    }

    /// The number of the call that comes next.
    pub fn number(&self) -> u64
        ensures { result ≡ self.now.made }
    {
        self.made
    }

    /// How often the double failed.
    pub fn faults(&self) -> u64
        ensures { result ≡ self.now.faults }
    {
        self.faults
    }

    /// Whether a call found no memory and had no answer for that.
    pub fn starved(&self) -> bool
        ensures { result ≡ self.now.starved }
    {
        self.starved
    }
}
