//! What is proved of the steps of a stripe.
ghost use Rattle.std.specs.Prelude.{ℕ};
ghost use Rattle.pot_steps.specs.Ahead.{AheadFew, AheadHops, AheadNone};
ghost use Rattle.pot_steps.specs.Mending.{MendingLaw};
ghost use Rattle.pot_steps.specs.Listener.{ListenerFits, FlightHands};
ghost use Rattle.pot_steps.specs.Standing.{NextIsNext, NoneIsNoNext, StandingIsRelay, BeginHasFew};
ghost use Rattle.pot_steps.specs.Losses.{StartMakesLive, EntryKeepsLive, ActKeepsLive};
ghost use Rattle.pot_steps.specs.Losses.{LossesKeepLive};
ghost use Rattle.pot_steps.specs.GroupStep.{StartMakes, PutStepKeeps, LookStepKeeps};
ghost use Rattle.pot_steps.specs.GroupStep.{CountStepKeeps, FullStepKeeps};
ghost use Rattle.pot_steps.specs.Entries.{EntryKeeps, EntryKeepsFlight, LossesKeep};
ghost use Rattle.pot_steps.specs.RelaySteps.{LoggedKeeps, BeginStepKeeps, AdvanceStepKeeps};
ghost use Rattle.pot_steps.specs.RelaySteps.{MendStepKeeps};
ghost use Rattle.pot_steps.specs.MoveSteps.{BringStepKeeps, MoveStepKeeps};
ghost use Rattle.pot_steps.specs.Flights.{ActKeeps, LossKeepsAll};
ghost use Rattle.pot_steps.specs.Laws.{PutKeeps, LossKeeps, LossKeepsFlight, BeginKeeps, HopKeeps};
ghost use Rattle.pot_steps.specs.Laws.{MendedKeeps, RelayRebuilds, SingleParity, SingleWhole};
ghost use Rattle.pot_steps.specs.Laws.{SingleBut, WholeSums, RebuildableFilled, FillingComputed};
ghost use Rattle.pot_steps.specs.Laws.{ComputedFilling, SumGrows, SumBegins, HeardIsBlinded};

/// What keeps the law of a stripe, and what it says of a whole stripe, of a place that can be
/// rebuilt and of one parity column.
pub fn stripe_laws()
    ensures put { PutKeeps }
    ensures loss { LossKeeps }
    ensures mended { MendedKeeps }
    ensures whole { WholeSums }
    ensures rebuildable { RebuildableFilled }
    ensures single { SingleParity }
{}

/// What keeps the law of a flight, and what a relay has at its end.
pub fn flight_laws()
    ensures begins { BeginKeeps }
    ensures hop { HopKeeps }
    ensures loss { LossKeepsFlight }
    ensures rebuilds { RelayRebuilds }
    ensures sum_begins { SumBegins }
    ensures sum_grows { SumGrows }
    ensures heard { HeardIsBlinded }
{}

/// What keeps the law of every stripe of a group, and of each flight.
pub fn entry_laws()
    ensures entry { EntryKeeps }
    ensures losses { LossesKeep }
    ensures flight { EntryKeepsFlight }
{}

/// The opening makes the rules of the table and the law of every stripe hold, and a put, a look and
/// a count keep them.
pub fn group_laws()
    ensures start { StartMakes }
    ensures put { PutStepKeeps }
    ensures look { LookStepKeeps }
    ensures count { CountStepKeeps }
    ensures full { FullStepKeeps }
{}

/// What it means that an archive's count of losses rose since the group took the archive, by its
/// number. The law of the Live slots is kept whatever it means.
pub trait LossCount {
    /// That it rose by some moment.
    ghost rose: { ℕ → Type 0 };

    /// That it rose by a later one.
    ghost rose_later: { ℕ → Type 0 };
}

/// What keeps the law of the Live slots.
pub fn live_laws<L: LossCount>()
    ensures start { StartMakesLive L.rose }
    ensures entry { EntryKeepsLive L.rose }
    ensures act { ActKeepsLive L.rose }
    ensures losses { LossesKeepLive L.rose L.rose_later }
{}

/// The relays of a table as relays of its stripes.
pub fn relay_laws()
    ensures next { NextIsNext }
    ensures none { NoneIsNoNext }
    ensures standing { StandingIsRelay }
    ensures few { BeginHasFew }
{}

/// What decides whether a stripe has a filling.
pub fn filling_laws()
    ensures computed { FillingComputed }
    ensures made { ComputedFilling }
{}

/// What decides it with one parity column.
pub fn single_laws()
    ensures whole { SingleWhole }
    ensures but_one { SingleBut }
{}

/// Each entry, and any loss, keeps the law of every stripe and of every flight.
pub fn act_laws()
    ensures act { ActKeeps }
    ensures loss { LossKeepsAll }
{}

/// The steps that begin, move and end relays, and those that bring an archive and move a column,
/// keep every law.
pub fn step_laws()
    ensures logged { LoggedKeeps }
    ensures begin { BeginStepKeeps }
    ensures advance { AdvanceStepKeeps }
    ensures mend { MendStepKeeps }
    ensures bring { BringStepKeeps }
    ensures moved { MoveStepKeeps }
{}

/// How many columns a relay has yet to go over.
pub fn ahead_laws()
    ensures few { AheadFew }
    ensures hops { AheadHops }
    ensures none { AheadNone }
{}

/// A place that can be rebuilt becomes sound by a look and 2C+3 calls of `mend` with one parity
/// column, and 3C+4 with two, where no device fails, no log is full and no block is lost.
pub fn mending_laws()
    ensures { MendingLaw }
{}

/// What one archive hears of a relay fits every content of the columns that the relay went over
/// before, by a bijection of blinds. Nothing is said of what several archives hear together.
pub fn listener_laws()
    ensures hands { FlightHands }
    ensures fits { ListenerFits }
{}
