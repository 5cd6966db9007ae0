//! What each reply says of the logs that a session keeps.
//!
//! A session's logs are what the opening logged, and then a section for each step of the script, a
//! batch being one step. A reply is judged on the section of its step and on what stood before, by
//! a row of specs/: one record for each reply, which names the job's own entries, and the points of
//! a log at which an answer was given that logged nothing.
//!
//! 1. In a section stand the entries of its step's jobs alone (`IsOfJobs` of specs/Sections.antt),
//!    so a job's own entries in the section are those in the whole log (`session_laws`).
//! 2. A row stands however much other jobs log behind it in the section (`Widens`). Most rows speak
//!    of what the section has of the job alone, which stays the same (`section_laws`); the others
//!    have a law of their own.
//! 3. A moment is a cut of what was added behind all entries of the job (`LogPoint`), and so stays
//!    one.
//! 4. A step has two halves: the moves that its lines began, and all else (`MovesThenRest`). All
//!    lines are judged on the second, and a `migrate` line on both.
//!
//! It has definitions and laws alone. It knows no archive, no turn and no grammar: which line has
//! which row is a `ReplyTable`.
//!
//! | replies | rows |
//! |---|---|
//! | `long`, `exists`, `stored`, `fault`, `full`, `logfull g` of a store | specs/Stores.antt |
//! | `logfull index`, `names`, the lines of `status` | specs/Listings.antt |
//! | `absent`, `file`, `odd`, `lost`, `fault`, `logfull g` of a fetch | specs/Fetches.antt |
//! | `scrubbed`, `repaired`, their `fault` and `logfull g` | specs/Scrubs.antt |
//! | `replaced`, `migrated`, `noarchive`, `inuse`, their `fault` and `logfull g` | specs/Moves.antt |
//! | `renewed`, `often`, and a renewal's `fault`, `full` and `logfull` at its puts | specs/Renewals.antt |
#![tactic(auto)]

ghost use Rattle.pot_replies.specs.Digests.{ReadAsPut};
ghost use Rattle.pot_replies.specs.SessionLaws.{OwnInSections, RepliedNone, RepliedMore};
ghost use Rattle.pot_replies.specs.Laws.{MineStays, MomentStands, IndexMomentStands, FullStands};
ghost use Rattle.pot_replies.specs.Laws.{StoreLogFullStands, IndexFullStands, StoreIndexFullStands};
ghost use Rattle.pot_replies.specs.Laws.{ListedStands, StatusStands};
ghost use Rattle.pot_replies.specs.Laws.{FileStands, OddStands, LostStands, FetchFaultStands};
ghost use Rattle.pot_replies.specs.Laws.{FetchLogFullStands, LostNotFault};
ghost use Rattle.pot_replies.specs.Laws.{ScrubbedStands, ScrubFaultStands, ScrubLogFullStands};
ghost use Rattle.pot_replies.specs.Laws.{RepairedStands, RepairFaultStands, RepairLogFullStands};
ghost use Rattle.pot_replies.specs.Laws.{RenewedStands, OftenStands, OftenLateStands};
ghost use Rattle.pot_replies.specs.Laws.{RenewIndexFullStands, RenewFaultStands, RenewFullStands};
ghost use Rattle.pot_replies.specs.Laws.{RenewLogFullStands};
ghost use Rattle.pot_replies.specs.Laws.{MigratedStands, MigrateFaultStands, BeginLogFullStands};
ghost use Rattle.pot_replies.specs.Laws.{StepLogFullStands};

/// What a section has of a job stays however much others log, and so do moments.
pub fn section_laws()
    ensures mine { MineStays }
    ensures moment { MomentStands }
    ensures index_moment { IndexMomentStands }
{}

/// The replies to `store`, `list` and `status` that speak of a moment.
pub fn store_laws()
    ensures full { FullStands }
    ensures log_full { StoreLogFullStands }
    ensures index_full { IndexFullStands }
    ensures store_index_full { StoreIndexFullStands }
    ensures listed { ListedStands }
    ensures status { StatusStands }
{}

/// The replies to `fetch`.
pub fn fetch_laws()
    ensures file { FileStands }
    ensures odd { OddStands }
    ensures lost { LostStands }
    ensures fault { FetchFaultStands }
    ensures log_full { FetchLogFullStands }
    ensures either { LostNotFault }
    ensures digests { ReadAsPut }
{}

/// The replies to `scrub` and `repair`.
pub fn scrub_laws()
    ensures scrubbed { ScrubbedStands }
    ensures fault { ScrubFaultStands }
    ensures log_full { ScrubLogFullStands }
    ensures repaired { RepairedStands }
    ensures repair_fault { RepairFaultStands }
    ensures repair_log_full { RepairLogFullStands }
{}

/// The replies to `migrate`.
pub fn move_laws()
    ensures migrated { MigratedStands }
    ensures fault { MigrateFaultStands }
    ensures begin_log_full { BeginLogFullStands }
    ensures step_log_full { StepLogFullStands }
{}

/// The replies to `renew`.
pub fn renew_laws()
    ensures renewed { RenewedStands }
    ensures often { OftenStands }
    ensures often_late { OftenLateStands }
    ensures index_full { RenewIndexFullStands }
    ensures fault { RenewFaultStands }
    ensures full { RenewFullStands }
    ensures log_full { RenewLogFullStands }
{}

/// The table of replies of a kind of script.
pub trait ReplyTable {
    /// A line of the script that has a reply.
    type Line;

    type Reply;

    ghost use Rattle.std.specs.Prelude.{ℕ, List};
    ghost use Rattle.pot_replies.specs.Sections.{Section, MovesThenRest};

    // Which replies a line has, given its job, the section of its step and the halves of that.
    ghost answers: { ℕ → Self.Line → List Self.Reply → (w : Section) → MovesThenRest w → Type 0 };
}

/// A session step by step, for any table of replies.
pub fn session_laws<R: ReplyTable>()
    ensures own { OwnInSections R.Line }
    ensures none { RepliedNone R.answers }
    ensures more { RepliedMore R.answers }
{}
