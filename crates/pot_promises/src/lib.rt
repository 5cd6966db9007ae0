//! What is promised of files that were stored, by what the contract of a run of the program says of
//! it.
//!
//! It has definitions and laws alone, and no code that does anything. A law is a function whose
//! `ensures` is its statement.
//!
//! 1. A run that ends with 0 or 1 is a session over the image that its desk held: each command, in
//!    a batch too, has its replies, what is written is their texts, and the desk has the image that
//!    the session left, which keeps the rules of images; the next run begins with it (`run_laws`).
//!    A run that ends otherwise is such a session too, as far as its steps came, if it closed at
//!    all (`may_close`). A careful one that ended with 5 or with 8 kept the image (`careful`).
//!    Where words, image and script are in their grammars it ends so, unless an object outside
//!    failed or memory ran out (`answered`), also over what a run left (`next_answered`). From a
//!    desk without an image, by any runs and rechecks one after the other, the desk has none or one
//!    to which sessions and rechecks lead from that of a new archive (`stay_good`). No session says
//!    of such an image that it can't be read (`never_refused`).
//! 2. Where a command stored a file and a later one of the session fetched its name, the bytes are
//!    the file (`file_laws`, `gives_back`).
//! 3. So they are where the name was fetched in a later session, whatever sessions came in between,
//!    each over the image that the one before left (`file_laws`, `gives_back_later`). Whatever its
//!    status, a run leaves the image that its desk had, a later one so, or none (`go_later`).
//!    Between sessions the desk may be rechecked: that leaves a later image so too, and none only
//!    where the desk failed (`rechecks_go_on`). The next run begins with that image
//!    (`rechecks_begin`). So 5, 9 and 12 hold across rechecks as well.
//! 4. Where a command stored a file, its job put the blocks that the stream of the seed, the
//!    session and the job gives of it; and who sees fewer of them than are needed, of some fragment
//!    of each piece, sees what every other file of that length gives as well (`veil_laws`).
//! 5. No later fetch of its name is odd by blocks of which, with the file's own, no two different
//!    ones have one digest, in its session or in a later one, until the name is renewed
//!    (`odd_laws`). So it is of a fetch in the same batch (`together`). So it is of one that found
//!    the split of a renewal, with the blocks of that split (`renewed`, `renewed_later`).
//! 6. A reply `fault` of a column comes only where an archive of that column counted a fault in the
//!    session (`fault_laws`).
//! 7. Where no archive lost a block in the session, a fetch or a renewal is answered `lost` only
//!    where too few points of a fragment lie in slots that are Live or can be mended (`lost_laws`).
//! 8. Where the archives of a group came back with their counts as they were, the opening of its
//!    table logged what the blocks say that the room meant, and nothing else (`opening_laws`).
//! 9. What the archives hold, ever held and ever heard after a session that closed, they did before
//!    it, or its logs name it: a block by its digest and its place, a sum by the relay that it
//!    belongs to (`frame_laws`, `run`). Where they held a block they hold one still, unless a write
//!    there failed or their count of losses rose. So by an older image, put back, the archives of
//!    its data slots have their blocks, whatever sessions and rechecks did since (`remain`,
//!    `older`).
//! 10. `init`, `recover`, `drill`, `generate` and `audit` answer by what their objects mean, unless
//!    an object outside failed or memory ran out: of each cause it is said which status comes, and
//!    what is written (`word_laws`).
//! 11. Each relay of a session that closed is blinded by a stretch of its job's key stream that no
//!    other relay has, of this group or of another (`stretch_laws`); and two jobs have two streams.
//! 12. A fetch of a file that was stored, in its session or in an earlier one and renewed or not,
//!    gives the file, or says `logfull` of a full log, `lost` by the rule on points, `odd` of the
//!    file's own digest, or `fault` by an archive that failed. It never says `absent`
//!    (`fetch_laws`).
//!
//! The premises on digests name texts: the file and the bytes that were fetched, or the blocks of
//! the file and those that were read. They say of these that they are equal where they have one
//! digest.
#![tactic(auto)]

ghost use Rattle.pot_promises.specs.Complete.{NextIsAnswered, RunsAreAnswered};
ghost use Rattle.pot_promises.specs.Faults.{FaultsAreCounted};
ghost use Rattle.pot_promises.specs.Fetched.{FetchAnswers};
ghost use Rattle.pot_promises.specs.Frames.{FrameOfRun};
ghost use Rattle.pot_promises.specs.Lost.{LostIsFew};
ghost use Rattle.pot_promises.specs.Odds.{NeverOdd, NeverOddLater, OddReads};
ghost use Rattle.pot_promises.specs.Openings.{OpeningsAreTrue};
ghost use Rattle.pot_promises.specs.Promises.{GivesBack, GivesBackLater};
ghost use Rattle.pot_promises.specs.Remaining.{BlocksRemainInRoom, OlderDeskFinds, ServedRemain};
ghost use Rattle.pot_promises.specs.Renewed.{NeverOddRenewed, NeverOddRenewedLater};
ghost use Rattle.pot_promises.specs.Renewed.{NeverOddTogether, RenewedShows};
ghost use Rattle.pot_promises.specs.Runs.{CarefulKeeps, DesksStayGood, NeverRefused, RechecksBegin};
ghost use Rattle.pot_promises.specs.Runs.{RechecksGoOn, RunsAreSessions, RunsGoLater, RunsGoOn};
ghost use Rattle.pot_promises.specs.Runs.{RunsMayClose};
ghost use Rattle.pot_promises.specs.Stretches.{BlindsOfRun, StreamsApart};
ghost use Rattle.pot_promises.specs.Veils.{StaysVeiled};
ghost use Rattle.pot_promises.specs.Words.{WordsAreAnswered};

/// What a run of the program is, with what the next one begins, and what a recheck between them
/// leaves. It does nothing.
pub fn run_laws()
    ensures sessions { RunsAreSessions }
    ensures may_close { RunsMayClose }
    ensures careful { CarefulKeeps }
    ensures go_on { RunsGoOn }
    ensures go_later { RunsGoLater }
    ensures rechecks_go_on { RechecksGoOn }
    ensures rechecks_begin { RechecksBegin }
    ensures stay_good { DesksStayGood }
    ensures never_refused { NeverRefused }
    ensures answered { RunsAreAnswered }
    ensures next_answered { NextIsAnswered }
{}

/// What a fetch gives of a file that was stored. It does nothing.
pub fn file_laws()
    ensures gives_back { GivesBack }
    ensures gives_back_later { GivesBackLater }
{}

/// What a fetch answers of a file that was stored, and what it never does. It does nothing.
pub fn fetch_laws()
    ensures { FetchAnswers }
{}

/// Where a reply `fault` comes from. It does nothing.
pub fn fault_laws()
    ensures { FaultsAreCounted }
{}

/// What a session may have written into its archives, what it may have let them hear, and what they
/// hold still. It does nothing.
pub fn frame_laws()
    ensures run { FrameOfRun }
    ensures remain { BlocksRemainInRoom }
    ensures served { ServedRemain }
    ensures older { OlderDeskFinds }
{}

/// Where a reply `lost` comes from. It does nothing.
pub fn lost_laws()
    ensures { LostIsFew }
{}

/// What the openings of a session log where no count rises in it. It does nothing.
pub fn opening_laws()
    ensures { OpeningsAreTrue }
{}

/// What is hidden of a stored file from those who see too few of its blocks. It does nothing.
pub fn veil_laws()
    ensures stays_veiled { StaysVeiled }
{}

/// By which blocks a fetch is odd, and by which none of a stored or a renewed file is. It does
/// nothing.
pub fn odd_laws()
    ensures odd_reads { OddReads }
    ensures never_odd { NeverOdd }
    ensures never_odd_later { NeverOddLater }
    ensures together { NeverOddTogether }
    ensures renewed_shows { RenewedShows }
    ensures renewed { NeverOddRenewed }
    ensures renewed_later { NeverOddRenewedLater }
{}

/// What the words that hold no session answer, each by its cause. It does nothing.
pub fn word_laws()
    ensures { WordsAreAnswered }
{}

/// Which bytes blind the relays of a session. It does nothing.
pub fn stretch_laws()
    ensures run { BlindsOfRun }
    ensures streams { StreamsApart }
{}
