//! The commands on files and names, each through a connection of its own job.
ghost use Rattle.std.specs.Prelude.{◌≡◌, ◌<◌, true, MatchResult};
ghost use Rattle.pot_index.specs.Fits.{FitsGeometry};
ghost use Rattle.pot_rows.specs.Rows.{HasMoreParts};
ghost use Rattle.pot_replies.specs.Sections.{mine, IsSilent};
ghost use Rattle.pot_shared.specs.Blinds.{Blinds, most_dropped};
ghost use Rattle.pot_shared.specs.Callers.{CanCall, IfOnlyWriterFor};
ghost use Rattle.pot_shared.specs.Works.{JobWroteOnly};
ghost use Rattle.pot_store.specs.Stores.{DrawsFrom, StoreRow};
ghost use Rattle.pot_store.specs.Fetches.{AreFilled, FetchRow};
ghost use Rattle.pot_store.specs.Renewals.{RenewsFrom, RenewRow};
ghost use Rattle.pot_commands.specs.Rows.{IsListReply};

use crate::listing::list_names;
use pot_bytes::{Geometry, Name, NoMemory};
use pot_outside::Archive;
use pot_pads::PadStream;
use pot_script::Reply;
use pot_shared::{Caller, Passes};
use pot_store::{
    FetchFault, RenewFileFault, StoreFault, Stored, fetch_file, renew_file, store_file,
};
use std::sync::Wait;

/// Stores a file, as `store_file`.
///
/// # Errors
/// Those of `store_file`.
pub(crate) fn store<A: Archive, X: Wait>(
    caller: &Caller<'_, A, X>,
    passes: &mut Passes<A>,
    name: &Name,
    file: &[u8],
    pads: PadStream,
) -> Result<Stored, StoreFault>
    requires can { CanCall caller.now.vault.now passes.old }
    requires parts { HasMoreParts 1 passes.old.groups }
    requires job { 0 < caller.now.job }
    ensures can { CanCall caller.now.vault.now passes.new }
    ensures worked { JobWroteOnly caller.now.job passes.old passes.new }
    ensures says { IfOnlyWriterFor caller.now passes.old passes.new
        (λ s w. DrawsFrom s pads caller.now.job file.now
        → StoreRow s caller.now.job name.now file.now result w) }
{
    let mut connection = caller.connection(passes);
    let stored = store_file(&mut connection, name, file, pads);
    *passes = connection.end();
    stored
}

/// Fetches a file, as `fetch_file`.
///
/// # Errors
/// Those of `fetch_file`.
pub(crate) fn fetch<A: Archive, X: Wait>(
    caller: &Caller<'_, A, X>,
    passes: &mut Passes<A>,
    name: &Name,
    pads: &mut PadStream,
) -> Result<Vec<u8>, FetchFault>
    requires can { CanCall caller.now.vault.now passes.old }
    requires parts { HasMoreParts 1 passes.old.groups }
    requires job { 0 < caller.now.job }
    ensures can { CanCall caller.now.vault.now passes.new }
    ensures worked { JobWroteOnly caller.now.job passes.old passes.new }
    ensures says { IfOnlyWriterFor caller.now passes.old passes.new
        (λ s w. s.mends ≡ true → AreFilled s → FetchRow s caller.now.job name.now result w) }
    ensures blinds { Blinds caller.now.job most_dropped pads.old pads.new
        passes.old.groups passes.new.groups }
{
    let mut connection = caller.connection(passes);
    let fetched = fetch_file(&mut connection, name, pads);
    *passes = connection.end();
    fetched
}

/// Splits a file anew, as `renew_file`.
///
/// # Errors
/// Those of `renew_file`.
pub(crate) fn renew<A: Archive, X: Wait>(
    caller: &Caller<'_, A, X>,
    passes: &mut Passes<A>,
    name: &Name,
    geometry: &Geometry,
    blinds: &mut PadStream,
    pads: PadStream,
) -> Result<Stored, RenewFileFault>
    requires can { CanCall caller.now.vault.now passes.old }
    requires parts { HasMoreParts 1 passes.old.groups }
    requires job { 0 < caller.now.job }
    requires geometry { FitsGeometry caller.now.vault.now.rack geometry.now }
    ensures can { CanCall caller.now.vault.now passes.new }
    ensures worked { JobWroteOnly caller.now.job passes.old passes.new }
    ensures says { IfOnlyWriterFor caller.now passes.old passes.new
        (λ s w. s.mends ≡ true → AreFilled s → RenewsFrom s pads geometry.now caller.now.job
        → RenewRow s caller.now.job name.now geometry.now result w) }
    ensures blinds { Blinds caller.now.job most_dropped blinds.old blinds.new
        passes.old.groups passes.new.groups }
{
    let mut connection = caller.connection(passes);
    let renewed = renew_file(&mut connection, name, geometry, blinds, pads);
    *passes = connection.end();
    renewed
}

/// Answers the published names, as `list_names`.
///
/// # Errors
/// Those of `list_names`.
pub(crate) fn list<A: Archive, X: Wait>(
    caller: &Caller<'_, A, X>,
    passes: &mut Passes<A>,
) -> Result<Reply, NoMemory>
    requires can { CanCall caller.now.vault.now passes.old }
    requires parts { HasMoreParts 1 passes.old.groups }
    requires job { 0 < caller.now.job }
    ensures can { CanCall caller.now.vault.now passes.new }
    ensures groups { passes.new.groups ≡ passes.old.groups }
    ensures worked { JobWroteOnly caller.now.job passes.old passes.new }
    ensures says { IfOnlyWriterFor caller.now passes.old passes.new
        (λ s w. MatchResult result (λ reply. IsListReply s caller.now.job reply w)
        (λ e. IsSilent (mine caller.now.job w))) }
{
    let mut connection = caller.connection(passes);
    let listed = list_names(&mut connection);
    *passes = connection.end();
    listed
}
