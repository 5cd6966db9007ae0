//! Which line may stand where: outside a batch, or in one that has a number of jobs still to come.

ghost use Rattle.std.specs.Prelude.{◌≡◌, ◌≤◌};
ghost use Rattle.pot_script.specs.Batches.{after_command, is_job, may_stand};

use crate::command::Command;
use crate::kind::Kind;

/// Whether a line of this kind may stand outside a batch, or where `batch` jobs are still to come.
pub fn may_stand(batch: Option<u32>, kind: Kind) -> bool
    ensures { result ≡ may_stand batch kind }
{
    match batch {
        None => !matches!(kind, Kind::End),
        Some(0) => matches!(kind, Kind::End),
        Some(_) => is_job(kind),
    }
}

// Whether it is a job that may be worked together with others.
fn is_job(kind: Kind) -> bool
    ensures { result ≡ is_job kind }
{
    matches!(
        kind,
        Kind::Store | Kind::Fetch | Kind::Scrub | Kind::Repair | Kind::Migrate | Kind::Renew
    )
}

/// Where the line after a command stands.
pub fn after_command(batch: Option<u32>, command: &Command) -> Option<u32>
    ensures { result ≡ after_command batch command.now }
{
    match (batch, command) {
        (None, Command::Together { count }) => Some(*count),
        (None, _) | (Some(_), Command::End) => None,
        (Some(left), _) => Some(left.saturating_sub(1)),
    }
}
