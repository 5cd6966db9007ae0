//! What is told after a session: of each archive, how many of its blocks the session found gone.

use crate::ailing::what_mends;
use crate::archives::named;
use crate::stop::Stop;
use crate::visit::Visit;
use pot_report::Holding;

/// Tells how many blocks of each archive were lost from one moment to a later one, by the desk, and
/// what mends them. Those that the command goes on without are passed over.
pub fn tell_losses(visit: &Visit, before: &[Holding], after: &[Holding]) -> Result<(), Stop> {
    for holding in after.iter() {
        let lost = lost_since(before, holding);
        if lost > 0 && !visit.without.contains(&holding.archive) {
            tell_loss(visit, holding, lost)?;
        }
    }
    Ok(())
}

// How many blocks of an archive that are to be mended came to those of before. Of one that came in
// the meantime there are none.
fn lost_since(before: &[Holding], holding: &Holding) -> u32 {
    match before.iter().find(|old| old.archive == holding.archive) {
        Some(old) => holding.to_mend().saturating_sub(old.to_mend()),
        None => 0,
    }
}

fn tell_loss(visit: &Visit, holding: &Holding, lost: u32) -> Result<(), Stop> {
    let rt = &visit.rt;
    let name = named(visit, holding.archive)?;
    let mend = what_mends(visit.alloc(), holding)?;
    let _ = eprintln!(rt; "pots: {name}: {lost} blocks were found gone in this session; {mend}");
    Ok(())
}
