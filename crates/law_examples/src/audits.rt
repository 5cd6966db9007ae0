//! Examples of the laws of audits.
ghost use Rattle.law_examples.specs.Audited.{BytesComeBack, HolderSeesTheSame};

use pot_audit::hiding_laws;
use pot_shard::place_laws;
use pot_world::run_laws;

/// Who has one of two fragments has the block of another file too (`hides` of `hiding_laws`).
pub fn audit_hides()
    ensures { HolderSeesTheSame }
{
    place_laws();
    hiding_laws();
}

/// The random bytes of that file are one for one (`returns` of `hiding_laws`).
pub fn bytes_return()
    ensures { BytesComeBack }
{
    place_laws();
    run_laws();
    hiding_laws();
}
