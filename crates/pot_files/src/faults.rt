ghost use Rattle.pot_outside.specs.Counts.{Caused};

/// Counts one fault more. The count stands still at its last value.
pub fn count_fault(faults: &mut u64)
    ensures { Caused faults.old faults.new (Unit {0}) }
{
    *faults = faults.saturating_add(1);
}
