//! What is proved of the machine as a whole.
ghost use Rattle.pot_machine.specs.Laws.{SizesStay, SlotsStay, DigestsStay, DataStays, LiveByPut};
ghost use Rattle.pot_machine.specs.Laws.{CursorStays, ColumnsStay, RelaysStay, ParityVoid};
ghost use Rattle.pot_machine.specs.Laws.{RulesStay, LogsGoOn, LogsWentOn, LogsLeadOnce};
ghost use Rattle.pot_machine.specs.Laws.{ReplayedOnce};
ghost use Rattle.pot_machine.specs.Laws.{LogsComeTo, LogsComeOn, OwnInBoth, DigestsByPuts};
ghost use Rattle.pot_machine.specs.Laws.{PutsStay};

/// What each entry leaves alone, how logs go on and where they lead, and what a put fills. It does
/// nothing.
pub fn machine_laws()
    ensures sizes { SizesStay }
    ensures slots { SlotsStay }
    ensures digests { DigestsStay }
    ensures data_digests { DataStays }
    ensures live { LiveByPut }
    ensures cursor { CursorStays }
    ensures columns { ColumnsStay }
    ensures relays { RelaysStay }
    ensures parity { ParityVoid }
    ensures rules { RulesStay }
    ensures go_on { LogsGoOn }
    ensures went_on { LogsWentOn }
    ensures once { LogsLeadOnce }
    ensures replayed_once { ReplayedOnce }
    ensures come_to { LogsComeTo }
    ensures come_on { LogsComeOn }
    ensures own { OwnInBoth }
    ensures by_puts { DigestsByPuts }
    ensures puts { PutsStay }
{}
