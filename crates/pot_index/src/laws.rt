//! What is proved of the log of an index as a whole.
ghost use Rattle.pot_index.specs.Laws.{NamesKept, IndexLogsGoOn, IndexLogsWentOn};
ghost use Rattle.pot_index.specs.Laws.{IndexLogsLeadOnce};
ghost use Rattle.pot_index.specs.Laws.{ReservedStays, EndedStays, PublishedOnce, RecordsStay};
ghost use Rattle.pot_index.specs.Laws.{SplitsStay, OwedNeverFalls, CountsReserved, FewPublished};

/// What the replay of a log keeps, and how logs go on. It does nothing.
pub fn index_laws()
    ensures names { NamesKept }
    ensures go_on { IndexLogsGoOn }
    ensures went_on { IndexLogsWentOn }
    ensures once { IndexLogsLeadOnce }
    ensures reserved { ReservedStays }
    ensures ended { EndedStays }
    ensures published { PublishedOnce }
    ensures records { RecordsStay }
    ensures splits { SplitsStay }
    ensures owed { OwedNeverFalls }
    ensures counted { CountsReserved }
    ensures few { FewPublished }
{}
