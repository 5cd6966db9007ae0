//! Laws of the entries of a job, over what passes know.
ghost use Rattle.pot_turn.specs.JobLaws.{IdleLogsNothing, PartBegins, PartSplits, PartEnters};
ghost use Rattle.pot_turn.specs.JobLaws.{PartLogs, PartStays, PartsJoin, PartIsAll};

/// What a pass carries of a job over a part of its turns, call by call, and that two passes that
/// carry one part after the other carry both once they are joined.
pub fn job_laws<E, O>()
    ensures idle { IdleLogsNothing E O }
    ensures begins { PartBegins E O }
    ensures splits { PartSplits E O }
    ensures enters { PartEnters E O }
    ensures logs { PartLogs E O }
    ensures stays { PartStays E O }
    ensures joins { PartsJoin E O }
    ensures all { PartIsAll E O }
{}
