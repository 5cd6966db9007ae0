//! What is proved of slots that are found again.
ghost use Rattle.pot_recheck.specs.Laws.{DigestsStayFound, VoidsStay, LivesStay, ListsUnsound};
ghost use Rattle.pot_recheck.specs.Laws.{RulesStayFound};
ghost use Rattle.pot_recheck.specs.Laws.{FoundOnce, TwiceIsOnce, AllFound, NoneLeft};

/// What is proved of slots that are found again. Digests stay, what is Void stays Void and nothing
/// else becomes Void, and what is Live stays Live. The list of `unsound_slots` has all slots that
/// are Lost or Broken and no others. An image keeps the rules of images. What an image comes to is
/// one image, and a second time changes nothing. Where all slots are found again, all are Live that
/// are not Void, and none is Lost or Broken. It does nothing.
pub fn recheck_laws()
    ensures digests { DigestsStayFound }
    ensures voids { VoidsStay }
    ensures lives { LivesStay }
    ensures lists { ListsUnsound }
    ensures rules { RulesStayFound }
    ensures once { FoundOnce }
    ensures twice { TwiceIsOnce }
    ensures all { AllFound }
    ensures left { NoneLeft }
{}
