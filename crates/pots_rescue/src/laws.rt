//! What is proved of parity that is kept and put back.
ghost use Rattle.pots_rescue.specs.Laws.{KeptIsPutBack, StoppedWhileKept, StoppedWhilePut};
ghost use Rattle.pots_rescue.specs.Laws.{SoundStays, KeptStays};
ghost use Rattle.pots_rescue.specs.Stopped.{StoppedBears};

/// What is proved of parity that is kept and put back. Where a parity slot held a block of the
/// desk's digest when it was kept, it holds one again once it was put back, whatever a session that
/// was stopped wrote into it. So it is where the copying was stopped, for no session had begun, and
/// where the putting back was stopped and is done once more. A block of the digest is never written
/// over, neither by a copy nor by what is put back. It does nothing.
pub fn keeping_laws()
    ensures kept { KeptIsPutBack }
    ensures while_kept { StoppedWhileKept }
    ensures while_put { StoppedWhilePut }
    ensures sound { SoundStays }
    ensures copy { KeptStays }
{}

/// What is proved of a whole table over a session that was stopped. The parity slots of the stripe
/// at its cursor were kept before, and are put back behind it. Then each slot that was sound before
/// is sound again. It does nothing.
pub fn stopping_laws()
    ensures { StoppedBears }
{}
