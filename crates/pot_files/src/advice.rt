ghost use Rattle.std.specs.Prelude.{◌≡◌, IsSome, IsSomeAnd, codes};
ghost use Rattle.pot_files.specs.Advice.{HasAdvice, TellsAdvice};

/// The line on standard error for an exit status: what happened, and what to do. None for a status
/// that says how a session went, which its output tells.
pub fn advice_at(status: u8) -> Option<&'static str>
    ensures only { IsSome result → HasAdvice status }
    ensures source { status ≡ 4 → IsSomeAnd result (λ line. TellsAdvice (codes "standard input or the system's random bytes could not be read") line.now) }
    ensures sink { status ≡ 5 → IsSomeAnd result (λ line. TellsAdvice (codes "standard output could not be written") line.now) }
    ensures desk { status ≡ 6 → IsSomeAnd result (λ line. TellsAdvice (codes "the desk could not be locked, read or replaced") line.now) }
    ensures room { status ≡ 8 → IsSomeAnd result (λ line. TellsAdvice (codes "an archive file could not be opened, read or synced") line.now) }
    ensures memory { status ≡ 70 → IsSomeAnd result (λ line. TellsAdvice (codes "memory ran out") line.now) }
{
    match status {
        4 => Some(
            "potshards: standard input or the system's random bytes could not be read: nothing was stored; give it an input that can be read, and run it again",
        ),
        5 => Some(
            "potshards: standard output could not be written: commands may have been worked without their replies, and without --careful yes what they stored may be lost; give it an output that is open and has room, and see what list names",
        ),
        6 => Some(
            "potshards: the desk could not be locked, read or replaced: see that no other run works in this folder and that desk.pss and desk.lock can be written and desk.psi can be read, and run it again; what it stored may have to be stored again",
        ),
        8 => Some(
            "potshards: an archive file could not be opened, read or synced: see that each archive-N can be read and written and that its disk has room, and run it again; without --careful yes what it said was stored may have to be stored again",
        ),
        70 => Some(
            "potshards: memory ran out: give it more memory or a shorter script, and run it again; what it stored may have to be stored again",
        ),
        _ => None,
    }
}
