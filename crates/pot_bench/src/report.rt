ghost use Rattle.std.specs.Prelude.{◌≡◌};
ghost use Rattle.byteorder.specs.Endian.{big_number};
ghost use Rattle.pot_bytes.specs.Digests.{digest_bytes};

use pot_bytes::{digest_of, read_be64};
use std::io;
use std::rt::Clock;
use std::time::Instant;

/// What is timed, and over how many megabytes it goes.
#[derive(Drop)]
pub struct Timing<'a> {
    name: &'a str,
    megabytes: f64,
    begun: Instant,
}

impl<'a> Timing<'a> {
    /// The clock starts.
    pub fn start(clock: &impl Clock, name: &'a str, megabytes: f64) -> io::Result<Timing<'a>> {
        Ok(Timing {
            name,
            megabytes,
            begun: Instant::now(clock)?,
        })
    }

    /// Prints how fast it went until now.
    pub fn end(self, rt: &(impl Eprint + Clock)) -> io::Result<()> {
        let Timing {
            name,
            megabytes,
            begun,
        } = self;
        let speed = megabytes / begun.elapsed(rt)?.as_secs_f64();
        eprintln!(rt; "{name}: {speed:.1} MB/s")
    }
}

/// Prints the checksum of what was computed.
pub fn tell(rt: &impl Print, name: &str, bytes: &[u8]) -> io::Result<()> {
    println!(rt; "{name} {:016x}", checksum(bytes))
}

/// The first eight bytes of the digest, as a number.
fn checksum(bytes: &[u8]) -> u64
    ensures { result ≡ big_number 8 (digest_bytes bytes.now) }
{
    read_be64(&digest_of(bytes).bytes, 0)
}
