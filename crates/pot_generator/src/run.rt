//! Over what the script of a number is run.

ghost use Rattle.std.specs.Prelude.{◌≡◌, ℕ};
ghost use Rattle.std.specs.List.{count_by};
ghost use Rattle.pot_bytes.specs.Rack.{IsRack};
ghost use Rattle.pot_generator.specs.Generated.{generated};
ghost use Rattle.pot_generator.specs.Runs.{is_replied, rack_of_runs, seed_of, workers_of_runs};

use pot_bytes::{Geometry, Rack};

/// The rack of the run.
pub fn generator_rack() -> Rack
    ensures value { result ≡ rack_of_runs }
    ensures fits { IsRack result }
{
    let geometry = Geometry {
        fragments: 2,
        need: 2,
        shards: 3,
        blur: 16,
    };
    Rack {
        groups: 4,
        columns: 3,
        parity: 1,
        stripes: 256,
        geometry,
    }
}

/// The seed of the run: 24 zeros, and then the number in 8 bytes, the highest first.
pub fn generator_seed(number: u32) -> [u8; 32]
    ensures { result ≡ seed_of number }
{
    let mut seed = [0; 32];
    seed[24..].copy_from_slice(&u64::from(number).to_be_bytes());
    seed
}

/// How many workers the run has.
pub fn generator_workers() -> u8
    ensures { result ≡ workers_of_runs }
{
    4
}

/// How many replies a run that ends has: one for each command that is replied to.
pub fn generator_replies() -> u32
    ensures { (number : ℕ) → result ≡ count_by is_replied (generated number) }
{
    76
}
