ghost use Rattle.std.specs.Prelude.{◌≡◌, ◌≤◌, ◌<◌, length, IfSome};

use crate::faults::count_fault;
use pot_outside::{Failed, Sink, Source};
use std::io::{ErrorKind, Read, Stdin, Stdout, Write};

/// How often a call that a signal cut short is made again.
const TRIES: u32 = 1000;

/// Standard input.
#[derive(Drop)]
pub struct Input {
    stream: Stdin,
    faults: u64,
}

impl Input {
    pub fn new(rt: &HostRuntime) -> Input
        ensures { result.faults ≡ 0 }
    {
        Input {
            stream: rt.stdin(),
            faults: 0,
        }
    }
}

/// Reads some next bytes, or none. A read that a signal cut short is made again.
fn read_some(stream: &mut Stdin, into: &mut [u8]) -> Option<usize>
    ensures within { IfSome result (λ n. n ≤ length into.new) }
{
    for _ in 0..TRIES {
        match stream.read(into) {
            Ok(count) => return Some(count),
            Err(e) if e.kind() == ErrorKind::Interrupted => {}
            Err(_) => return None,
        }
    }
    None
}

impl Source for Input {
    ghost use Rattle.std.specs.Prelude.{◌≡◌, ℕ, List, [], false, IsErr, IsTrue};
    ghost use Rattle.pot_outside.specs.Counts.{Caused};
    ghost use Rattle.pot_outside.specs.Streams.{ReadsNext, Within};

    ghost account = { record {
      tells = false;
      meaning = λ i. record { held = []; faults = i.faults };
    } };

    fn read(&mut self, into: &mut [u8]) -> Result<usize, Failed> {
        match read_some(&mut self.stream, into) {
            Some(count) => Ok(count),
            None => {
                count_fault(&mut self.faults);
                Err(Failed)
            }
        }
    }
}

/// Standard output, unbuffered.
#[derive(Drop)]
pub struct Output {
    stream: Stdout,
    faults: u64,
}

impl Output {
    pub fn new(rt: &HostRuntime) -> Output
        ensures { result.faults ≡ 0 }
    {
        Output {
            stream: rt.stdout(),
            faults: 0,
        }
    }
}

/// Writes some first bytes, at least one where there is one, or none. A write that a signal cut
/// short before its first byte is made again.
fn write_some(stream: &mut Stdout, from: &[u8]) -> Option<usize>
    ensures within { IfSome result (λ n. n ≤ length from.now) }
    ensures some { IfSome result (λ n. 0 < length from.now → 0 < n) }
{
    for _ in 0..TRIES {
        match stream.write(from) {
            Ok(0) if !from.is_empty() => return None,
            Ok(count) => return Some(count),
            Err(e) if e.kind() == ErrorKind::Interrupted => {}
            Err(_) => return None,
        }
    }
    None
}

impl Sink for Output {
    ghost use Rattle.std.specs.Prelude.{◌≡◌, ℕ, List, [], false, IsErr, IsTrue};
    ghost use Rattle.pot_outside.specs.Counts.{Caused};
    ghost use Rattle.pot_outside.specs.Streams.{SinkAppends, Within, TakesSome};

    ghost account = { record {
      tells = false;
      meaning = λ o. record { held = []; faults = o.faults };
    } };

    fn write(&mut self, from: &[u8]) -> Result<usize, Failed> {
        match write_some(&mut self.stream, from) {
            Some(count) => Ok(count),
            None => {
                count_fault(&mut self.faults);
                Err(Failed)
            }
        }
    }
}
