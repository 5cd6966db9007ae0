ghost use Rattle.std.specs.Prelude.{◌≡◌, ◌≤◌, length, drop, Ok};
ghost use Rattle.pot_outside.specs.Streams.{ReadsNext};

use crate::calls::Calls;
use pot_outside::{Failed, Sink, Source};
use std::alloc::Global;

/// Bytes in memory that are read as input.
#[derive(Drop)]
pub struct MemSource {
    bytes: Vec<u8>,
    at: usize,
    calls: Calls,
    ghost within: { at ≤ length bytes.items },
}

impl MemSource {
    ghost use Rattle.pot_doubles.specs.Calls.{IsFresh};
    ghost use Rattle.pot_doubles.specs.Streams.{left_of, source_calls};

    /// All these bytes are left, and the calls of these numbers are to fail.
    pub fn new(bytes: Vec<u8>, fails: Vec<u32>) -> MemSource
        ensures left { left_of result ≡ bytes.items }
        ensures calls { IsFresh (source_calls result) fails.items }
    {
        MemSource {
            bytes,
            at: 0,
            calls: Calls::new(fails),
        }
    }

    /// Whether a call found no memory. No call of a source takes any.
    pub fn starved(&self) -> bool
        ensures { result ≡ (source_calls self.now).starved }
    {
        self.calls.starved()
    }
}

impl Source for MemSource {
    ghost use Rattle.std.specs.Prelude.{◌≡◌, List, ℕ, true, IsErr, IsTrue};
    ghost use Rattle.pot_outside.specs.Counts.{Caused};
    ghost use Rattle.pot_outside.specs.Streams.{ReadsNext, Within};
    ghost use Rattle.pot_doubles.specs.Calls.{Counted};
    ghost use Rattle.pot_doubles.specs.Streams.{left_of, source_calls};

    ghost account = { record {
      tells = true;
      meaning = λ s. record { held = left_of s; faults = (source_calls s).faults };
    } };

    fn read(&mut self, into: &mut [u8]) -> Result<usize, Failed>
        ensures told { ReadsNext (left_of self.old) (left_of self.new) into.new result }
        ensures within { Within into.new result }
        ensures cause { Caused (source_calls self.old).faults (source_calls self.new).faults
            (IsErr result) }
        ensures counted { Counted (source_calls self.old) (source_calls self.new) result }
    {
        if self.calls.begin() {
            return Err(Failed);
        }
        let count = copy_front(&self.bytes[self.at..], into);
        self.at += count;
        Ok(count)
    }
}

/// Copies as many first bytes of `from` as `into` has room for, and answers how many.
fn copy_front(from: &[u8], into: &mut [u8]) -> usize
    ensures copied { ReadsNext from.now (drop result from.now) into.new (Ok result) }
    ensures fits { result ≤ length from.now }
{
    let count = into.len().min(from.len());
    into[..count].copy_from_slice(&from[..count]);
    count
}

/// Bytes in memory that are written as output.
#[derive(Drop)]
pub struct MemSink {
    written: Vec<u8>,
    calls: Calls,
}

impl MemSink {
    ghost use Rattle.std.specs.Prelude.{◌≡◌, []};
    ghost use Rattle.pot_doubles.specs.Calls.{IsFresh};
    ghost use Rattle.pot_doubles.specs.Streams.{written_to, sink_calls};

    /// Nothing is written, and the calls of these numbers are to fail.
    pub fn new(alloc: Global, fails: Vec<u32>) -> MemSink
        ensures written { written_to result ≡ [] }
        ensures calls { IsFresh (sink_calls result) fails.items }
    {
        MemSink {
            written: Vec::new(alloc),
            calls: Calls::new(fails),
        }
    }

    /// The bytes written so far.
    pub fn written(&self) -> &[u8]
        ensures { result.now ≡ written_to self.now }
    {
        &self.written
    }

    /// Whether a call found no memory. It then failed.
    pub fn starved(&self) -> bool
        ensures { result ≡ (sink_calls self.now).starved }
    {
        self.calls.starved()
    }
}

impl Sink for MemSink {
    ghost use Rattle.std.specs.Prelude.{◌≡◌, List, ℕ, true, IsErr, IsTrue};
    ghost use Rattle.pot_outside.specs.Counts.{Caused};
    ghost use Rattle.pot_outside.specs.Streams.{SinkAppends, Within, TakesSome};
    ghost use Rattle.pot_doubles.specs.Calls.{Counted};
    ghost use Rattle.pot_doubles.specs.Streams.{written_to, sink_calls};

    ghost account = { record {
      tells = true;
      meaning = λ s. record { held = written_to s; faults = (sink_calls s).faults };
    } };

    fn write(&mut self, from: &[u8]) -> Result<usize, Failed>
        ensures told { SinkAppends (written_to self.old) (written_to self.new) from.now result }
        ensures within { Within from.now result }
        ensures some { TakesSome from.now result }
        ensures cause { Caused (sink_calls self.old).faults (sink_calls self.new).faults
            (IsErr result) }
        ensures counted { Counted (sink_calls self.old) (sink_calls self.new) result }
    {
        if self.calls.begin() {
            return Err(Failed);
        }
        match self.written.extend_from_slice(from) {
            Ok(()) => Ok(from.len()),
            Err(_) => {
                self.calls.starve();
                Err(Failed)
            }
        }
    }
}

#[cfg(test)]
mod tests {
    use super::*;
    use std::test::Fail;

    #[test]
    fn sources_and_sinks(rt: HostRuntime) -> Result<(), Fail> {
        let alloc = rt.alloc();
        let mut source = MemSource::new([1, 2, 3, 4, 5].to_vec(alloc)?, [1].to_vec(alloc)?);
        let mut into = [0; 3];
        let wanted: [(Result<usize, Failed>, [u8; 3]); 5] = [
            (Ok(3), [1, 2, 3]),
            (Err(Failed), [1, 2, 3]),
            (Ok(2), [4, 5, 3]),
            (Ok(0), [4, 5, 3]),
            (Ok(0), [4, 5, 3]),
        ];
        for (answer, bytes) in wanted {
            assert_eq!(rt; source.read(&mut into), answer);
            assert_eq!(rt; into, bytes);
        }
        assert_eq!(rt; source.calls.faults(), 1);
        assert!(rt; !source.starved());

        let mut sink = MemSink::new(alloc, [1].to_vec(alloc)?);
        assert_eq!(rt; sink.write(b"ab"), Ok(2));
        assert_eq!(rt; sink.write(b"cd"), Err(Failed));
        assert_eq!(rt; sink.write(b""), Ok(0));
        assert_eq!(rt; sink.write(b"ef"), Ok(2));
        assert_eq!(rt; sink.written(), b"abef".as_slice());
        assert_eq!(rt; sink.calls.faults(), 1);
        assert!(rt; !sink.starved());
        Ok(())
    }
}
