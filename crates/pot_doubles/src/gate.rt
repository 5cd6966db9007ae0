use pot_outside::Gate;
use std::sync::atomic::{AtomicBool, Ordering};

/// A gate that never waits.
#[derive(Clone, Copy, Debug)]
pub struct OpenGate;

impl Gate for OpenGate {
    fn before(&self, _position: u32) {}

    fn after(&self, _position: u32) {}
}

/// A gate that holds the job at position 0 back until the one at position 1 is done. It stops
/// waiting after some turns of its loop, so that a run on one worker ends too.
#[derive(Drop)]
pub struct PairGate {
    limit: u64,
    second_done: AtomicBool,
    met: AtomicBool,
}

impl PairGate {
    /// A gate that waits for `limit` turns at most.
    pub fn new(limit: u64) -> PairGate {
        PairGate {
            limit,
            second_done: AtomicBool::new(false),
            met: AtomicBool::new(false),
        }
    }

    /// Whether position 0 went on because position 1 was done.
    pub fn met(&self) -> bool {
        self.met.load(Ordering::SeqCst)
    }

    /// Waits for position 1, and says whether it was done before the limit.
    fn wait(&self) -> bool {
        for _ in 0..self.limit {
            if self.second_done.load(Ordering::SeqCst) {
                return true;
            }
            std::hint::spin_loop();
        }
        self.second_done.load(Ordering::SeqCst)
    }
}

impl Gate for PairGate {
    fn before(&self, position: u32) {
        if position == 0 {
            self.met.store(self.wait(), Ordering::SeqCst);
        }
    }

    fn after(&self, position: u32) {
        if position == 1 {
            self.second_done.store(true, Ordering::SeqCst);
        }
    }
}

#[cfg(test)]
mod tests {
    use super::*;
    use std::test::Fail;

    #[test]
    fn waits_for_position_1(rt: HostRuntime) -> Result<(), Fail> {
        OpenGate.before(0);
        OpenGate.after(0);
        let gate = PairGate::new(5);
        assert!(rt; !gate.met());
        gate.before(0);
        assert!(rt; !gate.met());
        gate.after(0);
        gate.before(0);
        assert!(rt; !gate.met());
        gate.before(1);
        gate.after(1);
        gate.before(0);
        assert!(rt; gate.met());
        Ok(())
    }
}
