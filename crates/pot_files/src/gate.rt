use pot_outside::Gate;

/// A gate that never waits.
#[derive(Clone, Copy, Debug)]
pub struct NoGate;

impl Gate for NoGate {
    fn before(&self, _position: u32) {}

    fn after(&self, _position: u32) {}
}
