ghost use Rattle.std.specs.Prelude.{◌≡◌, ◌<◌, ◌≤◌, [], ◌∷◌, ◌++◌, length, slice_index};
ghost use Rattle.pot_chains.specs.Steps.{end_of};

use std::marker::Model;

/// One to 16 positions, each in the list of its point. Contracts see the list of them.
#[derive(Drop)]
pub struct Chain {
    count: u8,
    positions: [u32; 16],
}

impl Model for Chain {
    ghost use Rattle.std.specs.Prelude.{◌≡◌, ◌≤◌, List, ℕ, length, take};
    ghost use Rattle.pot_chains.specs.Steps.{IsPositionCount};

    ghost Value = { List ℕ };

    ghost view = { λ c. take c.count c.positions };

    ghost invariant = { λ c. IsPositionCount c.count c.positions };
}

impl Chain {
    /// The chain of one.
    pub fn new(first: u32) -> Chain
        ensures { result ≡ first ∷ [] }
    {
        let mut positions = [0; 16];
        positions[0] = first;
        Chain {
            count: 1,
            positions,
        }
    }

    /// How many there are.
    pub fn len(&self) -> usize
        ensures value { result ≡ length self.now }
        ensures few { result ≤ 16 }
    {
        usize::from(self.count)
    }

    /// The one at this place, from 0.
    pub fn get(&self, place: usize) -> u32
        requires inside { place < length self.now }
        requires small { place < 16 }
        ensures { result ≡ slice_index self.now place }
    {
        self.positions[place]
    }

    /// The last of it.
    pub fn end(&self) -> u32
        ensures { result ≡ end_of self.now }
    {
        self.positions[usize::from(self.count) - 1]
    }

    /// The chain with one more.
    pub fn with(&self, position: u32) -> Chain
        requires { length self.now < 16 }
        ensures { result ≡ self.now ++ position ∷ [] }
    {
        let mut positions = self.positions;
        positions[usize::from(self.count)] = position;
        Chain {
            count: self.count + 1,
            positions,
        }
    }
}
