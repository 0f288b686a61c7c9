// A row of places that may leave at either end.
ghost use Rattle.std.specs.Prelude.{◌≡◌, ℕ, ◌<◌, ◌≤◌, List, [], ◌∷◌, ◌++◌, length, reverse};
ghost use Rattle.picker.specs.Rows.{ring, head_of, tail_of};

use std::marker::Model;

// How many places a row may have.
pub const ROOM: usize = 128;

// A row of at most 128 places, in a ring: it begins at index `first`, and goes on at index 0 after index 127. It has
// memory of its own, where `VecDeque` and `circular_buffer` allocate, and moves no place, where taking the first out of
// an `arrayvec` moves all others.
#[derive(Drop)]
pub struct Ring {
    slots: [u8; ROOM],
    first: usize,
    len: usize,
}

// Clauses see the row.
impl Model for Ring {
    ghost Value = { List ℕ };

    ghost view = { λ r. ring r.slots r.first r.len };

    ghost invariant = { λ r. (r.first < 128) × (r.len ≤ 128) };
}

impl Ring {
    // A row without places.
    #[tactic(auto, unfolding(crate::specs::Rows::ring))]
    pub fn new() -> Ring
        ensures { result ≡ [] }
    {
        Ring {
            slots: [0; ROOM],
            first: 0,
            len: 0,
        }
    }

    // How many places the row has.
    #[tactic(auto, using(crate::proofs::Rings::length_ring))]
    pub fn len(&self) -> usize
        ensures { result ≡ length self.now }
    {
        self.len
    }

    // Lets go of all places.
    #[tactic(auto, unfolding(crate::specs::Rows::ring))]
    pub fn clear(&mut self)
        ensures { self.new ≡ [] }
    {
        self.len = 0;
    }

    // A place joins behind the last.
    #[tactic(auto, using(crate::proofs::Rings::length_ring, crate::proofs::Rings::ring_put))]
    pub(crate) fn push_back(&mut self, place: u8)
        requires { length self.old < 128 }
        ensures { self.new ≡ self.old ++ place ∷ [] }
    {
        self.slots[(self.first + self.len) % ROOM] = place;
        self.len += 1;
    }

    // The first place leaves, if there is one.
    #[tactic(auto, using(crate::proofs::Rings::ring_first), unfolding(crate::specs::Rows::ring))]
    pub fn pop_front(&mut self) -> Option<u8>
        ensures front { result ≡ head_of self.old }
        ensures rest { self.new ≡ tail_of self.old }
    {
        self.len = self.len.checked_sub(1)?;
        let place = self.slots[self.first];
        self.first = (self.first + 1) % ROOM;
        Some(place)
    }

    // The last place leaves, if there is one.
    #[tactic(auto, using(crate::proofs::Rings::ring_last), unfolding(crate::specs::Rows::ring))]
    pub fn pop_back(&mut self) -> Option<u8>
        ensures back { result ≡ head_of (reverse self.old) }
        ensures rest { reverse self.new ≡ tail_of (reverse self.old) }
    {
        self.len = self.len.checked_sub(1)?;
        Some(self.slots[(self.first + self.len) % ROOM])
    }
}
