// The heap.
use crate::entry::Entry;
use crate::sifting::{remove_first, sift_up};

// A heap of at most as many entries as are lent to it: a slice with its length beside, since nothing here allocates.
// The first `len` of them are held, and none of these comes earlier than its parent, which for index k is at
// (k - 1) / 2: so the first comes no later than any other. (No ghost field says so, but what `push` and `pop` promise:
// with one, callers could have no array of heaps, and no struct of a heap for any kind of entry.)
#[derive(Drop)]
pub struct Heap<'a, E> {
    entries: &'a mut [E],
    len: usize,
}

impl<'a, E: Entry> Heap<'a, E> {
    ghost use Rattle.std.specs.Prelude.{◌≡◌, [], length, is_ok, nat_lt};
    ghost use Rattle.heap.specs.Held.{held, room};
    ghost use Rattle.heap.specs.Order.{Pushed, Popped};

    // An empty heap. What the lent entries hold does not matter.
    pub fn new(entries: &'a mut [E]) -> Heap<'a, E>
        ensures held { held result ≡ [] }
        ensures room { room result ≡ length entries.old }
    {
        Heap { entries, len: 0 }
    }

    // How many entries it can hold. (That this stays is a clause of each call that changes the heap: it relates two
    // states, and a type speaks of one.)
    pub fn room(&self) -> usize
        ensures { result ≡ room self.now }
    {
        self.entries.len()
    }

    // How many entries are held.
    pub fn len(&self) -> usize
        ensures { result ≡ length (held self.now) }
    {
        self.len.min(self.entries.len())
    }

    // Lets go of all entries.
    pub fn clear(&mut self)
        ensures held { held self.new ≡ [] }
        ensures room { room self.new ≡ room self.old }
    {
        self.len = 0;
    }

    // Inserts an entry; gives it back where there is no room.
    pub fn push(&mut self, entry: E) -> Result<(), E>
        ensures accepts { is_ok result ≡ nat_lt (length (held self.old)) (room self.old) }
        ensures held { Pushed E.before (held self.old) entry result (held self.new) }
        ensures room { room self.new ≡ room self.old }
    {
        let len = self.len();
        if len >= self.entries.len() {
            return Err(entry);
        }
        self.entries[len] = entry;
        // The range names its start, as in `pop`: of one without, taken through a field, the checker keeps the length
        // alone.
        sift_up(&mut self.entries[0..len + 1], len);
        self.len = len + 1;
        Ok(())
    }

    // Removes the first entry in their order.
    pub fn pop(&mut self) -> Option<E>
        ensures held { Popped E.before (held self.old) result (held self.new) }
        ensures room { room self.new ≡ room self.old }
    {
        let len = self.len();
        if len == 0 {
            return None;
        }
        self.len = len - 1;
        Some(remove_first(&mut self.entries[0..len]))
    }
}
