// Places that wait, in the order of their ranks.
ghost use Rattle.std.specs.Prelude.{◌≤◌, map};
ghost use Rattle.heap.specs.Held.{held};
ghost use Rattle.heap.specs.Order.{Ordered};
ghost use Rattle.picker.specs.Meaning.{Inside, occurs};
ghost use Rattle.ranked.specs.Orders.{rank_before};

use crate::entry::{Rank, Ranked};
use heap::heap::Heap;
use picker::count::Count;
use picker::fault::{PutFault, check_put};

// The places that wait, each with its rank, in a heap over the entries that were lent; and how many were taken out.
#[derive(Drop)]
pub(crate) struct Waiting<'e, R: Rank> {
    heap: Heap<'e, Ranked<R>>,
    count: Count,
    ghost ordered: { Ordered (rank_before R.cmp) (held heap) },
    ghost inside: { Inside (occurs (map (λ e. e.place) (held heap))) },
    ghost stops: { count.number ≤ 65535 },
}

impl<'e, R: Rank> Waiting<'e, R> {
    ghost use Rattle.std.specs.Prelude.{◌≡◌, [], length, option_map};
    ghost use Rattle.heap.specs.Order.{Popped};
    ghost use Rattle.picker.specs.Meaning.{fresh, emptied, put_answer, put_to, Took, waiting};
    ghost use Rattle.ranked.specs.Waiting.{Joined, entries, waiting_meaning};

    // Nothing waits. What the lent entries hold does not matter.
    pub(crate) fn new(lent: &'e mut [Ranked<R>]) -> Waiting<'e, R>
        ensures meaning { waiting_meaning result ≡ fresh (length lent.old) }
        ensures entries { entries result ≡ [] }
    {
        Waiting {
            heap: Heap::new(lent),
            count: Count::new(),
        }
    }

    // Lets go of all places that wait, and counts from 0 again.
    pub(crate) fn empty(&mut self)
        ensures meaning { waiting_meaning self.new ≡ emptied (waiting_meaning self.old) }
        ensures entries { entries self.new ≡ [] }
    {
        self.heap.clear();
        self.count = Count::new();
    }

    // Brings a place that is to wait, with its rank.
    pub(crate) fn put(&mut self, entry: Ranked<R>) -> Result<(), PutFault>
        ensures answer { result ≡ put_answer (waiting_meaning self.old) entry.place }
        ensures meaning { waiting_meaning self.new ≡ put_to (waiting_meaning self.old) entry.place }
        ensures entries { Joined (entries self.old) entry result (entries self.new) }
    {
        check_put(entry.place, self.len(), self.room())?;
        self.heap.push(entry).map_err(|_| PutFault::RoomFull)
    }

    // Takes out the place that comes first, with its rank.
    pub(crate) fn take(&mut self) -> Option<Ranked<R>>
        ensures took { Took (waiting_meaning self.old) (option_map (λ e. e.place) result) (waiting_meaning self.new) }
        ensures first { Popped (rank_before R.cmp) (entries self.old) result (entries self.new) }
    {
        let first = self.heap.pop()?;
        self.count.add_one();
        Some(first)
    }

    // How many places may wait.
    pub(crate) fn room(&self) -> usize
        ensures { result ≡ (waiting_meaning self.now).room }
    {
        self.heap.room()
    }

    // How many places were taken out.
    pub(crate) fn count(&self) -> u16
        ensures { result ≡ (waiting_meaning self.now).count }
    {
        self.count.number
    }

    // How many places wait.
    pub(crate) fn len(&self) -> usize
        ensures { result ≡ waiting (waiting_meaning self.now) }
    {
        self.heap.len()
    }
}
