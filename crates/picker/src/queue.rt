// The pickers that take the place that has waited longest, and the one that was put last.
ghost use Rattle.std.specs.Prelude.{◌≤◌, length};
ghost use Rattle.picker.specs.Meaning.{Inside, occurs};

use crate::count::Count;
use crate::end::{End, Newest, Oldest};
use crate::fault::{PutFault, check_put};
use crate::picker::Picker;
use crate::ring::{ROOM, Ring};
use std::marker::PhantomData;

// The places that wait, in the order in which they were put; the next to be taken is at one end.
#[derive(Drop)]
pub struct Queue<E: End> {
    row: Ring,
    count: Count,
    end: PhantomData<E>,
    pub ghost inside: { Inside (occurs (E.order row)) },
    pub ghost few: { length (E.order row) ≤ 128 },
    pub ghost stops: { count.number ≤ 65535 },
}

// The place that has waited longest is taken first.
pub type OldestFirst = Queue<Oldest>;

// The place that was put last is taken first.
pub type NewestFirst = Queue<Newest>;

impl<E: End> Queue<E> {
    ghost use Rattle.std.specs.Prelude.{◌≡◌, []};
    ghost use Rattle.picker.specs.Meaning.{fresh};
    ghost use Rattle.picker.specs.Queue.{queue, queue_meaning};

    // A picker in which nothing waits.
    pub fn new() -> Queue<E>
        ensures meaning { queue_meaning result ≡ fresh 128 }
        ensures queue { queue result ≡ [] }
    {
        Queue {
            row: Ring::new(),
            count: Count::new(),
            end: PhantomData,
        }
    }
}

impl<E: End> Picker for Queue<E> {
    ghost use Rattle.std.specs.Prelude.{◌≡◌, [], is_ok, if◌then◌else◌};
    ghost use Rattle.picker.specs.Meaning.{fresh, put_answer, put_to, Took};
    ghost use Rattle.picker.specs.Rows.{head_of, tail_of};
    ghost use Rattle.picker.specs.Queue.{queue, queue_meaning};

    ghost meaning = { queue_meaning };

    ghost lawful = { record { inside = λ p. p.inside; stops = λ p. p.stops } };

    fn empty(&mut self)
        ensures meaning { queue_meaning self.new ≡ fresh 128 }
        ensures queue { queue self.new ≡ [] }
    {
        self.row.clear();
        self.count = Count::new();
    }

    #[tactic(auto, using(crate::proofs::Queued::waiting_ordered))]
    fn put(&mut self, place: u8, _amount: u32) -> Result<(), PutFault>
        ensures answer { result ≡ put_answer (queue_meaning self.old) place }
        ensures meaning { queue_meaning self.new ≡ put_to (queue_meaning self.old) place }
        ensures queue { queue self.new
            ≡ (if is_ok result then E.joined (queue self.old) place else queue self.old) }
    {
        let waiting = self.row.len();
        check_put(place, waiting, ROOM)?;
        self.row.push_back(place);
        Ok(())
    }

    fn take(&mut self) -> Option<u8>
        ensures took { Took (queue_meaning self.old) result (queue_meaning self.new) }
        ensures next { result ≡ head_of (queue self.old) }
        ensures rest { queue self.new ≡ tail_of (queue self.old) }
    {
        let place = E::pop(&mut self.row)?;
        self.count.add_one();
        Some(place)
    }

    fn room(&self) -> usize {
        ROOM
    }

    fn count(&self) -> u16 {
        self.count.number
    }

    #[tactic(auto, using(crate::proofs::Queued::waiting_ordered))]
    fn waiting(&self) -> usize {
        self.row.len()
    }
}
