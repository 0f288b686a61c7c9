// The picker that takes the place with the greatest amount.
use crate::entry::AmountEntry;
use crate::waiting::Waiting;
use picker::fault::PutFault;
use picker::picker::Picker;
use std::cmp::Reverse;

// The places that wait, each with the amount that it was put with, in a heap over the entries that were lent.
#[derive(Drop)]
pub struct LargestAmount<'e> {
    waiting: Waiting<'e, Reverse<u32>>,
}

impl<'e> LargestAmount<'e> {
    ghost use Rattle.std.specs.Prelude.{◌≡◌, [], length};
    ghost use Rattle.picker.specs.Meaning.{fresh};
    ghost use Rattle.ranked.specs.Ranked.{amounts, amount_meaning};

    // A picker in which nothing waits. What the lent entries hold does not matter.
    pub fn new(entries: &'e mut [AmountEntry]) -> LargestAmount<'e>
        ensures meaning { amount_meaning result ≡ fresh (length entries.old) }
        ensures amounts { amounts result ≡ [] }
    {
        LargestAmount {
            waiting: Waiting::new(entries),
        }
    }
}

// The calls are those of what waits, as of the picker by markers. One picker over a rule would be no plainer: that one
// promises of places, this one of places with their amounts, so the rule would have to bring each clause and its law.
impl<'e> Picker for LargestAmount<'e> {
    ghost use Rattle.std.specs.Prelude.{◌≡◌, []};
    ghost use Rattle.picker.specs.Meaning.{emptied, put_answer, put_to, Took};
    ghost use Rattle.ranked.specs.Orders.{with_amount};
    ghost use Rattle.ranked.specs.Waiting.{Joined};
    ghost use Rattle.ranked.specs.Ranked.{LargestTaken, amounts, amount_meaning};

    ghost meaning = { amount_meaning };

    ghost lawful = { record { inside = λ p. p.waiting.inside; stops = λ p. p.waiting.stops } };

    fn empty(&mut self)
        ensures meaning { amount_meaning self.new ≡ emptied (amount_meaning self.old) }
        ensures amounts { amounts self.new ≡ [] }
    {
        self.waiting.empty();
    }

    fn put(&mut self, place: u8, amount: u32) -> Result<(), PutFault>
        ensures answer { result ≡ put_answer (amount_meaning self.old) place }
        ensures meaning { amount_meaning self.new ≡ put_to (amount_meaning self.old) place }
        ensures amounts { Joined (amounts self.old) (with_amount amount place) result (amounts self.new) }
    {
        let rank = Reverse(amount);
        self.waiting.put(AmountEntry { rank, place })
    }

    fn take(&mut self) -> Option<u8>
        ensures took { Took (amount_meaning self.old) result (amount_meaning self.new) }
        ensures largest { LargestTaken (amounts self.old) result (amounts self.new) }
    {
        self.waiting.take().map(|entry| entry.place)
    }

    fn room(&self) -> usize {
        self.waiting.room()
    }

    fn count(&self) -> u16 {
        self.waiting.count()
    }

    fn waiting(&self) -> usize {
        self.waiting.len()
    }
}
