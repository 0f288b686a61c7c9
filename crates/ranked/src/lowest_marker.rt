// The picker that takes the place with the least turn marker.
ghost use Rattle.std.specs.Prelude.{ℕ, ◌<◌, length, slice_index_or};
ghost use Rattle.ranked.specs.Orders.{Marked};
ghost use Rattle.ranked.specs.Waiting.{entries};

use crate::entry::MarkerEntry;
use crate::waiting::Waiting;
use picker::fault::PutFault;
use picker::picker::Picker;

// The marker of a place for which none is lent.
const NO_MARKER: u8 = 255;

// The places that wait, in a heap over the entries that were lent. The markers are lent too, a byte for each place;
// a place beyond their list has marker 255.
#[derive(Drop)]
pub struct LowestMarker<'m, 'e> {
    markers: &'m [u8],
    waiting: Waiting<'e, u8>,
    ghost marked: { (k : ℕ) → k < length (entries waiting) → Marked markers.now (slice_index_or (entries waiting) k (record { rank = 0; place = 0 })) },
}

impl<'m, 'e> LowestMarker<'m, 'e> {
    ghost use Rattle.std.specs.Prelude.{◌≡◌, [], length};
    ghost use Rattle.picker.specs.Meaning.{fresh};
    ghost use Rattle.ranked.specs.Orders.{marker_of};
    ghost use Rattle.ranked.specs.Ranked.{marker_places, marker_meaning};

    // A picker in which nothing waits. What the lent entries hold does not matter.
    pub fn new(markers: &'m [u8], entries: &'e mut [MarkerEntry]) -> LowestMarker<'m, 'e>
        ensures meaning { marker_meaning result ≡ fresh (length entries.old) }
        ensures markers { result.markers.now ≡ markers.now }
        ensures places { marker_places result ≡ [] }
    {
        LowestMarker {
            markers,
            waiting: Waiting::new(entries),
        }
    }

    // The turn marker of a place. (That the markers stay is a clause of each call that changes the picker: it relates
    // two states, and a type speaks of one.)
    pub fn marker(&self, place: u8) -> u8
        ensures { result ≡ marker_of self.now.markers.now place }
    {
        self.markers
            .get(usize::from(place))
            .copied()
            .unwrap_or(NO_MARKER)
    }
}

impl<'m, 'e> Picker for LowestMarker<'m, 'e> {
    ghost use Rattle.std.specs.Prelude.{◌≡◌, []};
    ghost use Rattle.picker.specs.Meaning.{emptied, put_answer, put_to, Took};
    ghost use Rattle.ranked.specs.Waiting.{Joined};
    ghost use Rattle.ranked.specs.Ranked.{LowestTaken, marker_places, marker_meaning};

    ghost meaning = { marker_meaning };

    ghost lawful = { record { inside = λ p. p.waiting.inside; stops = λ p. p.waiting.stops } };

    fn empty(&mut self)
        ensures meaning { marker_meaning self.new ≡ emptied (marker_meaning self.old) }
        ensures places { marker_places self.new ≡ [] }
        ensures markers { self.new.markers.now ≡ self.old.markers.now }
    {
        self.waiting.empty();
    }

    fn put(&mut self, place: u8, _amount: u32) -> Result<(), PutFault>
        ensures answer { result ≡ put_answer (marker_meaning self.old) place }
        ensures meaning { marker_meaning self.new ≡ put_to (marker_meaning self.old) place }
        ensures places { Joined (marker_places self.old) place result (marker_places self.new) }
        ensures markers { self.new.markers.now ≡ self.old.markers.now }
    {
        let rank = self.marker(place);
        self.waiting.put(MarkerEntry { rank, place })
    }

    fn take(&mut self) -> Option<u8>
        ensures took { Took (marker_meaning self.old) result (marker_meaning self.new) }
        ensures lowest { LowestTaken self.old.markers.now (marker_places self.old) result (marker_places self.new) }
        ensures markers { self.new.markers.now ≡ self.old.markers.now }
    {
        self.waiting.take().map(|entry| entry.place)
    }

    fn room(&self) -> usize {
        self.waiting.room()
    }

    fn count(&self) -> u16 {
        self.waiting.count()
    }

    fn waiting(&self) -> usize {
        self.waiting.len()
    }
}
