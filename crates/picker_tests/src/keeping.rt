// What a caller may keep a picker, or a heap, over lent entries in.
use crate::places::{MARKERS, NO_AMOUNT, NO_MARK};
use heap::entry::Entry;
use heap::heap::Heap;
use picker::fault::PutFault;
use picker::picker::Picker;
use ranked::entry::{AmountEntry, MarkerEntry};
use ranked::largest_amount::LargestAmount;
use ranked::lowest_marker::LowestMarker;

// A picker by markers, if entries are lent to it.
fn by_marker(entries: &mut [MarkerEntry]) -> Option<LowestMarker> {
    if entries.is_empty() {
        return None;
    }
    Some(LowestMarker::new(&MARKERS, entries))
}

// A picker by amounts in which the place waits, or the question that the place fails.
fn with_place(entries: &mut [AmountEntry], place: u8) -> Result<LargestAmount, PutFault> {
    let mut picker = LargestAmount::new(entries);
    picker.put(place, 3)?;
    Ok(picker)
}

// How many wait after one place more.
fn waiting_with(entries: &mut [AmountEntry], place: u8, more: u8) -> Result<usize, PutFault> {
    let mut picker = with_place(entries, place)?;
    picker.put(more, 4)?;
    Ok(picker.waiting())
}

#[test]
fn in_an_option(rt: HostRuntime) {
    let mut marks = [NO_MARK; 2];
    let mut kept = by_marker(&mut marks);
    if let Some(picker) = &mut kept {
        assert!(rt; picker.put(5, 0).is_ok());
        assert_eq!(rt; picker.take(), Some(5));
    }
    assert!(rt; kept.is_some());
    assert!(rt; by_marker(&mut []).is_none());
}

#[test]
fn in_a_result(rt: HostRuntime) {
    let mut amounts = [NO_AMOUNT; 2];
    assert_eq!(rt; waiting_with(&mut amounts, 5, 6), Ok(2));
    assert_eq!(rt;
        waiting_with(&mut amounts, 5, 200),
        Err(PutFault::PlaceUnknown)
    );
    assert_eq!(rt;
        waiting_with(&mut amounts[..1], 5, 6),
        Err(PutFault::RoomFull)
    );
}

// A heap, and whether an entry did not fit.
#[derive(Drop)]
struct Noted<'a, E> {
    heap: Heap<'a, E>,
    full: bool,
}

impl<E: Entry> Noted<'_, E> {
    fn push(&mut self, entry: E) {
        if self.heap.push(entry).is_err() {
            self.full = true;
        }
    }
}

const FIVE: MarkerEntry = MarkerEntry { rank: 2, place: 5 };

const SIX: MarkerEntry = MarkerEntry { rank: 1, place: 6 };

#[test]
fn in_a_struct_for_any_entry(rt: HostRuntime) {
    let mut marks = [NO_MARK; 1];
    let mut noted = Noted {
        heap: Heap::new(&mut marks),
        full: false,
    };
    noted.push(FIVE);
    assert!(rt; !noted.full);
    noted.push(SIX);
    assert!(rt; noted.full);
    assert!(rt; noted.heap.pop() == Some(FIVE));
}

#[test]
fn in_an_array(rt: HostRuntime) {
    let mut few = [NO_MARK; 1];
    let mut more = [NO_MARK; 2];
    let mut heaps = [Heap::new(&mut few), Heap::new(&mut more)];
    for heap in &mut heaps {
        assert!(rt; heap.push(FIVE).is_ok());
    }
    assert!(rt; heaps[0].push(SIX) == Err(SIX));
    assert!(rt; heaps[1].push(SIX).is_ok());
    assert!(rt; heaps[0].pop() == Some(FIVE));
    assert!(rt; heaps[1].pop() == Some(SIX));
}
