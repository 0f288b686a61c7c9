// Both questions, in their order, at the ends of what is allowed.
use picker::fault::PutFault;
use picker::picker::Picker;
use picker::queue::{NewestFirst, OldestFirst};
use ranked::entry::{AmountEntry, MarkerEntry};
use ranked::largest_amount::LargestAmount;
use ranked::lowest_marker::LowestMarker;
use std::cmp::Reverse;
use std::process::Abort;

const NO_MARK: MarkerEntry = MarkerEntry {
    rank: 7,
    place: 200,
};

const NO_AMOUNT: AmountEntry = AmountEntry {
    rank: Reverse(9),
    place: 200,
};

// Puts a place; where a question gets a no, its number.
fn asked<P: Picker>(picker: &mut P, place: u8, amount: u32) -> Result<(), u8> {
    picker.put(place, amount).map_err(PutFault::number)
}

// Places 127 and, beyond the last, 128 and 255, into a picker with this room in which nothing waits.
fn fills_up<P: Picker>(rt: &impl Abort, picker: &mut P, room: usize) {
    assert_eq!(rt; picker.room(), room);
    assert_eq!(rt; asked(picker, 128, 1), Err(41));
    for _ in 0..room {
        assert_eq!(rt; asked(picker, 127, 1), Ok(()));
    }
    assert_eq!(rt; picker.waiting(), room);
    assert_eq!(rt; asked(picker, 127, u32::MAX), Err(42));
    assert_eq!(rt; asked(picker, 128, 1), Err(41));
    assert_eq!(rt; asked(picker, 255, 1), Err(41));
    assert_eq!(rt; picker.waiting(), room);
    assert_eq!(rt; picker.count(), 0);
}

// After a take there is room for one again, and for no more.
fn takes_one_more<P: Picker>(rt: &impl Abort, picker: &mut P) {
    assert_eq!(rt; picker.take(), Some(127));
    assert_eq!(rt; asked(picker, 3, 0), Ok(()));
    assert_eq!(rt; asked(picker, 4, 0), Err(42));
    assert_eq!(rt; picker.count(), 1);
}

#[test]
fn queues(rt: HostRuntime) {
    let mut oldest = OldestFirst::new();
    fills_up(&rt, &mut oldest, 128);
    takes_one_more(&rt, &mut oldest);
    let mut newest = NewestFirst::new();
    fills_up(&rt, &mut newest, 128);
    takes_one_more(&rt, &mut newest);
}

#[test]
fn as_many_entries_as_are_lent(rt: HostRuntime) {
    let mut marks = [NO_MARK; 3];
    let mut lowest = LowestMarker::new(&[], &mut marks);
    fills_up(&rt, &mut lowest, 3);
    takes_one_more(&rt, &mut lowest);
    let mut amounts = [NO_AMOUNT; 200];
    let mut largest = LargestAmount::new(&mut amounts);
    fills_up(&rt, &mut largest, 200);
    takes_one_more(&rt, &mut largest);
}

#[test]
fn no_room_at_all(rt: HostRuntime) {
    fills_up(&rt, &mut LowestMarker::new(&[1, 2], &mut []), 0);
    let mut largest = LargestAmount::new(&mut []);
    fills_up(&rt, &mut largest, 0);
    assert_eq!(rt; largest.take(), None);
}

#[test]
fn markers(rt: HostRuntime) {
    let picker = LowestMarker::new(&[4, 0, 255], &mut []);
    assert_eq!(rt; picker.marker(0), 4);
    assert_eq!(rt; picker.marker(2), 255);
    assert_eq!(rt; picker.marker(3), 255);
    assert_eq!(rt; picker.marker(255), 255);
}
