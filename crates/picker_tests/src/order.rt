// The order in which each picker gives places back. What is expected was reckoned by tools/pick_places.py.
use crate::places::{MARKERS, NO_AMOUNT, NO_MARK, PUT};
use picker::picker::Picker;
use picker::queue::{NewestFirst, OldestFirst};
use ranked::largest_amount::LargestAmount;
use ranked::lowest_marker::LowestMarker;
use std::process::Abort;

fn put_all<P: Picker>(rt: &impl Abort, picker: &mut P) {
    for (place, amount) in PUT {
        assert!(rt; picker.put(place, amount).is_ok());
    }
}

// The places come back in this order, and no others.
fn gives_back<P: Picker>(rt: &impl Abort, picker: &mut P, expected: [u8; 8]) {
    put_all(rt, picker);
    for place in expected {
        assert_eq!(rt; picker.take(), Some(place));
    }
    assert_eq!(rt; picker.take(), None);
}

#[test]
fn oldest_first(rt: HostRuntime) {
    gives_back(&rt, &mut OldestFirst::new(), [5, 2, 9, 2, 7, 5, 0, 9]);
}

#[test]
fn newest_first(rt: HostRuntime) {
    gives_back(&rt, &mut NewestFirst::new(), [9, 0, 5, 7, 2, 9, 2, 5]);
}

#[test]
fn lowest_marker(rt: HostRuntime) {
    let mut entries = [NO_MARK; 8];
    let mut picker = LowestMarker::new(&MARKERS, &mut entries);
    gives_back(&rt, &mut picker, [5, 5, 2, 2, 7, 0, 9, 9]);
}

#[test]
fn largest_amount(rt: HostRuntime) {
    let mut entries = [NO_AMOUNT; 8];
    let mut picker = LargestAmount::new(&mut entries);
    gives_back(&rt, &mut picker, [2, 5, 5, 9, 2, 7, 9, 0]);
}

fn put_next<P: Picker>(rt: &impl Abort, picker: &mut P, state: u32) -> u32 {
    let next = state.wrapping_mul(75).wrapping_add(74) % 65537;
    // below 11: `try_from` would bring an error that cannot come
    assert!(rt; picker.put((next % 11) as u8, next / 11 % 7).is_ok());
    next
}

// Two puts and a take in turn, 60 times; then the 60 places that are left are taken. The answer is the sum of what was
// taken, each place weighed by when.
fn mixed<P: Picker>(rt: &impl Abort, picker: &mut P) -> u64 {
    let mut state = 1;
    let mut sum: u64 = 0;
    for turn in 1..121u64 {
        if turn <= 60 {
            state = put_next(rt, picker, state);
            state = put_next(rt, picker, state);
        }
        let place = picker.take().expect(rt, "a place waits");
        sum = sum.saturating_add(turn * u64::from(place));
    }
    assert_eq!(rt; picker.take(), None);
    sum
}

#[test]
fn long_mixtures(rt: HostRuntime) {
    assert_eq!(rt; mixed(&rt, &mut OldestFirst::new()), 35845);
    assert_eq!(rt; mixed(&rt, &mut NewestFirst::new()), 38627);
    let mut marks = [NO_MARK; 100];
    assert_eq!(rt;
        mixed(&rt, &mut LowestMarker::new(&MARKERS, &mut marks)),
        43969
    );
    let mut amounts = [NO_AMOUNT; 100];
    assert_eq!(rt; mixed(&rt, &mut LargestAmount::new(&mut amounts)), 37875);
}
