// The count of places taken out since a picker was last emptied.
use crate::places::{NO_AMOUNT, NO_MARK};
use picker::drain::drain;
use picker::picker::Picker;
use picker::queue::{NewestFirst, OldestFirst};
use ranked::largest_amount::LargestAmount;
use ranked::lowest_marker::LowestMarker;
use std::process::Abort;

// Puts and takes a place so often.
fn turns<P: Picker>(rt: &impl Abort, picker: &mut P, often: u32) {
    for _ in 0..often {
        assert!(rt; picker.put(6, 1).is_ok());
        assert_eq!(rt; picker.take(), Some(6));
    }
}

// Five places are taken one by one, two wait and are let go.
fn counts<P: Picker>(rt: &impl Abort, picker: &mut P) {
    turns(rt, picker, 5);
    assert_eq!(rt; picker.take(), None);
    assert_eq!(rt; picker.count(), 5);
    assert!(rt; picker.put(1, 0).is_ok());
    assert!(rt; picker.put(1, 0).is_ok());
    assert_eq!(rt; picker.count(), 5);
    picker.empty();
    assert_eq!(rt; picker.count(), 0);
    assert_eq!(rt; picker.waiting(), 0);
    assert_eq!(rt; picker.take(), None);
    assert_eq!(rt; picker.count(), 0);
}

// The count stops at 65,535, and goes on from 0 after emptying. What waits is drained.
fn stops<P: Picker>(rt: &impl Abort, picker: &mut P) {
    turns(rt, picker, 65534);
    assert_eq!(rt; picker.count(), 65534);
    turns(rt, picker, 3);
    assert_eq!(rt; picker.count(), 65535);
    picker.empty();
    assert!(rt; picker.put(127, 5).is_ok());
    assert!(rt; picker.put(0, 5).is_ok());
    assert!(rt; picker.put(127, 5).is_ok());
    assert_eq!(rt; drain(picker), 3);
    assert_eq!(rt; picker.count(), 3);
    assert_eq!(rt; drain(picker), 0);
}

fn counts_and_stops<P: Picker>(rt: &impl Abort, picker: &mut P) {
    counts(rt, picker);
    stops(rt, picker);
}

#[test]
fn queues(rt: HostRuntime) {
    counts_and_stops(&rt, &mut OldestFirst::new());
    counts_and_stops(&rt, &mut NewestFirst::new());
}

#[test]
fn by_rank(rt: HostRuntime) {
    let mut marks = [NO_MARK; 4];
    let mut lowest = LowestMarker::new(&[9, 9, 9, 9, 9, 9, 9], &mut marks);
    counts_and_stops(&rt, &mut lowest);
    let mut amounts = [NO_AMOUNT; 4];
    counts_and_stops(&rt, &mut LargestAmount::new(&mut amounts));
}
