// What the examples put, and the entries that they lend. The program `pickers` has the same places and markers in a
// text of its own, which reads alone; a crate to share them would be no plainer.
use ranked::entry::{AmountEntry, MarkerEntry};
use std::cmp::Reverse;

// Places with their amounts, in the order in which they are put: some wait twice, and some amounts are equal.
pub const PUT: [(u8, u32); 8] = [
    (5, 30),
    (2, 10),
    (9, 30),
    (2, 40),
    (7, 10),
    (5, 30),
    (0, 0),
    (9, 5),
];

// The turn markers of places 0 to 7; place 9 has none.
pub const MARKERS: [u8; 8] = [3, 0, 2, 9, 9, 1, 0, 2];

pub const NO_MARK: MarkerEntry = MarkerEntry { rank: 0, place: 0 };

pub const NO_AMOUNT: AmountEntry = AmountEntry {
    rank: Reverse(0),
    place: 0,
};
