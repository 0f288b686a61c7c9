// Pay on examples: the ends of the table, and of the numbers.
use crate::pay::pay;

// Deliveries and what they pay: half of d × (d + 1) from 0 to 40.
const PAYS: [(i32, u32); 13] = [
    (i32::MIN, 0),
    (-41, 0),
    (-2, 0),
    (-1, 0),
    (0, 0),
    (1, 1),
    (6, 21),
    (7, 28),
    (20, 210),
    (39, 780),
    (40, 820),
    (41, 820),
    (i32::MAX, 820),
];

#[test]
fn pays(rt: HostRuntime) {
    for (delivery, paid) in PAYS {
        assert_eq!(rt; pay(delivery), paid);
    }
}
