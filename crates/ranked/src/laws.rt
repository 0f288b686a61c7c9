// What holds of the orders of the entries. The function stands for the theorem that is its contract, and answers
// nothing.
ghost use Rattle.std.specs.Prelude.{◌≡◌};
ghost use Rattle.ranked.specs.Orders.{MarkerEntry, AmountEntry, marker_before, amount_before};

use crate::entry::Ranked;
use heap::entry::Entry;
use std::cmp::Reverse;

// A heap of entries of either kind has the order that is said of them.
pub fn orders_as_said()
    ensures markers { (x y : MarkerEntry) → ⟦<Ranked<u8> as Entry>⟧.before x y ≡ marker_before x y }
    ensures amounts { (x y : AmountEntry) → ⟦<Ranked<Reverse<u32>> as Entry>⟧.before x y ≡ amount_before x y }
{}
