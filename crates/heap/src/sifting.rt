// What brings entries in order again where only one of them is out of place.
ghost use Rattle.std.specs.Prelude.{◌≡◌, ◌<◌, ◌-◌, ◌∷◌, length, take, slice_index_or};
ghost use Rattle.std.specs.List.Sorted.{IsPermutation};
ghost use Rattle.heap.specs.Order.{Ordered};
ghost use Rattle.heap.specs.Sifting.{MayRise, MaySink, EarlierChild};

use crate::entry::Entry;

// Moves the entry at `start` up until its parent comes no later.
pub(crate) fn sift_up<E: Entry>(entries: &mut [E], start: usize)
    requires { start < length entries.old }
    ensures held { IsPermutation entries.old entries.new }
    ensures order { MayRise E.before entries.old start → Ordered E.before entries.new }
{
    let mut at = start;
    while at > 0 {
        let above = (at - 1) / 2;
        let upper = entries[above];
        let lower = entries[at];
        if upper.no_later(lower) {
            return;
        }
        entries.swap(above, at);
        at = above;
    }
}

// Takes out the first of the entries; the others lie in front then.
pub(crate) fn remove_first<E: Entry>(entries: &mut [E]) -> E
    requires { 0 < length entries.old }
    ensures first { result ≡ slice_index_or entries.old 0 result }
    ensures held { IsPermutation entries.old (result ∷ take (length entries.old - 1) entries.new) }
    ensures order { Ordered E.before entries.old → Ordered E.before (take (length entries.old - 1) entries.new) }
{
    let last = entries.len() - 1;
    let first = entries[0];
    entries[0] = entries[last];
    sift_down(&mut entries[..last]);
    first
}

// Moves the first entry down until none of its children comes earlier.
fn sift_down<E: Entry>(entries: &mut [E])
    ensures held { IsPermutation entries.old entries.new }
    ensures order { MaySink E.before entries.old 0 → Ordered E.before entries.new }
{
    let mut at = 0;
    while let Some(child) = earlier_child(entries, at) {
        let sinking = entries[at];
        let rising = entries[child];
        if sinking.no_later(rising) {
            return;
        }
        entries.swap(at, child);
        at = child;
    }
}

// The child of an index whose entry comes no later than that of the other child, if it has a child.
fn earlier_child<E: Entry>(entries: &[E], at: usize) -> Option<usize>
    ensures { EarlierChild E.before entries.now at result }
{
    let len = entries.len();
    if at >= len / 2 {
        return None;
    }
    let left = 2 * at + 1;
    let right = left + 1;
    if right >= len {
        return Some(left);
    }
    let one = entries[left];
    let other = entries[right];
    if one.no_later(other) {
        Some(left)
    } else {
        Some(right)
    }
}
