// What holds of every kind of entry. The function stands for the theorem that is its contract, and answers nothing.
ghost use Rattle.heap.specs.Laws.{OneFirst};

use crate::entry::Entry;

// What leaves a heap next is fixed by what is held: no two entries are first.
pub fn first_is_one<E: Entry>()
    ensures { OneFirst E.before }
{}
