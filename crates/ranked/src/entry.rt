// A place that waits, with its rank.
ghost use Rattle.std.specs.Prelude.{◌≡◌};
ghost use Rattle.std.specs.Ordering.{is_le};
ghost use Rattle.std.specs.declared.cmp.Ordering.TheVariants.{Equal};
ghost use Rattle.std.proofs.Common.{rules};

use heap::entry::Entry;
use std::cmp::Reverse;

// What places are ranked by. Two ranks that compare as equal are the same.
pub trait Rank: Ord + Copy {
    ghost same: { (x y : Self) → Self.cmp x y ≡ Equal → x ≡ y };
}

impl Rank for u8 {
    ghost same = { Prim.search rules };
}

impl Rank for Reverse<u32> {
    ghost same = { Prim.search rules };
}

// The least rank comes first, and of those the lowest place. Any numbers may stand here, since lent entries may hold
// anything.
#[derive(Clone, Copy, Default, PartialEq, Eq, PartialOrd, Ord, Debug)]
pub struct Ranked<R> {
    pub rank: R,
    pub place: u8,
}

// A place with its turn marker: the least marker comes first.
pub type MarkerEntry = Ranked<u8>;

// A place with the amount that it was put with: the greatest amount comes first.
pub type AmountEntry = Ranked<Reverse<u32>>;

impl<R: Rank> Entry for Ranked<R> {
    ghost before = { λ x y. is_le (⟦<Ranked<R> as Ord>⟧.cmp x y) };

    ghost total = { Prim.search rules };

    ghost same = { Prim.search rules };

    ghost transitive = { Prim.search rules };

    fn no_later(self, other: Ranked<R>) -> bool {
        self <= other
    }
}
