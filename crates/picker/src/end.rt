// Which of the places in a row leaves first.
ghost use Rattle.std.specs.Prelude.{◌≡◌, ℕ, List, [], ◌∷◌, ◌++◌, reverse, refl};
ghost use Rattle.std.specs.List.Sorted.{IsPermutation};
ghost use Rattle.std.proofs.lemmas.List.{reverse-append};
ghost use Rattle.std.proofs.lemmas.List.Sorted.{IsPermutation-refl, IsPermutation-reverse};
ghost use Rattle.picker.specs.Rows.{head_of, tail_of};

use crate::ring::Ring;

// The end of a row at which places leave; they join behind the last.
pub trait End: Drop {
    // The places of a row in the order in which they leave.
    ghost order: { List ℕ → List ℕ };

    // Where in this order one more place comes.
    ghost joined: { List ℕ → ℕ → List ℕ };

    // The next place leaves, if there is one.
    fn pop(row: &mut Ring) -> Option<u8>
        ensures next { result ≡ head_of (order row.old) }
        ensures rest { order row.new ≡ tail_of (order row.old) };

    // The order has the places of the row, each as often.
    ghost same: { (xs : List ℕ) → IsPermutation xs (order xs) };

    // A place that joins behind the last comes there.
    ghost joins: { (xs : List ℕ) (p : ℕ) → order (xs ++ p ∷ []) ≡ joined (order xs) p };
}

// The place that has waited longest leaves first.
#[derive(Clone, Copy)]
pub struct Oldest;

impl End for Oldest {
    ghost order = { λ xs. xs };

    ghost joined = { λ xs p. xs ++ p ∷ [] };

    ghost same = { IsPermutation-refl };

    ghost joins = { λ xs p. refl };

    fn pop(row: &mut Ring) -> Option<u8> {
        row.pop_front()
    }
}

// The place that was put last leaves first.
#[derive(Clone, Copy)]
pub struct Newest;

impl End for Newest {
    ghost order = { reverse };

    ghost joined = { λ xs p. p ∷ xs };

    ghost same = { IsPermutation-reverse };

    ghost joins = { λ xs p. reverse-append xs (p ∷ []) };

    fn pop(row: &mut Ring) -> Option<u8> {
        row.pop_back()
    }
}
