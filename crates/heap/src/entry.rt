// What a heap asks of its entries: an order.
ghost use Rattle.std.specs.Prelude.{◌≡◌, Bool, true, ◌||◌};

// An entry of a heap. Its order is total: of any two entries one comes no later than the other; both do so only if
// they are equal; and it is transitive.
pub trait Entry: Copy {
    // Whether the first comes no later than the second.
    ghost before: { Self → Self → Bool };

    // Whether this entry comes no later than another. (A bound `Ord` would ask more of a caller: `==` and `cmp`, which a
    // heap does not use, and that both agree.)
    fn no_later(self, other: Self) -> bool
        ensures { result ≡ before self other };

    ghost total: { (x y : Self) → (before x y || before y x) ≡ true };

    ghost same: { (x y : Self) → before x y ≡ true → before y x ≡ true → x ≡ y };

    ghost transitive: { (x y z : Self) → before x y ≡ true → before y z ≡ true → before x z ≡ true };
}
