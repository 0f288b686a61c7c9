// The count of the places that were taken out.
ghost use Rattle.std.specs.Prelude.{◌≡◌};
ghost use Rattle.picker.specs.Meaning.{counted};

// How many places were taken out since a picker was last emptied; the count stops at 65,535. (Each picker says so in a
// ghost field: with one here a caller could keep no picker over lent entries in an `Option` or a `Result`.)
#[derive(Clone, Copy, PartialEq, Eq, Debug)]
pub struct Count {
    pub number: u16,
}

impl Count {
    // None was taken out.
    pub fn new() -> Count
        ensures { result.number ≡ 0 }
    {
        Count { number: 0 }
    }

    // One more was taken out.
    pub fn add_one(&mut self)
        ensures { self.new.number ≡ counted self.old.number }
    {
        self.number = self.number.saturating_add(1);
    }
}
