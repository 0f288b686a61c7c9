// Taking out all that waits.
ghost use Rattle.std.specs.Prelude.{◌≡◌};
ghost use Rattle.picker.specs.Meaning.{waiting, drained};

use crate::picker::Picker;

// Takes places out until none waits, and answers how many they were.
pub fn drain<P: Picker>(picker: &mut P) -> usize
    ensures answer { result ≡ waiting (P.meaning picker.old) }
    ensures meaning { P.meaning picker.new ≡ drained (P.meaning picker.old) }
{
    let waiting = picker.waiting();
    while let Some(_) = picker.take() {}
    waiting
}
