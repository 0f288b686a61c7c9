// What a picker means.
ghost use Rattle.std.specs.Prelude.{◌≡◌};
ghost use Rattle.picker.specs.Meaning.{Meaning, Lawful, waiting, emptied, put_answer, put_to, Took};

use crate::fault::PutFault;

// How many places a board may have: they are those below it.
pub const PLACES: u8 = 128;

// The worklist of a graph search: it holds the places that wait to be examined, and decides which is next. Nothing
// here says which; each picker has a rule of its own for that.
pub trait Picker {
    // How often each place waits, the room, and how many places were taken out since it was last emptied.
    ghost meaning: { Self → Meaning };

    // No place at or above 128 ever waits, and the count stops at 65,535: what each picker must prove of its meaning.
    ghost lawful: { Lawful meaning };

    // Lets go of all places that wait, and counts from 0 again.
    fn empty(&mut self)
        ensures meaning { meaning self.new ≡ emptied (meaning self.old) };

    // Brings a place that is to wait, with the amount that it was labelled with.
    fn put(&mut self, place: u8, amount: u32) -> Result<(), PutFault>
        ensures answer { result ≡ put_answer (meaning self.old) place }
        ensures meaning { meaning self.new ≡ put_to (meaning self.old) place };

    // Takes out a place that waits, if there is one.
    fn take(&mut self) -> Option<u8>
        ensures took { Took (meaning self.old) result (meaning self.new) };

    // How many places may wait.
    fn room(&self) -> usize
        ensures { result ≡ (meaning self.now).room };

    // How many places were taken out since it was last emptied; the count stops at 65,535.
    fn count(&self) -> u16
        ensures { result ≡ (meaning self.now).count };

    // How many places wait, each as often as it does.
    fn waiting(&self) -> usize
        ensures { result ≡ waiting (meaning self.now) };
}
