// Why a place is not taken in.
ghost use Rattle.std.specs.Prelude.{◌≡◌};
ghost use Rattle.picker.specs.Fault.{put_number, put_check};

use crate::picker::PLACES;

// The first question about a place that got a no.
#[derive(Clone, Copy, PartialEq, Eq, Debug)]
pub enum PutFault {
    // the place is 128 or above
    PlaceUnknown,
    // as many places wait as there is room for
    RoomFull,
}

impl PutFault {
    // The question's number. (A match of its own in each enum of faults: nothing asks it of just any fault, so that a
    // trait would be no plainer.)
    pub fn number(self) -> u8
        ensures { result ≡ put_number self }
    {
        match self {
            PutFault::PlaceUnknown => 41,
            PutFault::RoomFull => 42,
        }
    }
}

// Puts the two questions about a place, where so many places wait and there is so much room.
pub fn check_put(place: u8, waiting: usize, room: usize) -> Result<(), PutFault>
    ensures { result ≡ put_check place waiting room }
{
    if place >= PLACES {
        Err(PutFault::PlaceUnknown)
    } else if waiting >= room {
        Err(PutFault::RoomFull)
    } else {
        Ok(())
    }
}
