// Why a frame or a route is refused.
ghost use Rattle.std.specs.Prelude.{◌≡◌};
ghost use Rattle.board.specs.Questions.{frame_number, route_number};

// The first question about a frame that got a no.
#[derive(Clone, Copy, PartialEq, Eq, Debug)]
pub enum FrameFault {
    // fewer than 2 places, or more than 128
    PlaceCount,
    // home is no place
    HomeUnknown,
    // port is no place, or it is home
    PortUnknown,
}

// The first question about a route that got a no.
#[derive(Clone, Copy, PartialEq, Eq, Debug)]
pub enum RouteFault {
    // the start is no place of the frame
    StartUnknown,
    // the start is a place of the frame, and the end is none
    EndUnknown,
    // start and end are the same place
    SamePlace,
    // the ceiling is below 0 or above 4,095
    CeilingRange,
    // the floor is below -4,095 or above the ceiling
    FloorRange,
}

impl FrameFault {
    // The question's number. (A match of its own in each enum of faults: nothing asks it of just any fault, so that a
    // trait would be no plainer.)
    pub fn number(self) -> u8
        ensures { result ≡ frame_number self }
    {
        match self {
            FrameFault::PlaceCount => 1,
            FrameFault::HomeUnknown => 2,
            FrameFault::PortUnknown => 3,
        }
    }
}

impl RouteFault {
    // The question's number. (A match of its own in each enum of faults: nothing asks it of just any fault, so that a
    // trait would be no plainer.)
    pub fn number(self) -> u8
        ensures { result ≡ route_number self }
    {
        match self {
            RouteFault::StartUnknown | RouteFault::EndUnknown => 11,
            RouteFault::SamePlace => 12,
            RouteFault::CeilingRange => 13,
            RouteFault::FloorRange => 14,
        }
    }
}
