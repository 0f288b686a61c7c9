// The way on from a place by one route.
ghost use Rattle.std.specs.Prelude.{◌≡◌};
ghost use Rattle.labelling.specs.Ways.{Holds, opened, way_on};

use crate::label::Via;
use board::route::Route;

// A residual step: where it leads, by which route and in which direction, and by how much that share may change.
#[derive(Clone, Copy, PartialEq, Eq, Debug)]
pub struct Way {
    pub place: u8,
    pub via: Via,
    pub step: u32,
}

// A residual step by this much, if that is more than 0.
fn opened(place: u8, via: Via, room: i32) -> Option<Way>
    ensures { result ≡ opened place via room }
{
    if room <= 0 {
        return None;
    }
    Some(Way {
        place,
        via,
        step: room.unsigned_abs(),
    })
}

// The way on from a place by the route of this number, if its share leaves one: along it below the ceiling, against it
// above the floor.
pub(crate) fn way_on(from: u8, number: u16, route: Route, share: i32) -> Option<Way>
    requires { Holds route share }
    ensures { result ≡ way_on from number route share }
{
    if route.start == from {
        return opened(
            route.end,
            Via::Along(number),
            i32::from(route.ceiling) - share,
        );
    }
    if route.end == from {
        return opened(
            route.start,
            Via::Against(number),
            share - i32::from(route.floor),
        );
    }
    None
}
