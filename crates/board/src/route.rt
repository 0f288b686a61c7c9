// A route of a board.
ghost use Rattle.std.specs.Prelude.{◌≡◌, is_ok, Decides};
ghost use Rattle.board.specs.Board.{shape_of, ValidRoute};
ghost use Rattle.board.specs.Questions.{route_answer};

use crate::fault::RouteFault;
use crate::frame::Frame;

// A route (an arc) from its start to its end. Its floor (lower bound) and its ceiling (capacity) are its marks:
// it carries a share (flow) from floor to ceiling, and a share below 0 goes against the arrow.
// Any numbers may stand here, since a lent table may hold anything: `Route::new` makes only routes of a frame.
#[derive(Clone, Copy, PartialEq, Eq, Debug)]
pub struct Route {
    pub start: u8,
    pub end: u8,
    pub floor: i16,
    pub ceiling: i16,
}

impl Route {
    // The route with just these four numbers, or the first question that gets a no.
    pub fn new(
        frame: &Frame,
        start: usize,
        end: usize,
        floor: i32,
        ceiling: i32,
    ) -> Result<Route, RouteFault>
        ensures answer { result ≡ route_answer (shape_of frame.now) start end floor ceiling }
        ensures valid { Decides (is_ok result) (ValidRoute (shape_of frame.now) (record { start = start; end = end; floor = floor; ceiling = ceiling })) }
    {
        let places = frame.places();
        if start >= places {
            return Err(RouteFault::StartUnknown);
        }
        if end >= places {
            return Err(RouteFault::EndUnknown);
        }
        if start == end {
            return Err(RouteFault::SamePlace);
        }
        if !(0..=4095).contains(&ceiling) {
            return Err(RouteFault::CeilingRange);
        }
        if !(-4095..=ceiling).contains(&floor) {
            return Err(RouteFault::FloorRange);
        }
        // each fits, by the questions above: `try_from` would bring an error that cannot come
        Ok(Route {
            start: start as u8,
            end: end as u8,
            floor: floor as i16,
            ceiling: ceiling as i16,
        })
    }
}
