// An accepted sheet, as a view over the lent bytes.
ghost use Rattle.std.specs.Prelude.{◌≡◌, ◌^◌, ◌<◌, length, slice_get};
ghost use Rattle.board.specs.Board.{shape_of};
ghost use Rattle.board.specs.Questions.{map_ok, frame_answer};
ghost use Rattle.bits.specs.Bits.{bits_of};
ghost use Rattle.bits.specs.Fields.{width};
ghost use Rattle.layout.specs.Stated.{stating, route_at};
ghost use Rattle.sheet.specs.View.{board_of, routes_left};

use crate::routes::Routes;
use bits::field::{Field, record_start};
use bits::reader::field_at;
use bits::signed::widen;
use board::fault::FrameFault;
use board::frame::Frame;
use board::route::Route;

// The board that the bytes state: the lent bytes alone, off which the board is read when it is asked for. `Sheet::read`
// makes one only of bytes that are the sheet of a valid board. (A ghost field that said so would hinder callers: a
// struct of a sheet and a `&mut` could not be kept in an `Option` or a `Result`.)
#[derive(Clone, Copy)]
pub struct Sheet<'a> {
    pub(crate) bytes: &'a [u8],
}

impl<'a> Sheet<'a> {
    // The board's frame. It is there in every sheet that `read` accepts.
    pub fn frame(&self) -> Result<Frame, FrameFault>
        ensures { map_ok shape_of result ≡ frame_answer (board_of self.now).shape.places (board_of self.now).shape.home (board_of self.now).shape.port }
    {
        let places = stating(self.bytes, 0, Field::Places);
        let home = stating(self.bytes, 0, Field::Home);
        let port = stating(self.bytes, 0, Field::Port);
        Frame::new(usize::from(places), usize::from(home), usize::from(port))
    }

    // How many routes the board has.
    #[tactic(auto, using(layout::proofs::Stated::length_routes_from), unfolding(layout::specs::Stated::stated))]
    pub fn len(&self) -> usize
        ensures value { result ≡ length (board_of self.now).routes }
        ensures bound { result < 2 ^ 10 }
    {
        usize::from(stating(self.bytes, 0, Field::Routes))
    }

    // The route of this number; none from the number of routes on.
    pub fn route(&self, number: usize) -> Option<Route>
        ensures { result ≡ slice_get (board_of self.now).routes number }
    {
        if number < self.len() {
            // so it fits in 16 bits: `try_from` would bring an error that cannot come
            Some(route_at(self.bytes, record_start(number as u16)))
        } else {
            None
        }
    }

    // The routes, in the order of their numbers.
    #[tactic(auto, using(crate::proofs::Shown::routes_few))]
    pub fn routes(&self) -> Routes<'a>
        ensures value { routes_left result ≡ (board_of self.now).routes }
        ensures bound { length (routes_left result) < 2 ^ 10 }
    {
        Routes {
            sheet: *self,
            next: 0,
        }
    }
}

// The number that a field states, of the header (from bit 0 on) or of the record from bit `start` on.
fn stating(bytes: &[u8], start: usize, field: Field) -> u16
    requires { start < 2 ^ 32 }
    ensures value { result ≡ stating (bits_of bytes.now) start field }
    ensures bound { result < 2 ^ width field }
{
    field_at(bytes, start + field.offset(), field)
}

// The route that the record from bit `start` on states.
#[tactic(auto, unfolding(layout::specs::Stated::route_at))]
fn route_at(bytes: &[u8], start: usize) -> Route
    requires { start < 2 ^ 32 }
    ensures { result ≡ route_at (bits_of bytes.now) start }
{
    // each is as narrow as its field: `try_from` would bring an error that cannot come
    Route {
        start: stating(bytes, start, Field::Start) as u8,
        end: stating(bytes, start, Field::End) as u8,
        floor: widen(stating(bytes, start, Field::Floor)),
        ceiling: stating(bytes, start, Field::Ceiling) as i16,
    }
}
