// A valid board, checked before it is written.
ghost use Rattle.std.specs.Prelude.{◌≡◌, ℕ, ◌+◌, ◌<◌, ◌≤◌, length, pos, ◌≤ℤ◌, slice_index_or};
ghost use Rattle.board.specs.Board.{shape_of, ValidShape, ValidRoute};
ghost use Rattle.board.specs.Questions.{first_no, answer, route_questions, map_ok};
ghost use Rattle.bits.specs.Signed.{Fits13};
ghost use Rattle.layout.specs.Format.{header_bits, record_bits, sheet_bits, sheet_length};
ghost use Rattle.sheet.specs.Saving.{board_with, routes_questions, board_questions};
ghost use Rattle.sheet.specs.Writing.{HasRoom, Wrote};

use crate::limits::ROUTE_LIMIT;
use crate::writer::BitWriter;
use crate::writing::WriteFault;
use bits::field::{Field, record_start};
use bits::signed::narrow;
use board::fault::RouteFault;
use board::frame::Frame;
use board::route::Route;
use layout::fault::OrderFault;

// A frame, and at most 512 routes of it.
#[derive(Clone, Copy)]
pub(crate) struct Checked<'a> {
    frame: &'a Frame,
    routes: &'a [Route],
    ghost few: { length routes.now ≤ 512 },
    ghost each: { (k : ℕ) → k < length routes.now → ValidRoute (shape_of frame.now) (slice_index_or routes.now k (record { start = 0; end = 0; floor = pos 0; ceiling = pos 0 })) },
}

// Why a route is none of the frame, if it is none.
fn route_fault(frame: &Frame, route: Route) -> Option<RouteFault>
    ensures { result ≡ first_no (route_questions (shape_of frame.now) route) }
{
    let start = usize::from(route.start);
    let end = usize::from(route.end);
    Route::new(
        frame,
        start,
        end,
        i32::from(route.floor),
        i32::from(route.ceiling),
    )
    .err()
}

// The first route that is none of the frame, and why.
fn check_routes(frame: &Frame, routes: &[Route]) -> Result<(), OrderFault>
    requires { length routes.now ≤ 512 }
    ensures { result ≡ answer (first_no (routes_questions (shape_of frame.now) 0 routes.now)) tt }
{
    for (k, route) in routes.iter().enumerate() {
        if let Some(fault) = route_fault(frame, *route) {
            return Err(OrderFault {
                // below 512: `try_from` would bring an error that cannot come, here and where the board is written
                route: k as u16,
                fault,
            });
        }
    }
    Ok(())
}

impl<'a> Checked<'a> {
    ghost use Rattle.sheet.specs.Checked.{board_of};

    // The board of this frame and these routes, or the first question that gets a no.
    pub(crate) fn new(frame: &'a Frame, routes: &'a [Route]) -> Result<Checked<'a>, WriteFault>
        ensures { map_ok board_of result ≡ answer (first_no (board_questions (board_with frame.now routes.now))) (board_with frame.now routes.now) }
    {
        if routes.len() > ROUTE_LIMIT {
            return Err(WriteFault::RouteLimit);
        }
        check_routes(frame, routes)?;
        Ok(Checked { frame, routes })
    }

    // How many bytes its sheet has.
    pub(crate) fn sheet_length(&self) -> usize
        ensures { result ≡ sheet_length (length (board_of self.now).routes) }
    {
        record_start(self.routes.len() as u16).div_ceil(8)
    }

    // Writes the header: the frame, and how many routes there are.
    #[tactic(auto, using(bits::proofs::Bits::length_digits))]
    fn write_header(&self, writer: &mut BitWriter)
        requires { HasRoom writer.old 32 }
        ensures wrote { Wrote writer.old (header_bits (board_of self.now)) writer.new }
        ensures shape { ValidShape (board_of self.now).shape }
    {
        writer.place(Field::Places, self.frame.places() as u16);
        writer.place(Field::Home, self.frame.home() as u16);
        writer.place(Field::Port, self.frame.port() as u16);
        writer.place(Field::Routes, self.routes.len() as u16);
    }

    // Writes the header and each record.
    pub(crate) fn write(&self, writer: &mut BitWriter)
        requires start { writer.old.position ≡ 0 }
        requires room { sheet_length (length (board_of self.now).routes) ≤ length writer.old.buffer.now }
        ensures wrote { Wrote writer.old (sheet_bits (board_of self.now)) writer.new }
        ensures shape { ValidShape (board_of self.now).shape }
    {
        self.write_header(writer);
        for route in self.routes {
            write_record(writer, *route);
        }
    }
}

// Writes the record of a route.
#[tactic(auto, using(bits::proofs::Bits::length_digits))]
fn write_record(writer: &mut BitWriter, route: Route)
    requires floor { Fits13 route.floor }
    requires ceiling { pos 0 ≤ℤ route.ceiling }
    requires room { HasRoom writer.old 39 }
    ensures { Wrote writer.old (record_bits route) writer.new }
{
    writer.place(Field::Start, u16::from(route.start));
    writer.place(Field::End, u16::from(route.end));
    writer.place(Field::Floor, narrow(route.floor));
    writer.place(Field::Ceiling, route.ceiling as u16);
}
