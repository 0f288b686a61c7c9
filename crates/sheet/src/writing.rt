// Writing a board as a sheet into a lent buffer.
ghost use Rattle.std.specs.Prelude.{◌≡◌, false, length, take, is_ok, IfOk, Decides};
ghost use Rattle.layout.specs.Format.{IsSheet};
ghost use Rattle.sheet.specs.Saving.{write_number, board_with, Writable, write_answer};
ghost use Rattle.sheet.specs.Writing.{SameFrom};
ghost use Rattle.sheet.specs.declared.writing.WriteFault.TheVariants.{Order};

use crate::checked::Checked;
use crate::writer::BitWriter;
use board::frame::Frame;
use board::route::Route;
use layout::fault::OrderFault;

// The first question about a board that is to be written that got a no.
#[derive(Clone, Copy, PartialEq, Eq, Debug)]
pub enum WriteFault {
    // more than 512 routes
    RouteLimit,
    // a route is none of the frame
    Order(OrderFault),
    // the buffer is shorter than the sheet
    Buffer,
}

// By hand: contracts name the fault that `?` makes, so it says what it gives.
impl From<OrderFault> for WriteFault {
    ghost from_gives = { λ x y. y ≡ Order x };

    fn from(fault: OrderFault) -> WriteFault {
        WriteFault::Order(fault)
    }
}

impl WriteFault {
    // The question's number. (A match of its own in each enum of faults: nothing asks it of just any fault, so that a
    // trait would be no plainer.)
    pub fn number(self) -> u8
        ensures { result ≡ write_number self }
    {
        match self {
            WriteFault::RouteLimit => 52,
            WriteFault::Order(order) => order.fault.number(),
            WriteFault::Buffer => 61,
        }
    }
}

// Writes the sheet of a board at the front of the buffer, and answers how many bytes it has; what follows stays.
// Where a question gets a no, it answers the first that does, and the buffer stays as it was.
pub fn write(frame: &Frame, routes: &[Route], buffer: &mut [u8]) -> Result<usize, WriteFault>
    ensures answer { result ≡ write_answer (board_with frame.now routes.now) (length buffer.old) }
    ensures sheet { IfOk result (λ n. IsSheet (board_with frame.now routes.now) (take n buffer.new)) }
    ensures later { IfOk result (λ n. SameFrom n buffer.old buffer.new) }
    ensures refused { is_ok result ≡ false → buffer.new ≡ buffer.old }
    ensures valid { Decides (is_ok result) (Writable (board_with frame.now routes.now) (length buffer.old)) }
{
    let board = Checked::new(frame, routes)?;
    let length = board.sheet_length();
    if buffer.len() < length {
        return Err(WriteFault::Buffer);
    }
    let mut writer = BitWriter::new(buffer);
    board.write(&mut writer);
    Ok(length)
}
