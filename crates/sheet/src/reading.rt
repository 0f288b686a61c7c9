// Reading a sheet: every question in its order, and then a view that copies nothing.
ghost use Rattle.std.specs.Prelude.{◌≡◌, ◌+◌, ◌*◌, ◌^◌, ◌<◌, ◌≤◌, length, map, sum_by, IfOk, OnOk, slice_index};
ghost use Rattle.board.specs.Board.{shape_of};
ghost use Rattle.board.specs.Questions.{answer, first_no, map_ok};
ghost use Rattle.bits.specs.Bits.{bits_of};
ghost use Rattle.bits.specs.Cursor.{cursor_of};
ghost use Rattle.bits.specs.Fields.{width, record_start};
ghost use Rattle.bits.specs.Reading.{moved};
ghost use Rattle.sheet.specs.Header.{stated_of, stated_header};
ghost use Rattle.sheet.specs.Taking.{InTurn, fields_answer, route_of, order_answer};
ghost use Rattle.layout.specs.Laws.{Reads};
ghost use Rattle.layout.specs.Questions.{header_questions, record_questions, records_questions, end_questions, sheet_fault};
ghost use Rattle.layout.specs.Stated.{stated};
ghost use Rattle.sheet.specs.View.{board_of};

use crate::header::Header;
use crate::limits::ROUTE_LIMIT;
use crate::view::Sheet;
use bits::fault::BitFault;
use bits::field::{Field, record_start};
use bits::reader::BitReader;
use bits::signed::widen;
use board::frame::Frame;
use board::route::Route;
use layout::fault::{OrderFault, SheetFault};

// The fields of the header, and those of a record, in their order.
const HEADER: [Field; 4] = [Field::Places, Field::Home, Field::Port, Field::Routes];

const RECORD: [Field; 4] = [Field::Start, Field::End, Field::Floor, Field::Ceiling];

impl<'a> Sheet<'a> {
    // A view of the sheet, if it is the sheet of a valid board with at most so many routes; else the first question
    // that gets a no.
    pub fn read(bytes: &'a [u8], entries: usize) -> Result<Sheet<'a>, SheetFault>
        ensures answer { map_ok board_of result ≡ answer (sheet_fault entries (bits_of bytes.now)) (stated (bits_of bytes.now)) }
        ensures lent { IfOk result (λ s. s.bytes.now ≡ bytes.now) }
        ensures reads { Reads entries bytes.now (map_ok board_of result) }
    {
        let mut reader = BitReader::new(bytes);
        let header = read_header(&mut reader, entries)?;
        check_records(&mut reader, &header)?;
        check_end(bytes, header.routes)?;
        Ok(Sheet { bytes })
    }
}

// The numbers that four fields state, which stand in turn from where the reader is; or the first that is missing.
// (In line, so that each field's width is known where it is taken: as a call of its own it takes a quarter more time.)
#[inline(always)]
fn take_four(reader: &mut BitReader, fields: [Field; 4]) -> Result<[u16; 4], BitFault>
    requires start { reader.old.position < 2 ^ 32 }
    requires four { length fields ≡ 4 }
    requires turn { InTurn 0 fields }
    ensures answer { result ≡ fields_answer (cursor_of reader.old) fields }
    ensures reader { OnOk result (cursor_of reader.new ≡ moved (cursor_of reader.old) (sum_by width fields)) }
    ensures bytes { reader.new.bytes.now ≡ reader.old.bytes.now }
{
    let mut numbers = [0; 4];
    for (k, field) in fields.iter().enumerate() {
        numbers[k] = reader.take(*field)?;
    }
    Ok(numbers)
}

// The frame and the number of routes that the header states.
fn read_header(reader: &mut BitReader, entries: usize) -> Result<Header, SheetFault>
    requires { reader.old.position ≡ 0 }
    ensures answer { map_ok stated_of result ≡ answer (first_no (header_questions entries (bits_of reader.old.bytes.now))) (stated_header (bits_of reader.old.bytes.now)) }
    ensures reader { OnOk result (cursor_of reader.new ≡ moved (cursor_of reader.old) 32) }
    ensures bytes { reader.new.bytes.now ≡ reader.old.bytes.now }
{
    let [places, home, port, routes] = take_four(reader, HEADER)?;
    let frame = Frame::new(usize::from(places), usize::from(home), usize::from(port))?;
    let count = usize::from(routes);
    if count > ROUTE_LIMIT {
        return Err(SheetFault::RouteLimit);
    }
    if count > entries {
        return Err(SheetFault::EntryLimit);
    }
    Ok(Header { frame, routes })
}

// Every record, in the order of the routes.
fn check_records(reader: &mut BitReader, header: &Header) -> Result<(), SheetFault>
    requires { reader.old.position ≡ 32 }
    ensures { result ≡ answer (first_no (records_questions (bits_of reader.old.bytes.now) (shape_of header.now.frame) 0 header.now.routes)) tt }
{
    for route in 0..header.routes {
        check_record(reader, &header.frame, route)?;
    }
    Ok(())
}

// The record of one route.
fn check_record(reader: &mut BitReader, frame: &Frame, route: u16) -> Result<(), SheetFault>
    requires { reader.old.position ≡ record_start route }
    ensures answer { result ≡ answer (first_no (record_questions (bits_of reader.old.bytes.now) (shape_of frame.now) route)) tt }
    ensures reader { OnOk result (cursor_of reader.new ≡ moved (cursor_of reader.old) 39) }
    ensures bytes { reader.new.bytes.now ≡ reader.old.bytes.now }
{
    let numbers = take_four(reader, RECORD)?;
    order_route(frame, route, numbers)?;
    Ok(())
}

// The route with this number, from the numbers of its record.
fn order_route(frame: &Frame, route: u16, numbers: [u16; 4]) -> Result<Route, OrderFault>
    requires { slice_index numbers 2 < 2 ^ 13 }
    ensures { result ≡ order_answer (shape_of frame.now) route (route_of numbers) }
{
    let [start, end, floor, ceiling] = numbers;
    let asked = Route::new(
        frame,
        usize::from(start),
        usize::from(end),
        i32::from(widen(floor)),
        i32::from(ceiling),
    );
    asked.map_err(|fault| OrderFault { route, fault })
}

// What follows the last record.
fn check_end(bytes: &[u8], routes: u16) -> Result<(), SheetFault>
    requires { record_start routes ≤ 8 * length bytes.now }
    ensures { result ≡ answer (first_no (end_questions (bits_of bytes.now) routes)) tt }
{
    let end = record_start(routes);
    if bytes.len() > end.div_ceil(8) {
        return Err(SheetFault::Trailing { routes });
    }
    if end % 8 == 0 {
        return Ok(());
    }
    let rest = bytes[end / 8] % (1 << (8 - end % 8));
    if rest == 0 {
        return Ok(());
    }
    Err(SheetFault::Padding {
        routes,
        // at most 8, and nothing but `as` widens 32 bits to an index
        bit: end - end % 8 + rest.leading_zeros() as usize,
    })
}
