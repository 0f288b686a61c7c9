// A sheet in words: the board that it states, or why it is refused.
ghost use Rattle.std.specs.Prelude.{◌≡◌, ◌++◌, IfOk, string_bytes, OnOk};
ghost use Rattle.board.specs.Board.{shape_of};
ghost use Rattle.sheet.specs.View.{board_of};
ghost use Rattle.report.specs.Text.{refused_line, frame_lines, route_line, route_lines, described};

use board::frame::Frame;
use board::route::Route;
use layout::fault::SheetFault;
use sheet::view::Sheet;
use std::alloc::{AllocError, Global};

// As many entries as a sheet may fill.
const ENTRIES: usize = 512;

// The line for a refused sheet: number, layer, record and bit.
pub fn refused(heap: Global, fault: SheetFault) -> Result<String, AllocError>
    ensures { IfOk result (λ s. string_bytes s ≡ refused_line fault) }
{
    format!(in heap; "refused {fault}\n")
}

// The lines for a frame.
fn frame_lines(heap: Global, frame: &Frame) -> Result<String, AllocError>
    ensures { IfOk result (λ s. string_bytes s ≡ frame_lines (shape_of frame.now)) }
{
    let places = frame.places();
    let home = frame.home();
    let port = frame.port();
    format!(in heap; "places {places}\nhome {home}\nport {port}\n")
}

// Adds the line for a route.
fn push_route(text: &mut String, number: usize, route: Route) -> Result<(), AllocError>
    ensures { OnOk result (string_bytes text.new ≡ string_bytes text.old ++ route_line number route) }
{
    let Route {
        start,
        end,
        floor,
        ceiling,
    } = route;
    write!(
        text,
        "route {number} start {start} end {end} floor {floor} ceiling {ceiling}\n"
    )
}

// Adds the lines for the routes of a sheet.
fn push_routes(text: &mut String, sheet: &Sheet) -> Result<(), AllocError>
    ensures { OnOk result (string_bytes text.new ≡ string_bytes text.old ++ route_lines 0 (board_of sheet.now).routes) }
{
    for (number, route) in sheet.routes().enumerate() {
        push_route(text, number, route)?;
    }
    Ok(())
}

// The lines for the board of a sheet, with its frame.
fn board_lines(heap: Global, frame: &Frame, sheet: &Sheet) -> Result<String, AllocError>
    ensures { IfOk result (λ s. string_bytes s ≡ frame_lines (shape_of frame.now) ++ route_lines 0 (board_of sheet.now).routes) }
{
    let mut text = frame_lines(heap, frame)?;
    push_routes(&mut text, sheet)?;
    Ok(text)
}

// What is printed of a sheet: the board that it states, or the line for a refused one.
pub fn describe(heap: Global, bytes: &[u8]) -> Result<String, AllocError>
    ensures { IfOk result (λ s. string_bytes s ≡ described bytes.now) }
{
    match Sheet::read(bytes, ENTRIES) {
        // a sheet that was read has a frame
        Ok(sheet) => board_lines(heap, &sheet.frame().unwrap(), &sheet),
        Err(fault) => refused(heap, fault),
    }
}
