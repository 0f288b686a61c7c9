// Boards written as sheets, and read back.
use board::frame::Frame;
use board::route::Route;
use sheet::view::Sheet;
use sheet::writing::{WriteFault, write};
use std::array;
use std::test::Fail;

const TWO_PLACES: [u8; 9] = [0x02, 0x00, 0x04, 0x01, 0x00, 0x07, 0xff, 0xa0, 0x0e];

#[test]
fn two_places_are_written(rt: HostRuntime) -> Result<(), Fail> {
    let frame = Frame::new(2, 0, 1)?;
    let route = Route::new(&frame, 0, 1, -3, 7)?;
    let mut buffer = [0xee; 12];
    assert_eq!(rt; write(&frame, &[route], &mut buffer)?, 9);
    assert!(rt; buffer[0..9] == TWO_PLACES[0..9]);
    assert!(rt; buffer[9..12] == [0xee; 3][0..3]);
    Ok(())
}

// The number of the refusal, if there is one, and whether all bytes of the buffer are as they were.
fn written_into(frame: &Frame, length: usize, route: Route) -> (Option<u8>, bool) {
    let mut buffer = [0xee; 12];
    let refusal = write(frame, &[route], &mut buffer[0..length.min(12)]).err();
    (refusal.map(WriteFault::number), buffer == [0xee; 12])
}

#[test]
fn refusals_write_nothing(rt: HostRuntime) -> Result<(), Fail> {
    let frame = Frame::new(2, 0, 1)?;
    let good = Route {
        start: 0,
        end: 1,
        floor: -3,
        ceiling: 7,
    };
    assert_eq!(rt; written_into(&frame, 9, good), (None, false));
    assert_eq!(rt; written_into(&frame, 8, good), (Some(61), true));
    assert_eq!(rt; written_into(&frame, 0, good), (Some(61), true));
    let bad = Route {
        start: 0,
        end: 2,
        floor: -3,
        ceiling: 7,
    };
    assert_eq!(rt; written_into(&frame, 8, bad), (Some(11), true));
    let high = Route {
        start: 0,
        end: 1,
        floor: -3,
        ceiling: 4096,
    };
    assert_eq!(rt; written_into(&frame, 12, high), (Some(13), true));
    Ok(())
}

// A route for each number, among 128 places.
fn nth_route(number: u16) -> Route {
    // small numbers: `try_from` would bring an error that cannot come
    let start = (number % 128) as u8;
    let ceiling = (number % 512) as i16 * 8;
    Route {
        start,
        end: 127 - start,
        floor: 0 - ceiling,
        ceiling,
    }
}

// As many routes as a sheet may have.
fn full() -> [Route; 512] {
    array::from_fn(|number| nth_route(number as u16))
}

// A sum that tells bytes in another order apart.
fn weighed(bytes: &[u8]) -> u64 {
    bytes.iter().zip(1u64..).fold(0u64, |sum, (byte, place)| {
        sum.wrapping_add(place.wrapping_mul(u64::from(*byte)))
    })
}

#[test]
fn a_full_sheet_is_written(rt: HostRuntime) -> Result<(), Fail> {
    let frame = Frame::new(128, 5, 7)?;
    let routes = full();
    let mut buffer = [0xee; 2501];
    assert_eq!(rt; write(&frame, &routes, &mut buffer)?, 2500);
    assert_eq!(rt; buffer[2500], 0xee);
    // as tools/encode_sheets.py has it
    assert_eq!(rt; weighed(&buffer[0..2500]), 355656482);
    Ok(())
}

#[test]
fn a_full_sheet_reads_back(rt: HostRuntime) -> Result<(), Fail> {
    let frame = Frame::new(128, 5, 7)?;
    let routes = full();
    let mut buffer = [0xee; 2500];
    assert_eq!(rt; write(&frame, &routes, &mut buffer)?, 2500);
    let sheet = Sheet::read(&buffer, 512)?;
    assert_eq!(rt; sheet.len(), 512);
    for (number, route) in routes.iter().enumerate() {
        assert_eq!(rt; sheet.route(number), Some(*route));
    }
    assert_eq!(rt; sheet.routes().count(), 512);
    for (route, expected) in sheet.routes().zip(routes) {
        assert_eq!(rt; route, expected);
    }
    assert!(rt; sheet.route(512).is_none());
    Ok(())
}
