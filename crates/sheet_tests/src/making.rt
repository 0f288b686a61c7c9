// Frames and routes at the ends of what is allowed, and in the order of the questions.
use board::fault::{FrameFault, RouteFault};
use board::frame::Frame;
use board::route::Route;
use std::test::Fail;

// Places, home and port, and the number of the refusal, or none where they are a frame.
const FRAMES: [(usize, usize, usize, Option<u8>); 11] = [
    (2, 0, 1, None),
    (128, 127, 126, None),
    (1, 0, 1, Some(1)),
    (129, 0, 1, Some(1)),
    (0, 9, 9, Some(1)),
    (usize::MAX, 0, 1, Some(1)),
    (2, 2, 2, Some(2)),
    (2, usize::MAX, 1, Some(2)),
    (2, 0, 2, Some(3)),
    (2, 1, 1, Some(3)),
    (128, 0, usize::MAX, Some(3)),
];

#[test]
fn frames(rt: HostRuntime) {
    for (places, home, port, number) in FRAMES {
        let refusal = Frame::new(places, home, port).err();
        assert_eq!(rt; refusal.map(FrameFault::number), number);
    }
}

// Start, end, floor and ceiling, and the number of the refusal, or none where they are a route among four places.
const ROUTES: [(usize, usize, i32, i32, Option<u8>); 16] = [
    (0, 3, -3, 7, None),
    (3, 0, -4095, 0, None),
    (1, 2, 4095, 4095, None),
    (4, 4, 9, 8, Some(11)),
    (0, 4, 9, 8, Some(11)),
    (usize::MAX, 0, 0, 1, Some(11)),
    (0, usize::MAX, 0, 1, Some(11)),
    (2, 2, 9, -1, Some(12)),
    (0, 1, 9, -1, Some(13)),
    (0, 1, 0, 4096, Some(13)),
    (0, 1, -5000, i32::MAX, Some(13)),
    (0, 1, 0, i32::MIN, Some(13)),
    (0, 1, -4096, 0, Some(14)),
    (0, 1, 8, 7, Some(14)),
    (0, 1, i32::MIN, 7, Some(14)),
    (0, 1, i32::MAX, 7, Some(14)),
];

#[test]
fn routes(rt: HostRuntime) -> Result<(), Fail> {
    let frame = Frame::new(4, 0, 3)?;
    for (start, end, floor, ceiling, number) in ROUTES {
        let refusal = Route::new(&frame, start, end, floor, ceiling).err();
        assert_eq!(rt; refusal.map(RouteFault::number), number);
    }
    Ok(())
}

// A frame with a name beside it: a frame may be kept in what is copied.
#[derive(Clone, Copy)]
struct Named {
    frame: Frame,
    name: u8,
}

// Home as a byte, and whether it is another place than port: a frame alone tells that this fits and holds.
fn home_byte(frame: &Frame) -> u8 {
    let home = frame.home();
    let port = frame.port();
    prove!(home != port);
    home as u8
}

fn name_and_home(named: Named) -> (u8, u8) {
    (named.name, home_byte(&named.frame))
}

#[test]
fn frames_are_copied(rt: HostRuntime) -> Result<(), Fail> {
    let frame = Frame::new(128, 127, 126)?;
    let named = Named { frame, name: 7 };
    assert_eq!(rt; name_and_home(named), (7, 127));
    let two = [named, named];
    assert_eq!(rt; name_and_home(two[1]), name_and_home(named));
    Ok(())
}
