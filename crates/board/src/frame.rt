// The frame of a board.
ghost use Rattle.std.specs.Prelude.{◌≡◌, ◌<◌, ◌≤◌, ◌≢◌, is_ok, Decides};

use crate::fault::FrameFault;

// How many places (nodes) a board has, which of them is home (the source) and which is port (the sink).
// Places are numbered from 0. (No model: it would hide from callers what the ghost fields say, and a `Copy` struct that
// holds a frame could not be used twice.)
#[derive(Clone, Copy, PartialEq, Eq, Debug)]
pub struct Frame {
    places: usize,
    home: usize,
    port: usize,
    ghost several: { 2 ≤ places },
    ghost few: { places ≤ 128 },
    ghost home_inside: { home < places },
    ghost port_inside: { port < places },
    ghost apart: { (port ≢ home) },
}

impl Frame {
    ghost use Rattle.board.specs.Board.{shape_of, ValidShape};
    ghost use Rattle.board.specs.Questions.{map_ok, frame_answer};

    // The frame with just these three numbers, or the first question that gets a no.
    pub fn new(places: usize, home: usize, port: usize) -> Result<Frame, FrameFault>
        ensures answer { map_ok shape_of result ≡ frame_answer places home port }
        ensures valid { Decides (is_ok result) (ValidShape (record { places = places; home = home; port = port })) }
    {
        if !(2..=128).contains(&places) {
            return Err(FrameFault::PlaceCount);
        }
        if home >= places {
            return Err(FrameFault::HomeUnknown);
        }
        if port >= places || port == home {
            return Err(FrameFault::PortUnknown);
        }
        Ok(Frame { places, home, port })
    }

    pub fn places(&self) -> usize
        ensures value { result ≡ (shape_of self.now).places }
        ensures valid { ValidShape (shape_of self.now) }
    {
        self.places
    }

    pub fn home(&self) -> usize
        ensures { result ≡ (shape_of self.now).home }
    {
        self.home
    }

    pub fn port(&self) -> usize
        ensures { result ≡ (shape_of self.now).port }
    {
        self.port
    }
}
