// What the header of a sheet states.
use board::frame::Frame;

// The frame of the board, and how many routes it has.
#[derive(Clone, Copy)]
pub(crate) struct Header {
    pub(crate) frame: Frame,
    pub(crate) routes: u16,
}
