// Why a field is not read or written.

// The bytes end inside a field, which begins at this bit.
#[derive(Clone, Copy, PartialEq, Eq, Debug)]
pub struct BitFault {
    pub bit: usize,
}
