// Reading fields over lent bytes.
ghost use Rattle.std.specs.Prelude.{◌≡◌, ◌^◌, ◌<◌, is_ok, IfOk, if◌then◌else◌, slice_index};
ghost use Rattle.bits.specs.Bits.{bits_of, field_at};
ghost use Rattle.bits.specs.Fields.{width};

use crate::fault::BitFault;
use crate::field::{Field, end_of};

// Bytes, and the bit where the next field begins. (No model: with one, two readers over bytes of their own could not be
// swapped.)
#[derive(Drop)]
pub struct BitReader<'a> {
    bytes: &'a [u8],
    position: usize,
}

// The byte at an index; past the end it is 0.
fn byte_at(bytes: &[u8], index: usize) -> u8
    ensures { result ≡ slice_index bytes.now index }
{
    bytes.get(index).copied().unwrap_or(0)
}

// The number that a field states which begins at bit `start`; a bit past the end counts as 0. (That it is below
// 2 ^ width is a clause of each call that answers such a number: a type for each width would be no plainer.)
pub fn field_at(bytes: &[u8], start: usize, field: Field) -> u16
    ensures value { result ≡ field_at (bits_of bytes.now) start (width field) }
    ensures bound { result < 2 ^ width field }
{
    let width = field.width();
    let index = start / 8;
    let high = byte_at(bytes, index);
    let middle = byte_at(bytes, index + 1);
    let low = byte_at(bytes, index + 2);
    let window = u32::from_be_bytes([0, high, middle, low]);
    let shifted = window >> (24 - start % 8 - width);
    // at most 16 bits are left: `try_from` would bring an error that cannot come
    (shifted & ((1 << width) - 1)) as u16
}

impl<'a> BitReader<'a> {
    ghost use Rattle.bits.specs.Cursor.{cursor_of};
    ghost use Rattle.bits.specs.Reading.{taken, moved};

    // A reader at bit 0.
    pub fn new(bytes: &'a [u8]) -> BitReader<'a>
        ensures { cursor_of result ≡ record { bytes = bytes.now; position = 0 } }
    {
        BitReader { bytes, position: 0 }
    }

    // The number that the next bits state, and then the reader stands behind them; or the bit where they begin, and
    // then it has not moved.
    pub fn take(&mut self, field: Field) -> Result<u16, BitFault>
        ensures answer { result ≡ taken (cursor_of self.old) (width field) }
        ensures bound { IfOk result (λ n. n < 2 ^ width field) }
        ensures reader { cursor_of self.new ≡ (if is_ok result then moved (cursor_of self.old) (width field) else cursor_of self.old) }
    {
        let start = self.position;
        self.position = end_of(field, start, self.bytes.len()).ok_or(BitFault { bit: start })?;
        Ok(field_at(self.bytes, start, field))
    }
}
