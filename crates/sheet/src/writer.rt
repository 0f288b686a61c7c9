// Writing fields into a lent buffer.
ghost use Rattle.std.specs.Prelude.{◌≡◌, ◌+◌, ◌*◌, ◌/◌, ◌^◌, ◌<◌, ◌≤◌, true, false, length, is_ok, if◌then◌else◌};
ghost use Rattle.bits.specs.Bits.{bits_of, digits};
ghost use Rattle.bits.specs.Fields.{width};
ghost use Rattle.sheet.specs.Writing.{bytes_to, window_of, put_answer, put_bits, SameFrom, Placed, HasRoom, Wrote};

use bits::fault::BitFault;
use bits::field::{Field, end_of};

// A buffer, and the bit where the next field begins. (No `impl Model`: clauses speak of the loan of the buffer too.)
#[derive(Drop)]
pub struct BitWriter<'a> {
    buffer: &'a mut [u8],
    position: usize,
}

// 24 bits: the first `offset` bits of the byte that stood there, the field's bits, and then 0.
fn window(old: u8, offset: usize, width: usize, value: u16) -> u32
    requires offset { offset < 8 }
    requires width { width < 14 }
    ensures value { result ≡ window_of old offset width value }
    ensures small { result < 2 ^ 24 }
{
    let kept = u32::from(old) >> (8 - offset);
    let new = u32::from(value) & ((1 << width) - 1);
    (kept << (24 - offset)) | (new << (24 - offset - width))
}

// Writes a field whose bits all lie in the buffer, from bit `start` on.
pub(crate) fn put_at(buffer: &mut [u8], start: usize, field: Field, value: u16)
    requires { start + width field ≤ 8 * length buffer.old }
    ensures { Placed buffer.old start (digits (width field) value) buffer.new }
{
    let width = field.width();
    let index = start / 8;
    let offset = start % 8;
    let window = window(buffer[index], offset, width, value);
    let [_, high, middle, low] = window.to_be_bytes();
    buffer[index] = high;
    if offset + width > 8 {
        buffer[index + 1] = middle;
    }
    if offset + width > 16 {
        buffer[index + 2] = low;
    }
}

impl<'a> BitWriter<'a> {
    // A writer at bit 0.
    pub fn new(buffer: &'a mut [u8]) -> BitWriter<'a>
        ensures buffer { result.buffer.now ≡ buffer.old }
        ensures same { result.buffer.ghost_name ≡ buffer.entry.ghost_name }
        ensures position { result.position ≡ 0 }
    {
        BitWriter {
            buffer,
            position: 0,
        }
    }

    // Writes the field's lowest bits and moves behind them; the rest of the last byte is cleared, and all else stays.
    // Where they do not all fit, it answers the bit where they would begin, and nothing changes.
    pub fn put(&mut self, field: Field, value: u16) -> Result<(), BitFault>
        ensures answer { result ≡ put_answer (8 * length self.old.buffer.now) self.old.position (width field) }
        ensures position { self.new.position ≡ (if is_ok result then self.old.position + width field else self.old.position) }
        ensures bits { bits_of self.new.buffer.now ≡ put_bits (is_ok result) (bits_of self.old.buffer.now) self.old.position (width field) value }
        ensures later { SameFrom (bytes_to (self.old.position + width field)) self.old.buffer.now self.new.buffer.now }
        ensures refused { is_ok result ≡ false → self.new.buffer.now ≡ self.old.buffer.now }
        ensures length { length self.new.buffer.now ≡ length self.old.buffer.now }
        ensures same { self.new.buffer.ghost_name ≡ self.old.buffer.ghost_name }
    {
        let bit = self.position;
        end_of(field, bit, self.buffer.len()).ok_or(BitFault { bit })?;
        self.place(field, value);
        Ok(())
    }

    // Writes a field whose bits all fit, as `put` does.
    pub(crate) fn place(&mut self, field: Field, value: u16)
        requires { HasRoom self.old (width field) }
        ensures { Wrote self.old (digits (width field) value) self.new }
    {
        let start = self.position;
        put_at(self.buffer, start, field, value);
        self.position = start + field.width();
    }
}
