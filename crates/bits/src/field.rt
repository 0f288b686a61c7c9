// The fields of a sheet: how wide they are, and where they begin.
ghost use Rattle.std.specs.Prelude.{◌≡◌, ◌+◌, ◌*◌, if◌then◌else◌, Some, None};
ghost use Rattle.bits.specs.Bits.{within};
ghost use Rattle.bits.specs.Fields.{width, offset, record_start};

// The header's four fields, then the four of a record.
#[derive(Clone, Copy, PartialEq, Eq, Debug)]
pub enum Field {
    Places,
    Home,
    Port,
    Routes,
    Start,
    End,
    Floor,
    Ceiling,
}

impl Field {
    // How many bits the field has.
    pub fn width(self) -> usize
        ensures { result ≡ width self }
    {
        match self {
            Field::Places => 8,
            Field::Home | Field::Port | Field::Start | Field::End => 7,
            Field::Routes => 10,
            Field::Floor => 13,
            Field::Ceiling => 12,
        }
    }

    // How many bits of the header, or of the record, stand before it.
    pub fn offset(self) -> usize
        ensures { result ≡ offset self }
    {
        match self {
            Field::Places | Field::Start => 0,
            Field::Home => 8,
            Field::Port => 15,
            Field::Routes => 22,
            Field::End => 7,
            Field::Floor => 14,
            Field::Ceiling => 27,
        }
    }
}

// The bit where the record of a route begins.
pub fn record_start(route: u16) -> usize
    ensures { result ≡ record_start route }
{
    32 + 39 * usize::from(route)
}

// The bit after a field that begins at bit `start`, where all of its bits lie in so many bytes, and that bit has a number.
pub fn end_of(field: Field, start: usize, bytes: usize) -> Option<usize>
    ensures { result ≡ (if within (8 * bytes) start (width field) then Some (start + width field) else None) }
{
    start
        .checked_add(field.width())
        .filter(|end| (end - 1) / 8 < bytes)
}
