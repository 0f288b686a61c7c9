// Why a sheet is refused. Each layer hands up the fault of the layer below whole.
ghost use Rattle.std.specs.Prelude.{◌≡◌, Some};
ghost use Rattle.layout.specs.Faults.{sheet_number, layer_of, record_of, bit_of, layer_name, fault_text, frame_field, route_field};
ghost use Rattle.layout.specs.declared.fault.SheetFault.TheVariants.{Bits, Frame, Order};

use bits::fault::BitFault;
use bits::field::{Field, record_start};
use board::fault::{FrameFault, RouteFault};
use std::error::Error;
use std::fmt;

// How many bits the header has.
const HEADER_BITS: usize = 32;

// How many bits each record has.
const RECORD_BITS: usize = 39;

// The route of this number, as the sheet states it, is refused.
#[derive(Clone, Copy, PartialEq, Eq, Debug)]
pub struct OrderFault {
    pub route: u16,
    pub fault: RouteFault,
}

// The first question about a sheet that got a no.
#[derive(Clone, Copy, PartialEq, Eq, Debug)]
pub enum SheetFault {
    // the sheet ends inside a field
    Bits(BitFault),
    // the header states no frame
    Frame(FrameFault),
    // a record states no route of the frame
    Order(OrderFault),
    // more than 512 routes
    RouteLimit,
    // more routes than there are entries
    EntryLimit,
    // a whole byte or more follows the last of so many records
    Trailing { routes: u16 },
    // the bits that fill the last byte, after so many records, are not all 0: this is the first 1
    Padding { routes: u16, bit: usize },
}

// Which part of reading a sheet refused it.
#[derive(Clone, Copy, PartialEq, Eq, Debug)]
pub enum Layer {
    Bits,
    Frame,
    Order,
    Sheet,
}

// Three conversions by hand: contracts name the fault that `?` makes, so each says what it gives.
impl From<BitFault> for SheetFault {
    ghost from_gives = { λ x y. y ≡ Bits x };

    fn from(fault: BitFault) -> SheetFault {
        SheetFault::Bits(fault)
    }
}

impl From<FrameFault> for SheetFault {
    ghost from_gives = { λ x y. y ≡ Frame x };

    fn from(fault: FrameFault) -> SheetFault {
        SheetFault::Frame(fault)
    }
}

impl From<OrderFault> for SheetFault {
    ghost from_gives = { λ x y. y ≡ Order x };

    fn from(fault: OrderFault) -> SheetFault {
        SheetFault::Order(fault)
    }
}

impl Layer {
    // The layer's name, as it is printed.
    pub fn name(self) -> &'static str
        ensures { result.now ≡ layer_name self }
    {
        match self {
            Layer::Bits => "bits",
            Layer::Frame => "frame",
            Layer::Order => "order",
            Layer::Sheet => "sheet",
        }
    }
}

// A layer prints as its name.
impl fmt::Display for Layer {
    ghost output = { λ l. Some (layer_name l) };

    fn fmt<W: fmt::Write>(&self, f: &mut fmt::Formatter<W>) -> fmt::Result {
        f.write_str(self.name())
    }
}

// A fault prints as its number, its layer, its record and its bit.
impl fmt::Display for SheetFault {
    ghost output = { λ f. Some (fault_text f) };

    fn fmt<W: fmt::Write>(&self, f: &mut fmt::Formatter<W>) -> fmt::Result {
        let number = self.number();
        let layer = self.layer();
        let record = self.record();
        let bit = self.bit();
        write!(f, "{number} {layer} {record} {bit}")
    }
}

impl Error for SheetFault {}

impl SheetFault {
    // The question's number. (A match of its own in each enum of faults: nothing asks it of just any fault, so that a
    // trait would be no plainer.)
    pub fn number(self) -> u8
        ensures { result ≡ sheet_number self }
    {
        match self {
            SheetFault::Bits(_) => 51,
            SheetFault::Frame(fault) => fault.number(),
            SheetFault::Order(order) => order.fault.number(),
            SheetFault::RouteLimit => 52,
            SheetFault::EntryLimit => 53,
            SheetFault::Trailing { .. } => 54,
            SheetFault::Padding { .. } => 55,
        }
    }

    // The layer that the question belongs to.
    pub fn layer(self) -> Layer
        ensures { result ≡ layer_of self }
    {
        match self {
            SheetFault::Bits(_) => Layer::Bits,
            SheetFault::Frame(_) => Layer::Frame,
            SheetFault::Order(_) => Layer::Order,
            SheetFault::RouteLimit
            | SheetFault::EntryLimit
            | SheetFault::Trailing { .. }
            | SheetFault::Padding { .. } => Layer::Sheet,
        }
    }

    // The record that was asked about: 0 is the header, and route k is record k + 1.
    pub fn record(self) -> usize
        ensures { result ≡ record_of self }
    {
        match self {
            SheetFault::Bits(BitFault { bit }) => bit
                .checked_sub(HEADER_BITS)
                .map_or(0, |past| past / RECORD_BITS + 1),
            SheetFault::Frame(_) | SheetFault::RouteLimit | SheetFault::EntryLimit => 0,
            SheetFault::Order(order) => usize::from(order.route) + 1,
            SheetFault::Trailing { routes } | SheetFault::Padding { routes, .. } => {
                usize::from(routes) + 1
            }
        }
    }

    // The bit where the failing field begins; where bits are left over, the first of them, or the first that is 1.
    pub fn bit(self) -> usize
        ensures { result ≡ bit_of self }
    {
        match self {
            SheetFault::Bits(fault) => fault.bit,
            SheetFault::Frame(fault) => frame_field(fault).offset(),
            SheetFault::Order(order) => record_start(order.route)
                + route_field(order.fault).offset(),
            SheetFault::RouteLimit | SheetFault::EntryLimit => Field::Routes.offset(),
            SheetFault::Trailing { routes } => record_start(routes),
            SheetFault::Padding { bit, .. } => bit,
        }
    }
}

// The header's field that a frame is refused for. (No `From`, here and below: both types are of other crates.)
fn frame_field(fault: FrameFault) -> Field
    ensures { result ≡ frame_field fault }
{
    match fault {
        FrameFault::PlaceCount => Field::Places,
        FrameFault::HomeUnknown => Field::Home,
        FrameFault::PortUnknown => Field::Port,
    }
}

// The record's field that a route is refused for: of two equal ends it is the end.
fn route_field(fault: RouteFault) -> Field
    ensures { result ≡ route_field fault }
{
    match fault {
        RouteFault::StartUnknown => Field::Start,
        RouteFault::EndUnknown | RouteFault::SamePlace => Field::End,
        RouteFault::CeilingRange => Field::Ceiling,
        RouteFault::FloorRange => Field::Floor,
    }
}
