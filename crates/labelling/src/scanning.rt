// Trying the routes that touch a place, in order of their numbers, for every picker.
ghost use Rattle.std.specs.Prelude.{◌≡◌, ◌<◌, ◌≤◌, ◌+◌, length};
ghost use Rattle.board.specs.Board.{shape_of};
ghost use Rattle.picker.specs.Meaning.{waiting};
ghost use Rattle.labelling.specs.Trying.{Carries, joined_by, scanned, unlabelled};

use crate::label::Label;
use crate::labels::PLACES;
use crate::reaching::reach;
use crate::way::way_on;
use board::frame::Frame;
use board::route::Route;
use picker::picker::Picker;

// A place from which routes are tried, with the amount of its label.
#[derive(Clone, Copy, PartialEq, Eq, Debug)]
pub struct Source {
    pub place: u8,
    pub amount: u32,
}

// The routes of a frame, each with its share.
#[derive(Clone, Copy)]
pub struct Carried<'a> {
    pub frame: &'a Frame,
    pub routes: &'a [Route],
    pub shares: &'a [i32],
    pub ghost carries: { Carries (shape_of frame.now) routes.now shares.now },
}

// Tries each route from a place: the place to which it leads on is labelled, if it is not yet. Ends at the first goal
// that is labelled, and answers it.
pub(crate) fn scan<P: Picker>(
    carried: &Carried,
    demand: &[u32; PLACES],
    from: Source,
    labels: &mut [Option<Label>; PLACES],
    picker: &mut P,
) -> Option<u8>
    requires room { waiting (P.meaning picker.old) + unlabelled (shape_of carried.now.frame.now).places labels.old ≤ (P.meaning picker.old).room }
    ensures goal { result ≡ (scanned demand.now from.place from.amount 0 carried.now.routes.now carried.now.shares.now labels.old).goal }
    ensures labels { labels.new ≡ (scanned demand.now from.place from.amount 0 carried.now.routes.now carried.now.shares.now labels.old).labels }
    ensures meaning { P.meaning picker.new ≡ joined_by (P.meaning picker.old) (scanned demand.now from.place from.amount 0 carried.now.routes.now carried.now.shares.now labels.old).joins }
{
    for (k, route) in carried.routes.iter().enumerate() {
        let Some(way) = way_on(from.place, k as u16, *route, carried.shares[k]) else {
            continue;
        };
        if let Some(goal) = reach(labels, demand, picker, way, from.amount) {
            return Some(goal);
        }
    }
    None
}
