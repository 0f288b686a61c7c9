// Examining one place, for every picker.
ghost use Rattle.std.specs.Prelude.{◌≡◌, ◌≤◌, ◌+◌};
ghost use Rattle.board.specs.Board.{shape_of};
ghost use Rattle.picker.specs.Meaning.{waiting};
ghost use Rattle.labelling.specs.Trying.{Examines, unlabelled};

use crate::label::Label;
use crate::labels::PLACES;
use crate::scanning::{Carried, Source, scan};
use picker::picker::Picker;

// The place that was examined, and the goal that was labelled from it, if one was.
#[derive(Clone, Copy, PartialEq, Eq, Debug)]
pub struct Examined {
    pub place: u8,
    pub goal: Option<u8>,
}

// Takes one place from the picker, and tries the routes that touch it; none, if nothing waits.
pub(crate) fn examine<P: Picker>(
    carried: &Carried,
    demand: &[u32; PLACES],
    labels: &mut [Option<Label>; PLACES],
    picker: &mut P,
) -> Option<Examined>
    requires room { waiting (P.meaning picker.old) + unlabelled (shape_of carried.now.frame.now).places labels.old ≤ (P.meaning picker.old).room }
    ensures { Examines carried.now.routes.now carried.now.shares.now demand.now (P.meaning picker.old) labels.old result (P.meaning picker.new) labels.new }
{
    let place = picker.take()?;
    let label = labels[usize::from(place)];
    let amount = label.map_or(0, |label| label.amount);
    let goal = scan(carried, demand, Source { place, amount }, labels, picker);
    Some(Examined { place, goal })
}
