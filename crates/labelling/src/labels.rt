// The labels of the places.
ghost use Rattle.std.specs.Prelude.{◌≡◌, ◌<◌, length, is_none};
ghost use Rattle.labelling.specs.Labels.{label_of, labelled};

use crate::label::Label;
use crate::way::Way;

// How many places a board may have.
pub const PLACES: usize = 128;

// Labels the place where a way leads, if it has no label yet: with the way, and with the smaller of the amount and the
// step.
pub(crate) fn label_place(labels: &mut [Option<Label>; PLACES], way: Way, amount: u32) -> bool
    requires { way.place < 128 }
    ensures new { result ≡ is_none (label_of labels.old way.place) }
    ensures labels { labels.new ≡ labelled labels.old way amount }
{
    let place = usize::from(way.place);
    if labels[place].is_some() {
        return false;
    }
    labels[place] = Some(Label {
        via: way.via,
        amount: amount.min(way.step),
    });
    true
}
