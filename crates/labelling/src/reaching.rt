// Labelling one more place, for every picker.
ghost use Rattle.std.specs.Prelude.{◌≡◌, ◌<◌, None};
ghost use Rattle.picker.specs.Meaning.{waiting};
ghost use Rattle.labelling.specs.Labels.{label_of};
ghost use Rattle.labelling.specs.Trying.{reached, joined_by};

use crate::label::Label;
use crate::labels::{PLACES, label_place};
use crate::way::Way;
use picker::picker::Picker;

// Labels the place where a way leads, if it has no label yet, and has it wait, unless it is a goal. Answers the goal.
pub(crate) fn reach<P: Picker>(
    labels: &mut [Option<Label>; PLACES],
    demand: &[u32; PLACES],
    picker: &mut P,
    way: Way,
    amount: u32,
) -> Option<u8>
    requires place { way.place < 128 }
    requires room { label_of labels.old way.place ≡ None → waiting (P.meaning picker.old) < (P.meaning picker.old).room }
    ensures goal { result ≡ (reached demand.now labels.old way amount).goal }
    ensures labels { labels.new ≡ (reached demand.now labels.old way amount).labels }
    ensures meaning { P.meaning picker.new ≡ joined_by (P.meaning picker.old) (reached demand.now labels.old way amount).joins }
{
    let fresh = label_place(labels, way, amount);
    if !fresh {
        return None;
    }
    if demand[usize::from(way.place)] > 0 {
        return Some(way.place);
    }
    let _ = picker.put(way.place, amount.min(way.step));
    None
}
