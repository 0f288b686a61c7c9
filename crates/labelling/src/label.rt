// What a labelled place keeps.

// How a place was reached.
#[derive(Clone, Copy, PartialEq, Eq, Debug)]
pub enum Via {
    // it is an origin
    Origin,
    // along the route of this number, from its start
    Along(u16),
    // against the route of this number, from its end
    Against(u16),
}

// The label of a place, as in the labelling process of Ford and Fulkerson: how it was reached, and how much can be
// brought there.
#[derive(Clone, Copy, PartialEq, Eq, Debug)]
pub struct Label {
    pub via: Via,
    pub amount: u32,
}
