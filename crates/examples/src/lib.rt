// The worked examples. Each function stands for the theorem that is its contract, and does nothing.
// Its attribute names the lemma that proves it.
#![tactic(auto)]

ghost use Rattle.examples.specs.Instances.{Instances};
ghost use Rattle.examples.specs.Mistakes.{Mistakes};
ghost use Rattle.examples.specs.Table.{EveryRow};

// Every row of the table of worked examples holds.
#[tactic(auto, using(crate::proofs::Rows::every_row))]
pub fn worked_examples_hold()
    ensures { EveryRow }
{}

// Two plausible mistakes are refuted: a width by ceilings alone, and the region seen from port.
#[tactic(auto, using(crate::proofs::Refuted::mistakes))]
pub fn mistakes_are_refuted()
    ensures { Mistakes }
{}

// The theorems about every board apply to worked boards that meet all they ask.
#[tactic(auto, using(crate::proofs::Applied::instances))]
pub fn theorems_apply()
    ensures { Instances }
{}
