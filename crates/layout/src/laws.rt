// What holds of every sheet. Each function stands for the theorem that is its contract, and does nothing.
// Its attribute names the lemma that proves it.
ghost use Rattle.layout.specs.Laws.{OneBoard, ReadsBack};

// No two valid boards have the same sheet.
#[tactic(auto, using(crate::proofs::Theorems::one_board))]
pub fn one_board_for_each_sheet()
    ensures { OneBoard }
{}

// The sheet of a valid board reads back as that board, into any number of entries that suffices.
#[tactic(auto, using(crate::proofs::Theorems::reads_back))]
pub fn written_board_reads_back()
    ensures { ReadsBack }
{}
