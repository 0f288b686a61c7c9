// What holds of every board. Each function stands for the theorem that is its contract, and does nothing.
// Its attribute names the lemma that proves it. The check does not close six from the name: proofs/laws has their answers.
ghost use Rattle.flow.specs.Laws.{
  ValidIsNetwork,
  WidthBounds,
  NoneOverpromised,
  ClosedIsFull,
  FullIsClosed,
  OrderIsFree,
  OneAnswer,
  MeetingIsGreatest,
  MeetingIsRight,
  ExcessIsRight,
  EvenIsFlow,
  NetsSum,
  NetsCancel,
  Arrives,
  Pushes,
  StaysClosed,
};

// A valid board is a network: its routes join its places, and home and port are two of them.
#[tactic(auto, using(crate::proofs::Bounds::valid_is_network))]
pub fn valid_boards_are_networks()
    ensures { ValidIsNetwork }
{}

// A flow never delivers more than the width of any region with home and without port.
#[tactic(auto, using(crate::proofs::Bounds::width_bounds))]
pub fn widths_bound_deliveries()
    ensures { WidthBounds }
{}

// Where a flow exists, no region with both ends or neither is overpromised by more than 0.
#[tactic(auto, using(crate::proofs::Bounds::none_overpromised))]
pub fn flows_leave_none_overpromised()
    ensures { NoneOverpromised }
{}

// What goes through a closed region is its ceilings leaving minus its floors entering.
#[tactic(auto, using(crate::proofs::Closing::closed_is_full))]
pub fn closed_regions_are_full()
    ensures { ClosedIsFull }
{}

// A region through which that much goes is closed.
#[tactic(auto, using(crate::proofs::Closing::full_is_closed))]
pub fn full_regions_are_closed()
    ensures { FullIsClosed }
{}

// Widths and overpromises do not change when the routes are put into another order.
pub fn order_of_routes_is_free()
    ensures { OrderIsFree }
{}

// Boards with the same frame and the same routes, in whatever order, have the same right answer.
pub fn one_right_answer()
    ensures { OneAnswer }
{}

// A flow whose delivery equals the width of a region with home and without port is a greatest one.
#[tactic(auto, using(crate::proofs::Right::meeting_is_greatest))]
pub fn meeting_flows_are_greatest()
    ensures { MeetingIsGreatest }
{}

// That region is the narrowest if it lies inside every closed region that has home.
pub fn meeting_regions_are_right()
    ensures { MeetingIsRight }
{}

// The excess, and the region that residual steps reach from the origins, where shares stay out of balance.
pub fn excesses_are_right()
    ensures { ExcessIsRight }
{}

// Shares within the marks that leave no surplus and no shortage are a flow.
#[tactic(auto, using(crate::proofs::Excess::even_is_flow))]
pub fn even_shares_are_flows()
    ensures { EvenIsFlow }
{}

// The sum of the nets over a region equals what goes through it.
#[tactic(auto, using(crate::proofs::Bounds::nets_sum))]
pub fn nets_sum_to_what_goes_through()
    ensures { NetsSum }
{}

// The sum of the nets over all places is 0.
#[tactic(auto, using(crate::proofs::Bounds::nets_cancel))]
pub fn nets_cancel()
    ensures { NetsCancel }
{}

// In a flow the net of port is minus the delivery.
pub fn what_leaves_arrives()
    ensures { Arrives }
{}

// Raising a share raises the net of its start, lowers the net of its end, and leaves every other net.
#[tactic(auto, using(crate::proofs::Pushing::pushes))]
pub fn pushing_moves_two_nets()
    ensures { Pushes }
{}

// A closed region stays closed while the nets of its places stay.
pub fn closed_regions_stay_closed()
    ensures { StaysClosed }
{}
