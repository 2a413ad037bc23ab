//! Laws of the turns of runs. Each is the contract of a function that does nothing.
ghost use Rattle.xt_events.specs.EventLaws.{EachHasTurn};

/// Each position of the schedule of an image's run is a turn of a core, and that core's trace has its
/// record. So no line of a turn is empty.
pub fn positions_have_turns()
    ensures { EachHasTurn }
{}
