//! Laws of the turn. Each is the contract of a function that does nothing.
#![tactic(auto)]

ghost use Rattle.xt_exec.specs.Ties.{ReturnsUndoEntries};
ghost use Rattle.xt_exec.specs.TurnLaws.{DemandsAreServed, IgnoresReplyWithoutAccess, IsOneTurn, KeepsShape, OpensShaped, RecordsWhatItAsks};

/// Each state and reply has exactly one record and next state. It holds of any function, and shows
/// nothing of what a turn does.
pub fn there_is_one_turn()
    ensures { IsOneTurn }
{}

/// A record has an access exactly where the turn asks for one.
pub fn records_have_what_was_asked()
    ensures { RecordsWhatItAsks }
{}

/// A turn that asks for no access does not look at the reply.
pub fn reply_without_access_is_ignored()
    ensures { IgnoresReplyWithoutAccess }
{}

/// The shape of a state is kept: 64 registers and 256 special registers that hold words, WINDOWBASE
/// below 16, WINDOWSTART below 2^16, SAR below 64, VECBASE a multiple of 1024, and the fields of PS in
/// their ranges.
pub fn turns_keep_shape()
    ensures { KeepsShape }
{}

/// The state in which a core opens has that shape.
pub fn opening_is_shaped()
    ensures { OpensShaped }
{}

/// What a turn asks for is an access that the bus serves.
pub fn demands_are_served()
    ensures { DemandsAreServed }
{}

/// A RETW of the size of the call undoes the ENTRY: WINDOWBASE and WINDOWSTART are as before it.
pub fn returns_undo_entries()
    ensures { ReturnsUndoEntries }
{}
