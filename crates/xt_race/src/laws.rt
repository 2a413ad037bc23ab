//! Laws of races. Each is the contract of a function that does nothing.
ghost use Rattle.xt_race.specs.RaceLaws.{EntriesHaveTurns, FirstRaceIsOne, RecordsAreOfEntries};

/// The entries of a run of an image, and its turns.
pub fn entries_have_turns()
    // For each entry of a run of an image there is the turn that made it.
    ensures turns { EntriesHaveTurns }
    // The record of the turn that made an entry has its access and reply.
    ensures records { RecordsAreOfEntries }
{}

/// There is one first race at most.
pub fn first_race_is_one()
    ensures { FirstRaceIsOne }
{}
