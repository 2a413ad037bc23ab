//! Laws of the simulation, from the relation to the whole run.
#![tactic(auto)]

ghost use Rattle.xt_simulation.specs.Closing.{FillsKeepPlain, SpillsKeepPlain};
ghost use Rattle.xt_simulation.specs.Cores.{LiveInRange, SavedInAreas};
ghost use Rattle.xt_simulation.specs.HandlerLaws.{HandlerStepsAreKept, HandlersAreSpared, StretchesAreEntered};
ghost use Rattle.xt_simulation.specs.Headline.{BreachesStay, ImagesAreAllJudged, NestedGiveBack, RunsAreFrames, SixSuffice, StretchesMoveFrames, StretchesOfImages, StretchesOfRuns, TurnsAreFrames, WalksAreFrames, WindowsAreFrames};
ghost use Rattle.xt_simulation.specs.Opening.{OpensAlike};
ghost use Rattle.xt_simulation.specs.JudgedSteps.{KeepsLevel, KeepsStack};
ghost use Rattle.xt_simulation.specs.Relation.{EntersWindow};
ghost use Rattle.xt_simulation.specs.Stacks.{LinksAreSaved, SpillsAreSaved};
ghost use Rattle.xt_simulation.specs.Stretches.{OverflowsFindFrames, OverflowsKeepRelated, StretchesBegin, StretchesEnd, StretchesGoOn, UnderflowsFindFrames, UnderflowsKeepRelated};

/// Where a window exception shows no breach, the frames that its handler moves are those of the
/// chain.
pub fn window_exceptions_find_frames()
    // A window exception that shows no breach is that of the oldest caller in the ring, or of the newest spilled one.
    ensures enters { EntersWindow }
    // Where an overflow begins the three stack pointers are a chain.
    ensures overflows { OverflowsFindFrames }
    // Where an underflow begins they are too.
    ensures underflows { UnderflowsFindFrames }
{}

/// A frame that is spilled or filled keeps the relation.
pub fn moves_keep_the_relation()
    // After an overflow the relation holds, with the oldest caller among the spilled frames.
    ensures spills { SpillsKeepPlain }
    // After an underflow the relation holds, with the caller in the ring.
    ensures fills { FillsKeepPlain }
    // A complete overflow keeps the relation with memory.
    ensures overflows { OverflowsKeepRelated }
    // A complete underflow keeps the relation with memory.
    ensures underflows { UnderflowsKeepRelated }
{}

/// What the handler steps of a window exception change of PS and the special registers.
pub fn stretches_keep_the_state()
    // What a window exception leaves of PS and the special registers.
    ensures begins { StretchesBegin }
    // A handler step that changes PC alone keeps it.
    ensures goes_on { StretchesGoOn }
    // RFWO and RFWU bring back what stood before.
    ensures ends { StretchesEnd }
{}

/// What memory has of the spilled frames.
pub fn spilled_frames_are_saved()
    // The word below a spilled frame's stack pointer is its caller's stack pointer.
    ensures links { LinksAreSaved }
    // After an overflow's stores one more frame is saved.
    ensures spills { SpillsAreSaved }
    // What is saved stands in live areas.
    ensures areas { SavedInAreas }
    // A core's live areas lie in its stack range.
    ensures range { LiveInRange }
{}

/// What a judged step keeps.
pub fn judged_steps_keep_the_relation()
    // A step that shows no breach keeps the relation, and both machines record the same.
    ensures relation { KeepsLevel }
    // A frame step that shows no breach keeps the chain of stack pointers.
    ensures stack { KeepsStack }
{}

/// What the handler steps keep.
pub fn handler_steps_are_kept()
    // A window exception that shows no breach enters handler steps.
    ensures entered { StretchesAreEntered }
    // A handler step goes on, or ends the stretch, after which the relation holds again.
    ensures steps { HandlerStepsAreKept }
    // A change of bytes that are not live for the core keeps what holds inside its handler steps.
    ensures spared { HandlersAreSpared }
{}

/// Of any schedule of turns of both cores.
pub fn turns_are_frames()
    // Over any schedule of turns of both cores, the judged records before the first breach are a frame
    // run.
    ensures frames { TurnsAreFrames }
    // At each place of such a schedule, a core's turn that ends a stretch of handler steps has moved one
    // frame between registers and its save areas, and each handler step changes no byte but those of
    // the frame's save words. A turn that begins a nested interrupt finds it pending in the frame state.
    ensures stretches { StretchesMoveFrames }
    // And where a core's turn ends a nested interrupt and shows no breach, the window handler goes on as
    // it was: a0 to a3, EPC1, PS, the window and the live bytes of the core are those that the interrupt
    // found.
    ensures nested { NestedGiveBack }
{}

/// Of every run of the processor.
pub fn runs_are_frames()
    // Both machines open with the same registers.
    ensures opening { OpensAlike }
    // A walk with the records of both traces judges a frame run.
    ensures walks { WalksAreFrames }
    // Of every run of the processor the judged records before the first breach, in the order of its
    // schedule, are a frame run.
    ensures runs { RunsAreFrames }
    // A breach that the judge's walk shows over the first turns of a schedule is that of the whole walk,
    // which ends there.
    ensures breaches { BreachesStay }
    // At each position of a run before the verdict's first breach the walk knows what the judge knows and
    // stands where the run does. A core's turn that ends a stretch of handler steps has moved one frame
    // between registers and its save areas, and each handler step changes no byte but those of the
    // frame's save words. A core's turn that begins a nested interrupt finds it pending in the frame state,
    // and one that ends it and shows no breach gives the window handler back what it had.
    ensures stretches { StretchesOfRuns }
{}

/// Of every run of an image.
pub fn windows_are_frames()
    // It is enough that each of the six vectors passes its check.
    ensures six { SixSuffice }
    // The headline. Where the options are valid, the six window handlers pass their check and the two
    // stacks are apart, the judged records of every run of an image before its first breach are a run of
    // the machine with unbounded call frames, over one legal history.
    ensures frames { WindowsAreFrames }
    // Where a run of an image shows no breach, the records that the judge's walk has judged are all records
    // of both traces but their handler steps.
    ensures all { ImagesAreAllJudged }
{}

/// And at each position of such a run before its first breach, which is the verdict's, a core's turn
/// that ends a stretch of handler steps has moved one frame between registers and its save areas, and
/// each handler step changes no byte but those of the frame's save words. A core's turn that begins a
/// nested interrupt finds it pending in the frame state, and one that ends it and shows no breach gives
/// the window handler back what it had.
pub fn stretches_move_one_frame()
    ensures { StretchesOfImages }
{}
