//! Laws of the discipline of uses.
#![tactic(auto)]

ghost use Rattle.xt_uses.specs.UseLaws.{RepliesAgree, RowsAgree, UseRunIsFrameRun, UsesAreLater, ValuesAreCut, VerdictIsOne, WholeIsFrames};
ghost use Rattle.xt_uses.specs.UseWalk.{WalkFindsFirstUse};

/// A row looks at nothing but the bits that it uses.
pub fn rows_agree()
    ensures { RowsAgree }
{}

/// What a load writes is known where its reply is.
pub fn replies_agree()
    ensures { RepliesAgree }
{}

/// A run has one verdict.
pub fn verdict_is_one()
    ensures { VerdictIsOne }
{}

/// Up to the first breach of the stack discipline the machine of uses is that of frames, and knows
/// each bit of what has a number there and none of the rest.
pub fn whole_is_frames()
    ensures { WholeIsFrames }
{}

/// A bit that is not known is 0 in the value, and of what has no number nothing is known.
pub fn values_are_cut()
    ensures { ValuesAreCut }
{}

/// No breach of uses comes before one of the stack discipline.
pub fn uses_are_later()
    ensures { UsesAreLater }
{}

/// Where the records of a run are those of the machine of uses, they are a frame run up to the first
/// breach of the stack discipline.
pub fn use_run_is_frame_run()
    ensures { UseRunIsFrameRun }
{}

/// The walk over the turns of a run answers its first use, and counts what is carried.
pub fn walk_finds_first_use()
    ensures { WalkFindsFirstUse }
{}
