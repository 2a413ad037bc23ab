//! The kinds of step keep the rule of the shared queue.
ghost use Rattle.xt_sharedbus.specs.QueueLaws.{FindsEmptyInHand, GiveBackKeepsRule, JoinKeepsRule, OpenKeepsRule, ReturnKeepsRule, SplitKeepsRule, TakeKeepsRule};

/// Whatever the queue holds and whatever the other passes know, the rule of the shared queue is kept
/// by each kind of step: the first push, a pop, a push of the bus with one entry more or with none,
/// the split of a pass between the cores, and the join of both. A pop that finds the queue empty
/// changes nothing; a pass with the bus in its hand finds the queue empty, so its push is never
/// refused.
pub fn steps_keep_rule()
    ensures open { OpenKeepsRule }
    ensures take { TakeKeepsRule }
    ensures empty { FindsEmptyInHand }
    ensures give_back { GiveBackKeepsRule }
    ensures give_back_same { ReturnKeepsRule }
    ensures split { SplitKeepsRule }
    ensures join { JoinKeepsRule }
{}
