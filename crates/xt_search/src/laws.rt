//! Accesses of two cores that may come in either order. Each law is the contract of a function that
//! does nothing.

ghost use Rattle.xt_search.specs.Apart.{ApartAccessesCommute, ApartAccessesKeepReplies};

/// Two accesses that have no byte in common, or that both load, leave the same memory and the same bytes
/// sent in either order.
#[tactic(auto, using(crate::proofs::Commuting::accesses_commute))]
pub fn apart_accesses_commute()
    ensures { ApartAccessesCommute }
{}

/// Each of them answers the same before and after the other.
#[tactic(auto, using(crate::proofs::Commuting::replies_stay))]
pub fn apart_accesses_keep_replies()
    ensures { ApartAccessesKeepReplies }
{}
