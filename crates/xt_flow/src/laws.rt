//! Laws of the listing. Each is the contract of a function that does nothing.
#![tactic(auto)]

ghost use Rattle.std.specs.Prelude.{ℕ, List};
ghost use Rattle.xt_special.specs.Control.{Control};
ghost use Rattle.xt_image.specs.declared.image.Image.{Image};
ghost use Rattle.xt_flow.specs.FlowLaws.{EntersVectors, HasOneText};

/// An image has one listing for each VECBASE, each entry of the second core and each list of roots.
pub fn listing_is_one()
    ensures { (image : Image) (vecbase entry1 : ℕ) (roots : List ℕ) → HasOneText image vecbase entry1 roots }
{}

/// The vectors are those of the processor: each exception, each interrupt of level 2 to 5 and each window exception goes to
/// one of the thirteen.
pub fn vectors_are_entered()
    ensures { (c : Control) → EntersVectors c }
{}
