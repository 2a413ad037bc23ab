//! The rule of the shared queue, and what its kinds of step do.

use crate::view::View;
use crossbeam_queue::protocol::{Join, Lesson, Outcome, Protocol, Split};
use crossbeam_queue::{Pass, RuledArrayQueue};
use xt_bus::Bus;

/// The bus, behind a pointer so that a push and a pop move few bytes, and the two numbers of accesses
/// that the first push reads.
#[derive(Drop)]
pub struct Item {
    pub bus: Box<Bus>,
    pub turns0: u32,
    pub turns1: u32,
}

/// The rule: there is one bus, in the queue or in one hand, and each core's entries in its history
/// are those that its seat knows.
pub struct OneBus;

impl Protocol<Item, View> for OneBus {
    ghost use Rattle.xt_sharedbus.specs.Rule.{HoldsOneBus};
    ghost use Rattle.xt_sharedbus.specs.Views.{unopened_view};

    ghost holds = { HoldsOneBus };

    ghost first = { unopened_view };
}

/// The first push.
pub struct Opens;

impl Outcome<Item, View> for Opens {
    ghost use Rattle.xt_sharedbus.specs.Rule.{Opened};

    ghost then = { Opened };
}

impl Lesson<Item, View> for Opens {
    ghost use Rattle.xt_sharedbus.specs.Rule.{FindsEmpty};

    ghost fact = { FindsEmpty };
}

/// A pop. Finding the queue empty changes nothing and tells nothing.
pub struct Takes;

impl Outcome<Item, View> for Takes {
    ghost use Rattle.xt_sharedbus.specs.Rule.{Took};

    ghost then = { Took };
}

impl Lesson<Item, View> for Takes {
    ghost fact = { λ v items. Unit {0} };
}

/// A push of the bus, one entry longer than it was taken.
pub struct Gives;

impl Outcome<Item, View> for Gives {
    ghost use Rattle.xt_sharedbus.specs.Rule.{Gave};

    ghost then = { Gave };
}

impl Lesson<Item, View> for Gives {
    ghost use Rattle.xt_sharedbus.specs.Rule.{FindsEmpty};

    ghost fact = { FindsEmpty };
}

/// One pass for each core, and one for both again.
pub struct Cores;

impl Split<View> for Cores {
    ghost use Rattle.xt_sharedbus.specs.Views.{for_zero, for_one};

    ghost left = { for_zero };

    ghost right = { for_one };
}

impl Join<View> for Cores {
    ghost use Rattle.xt_sharedbus.specs.Views.{for_both, spent_view};

    ghost both = { for_both };

    ghost spent = { spent_view };
}

pub(crate) type Queue = RuledArrayQueue<Item, View, OneBus>;

pub(crate) type Seat = Pass<Item, View>;
