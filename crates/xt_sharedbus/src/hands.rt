//! The pop that takes the bus, and the pushes that put it in.
ghost use Rattle.std.specs.Prelude.{◌≡◌, ◌+◌, ◌≤◌, []};
ghost use Rattle.crossbeam_queue.specs.Passes.{view, IsPassOf, IsSamePass, ruled_capacity};
ghost use Rattle.xt_sharedbus.specs.Rule.{Opened, Took, Gave};
ghost use Rattle.xt_sharedbus.specs.Views.{unopened_view};
ghost use Rattle.xt_sharedbus.specs.Halves.{IsIdle, IsOneEntryOn};

use crate::rule::{Gives, Item, Opens, Queue, Seat, Takes};
use std::sync::Wait;
use std::{hint, thread};

// How often an empty queue is looked at before each yield. An access is over sooner, so where each
// thread has a processor of its own a yield is rare; where there is one processor, the yield lets the
// other thread put the bus back.
const LOOKS: u32 = 200;

/// Takes the bus out, and tries again while the queue is empty.
pub(crate) fn take<R: Wait>(rt: &R, queue: &Queue, pass: &mut Seat) -> Item
    requires queue { IsPassOf queue.now pass.old }
    requires idle { IsIdle (view pass.old) }
    ensures queue { IsSamePass pass.old pass.new }
    ensures took { Took (view pass.old) result (view pass.new) }
{
    for _ in rt.forever() {
        for _ in 0..LOOKS {
            if let Some(item) = queue.pop_as::<Takes, R>(rt, pass) {
                return item;
            }
            hint::spin_loop();
        }
        thread::yield_now();
    }
    unreachable!()
}

/// Puts the bus back, one entry longer.
pub(crate) fn give<R: Wait>(rt: &R, queue: &Queue, pass: &mut Seat, item: Item)
    requires queue { IsPassOf queue.now pass.old }
    requires one { ruled_capacity queue.now ≡ 1 }
    requires step { IsOneEntryOn (view pass.old) item }
    ensures queue { IsSamePass pass.old pass.new }
    ensures gave { Gave (view pass.old) item (view pass.new) }
{
    match queue.push_as::<Gives, R>(rt, pass, item) {
        Ok(()) => (),
        Err(_) => unreachable!(),
    }
}

/// Puts the bus in for the first time.
pub(crate) fn open<R: Wait>(rt: &R, queue: &Queue, pass: &mut Seat, item: Item)
    requires queue { IsPassOf queue.now pass.old }
    requires one { ruled_capacity queue.now ≡ 1 }
    requires unopened { view pass.old ≡ unopened_view }
    requires empty { item.bus.value.history ≡ [] }
    requires room { item.turns0 + item.turns1 ≤ item.bus.value.spare }
    ensures queue { IsSamePass pass.old pass.new }
    ensures opened { Opened (view pass.old) item (view pass.new) }
{
    match queue.push_as::<Opens, R>(rt, pass, item) {
        Ok(()) => (),
        Err(_) => unreachable!(),
    }
}
