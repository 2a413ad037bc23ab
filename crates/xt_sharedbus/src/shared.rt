//! The shared bus and its seats.
ghost use Rattle.std.specs.Prelude.{◌≡◌, ◌+◌, ◌<◌, ◌≤◌, [], true, MatchResult};
ghost use Rattle.xt_map.specs.History.{calls_of, memory_after, IsLegal, IsOfCores};
ghost use Rattle.xt_map.specs.Regions.{is_mapped};
ghost use Rattle.xt_sharedbus.specs.SeatState.{fresh, seat_after_access};

use crate::hands::{give, open, take};
use crate::rule::{Cores, Item, Queue, Seat};
use std::alloc::Global;
use std::marker::Model;
use std::sync::Wait;
use xt_bus::Bus;
use xt_map::Access;

/// The seat of one core at a shared bus. Contracts see which bus it is, the core, its accesses left,
/// the memory that the bus opened with, and the core's own accesses with their replies, in order.
#[derive(Drop)]
pub struct CoreSeat {
    core: u8,
    left: u32,
    pass: Seat,
}

impl Model for CoreSeat {
    ghost use Rattle.xt_sharedbus.specs.SeatState.{SeatState};

    ghost Value = { SeatState };

    ghost use Rattle.xt_sharedbus.specs.Seats.{seat_of, IsSeated};

    ghost view = { seat_of };

    ghost invariant = { IsSeated };
}

impl CoreSeat {
    /// The core: 0 or 1.
    pub fn core(&self) -> u8
        ensures core { result ≡ self.now.core }
        ensures two { result < 2 }
    {
        self.core
    }

    /// How many accesses the core may yet make.
    pub fn left(&self) -> u32
        ensures { result ≡ self.now.left }
    {
        self.left
    }
}

/// A bus that two cores share. Contracts see which one it is.
#[derive(Drop)]
pub struct SharedBus {
    queue: Queue,
}

impl Model for SharedBus {
    ghost use Rattle.std.specs.Prelude.{◌≡◌};
    ghost use Rattle.atomic_table.specs.Seated.{TableId};

    ghost Value = { TableId };

    ghost use Rattle.crossbeam_queue.specs.Passes.{ruled_capacity};

    ghost view = { λ s. s.queue.table.shared.table_id };

    ghost invariant = { λ s. ruled_capacity s.queue ≡ 1 };
}

/// Memory ran out. It hands the bus back as it was.
#[derive(Drop)]
pub struct NoMemory {
    /// The bus.
    pub bus: Bus,
}

impl SharedBus {
    /// Shares a bus that has no history between core 0, which may make `turns0` accesses, and core 1,
    /// which may make `turns1`. The first seat is core 0's.
    pub fn make<R: Wait>(
        rt: &R,
        alloc: Global,
        bus: Bus,
        turns0: u32,
        turns1: u32,
    ) -> Result<(SharedBus, CoreSeat, CoreSeat), NoMemory>
        requires empty { bus.history ≡ [] }
        requires room { turns0 + turns1 ≤ bus.spare }
        ensures { MatchResult result (λ r. (r.1 ≡ fresh r.0 0 turns0 bus.opening) × (r.2 ≡ fresh r.0 1 turns1 bus.opening)) (λ e. e.bus ≡ bus) }
    {
        let bus = match Box::new(alloc, bus) {
            Ok(bus) => bus,
            Err(refused) => return Err(NoMemory { bus: refused.value }),
        };
        let Ok((queue, mut pass)) = Queue::ruled(alloc, 1) else {
            return Err(NoMemory {
                bus: Box::into_inner(bus),
            });
        };
        let item = Item {
            bus,
            turns0,
            turns1,
        };
        open(rt, &queue, &mut pass, item);
        let other = queue.another::<Cores>(&mut pass);
        let first = CoreSeat {
            core: 0,
            left: turns0,
            pass,
        };
        let second = CoreSeat {
            core: 1,
            left: turns1,
            pass: other,
        };
        Ok((SharedBus { queue }, first, second))
    }

    /// Makes one access of the seat's core, and answers its reply. It waits for its turn at the bus,
    /// takes no memory, and cannot be refused.
    pub fn access<R: Wait>(&self, rt: &R, seat: &mut CoreSeat, access: Access) -> u32
        requires bus { seat.old.bus ≡ self.now }
        requires left { 0 < seat.old.left }
        requires access { is_mapped access ≡ true }
        ensures { seat.new ≡ seat_after_access seat.old access result }
    {
        let core = seat.core;
        let mut item = take(rt, &self.queue, &mut seat.pass);
        let reply = item.bus.step(core, access);
        give(rt, &self.queue, &mut seat.pass, item);
        seat.left -= 1;
        reply
    }

    /// Takes the bus back from both cores: its history is legal from the memory that it opened with,
    /// has no entries but those of the two cores, and has each core's accesses with their replies,
    /// each once, in the order in which that core made them. It takes no memory.
    pub fn close<R: Wait>(self, rt: &R, seat0: CoreSeat, seat1: CoreSeat) -> Bus
        requires bus { (seat0.bus ≡ self) × (seat1.bus ≡ self) }
        requires cores { (seat0.core ≡ 0) × (seat1.core ≡ 1) }
        ensures opening { result.opening ≡ seat0.opening }
        ensures legal { IsLegal result.opening result.history }
        ensures cores { IsOfCores result.history }
        ensures left { result.memory ≡ memory_after result.opening result.history }
        ensures zero { calls_of 0 result.history ≡ seat0.list }
        ensures one { calls_of 1 result.history ≡ seat1.list }
    {
        let SharedBus { queue } = self;
        let CoreSeat { mut pass, .. } = seat0;
        let CoreSeat { pass: other, .. } = seat1;
        queue.absorb::<Cores>(&mut pass, other);
        let Item { bus, .. } = take(rt, &queue, &mut pass);
        let bus = Box::into_inner(bus);
        bus.history();
        bus
    }
}
