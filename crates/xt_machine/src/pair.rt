//! Two cores and their bus.
ghost use Rattle.std.specs.Prelude.{◌≡◌, ◌+◌, ◌≤◌, None};

use crate::files::File;
use xt_bus::Bus;
use xt_core::Core;

/// Two cores and their bus, which has room for all of their turns.
#[derive(Drop)]
pub struct Pair {
    pub bus: Bus,
    pub core0: Core<File>,
    pub core1: Core<File>,
    ghost room: { core0.left + core1.left ≤ bus.spare },
    ghost waiting: { (core0.waiting ≡ None) × (core1.waiting ≡ None) },
    ghost cores: { (core0.core ≡ 0) × (core1.core ≡ 1) },
}
