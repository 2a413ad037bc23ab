//! The parts of a machine of two threads.
ghost use Rattle.std.specs.Prelude.{◌≡◌, ◌≤◌, None};

use crate::files::ThreadFile;
use xt_core::Core;
use xt_map::Constants;
use xt_sharedbus::{CoreSeat, SharedBus};
use xt_trace::Options;

/// Two cores at their opening, each with its seat at one bus that they share. It has all memory of
/// its run.
#[derive(Drop)]
pub struct Machine<'a> {
    pub(crate) options: Options,
    // Those of each core, over the same segments.
    pub(crate) code0: Constants<'a>,
    pub(crate) code1: Constants<'a>,
    pub(crate) shared: SharedBus,
    pub(crate) seat0: CoreSeat,
    pub(crate) seat1: CoreSeat,
    pub(crate) core0: Core<ThreadFile>,
    pub(crate) core1: Core<ThreadFile>,
    ghost buses: { (seat0.bus ≡ shared) × (seat1.bus ≡ shared) },
    ghost seats: { (seat0.core ≡ 0) × (seat1.core ≡ 1) },
    ghost cores: { (core0.core ≡ 0) × (core1.core ≡ 1) },
    ghost waiting: { (core0.waiting ≡ None) × (core1.waiting ≡ None) },
    ghost left: { (core0.left ≤ seat0.left) × (core1.left ≤ seat1.left) },
}
