//! Two cores on two threads.
ghost use Rattle.std.specs.Prelude.{◌≡◌, ◌≤◌, None, IfOk};
ghost use Rattle.xt_map.specs.Index.{IsIndexed};
ghost use Rattle.xt_map.specs.Memory.{constant_byte};
ghost use Rattle.xt_trace.specs.Validity.{IsValid};
ghost use Rattle.xt_image.specs.declared.image.Image.{Image};
ghost use Rattle.xt_image.specs.ImageParts.{IsWellFormed};
ghost use Rattle.xt_core.specs.Runs.{IsRunOf};
ghost use Rattle.xt_machine.specs.Driving.{HasDriven, MayDrive};
ghost use Rattle.xt_machine.specs.Lists.{run_of_list, schedule_in};
ghost use Rattle.xt_machine.specs.Machines.{IsOpened};

use crate::driving::drive;
use crate::files::ThreadFile;
use crate::machine::Machine;
use crate::scheduled::opening_bus;
use std::alloc::{AllocError, Global};
use std::sync::Wait;
use std::thread::{Threads, join};
use xt_core::Core;
use xt_image::{Image, well_formed_is_placed};
use xt_io::Gate;
use xt_map::{Constants, Index, Segment};
use xt_sharedbus::{CoreSeat, NoMemory, SharedBus};
use xt_trace::{Options, Run};

// Drives a core to its end.
fn core_after_trace<G: Gate, R: Wait>(
    rt: &R,
    mut core: Core<ThreadFile>,
    segments: &[Segment],
    index: Index,
    bus: &SharedBus,
    mut seat: CoreSeat,
    gate: &G,
) -> (Core<ThreadFile>, CoreSeat)
    requires drives { MayDrive bus.now core seat }
    requires indexed { IsIndexed segments.now index }
    ensures { HasDriven (constant_byte segments.now) core seat result.0 result.1 }
{
    let code = Constants::from_parts(segments, index);
    drive(rt, &mut core, &code, bus, &mut seat, gate);
    (core, seat)
}

impl<'a> Machine<'a> {
    /// A machine as a run of the image opens. It takes all memory of the run, and the only error is
    /// running out of memory. It opens the bus that the cores share, so it may wait.
    ///
    /// Conditions: the image is well formed, and the options are valid.
    pub fn make<R: Wait>(
        rt: &R,
        alloc: Global,
        image: &'a Image,
        options: &Options,
    ) -> Result<Machine<'a>, AllocError>
        requires image { IsWellFormed image.now }
        requires valid { IsValid options.now }
        ensures options { IfOk result (λ m. m.options ≡ options.now) }
        ensures opened { IfOk result (λ m. IsOpened image.now m) }
    {
        well_formed_is_placed();
        let segments = image.segments.as_slice();
        let code0 = Constants::make(alloc, segments)?;
        let code1 = Constants::make(alloc, segments)?;
        let core0 = Core::make(alloc, 0, image.entry, options, ThreadFile::new())?;
        let core1 = Core::make(alloc, 1, options.entry1, options, ThreadFile::new())?;
        let bus = opening_bus(alloc, image, options)?;
        let (turns0, turns1) = (options.turns0, options.turns1);
        match SharedBus::make(rt, alloc, bus, turns0, turns1) {
            Ok((shared, seat0, seat1)) => Ok(Machine {
                options: *options,
                code0,
                code1,
                shared,
                seat0,
                seat1,
                core0,
                core1,
            }),
            Err(NoMemory { .. }) => Err(AllocError),
        }
    }

    /// Runs both cores, each on a thread of its own. It takes no memory, and may wait.
    pub fn go<G: Gate, R: Threads + Wait + Sync>(self, rt: &R, gate: &G) -> Run
        ensures options { result.options ≡ self.entry.options }
        ensures run { (image : Image) → IsOpened image self.entry → IsRunOf image result }
        ensures own { (image : Image) → IsOpened image self.entry → run_of_list image self.entry.options (schedule_in result) ≡ result }
    {
        let Machine {
            options,
            code0,
            code1,
            shared,
            seat0,
            seat1,
            core0,
            core1,
        } = self;
        let bus = &shared;
        // A closure that captures a struct with a lifetime loses its contract, so each has the parts.
        let (segments0, index0) = code0.into_parts();
        let (segments1, index1) = code1.into_parts();
        let ((core0, seat0), (core1, seat1)) = join(
            rt,
            move || -> (Core<ThreadFile>, CoreSeat)
                requires drives { MayDrive bus.now core0 seat0 }
                requires indexed { IsIndexed segments0.now index0 }
                ensures { HasDriven (constant_byte segments0.entry.now) core0 seat0 result.0 result.1 }
            { core_after_trace(rt, core0, segments0, index0, bus, seat0, gate) },
            move || -> (Core<ThreadFile>, CoreSeat)
                requires drives { MayDrive bus.now core1 seat1 }
                requires indexed { IsIndexed segments1.now index1 }
                ensures { HasDriven (constant_byte segments1.entry.now) core1 seat1 result.0 result.1 }
            { core_after_trace(rt, core1, segments1, index1, bus, seat1, gate) },
        );
        let bus = shared.close(rt, seat0, seat1);
        Run {
            options,
            history: bus.into_history(),
            trace0: core0.into_trace(),
            trace1: core1.into_trace(),
        }
    }
}

/// The run of an image on two threads. The only error is running out of memory. It may wait.
///
/// Conditions: the image is well formed, and the options are valid.
pub fn run<G: Gate, R: Threads + Wait + Sync>(
    rt: &R,
    alloc: Global,
    image: &Image,
    options: &Options,
    gate: &G,
) -> Result<Run, AllocError>
    requires image { IsWellFormed image.now }
    requires valid { IsValid options.now }
    ensures options { IfOk result (λ run. run.options ≡ options.now) }
    ensures run { IfOk result (λ run. IsRunOf image.now run) }
    ensures own { IfOk result (λ run. run_of_list image.now options.now (schedule_in run) ≡ run) }
{
    let machine = Machine::make(rt, alloc, image, options)?;
    Ok(machine.go(rt, gate))
}
