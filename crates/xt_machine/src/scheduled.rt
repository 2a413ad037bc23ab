//! Two cores over schedules.
ghost use Rattle.std.specs.Prelude.{◌≡◌, ◌+◌, ◌<◌, ◌≤◌, true, false, All, IfOk, nat_lt, replicate};
ghost use Rattle.xt_map.specs.Memory.{constant_byte};
ghost use Rattle.xt_trace.specs.Validity.{IsValid};
ghost use Rattle.xt_image.specs.ImageParts.{IsWellFormed};
ghost use Rattle.xt_trace.specs.Short.{short_advance, short_give};
ghost use Rattle.xt_exec.specs.Chips.{processor};
ghost use Rattle.xt_bus.specs.States.{opening_bus};
ghost use Rattle.xt_core.specs.Runs.{IsRunOf, stack_words};
ghost use Rattle.xt_machine.specs.Lists.{run_of_list};
ghost use Rattle.xt_machine.specs.Shorts.{opened_world, run_in, world_of};

use crate::files::File;
use crate::pair::Pair;
use crate::turns::make_turn;
use std::alloc::{AllocError, Global};
use xt_bus::Bus;
use xt_core::{Core, stack_links};
use xt_image::{Image, well_formed_is_placed};
use xt_map::Constants;
use xt_trace::{Options, Run};

/// The bus as a run of the image opens, with room for an access in each turn.
pub fn opening_bus(alloc: Global, image: &Image, options: &Options) -> Result<Bus, AllocError>
    requires { IsValid options.now }
    ensures { IfOk result (λ b. b ≡ opening_bus image.now.segments (stack_words options.now) (options.now.turns0 + options.now.turns1)) }
{
    Bus::make(
        alloc,
        image.segments.as_slice(),
        &stack_links(options),
        options.turns0 + options.turns1,
    )
}

impl Pair {
    // Both cores as a run of the image opens. Takes all memory of the run.
    fn open(alloc: Global, image: &Image, options: &Options) -> Result<Pair, AllocError>
        requires { IsValid options.now }
        ensures { IfOk result (λ p. world_of p ≡ opened_world image.now options.now) }
    {
        let bus = opening_bus(alloc, image, options)?;
        let core0 = Core::make(alloc, 0, image.entry, options, File::new())?;
        let core1 = Core::make(alloc, 1, options.entry1, options, File::new())?;
        Ok(Pair { bus, core0, core1 })
    }

    // The next turn of core 0, if any; it answers whether there was one.
    #[inline(always)]
    fn give0(&mut self, code: &Constants) -> bool
        ensures made { result ≡ nat_lt 0 self.old.core0.left }
        ensures world { world_of self.new ≡ short_give (processor (constant_byte code.now)) 0 (world_of self.old) }
    {
        make_turn(&mut self.core0, 0, code, &mut self.bus)
    }

    // The next turn of core 1, if any; it answers whether there was one.
    #[inline(always)]
    fn give1(&mut self, code: &Constants) -> bool
        ensures made { result ≡ nat_lt 0 self.old.core1.left }
        ensures world { world_of self.new ≡ short_give (processor (constant_byte code.now)) 1 (world_of self.old) }
        ensures other { self.new.core0 ≡ self.old.core0 }
    {
        make_turn(&mut self.core1, 1, code, &mut self.bus)
    }

    // One turn of a core, or nothing where it has ended.
    fn give(&mut self, code: &Constants, core: u8)
        requires { core < 2 }
        ensures { world_of self.new ≡ short_give (processor (constant_byte code.now)) core (world_of self.old) }
    {
        if core == 0 {
            self.give0(code);
        } else {
            self.give1(code);
        }
    }

    // The turns of a list, in order.
    fn follow(&mut self, code: &Constants, schedule: &[u8])
        requires { All (λ c. c < 2) schedule.now }
        ensures { world_of self.new ≡ short_advance (processor (constant_byte code.now)) schedule.now (world_of self.old) }
    {
        for core in schedule {
            self.give(code, *core);
        }
    }

    // All turns that core 0 has left.
    fn finish0(&mut self, code: &Constants)
        ensures world { world_of self.new ≡ short_advance (processor (constant_byte code.now)) (replicate self.old.core0.left 0) (world_of self.old) }
        ensures ended { self.new.core0.left ≡ 0 }
    {
        'turns: while self.give0(code) {}
    }

    // All turns that core 1 has left.
    fn finish1(&mut self, code: &Constants)
        ensures world { world_of self.new ≡ short_advance (processor (constant_byte code.now)) (replicate self.old.core1.left 1) (world_of self.old) }
        ensures ended { self.new.core1.left ≡ 0 }
        ensures other { self.new.core0 ≡ self.old.core0 }
    {
        'turns: while self.give1(code) {}
    }

    // What is kept of the run.
    fn into_run(self, options: &Options) -> Run
        requires { (self.core0.left ≡ 0) × (self.core1.left ≡ 0) }
        ensures { result ≡ run_in options.now (world_of self) }
    {
        let Pair { bus, core0, core1 } = self;
        Run {
            options: *options,
            history: bus.into_history(),
            trace0: core0.into_trace(),
            trace1: core1.into_trace(),
        }
    }
}

/// The run of a list of cores, without threads: each number gives that core its next turn, or nothing
/// where it has ended; then core 0's remaining turns follow, and then core 1's. The only error is
/// running out of memory.
///
/// Conditions: the image is well formed, the options are valid, and each number is 0 or 1.
pub fn run_schedule(
    alloc: Global,
    image: &Image,
    options: &Options,
    schedule: &[u8],
) -> Result<Run, AllocError>
    requires image { IsWellFormed image.now }
    requires valid { IsValid options.now }
    requires cores { All (λ c. c < 2) schedule.now }
    ensures list { IfOk result (λ run. run ≡ run_of_list image.now options.now schedule.now) }
    ensures run { IfOk result (λ run. IsRunOf image.now run) }
{
    well_formed_is_placed();
    let code = Constants::make(alloc, image.segments.as_slice())?;
    let mut pair = Pair::open(alloc, image, options)?;
    pair.follow(&code, schedule);
    pair.finish0(&code);
    pair.finish1(&code);
    Ok(pair.into_run(options))
}
