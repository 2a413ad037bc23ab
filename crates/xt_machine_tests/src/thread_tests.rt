//! Both cores of an image beside each other: each makes fifty stores, and waits before each of them until the other has come
//! as far.
ghost use Rattle.std.specs.Prelude.{IfOk};
ghost use Rattle.xt_map.specs.Index.{IsIndexed};
ghost use Rattle.xt_trace.specs.Validity.{IsValid};
ghost use Rattle.xt_image.specs.ImageParts.{IsWellFormed};
ghost use Rattle.xt_machine.specs.Driving.{MayDrive};

use std::alloc::{AllocError, Global};
use std::sync::Wait;
use std::sync::atomic::{AtomicU64, Ordering};
use std::test::Fail;
use std::thread;
use std::thread::{Threads, join};
use xt_bus::Bus;
use xt_core::Core;
use xt_image::{Image, read, well_formed_is_placed};
use xt_io::Gate;
use xt_machine::{Machine, drive};
use xt_map::{Constants, Index, Segment};
use xt_sharedbus::{CoreSeat, NoMemory, SharedBus};
use xt_trace::{Options, Stack, Stop, Trace};
use xt_window::WindowFile;

/// `movi a4, 50`, `s32i a4, a1, 0`, `addi a4, a4, -1`, `bnez a4` to the store, `break 1, 15` at
/// 0x40080400.
static FIFTY_STORES: [u8; 64] = [
    0xE9, 0x01, 0x02, 0x20, 0x00, 0x04, 0x08, 0x40, 0xEE, 0x00, 0x00, 0x00, 0x00, 0x00, 0x00, 0x00,
    0x00, 0xFF, 0xFF, 0x00, 0x00, 0x00, 0x00, 0x00, 0x00, 0x04, 0x08, 0x40, 0x10, 0x00, 0x00, 0x00,
    0x42, 0xA0, 0x32, 0x42, 0x61, 0x00, 0x42, 0xC4, 0xFF, 0x56, 0x64, 0xFF, 0xF0, 0x41, 0x00, 0x00,
    0x00, 0x00, 0x00, 0x00, 0x00, 0x00, 0x00, 0x00, 0x00, 0x00, 0x00, 0x00, 0x00, 0x00, 0x00, 0x19,
];

/// The image of a file, which is a good one.
fn image_in(alloc: Global, bytes: &[u8; 64]) -> Result<Image, Fail>
    ensures { IfOk result IsWellFormed }
{
    match read(alloc, bytes) {
        Ok(image) => Ok(image),
        Err(_) => Err(AllocError.into()),
    }
}

/// Options with so many turns, where core 1 begins at an address.
fn options_of(turns0: u32, turns1: u32, entry1: u32) -> Result<Options, Fail>
    ensures { IfOk result IsValid }
{
    let options = Options {
        turns0,
        turns1,
        entry1,
        vecbase: 0x40080000,
        stack0: Stack {
            lo: 0x3FFF0000,
            hi: 0x3FFF8000,
        },
        stack1: Stack {
            lo: 0x3FFF8000,
            hi: 0x40000000,
        },
    };
    if options.valid() {
        Ok(options)
    } else {
        Err(AllocError.into())
    }
}

/// What a trace tells: its core, turns, accesses, whether it stopped at a BREAK, and its last program
/// counter.
fn told(trace: &Trace) -> (u8, u32, usize, bool, u32) {
    (
        trace.core,
        trace.count,
        trace.places.len(),
        trace.stop == Stop::Break,
        trace.pc,
    )
}

/// Each core waits before its access `k` until the other has come as far, and marks failure where that
/// takes too long.
#[derive(Drop)]
struct Meet {
    zero: AtomicU64,
    one: AtomicU64,
    failed: AtomicU64,
}

impl Meet {
    fn new() -> Meet {
        Meet {
            zero: AtomicU64::new(0),
            one: AtomicU64::new(0),
            failed: AtomicU64::new(0),
        }
    }

    /// Both notes and the mark.
    fn notes(&self) -> (u64, u64, u64) {
        (
            self.zero.load(Ordering::SeqCst),
            self.one.load(Ordering::SeqCst),
            self.failed.load(Ordering::SeqCst),
        )
    }
}

impl Gate for Meet {
    fn before(&self, core: u8, k: u64) {
        if k >= 50 {
            return;
        }
        let (mine, theirs) = if core == 0 {
            (&self.zero, &self.one)
        } else {
            (&self.one, &self.zero)
        };
        mine.store(k + 1, Ordering::SeqCst);
        for _ in 0..2_000_000u64 {
            if self.failed.load(Ordering::SeqCst) != 0 || theirs.load(Ordering::SeqCst) > k {
                return;
            }
            thread::yield_now();
        }
        self.failed.store(1, Ordering::SeqCst);
    }
}

#[test]
fn both_cores_meet_in_go(rt: HostRuntime) -> Result<(), Fail> {
    let alloc = rt.alloc();
    let image = image_in(alloc, &FIFTY_STORES)?;
    let options = options_of(1000, 1000, 0x40080400)?;
    let machine = Machine::make(&rt, alloc, &image, &options)?;
    let gate = Meet::new();
    let run = machine.go(&rt, &gate);
    assert_eq!(rt; gate.notes(), (50, 50, 0));
    assert_eq!(rt; run.history.len(), 100);
    assert_eq!(rt; told(&run.trace0), (0, 152, 50, true, 0x4008040C));
    assert_eq!(rt; told(&run.trace1), (1, 152, 50, true, 0x4008040C));
    Ok(())
}

/// Drives one core to its end.
fn drive_one<R: Wait>(
    rt: &R,
    mut core: Core<WindowFile>,
    segments: &[Segment],
    index: Index,
    bus: &SharedBus,
    mut seat: CoreSeat,
    gate: &Meet,
)
    requires drives { MayDrive bus.now core seat }
    requires indexed { IsIndexed segments.now index }
{
    let code = Constants::from_parts(segments, index);
    drive(rt, &mut core, &code, bus, &mut seat, gate);
}

/// Drives both cores of the image of fifty stores, each on a thread of the test.
fn drive_both<R: Threads + Wait + Sync>(rt: &R, alloc: Global, gate: &Meet) -> Result<(), Fail> {
    let image = image_in(alloc, &FIFTY_STORES)?;
    let options = options_of(1000, 1000, 0x40080400)?;
    well_formed_is_placed();
    let segments = image.segments.as_slice();
    let (segments0, index0) = Constants::make(alloc, segments)?.into_parts();
    let (segments1, index1) = Constants::make(alloc, segments)?.into_parts();
    let core0 = Core::make(alloc, 0, image.entry, &options, WindowFile::new())?;
    let core1 = Core::make(alloc, 1, options.entry1, &options, WindowFile::new())?;
    let room = match options.turns0.checked_add(options.turns1) {
        Some(room) => room,
        None => return Err(AllocError.into()),
    };
    let bus = Bus::make(alloc, &[], &[], room)?;
    let made = SharedBus::make(rt, alloc, bus, options.turns0, options.turns1);
    let (shared, seat0, seat1) = match made {
        Ok(made) => made,
        Err(NoMemory { .. }) => return Err(AllocError.into()),
    };
    let bus = &shared;
    join(
        rt,
        move ||
            requires drives { MayDrive bus.now core0 seat0 }
            requires indexed { IsIndexed segments0.now index0 }
        { drive_one(rt, core0, segments0, index0, bus, seat0, gate) },
        move ||
            requires drives { MayDrive bus.now core1 seat1 }
            requires indexed { IsIndexed segments1.now index1 }
        { drive_one(rt, core1, segments1, index1, bus, seat1, gate) },
    );
    Ok(())
}

#[test]
fn both_cores_meet_in_drive(rt: HostRuntime) -> Result<(), Fail> {
    let gate = Meet::new();
    drive_both(&rt, rt.alloc(), &gate)?;
    assert_eq!(rt; gate.notes(), (50, 50, 0));
    Ok(())
}
