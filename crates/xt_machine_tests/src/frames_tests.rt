use std::alloc::{AllocError, Global};
use std::test::Fail;
use xt_frames::{Breach, BreachKind, Frames};
use xt_map::{Bytes, Constants, Segment, are_placed};
use xt_trace::{Options, RegWrite, Stack, StepKind, StepRecord};

// entry a1, 32; addi a9, a9, 1; retw
const CODE: [u8; 9] = [0x36, 0x41, 0x00, 0x92, 0xC9, 0x01, 0x90, 0x00, 0x00];

const MAIN: u32 = 0x400D_0000;

const OPTIONS: Options = Options {
    turns0: 1,
    turns1: 1,
    entry1: MAIN,
    vecbase: 0x4008_0000,
    stack0: Stack {
        lo: 0x3FFF_0000,
        hi: 0x3FFF_8000,
    },
    stack1: Stack {
        lo: 0x3FFF_8000,
        hi: 0x4000_0000,
    },
};

fn segments(alloc: Global) -> Result<[Segment; 1], AllocError> {
    Ok([Segment {
        addr: MAIN,
        bytes: Bytes::new(Vec::from_slice(alloc, &CODE)?),
    }])
}

fn record(pc: u32, kind: StepKind, write: Option<RegWrite>) -> StepRecord {
    StepRecord {
        pc,
        kind,
        write,
        access: None,
        reply: 0,
        ccount: 0,
        owb: 0,
        interrupt: 0,
    }
}

// A call opens a frame 32 bytes below, a register that the caller never set has no value, and an underflow's record shows that
// the opening frame returns.
#[test]
fn a_call_and_its_registers(rt: HostRuntime) -> Result<(), Fail> {
    let segments = segments(rt.alloc())?;
    assert!(rt; are_placed(&segments));
    let code = Constants::make(rt.alloc(), &segments)?;
    let mut frames = Frames::make(rt.alloc(), 0, MAIN, &OPTIONS)?;
    let write = RegWrite {
        reg: 1,
        value: 0x3FFF_7FA0,
    };
    let entry = record(MAIN, StepKind::Insn, Some(write));
    assert!(rt; frames.step(&code, 0, &entry, false) == Ok(()));
    assert_eq!(rt; frames.depth(), 1);
    if frames.depth() == 1 {
        assert_eq!(rt; frames.calls(0), 2);
        assert_eq!(rt; frames.sp(0), 0x3FFF_7FC0);
        assert_eq!(rt; frames.sp(1), 0x3FFF_7FA0);
    }
    let addi = record(MAIN + 3, StepKind::Insn, None);
    let unset = Breach {
        core: 0,
        step: 1,
        kind: BreachKind::Unset,
    };
    assert!(rt; frames.step(&code, 1, &addi, false) == Err(unset));
    let opening = Frames::make(rt.alloc(), 1, MAIN + 6, &OPTIONS)?;
    let under = record(MAIN + 6, StepKind::Window(1), None);
    let no_caller = Breach {
        core: 1,
        step: 7,
        kind: BreachKind::NoCaller,
    };
    assert!(rt; opening.test(&code, 7, &under) == Err(no_caller));
    let other = record(MAIN + 6, StepKind::Window(0), None);
    assert!(rt; opening.test(&code, 7, &other) == Ok(()));
    Ok(())
}
