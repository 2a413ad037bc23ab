//! The checkpoints of a run.
ghost use Rattle.std.specs.Prelude.{◌≡◌, ◌++◌, OnOk};
ghost use Rattle.xt_exec.specs.States.{file_state};
ghost use Rattle.xt_record.specs.Checkpoints.{checkpoint_bytes, file_bytes, special_bytes, state_bytes};

use crate::file::WalkFile;
use crate::words::{put_word, put_words};
use std::alloc::AllocError;
use xt_bus::Memory;
use xt_core::Core;
use xt_exec::Regs;
use xt_special::{Special, number};
use xt_window::Windows;

/// How many bytes a checkpoint has.
pub(crate) const POINT_SIZE: usize = 353_152;

// The special registers that a checkpoint has before PS and after it, in the order of their numbers but for BR.
const FIRST_NUMBERS: [u8; 29] = [
    number::LBEG,
    number::LEND,
    number::LCOUNT,
    number::BR,
    number::SAR,
    number::SCOMPARE1,
    number::EPC1,
    number::EPC2,
    number::EPC3,
    number::EPC4,
    number::EPC5,
    number::EPC6,
    number::EPC7,
    number::DEPC,
    number::EPS2,
    number::EPS3,
    number::EPS4,
    number::EPS5,
    number::EPS6,
    number::EPS7,
    number::EXCSAVE1,
    number::EXCSAVE2,
    number::EXCSAVE3,
    number::EXCSAVE4,
    number::EXCSAVE5,
    number::EXCSAVE6,
    number::EXCSAVE7,
    number::INTERRUPT,
    number::INTENABLE,
];

const LAST_NUMBERS: [u8; 11] = [
    number::VECBASE,
    number::EXCCAUSE,
    number::CCOUNT,
    number::EXCVADDR,
    number::CCOMPARE0,
    number::CCOMPARE1,
    number::CCOMPARE2,
    number::MISC0,
    number::MISC1,
    number::MISC2,
    number::MISC3,
];

// Writes special registers, by their numbers.
#[tactic(auto, unfolding(crate::specs::Checkpoints::special_bytes))]
fn put_registers(out: &mut Vec<u8>, special: &Special, numbers: &[u8]) -> Result<(), AllocError>
    ensures { OnOk result (out.new.items ≡ out.old.items ++ special_bytes special.now.file numbers.now) }
{
    for number in numbers {
        put_word(out, special.register(*number))?;
    }
    Ok(())
}

// Writes the 64 physical registers.
#[tactic(auto, unfolding(crate::specs::Checkpoints::file_bytes))]
fn put_file(out: &mut Vec<u8>, win: &WalkFile) -> Result<(), AllocError>
    ensures { OnOk result (out.new.items ≡ out.old.items ++ file_bytes win.now.regs) }
{
    let mut win = *win;
    for i in 0..64u8 {
        win.set_base(4 * (i / 16));
        put_word(out, win.read(i % 16))?;
    }
    Ok(())
}

// Writes the state of a core that makes its turn of this number next.
#[tactic(auto, unfolding(crate::specs::Checkpoints::state_bytes))]
fn put_state(out: &mut Vec<u8>, step: u32, regs: &Regs<WalkFile>) -> Result<(), AllocError>
    ensures { OnOk result (out.new.items ≡ out.old.items ++ state_bytes step (file_state regs.now)) }
{
    let (win, special) = (&regs.win, &regs.sr);
    let (base, start) = (win.base() as u32, win.start() as u32);
    put_words(out, &[regs.pc, regs.waiting as u32, step, base, start])?;
    put_file(out, win)?;
    put_registers(out, special, &FIRST_NUMBERS)?;
    put_words(out, &[special.ps()])?;
    put_registers(out, special, &LAST_NUMBERS)?;
    put_words(out, &[special.threadptr()])?;
    Ok(())
}

/// Writes the checkpoint of a position, at which both cores and memory stand, after so many
/// entries.
#[tactic(auto, unfolding(crate::specs::Checkpoints::checkpoint_bytes))]
pub(crate) fn put_point(
    out: &mut Vec<u8>,
    position: u32,
    entries: u32,
    core0: &Core<WalkFile>,
    core1: &Core<WalkFile>,
    memory: &Memory,
) -> Result<(), AllocError>
    ensures { OnOk result (out.new.items ≡ out.old.items ++ checkpoint_bytes position entries core0.now.count core0.now.state core1.now.count core1.now.state memory.now.contents) }
{
    put_words(out, &[position, entries])?;
    put_state(out, core0.count(), core0.regs())?;
    put_state(out, core1.count(), core1.regs())?;
    out.extend_from_slice(memory.rtc_fast_data())?;
    out.extend_from_slice(memory.dram())?;
    out.extend_from_slice(memory.rtc_slow())
}
