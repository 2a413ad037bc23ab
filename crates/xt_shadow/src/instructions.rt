//! What is tested of an instruction and of its record.
#![tactic(auto)]

ghost use Rattle.std.specs.Prelude.{◌≡◌, true};
ghost use Rattle.xt_frames.specs.Quick.{IsCommon};
ghost use Rattle.xt_frames.specs.Breaches.{is_in_vectors, is_sp};
ghost use Rattle.xt_rows.specs.RowLaws.{IsRegister};
ghost use Rattle.xt_exec.specs.States.{state_of};
ghost use Rattle.xt_shadow.specs.InStep.{AgreesAt, IsNoEpc1};
ghost use Rattle.xt_shadow.specs.Lookups.{IsOperand};
ghost use Rattle.xt_trace.specs.declared.record.StepKind.TheVariants as kinds;

use xt_exec::Regs;
use xt_isa::Insn;
use xt_isa::control::{Control, ReturnName};
use xt_isa::density::{BareName, Density};
use xt_isa::memory::Memory;
use xt_isa::shift::Shift;
use xt_special::number;
use xt_trace::{RegWrite, StepKind};
use xt_window::Windows;

/// Whether no breach names the instruction, and it is no system instruction.
#[tactic(auto, unfolding(xt_frames::specs::Breaches::may_write_sp, xt_frames::specs::Breaches::is_return, xt_frames::specs::Breaches::is_windowing, xt_frames::specs::Breaches::names_window_register, xt_frames::specs::Marks::moved_to, xt_frames::specs::Breaches::sets_epc1, xt_frames::specs::Quick::is_system))]
#[inline(always)]
pub fn is_common(i: Insn) -> bool
    ensures { result ≡ true → IsCommon i }
{
    match i {
        Insn::Control(Control::Entry(_, _) | Control::Return(ReturnName::Retw)) => false,
        Insn::Density(Density::Bare(BareName::Retw)) => false,
        Insn::Memory(Memory::Window(_, _, _, _)) => false,
        Insn::Shift(Shift::Movsp(_, _)) => false,
        Insn::System(_) => false,
        _ => true,
    }
}

/// Whether the register, if there is one, has a value in the newest frame, whose visible registers
/// these are, and that is the processor's.
#[inline(always)]
pub fn agrees<W: Windows>(seen: &[Option<u32>; 16], regs: &Regs<W>, register: Option<u8>) -> bool
    requires { IsRegister register }
    ensures { result ≡ true → AgreesAt seen.now (state_of W.regs W.base W.start regs.now) register }
{
    match register {
        Some(number) => match seen[number as usize] {
            Some(value) => value == regs.win.read(number),
            None => false,
        },
        None => true,
    }
}

/// Whether a PC lies in the six vectors of window exceptions.
#[inline(always)]
pub fn is_in_vectors(vecbase: u32, pc: u32) -> bool
    ensures { result ≡ is_in_vectors vecbase pc }
{
    vecbase <= pc && u64::from(pc) < u64::from(vecbase) + 0x180
}

/// Whether the stack pointer is written.
#[inline(always)]
pub fn is_sp(write: Option<RegWrite>) -> bool
    ensures { result ≡ is_sp write }
{
    match write {
        Some(w) => w.reg == 1,
        None => false,
    }
}

/// Whether a special register, if there is one, is another than EPC1.
#[inline(always)]
pub fn is_no_epc1(register: Option<u8>) -> bool
    ensures { result ≡ true → IsNoEpc1 register }
{
    match register {
        Some(n) => n != number::EPC1,
        None => true,
    }
}

/// Whether a special register, if there is one, is SAR, BR or SCOMPARE1.
#[inline(always)]
pub fn is_operand(register: Option<u8>) -> bool
    ensures { result ≡ true → IsOperand register }
{
    match register {
        Some(n) => n == number::SAR || n == number::BR || n == number::SCOMPARE1,
        None => true,
    }
}

/// Whether an instruction was executed.
#[inline(always)]
pub fn is_executed(kind: StepKind) -> bool
    ensures { result ≡ true → kind ≡ kinds.Insn }
{
    match kind {
        StepKind::Insn => true,
        StepKind::Window(_)
        | StepKind::Exc(_)
        | StepKind::Interrupt(_)
        | StepKind::Wait
        | StepKind::Stop => false,
    }
}
