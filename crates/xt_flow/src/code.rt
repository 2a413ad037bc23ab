//! The code of segments, and where control goes from an instruction.
#![tactic(auto)]

ghost use Rattle.std.specs.Prelude.{◌≡◌};
ghost use Rattle.xt_flow.specs.Following.{code_from, ends_flow, ends_number, ends_one, ends_plain, has_code, literal_of, target_of};

use xt_disasm::{call_address, is_code, jump_address, literal_address};
use xt_isa::density::BareName;
use xt_isa::system::SyncName;
use xt_map::Segment;
use xt_names::{Number, One, Parts, Plain};

/// Whether a segment has code at an address.
fn has_code(segment: &Segment, at: u32) -> bool
    ensures { result ≡ has_code at segment.now }
{
    is_code(segment) && segment.addr <= at && ((at - segment.addr) as usize) < segment.bytes.len()
}

/// The code from an address on, to the end of its segment; nothing where no segment has code there.
#[tactic(auto, unfolding(crate::specs::Following::code_from))]
pub fn code_from(segments: &[Segment], at: u32) -> &[u8]
    ensures { result.now ≡ code_from segments.now at }
{
    for segment in segments {
        if has_code(segment, at) {
            return &segment.bytes.as_slice()[(at - segment.addr) as usize..];
        }
    }
    &[]
}

/// Whether control never goes on behind an instruction without operands.
fn ends_plain(name: Plain) -> bool
    ensures { result ≡ ends_plain name }
{
    match name {
        Plain::Return(_) | Plain::ExceptionReturn(_) | Plain::Sync(SyncName::Ill) => true,
        Plain::Bare(BareName::Nop) => false,
        Plain::Bare(_) => true,
        _ => false,
    }
}

/// Whether control never goes on behind an instruction of these parts.
pub fn ends_flow(parts: Parts) -> bool
    ensures { result ≡ ends_flow parts }
{
    match parts {
        Parts::Nothing(name) => ends_plain(name),
        Parts::One(One::Jx, _) | Parts::Break(_) | Parts::Jump(_) => true,
        Parts::Number(Number::Rfi | Number::BreakNarrow, _) => true,
        _ => false,
    }
}

/// The target of a jump, a call, a branch or a loop at the address `pc`.
pub fn target_of(parts: Parts, pc: u32) -> Option<u32>
    ensures { result ≡ target_of parts pc }
{
    match parts {
        Parts::Jump(d) => Some(jump_address(pc, d)),
        Parts::Call(_, d) => Some(call_address(pc, d)),
        Parts::OneAndTarget(_, (_, d)) => Some(jump_address(pc, d)),
        Parts::OneNumberAndTarget(_, (_, _, d)) => Some(jump_address(pc, d)),
        Parts::TwoAndTarget(_, (_, _, d)) => Some(jump_address(pc, d)),
        _ => None,
    }
}

/// The address of the word that an L32R at the address `pc` reads.
pub fn literal_of(parts: Parts, pc: u32) -> Option<u32>
    ensures { result ≡ literal_of parts pc }
{
    match parts {
        Parts::Literal((_, d)) => Some(literal_address(pc, d)),
        _ => None,
    }
}
