//! Every 16-bit word against a search over the rows, and operands outside their ranges. The words of each mnemonic are
//! cases of `bench/case`.
use xt_codec::{Code, Decoded, decode, encode, fits, round_trip};
use xt_isa::boolean::{Boolean, EightName, FourName, TestName};
use xt_isa::control::Control;
use xt_isa::density::Density;
use xt_isa::memory::Memory;
use xt_isa::shift::Shift;
use xt_isa::special::{can_exchange, can_read, can_write};
use xt_isa::system::{SpecialName, System};
use xt_isa::three::Three;
use xt_isa::{Insn, rows};

/// The length of the row that has the word, by its bits under the mask, or 0 where no row has it.
fn length_by_rows(word: u32) -> u8 {
    for row in rows() {
        if word & row.mask == row.value {
            return row.len;
        }
    }
    0
}

/// The length of the instruction that bytes spell and the bytes that it is encoded as, or zeros where they spell none.
fn spelled(b0: u8, b1: u8, b2: u8) -> (u8, [u8; 3]) {
    match decode(b0, b1, b2) {
        Decoded::Good(insn, len) => {
            let code = encode(&insn);
            let bytes = code.bytes;
            (len, bytes)
        }
        Decoded::Illegal => (0, [0; 3]),
    }
}

/// Every 16-bit word, with two third bytes, against a search over the rows; and back to its bytes.
#[test]
fn every_narrow_word(rt: HostRuntime) {
    for word in 0..65536u32 {
        let (b0, b1) = ((word % 256) as u8, (word / 256) as u8);
        if !matches!(b0 % 16, 8..=13) {
            continue;
        }
        let want = match length_by_rows(word) {
            0 => (0, [0; 3]),
            length => (length, [b0, b1, 0]),
        };
        assert_eq!(rt; spelled(b0, b1, 0), want, "at {b0} {b1}");
        assert_eq!(rt; spelled(b0, b1, 0xFF), want, "at {b0} {b1}");
    }
}

/// Operands just outside their ranges.
#[test]
fn out_of_range(rt: HostRuntime) {
    for insn in [
        Insn::Three(Three::Src(16, 0, 0)),
        Insn::Shift(Shift::Slli(1, 2, 0)),
        Insn::Shift(Shift::Extui(1, 2, 0, 17)),
        Insn::Memory(Memory::L32r(1, 0)),
        Insn::Memory(Memory::Movi(1, 2048)),
        Insn::Memory(Memory::S32c1i(1, 2, 2)),
        Insn::Control(Control::J(131072)),
        Insn::Control(Control::Entry(1, 32768)),
        Insn::System(System::Rfi(1)),
        Insn::System(System::Special(SpecialName::Xsr, 1, 226)),
        Insn::Density(Density::Addi(1, 2, 0)),
        Insn::Density(Density::Movi(1, 96)),
        Insn::Boolean(Boolean::Four(FourName::All4, 1, 2)),
        Insn::Boolean(Boolean::Eight(EightName::Any8, 1, 12)),
        Insn::Boolean(Boolean::Test(TestName::Bt, 1, 128)),
    ] {
        assert!(rt; !fits(&insn));
    }
}

/// An instruction to bytes and back.
#[test]
fn there_and_back(rt: HostRuntime) {
    let insn = Insn::Memory(Memory::L32r(14, -262144));
    let code = Code {
        bytes: [0xE1, 0, 0],
        len: 3,
    };
    assert!(rt; fits(&insn));
    let (encoded, decoded) = round_trip(&insn);
    assert!(rt; encoded == code);
    assert!(rt;
        matches!(
            decoded,
            Decoded::Good(Insn::Memory(Memory::L32r(14, -262144)), 3)
        )
    );
}

/// The row of the first instruction that the word has by its bits under the mask.
fn row_of(word: u32) -> Option<(u32, u32, u8)> {
    for row in rows() {
        if word & row.mask == row.value {
            return Some((row.mask, row.value, row.len));
        }
    }
    None
}

#[test]
fn rows_of_words(rt: HostRuntime) {
    assert_eq!(rt; rows().len(), 154);
    // add a3, a4, a5; l32r; ret.n; s8i a2, a3, 4; and a word of no row
    for (word, mask, value, len) in [
        (0x803450, 0xFF000F, 0x800000, 3),
        (0xFFFFE1, 0x00000F, 0x000001, 3),
        (0x00F00D, 0x00FFFF, 0x00F00D, 2),
        (0x044322, 0x00F00F, 0x004002, 3),
    ] {
        assert_eq!(rt; row_of(word), Some((mask, value, len)), "of {word}");
    }
    assert_eq!(rt; row_of(0x50000F), None);
}

#[test]
fn special_registers(rt: HostRuntime) {
    // LBEG, SAR, BR, number 5, INTERRUPT or INTSET, INTCLEAR, PS, PRID
    for (number, read, write, exchange) in [
        (0, true, true, true),
        (3, true, true, true),
        (4, true, true, true),
        (5, false, false, false),
        (226, true, true, false),
        (227, false, true, false),
        (230, true, true, true),
        (235, true, false, false),
    ] {
        assert_eq!(rt; can_read(number), read, "read of {number}");
        assert_eq!(rt; can_write(number), write, "write of {number}");
        assert_eq!(rt; can_exchange(number), exchange, "exchange of {number}");
    }
}
