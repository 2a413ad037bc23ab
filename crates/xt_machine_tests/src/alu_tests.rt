//! Values worked out by hand, and products and quotients by another program.
use xt_word::arithmetic::{addx, max, min, subx};
use xt_word::conditions::{Cond, holds};
use xt_word::multiply::{mul16s, mulsh, muluh, quos, rems};
use xt_word::shifts::{sll, src, srl, ssa8b, ssl};
use xt_word::unary::{abs, clamps, nsa, nsau, sext};

// s, t, MUL16S, MULSH, MULUH, QUOS and REMS
const PRODUCTS: [(u32, u32, u32, u32, u32, u32, u32); 4] = [
    (0x8000_0000, 0xFFFF_FFFF, 0, 0, 0x7FFF_FFFF, 0x8000_0000, 0),
    (7, 0xFFFF_FFFE, 0xFFFF_FFF2, 0xFFFF_FFFF, 6, 0xFFFF_FFFD, 1),
    (
        0xFFFF_FFF9,
        2,
        0xFFFF_FFF2,
        0xFFFF_FFFF,
        1,
        0xFFFF_FFFD,
        0xFFFF_FFFF,
    ),
    (
        0x1234_5678,
        0x9ABC_DEF0,
        0xF4D5_2080,
        0xF8CC_93D6,
        0x0B00_EA4E,
        0,
        0x1234_5678,
    ),
];

#[test]
fn products_and_quotients(rt: HostRuntime) {
    for (s, t, half, high, unsigned, quotient, remainder) in PRODUCTS {
        assert_eq!(rt; mul16s(s, t), half, "MUL16S {s} {t}");
        assert_eq!(rt; mulsh(s, t), high, "MULSH {s} {t}");
        assert_eq!(rt; muluh(s, t), unsigned, "MULUH {s} {t}");
        if t != 0 {
            assert_eq!(rt; quos(s, t), quotient, "QUOS {s} {t}");
            assert_eq!(rt; rems(s, t), remainder, "REMS {s} {t}");
        }
    }
}

#[test]
fn words(rt: HostRuntime) {
    for (name, computed, want) in [
        ("3 times 4 plus 5", addx(3, 5, 2), 17),
        ("3 minus 5", subx(3, 5, 0), 0xFFFF_FFFE),
        ("200 kept to 8 signed bits", clamps(200, 7), 127),
        (
            "-200 kept to 8 signed bits",
            clamps(0xFFFF_FF38, 7),
            0xFFFF_FF80,
        ),
        ("the lesser of -1 and 1", min(0xFFFF_FFFF, 1), 0xFFFF_FFFF),
        ("the greater of -1 and 1", max(0xFFFF_FFFF, 1), 1),
        ("a pair by 4", src(1, 0, 4), 0x1000_0000),
        ("to the right by 33", srl(0xFFFF_FFFF, 33), 0),
        (
            "to the left by 4, so with SAR 28",
            sll(0x1234_5678, ssl(4)),
            0x2345_6780,
        ),
        (
            "bytes of address 1, the greatest first",
            ssa8b(1) as u32,
            24,
        ),
        (
            "the least number's absolute value",
            abs(0x8000_0000),
            0x8000_0000,
        ),
        ("the sign of a byte", sext(0x80, 7), 0xFFFF_FF80),
        ("sign bits of 1", nsa(1), 30),
        ("sign bits of -1", nsa(0xFFFF_FFFF), 31),
        ("leading zeros of 0", nsau(0), 32),
        ("-1 below 1", holds(Cond::Lt, 0xFFFF_FFFF, 1) as u32, 1),
        ("bit 35 is bit 3", holds(Cond::BitSet, 8, 35) as u32, 1),
    ] {
        assert_eq!(rt; computed, want, "{name}");
    }
}
