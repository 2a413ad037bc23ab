//! Values worked out by hand, and those of a worked program.
use xt_word::{BoolOp, group, logic};

// the operation, the registers before, r, s, t, and the registers after
const OPERATIONS: [(BoolOp, u16, u8, u8, u8, u16); 10] = [
    (BoolOp::And, 0b0110, 0, 1, 2, 0b0111),
    (BoolOp::And, 0b0011, 1, 1, 2, 0b0001),
    (BoolOp::AndNot, 0b0010, 3, 1, 2, 0b1010),
    (BoolOp::AndNot, 0b1000, 3, 1, 2, 0b0000),
    (BoolOp::Or, 0b0100, 15, 1, 2, 0b1000_0000_0000_0100),
    (BoolOp::OrNot, 0b0000, 0, 1, 2, 0b0001),
    (BoolOp::OrNot, 0b0101, 0, 1, 2, 0b0100),
    (BoolOp::Xor, 0b0110, 3, 1, 2, 0b0110),
    (BoolOp::Xor, 0b0010, 3, 1, 2, 0b1010),
    (BoolOp::Xor, 0xFFFF, 7, 7, 7, 0xFF7F),
];

// all or any, how many, the registers before, t, s, and the registers after
const GROUPS: [(bool, u8, u16, u8, u8, u16); 8] = [
    (false, 4, 12, 4, 0, 28),
    (true, 4, 28, 5, 0, 28),
    (true, 4, 0x00F0, 4, 4, 0x00F0),
    (true, 4, 0x0070, 4, 4, 0x0060),
    (false, 4, 0x0FFF, 0, 12, 0x0FFE),
    (false, 8, 0x8000, 0, 8, 0x8001),
    (true, 8, 0xFF00, 7, 8, 0xFF80),
    (true, 8, 0xFE00, 15, 8, 0x7E00),
];

#[test]
fn operations(rt: HostRuntime) {
    for (op, b, r, s, t, want) in OPERATIONS {
        if r < 16 && s < 16 && t < 16 {
            assert_eq!(rt; logic(op, b, r, s, t), want, "of {b:#x}");
        }
    }
}

#[test]
fn groups(rt: HostRuntime) {
    for (all, width, b, t, s, want) in GROUPS {
        if (width == 4 || width == 8) && t < 16 && s <= 16 - width {
            assert_eq!(rt;
                group(all, width, b, t, s),
                want,
                "all {all}, {width} of {b:#x}"
            );
        }
    }
}
