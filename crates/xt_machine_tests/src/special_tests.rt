//! The opening registers, and what writes keep: values from the register table, worked out by hand.
use xt_special::{Special, number};

// a number, what is written, and what is read afterwards
const KEPT: [(u8, u32, Option<u32>); 15] = [
    (number::LBEG, 0x1234_5678, Some(0x1234_5678)),
    (number::SAR, 0xFF, Some(0x3F)),
    (number::BR, 0xFFFF_FFFF, Some(0xFFFF)),
    (number::WINDOWBASE, 1, None),
    (number::EPC1, 0xFFFF_FFFF, Some(0xFFFF_FFFF)),
    (number::EPS2, 0xFFFF_FFFF, Some(0x0007_0FFF)),
    // INTSET keeps the bits of software, and INTCLEAR is not read
    (number::INTERRUPT, 0xFFFF_FFFF, Some(0x2000_0080)),
    (number::INTCLEAR, 0xFFFF_FFFF, None),
    (number::INTENABLE, 0xFFFF_FFFF, Some(0x2001_80C0)),
    (number::PS, 0xFFFF_FFFF, Some(0x0007_0FFF)),
    (number::VECBASE, 0x4008_07FF, Some(0x4008_0400)),
    (number::EXCCAUSE, 0xFF, Some(0x3F)),
    // PRID is not written
    (number::PRID, 1, Some(0xCDCD)),
    (number::CCOMPARE2, 7, Some(7)),
    // MEMCTL, which this machine has not
    (97, 1, None),
];

#[test]
fn opening_and_writes(rt: HostRuntime) {
    let opening = Special::new(0xCDCD, 0x4008_0000);
    assert_eq!(rt; opening.read(number::PRID), Some(0xCDCD));
    assert_eq!(rt; opening.read(number::VECBASE), Some(0x4008_0000));
    assert_eq!(rt; opening.read(number::PS), Some(0x0006_0020));
    for (n, v, want) in KEPT {
        let mut special = opening;
        let _ = special.write(n, v);
        assert_eq!(rt; special.read(n), want, "register {n}");
    }
}

#[test]
fn bits_of_interrupt(rt: HostRuntime) {
    let mut special = Special::new(0xCDCD, 0x4008_0000);
    special.raise(0);
    special.raise(1);
    let set = special.write(number::INTERRUPT, 0xFFFF_FFFF);
    assert!(rt; set);
    assert_eq!(rt; special.read(number::INTERRUPT), Some(0x2000_80C0));
    let cleared = special.write(number::INTCLEAR, 0xFFFF_FFFF);
    assert!(rt; cleared);
    assert_eq!(rt; special.read(number::INTERRUPT), Some(0x8040));
    let compared = special.write(number::CCOMPARE0, 5);
    assert!(rt; compared);
    assert_eq!(rt; special.read(number::INTERRUPT), Some(0x8000));
    let identified = special.write(number::PRID, 5);
    assert!(rt; !identified);
}
