//! Levels and vectors, worked out by hand.
use xt_special::entries::{general, interrupt, pending, window};
use xt_special::{Special, number};

// INTERRUPT, INTENABLE, INTLEVEL, EXCM; the level that is taken
const LEVELS: [(u32, u32, u8, bool, Option<u8>); 11] = [
    (0x0000_0040, 0x2001_80C0, 0, false, Some(1)),
    (0x0000_0040, 0x2001_8080, 0, false, None),
    (0x0000_0040, 0x2001_80C0, 1, false, None),
    (0x2000_0040, 0x2001_80C0, 1, false, Some(3)),
    (0x2000_0040, 0x2001_80C0, 3, false, None),
    (0x2000_8000, 0x2001_80C0, 0, true, None),
    (0x0001_0000, 0x2001_80C0, 0, false, Some(5)),
    (0x0001_0080, 0x2001_80C0, 0, false, Some(5)),
    (0x0001_0000, 0x2001_80C0, 0, true, Some(5)),
    (0x2001_0040, 0x2001_80C0, 4, true, Some(5)),
    (0x2001_0040, 0x2001_80C0, 5, false, None),
];

#[test]
fn levels(rt: HostRuntime) {
    for (set, enabled, level, excm, want) in LEVELS {
        let mut special = Special::new(0xCDCD, 0x4008_0000);
        special.set_register(number::INTERRUPT, set);
        special.set_register(number::INTENABLE, enabled);
        if level < 16 {
            special.set_intlevel(level);
        }
        special.set_excm(excm);
        assert_eq!(rt; pending(&special), want, "{set} at {level}");
    }
}

#[test]
fn entries(rt: HostRuntime) {
    let mut special = Special::new(0xCDCD, 0x4008_0000);
    assert_eq!(rt; window(&mut special, 0x400D_0000, 3, 5), 0x4008_0140);
    assert_eq!(rt; special.owb(), 3);
    assert_eq!(rt;
        general(&mut special, 0x400D_0010, 9, Some(0x3FFB_0001)),
        0x4008_03C0
    );
    assert_eq!(rt; special.register(number::DEPC), 0x400D_0010);
    assert_eq!(rt; special.register(number::EXCVADDR), 0x3FFB_0001);
    special.set_excm(false);
    assert_eq!(rt; general(&mut special, 0x400D_0020, 6, None), 0x4008_0340);
    assert_eq!(rt; special.register(number::EXCVADDR), 0x3FFB_0001);
    assert_eq!(rt; interrupt(&mut special, 0x400D_0030, 3), 0x4008_01C0);
    assert_eq!(rt; special.ps(), 0x0006_0333);
    assert_eq!(rt; interrupt(&mut special, 0x400D_0040, 5), 0x4008_0240);
    assert_eq!(rt; special.register(number::EPC5), 0x400D_0040);
}
