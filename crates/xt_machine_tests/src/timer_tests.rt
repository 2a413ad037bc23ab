use xt_special::timers::tick;
use xt_special::{Special, number};

// CCOUNT, CCOMPARE0, 1 and 2; CCOUNT and INTERRUPT afterwards
const TURNS: [(u32, [u32; 3], u32, u32); 4] = [
    (0, [0, 5, 1], 1, 1 << 16),
    (4, [5, 5, 4], 5, 1 << 6 | 1 << 15),
    (5, [5, 5, 5], 6, 0),
    (0xFFFF_FFFF, [0, 0, 0], 0, 1 << 6 | 1 << 15 | 1 << 16),
];

#[test]
fn timers_at_equality(rt: HostRuntime) {
    for (ccount, [first, second, third], count_after, interrupt) in TURNS {
        let mut special = Special::new(0xCDCD, 0);
        special.set_register(number::CCOUNT, ccount);
        special.set_register(240, first);
        special.set_register(241, second);
        special.set_register(242, third);
        tick(&mut special);
        assert_eq!(rt;
            special.register(number::CCOUNT),
            count_after,
            "after {ccount}"
        );
        assert_eq!(rt;
            special.register(number::INTERRUPT),
            interrupt,
            "after {ccount}"
        );
    }
}
