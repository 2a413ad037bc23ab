//! States of the ring, worked out by hand.
use xt_window::{Anyone, FrontFile, Overflow, Return, WindowFile, Windows};

fn file(base: u8, start: u16) -> WindowFile {
    let mut file = WindowFile::new();
    if base < 16 {
        file.set_base(base);
    }
    file.set_start(start);
    file
}

// WINDOWBASE, WINDOWSTART, by how much is returned; the answer, and both registers afterwards
const RETURNS: [(u8, u16, u8, &'static str, u8, u16); 5] = [
    (4, 0b1_0101, 2, "returned", 2, 0b0_0101),
    (4, 0b1_0101, 1, "bad", 4, 0b1_0101),
    (4, 0b1_0000, 2, "under", 2, 0b1_0000),
    (4, 0b1_0101, 0, "bad", 4, 0b1_0101),
    (1, 0x4002, 3, "returned", 14, 0x4000),
];

fn name_of(answer: Return) -> &'static str {
    match answer {
        Return::Returned => "returned",
        Return::Bad => "bad",
        Return::Under => "under",
    }
}

#[test]
fn returns(rt: HostRuntime) {
    for (base, start, n, want, base_after, start_after) in RETURNS {
        let mut file = file(base, start);
        if n < 4 {
            assert_eq!(rt; name_of(file.retw(n)), want, "by {n} at {base}");
        }
        assert_eq!(rt; file.base(), base_after, "by {n} at {base}");
        assert_eq!(rt; file.start(), start_after, "by {n} at {base}");
    }
}

#[test]
fn checks_and_calls(rt: HostRuntime) {
    let full = file(14, 0b0101_0101_0101_0101);
    assert!(rt; full.check(1).is_none());
    assert!(rt; matches!(full.check(2), Some(Overflow { by: 2, size: 2 })));
    let mut file = WindowFile::new();
    file.write(9, 7);
    file.enter(2);
    assert_eq!(rt; file.read(1), 7);
    assert_eq!(rt; file.start(), 5);
    file.rotate(-3);
    assert_eq!(rt; file.base(), 15);
    assert_eq!(rt; file.read(13), 7);
}

/// Writes in three windows, and reads the first of them and the last register of the ring's last window.
fn read_across<W: Windows + Drop>(mut file: W) -> (u32, u32) {
    file.set_base(12);
    file.write(12, 9);
    file.set_base(0);
    file.write(0, 5);
    file.set_base(4);
    file.write(0, 7);
    file.set_base(15);
    (file.read(4), file.read(0))
}

#[test]
fn windows_run_round_the_ring(rt: HostRuntime) {
    assert_eq!(rt; read_across(WindowFile::new()), (5, 9));
    assert_eq!(rt; read_across::<FrontFile<Anyone>>(FrontFile::new()), (5, 9));
}
