//! Listings against values from outside.
use std::alloc::Global;
use std::test::Fail;
use xt_disasm::listing;
use xt_image::{Head, Image};
use xt_map::{Bytes, Segment, Segments};

/// A segment of these bytes.
fn segment(alloc: Global, addr: u32, bytes: &[u8]) -> Result<Segment, Fail> {
    let bytes = Bytes::new(Vec::from_slice(alloc, bytes)?);
    Ok(Segment { addr, bytes })
}

/// An image of these segments.
fn image(segments: Vec<Segment>) -> Image {
    Image {
        head: Head {
            mode: 2,
            size_freq: 0x20,
            wp_pin: 0xEE,
            drive: [0, 0, 0],
            min_rev_old: 0,
            min_rev: 0,
            max_rev: 0xFFFF,
            reserved: [0, 0, 0, 0],
        },
        entry: 0x40080404,
        digest: false,
        segments: Segments::new(segments),
    }
}

/// An image with a segment of each kind: code of each region, with words that spell nothing and with bytes left over at
/// the end; data; padding; and empty segments outside the memory map and at UART0.
#[test]
fn kinds_of_segment(rt: HostRuntime) -> Result<(), Fail> {
    let alloc = rt.alloc();
    let letter = [
        0x00, 0x00, 0xF4, 0x3F, 0x21, 0xFF, 0xFF, 0x32, 0xA0, 0x41, 0x32, 0x42, 0x00, 0xF0, 0x41,
        0x00,
    ];
    let mut segments = Vec::new(alloc);
    segments.push(segment(alloc, 0x40080400, &letter)?)?;
    segments.push(segment(alloc, 0, &[1, 2, 3, 4])?)?;
    segments.push(segment(alloc, 0x3F400020, &[1, 2, 3, 4])?)?;
    segments.push(segment(alloc, 0x3FFB0000, &[0x3D, 0xF0])?)?;
    segments.push(segment(alloc, 0x3FF80000, &[0x3D, 0xF0])?)?;
    segments.push(segment(alloc, 0x50000000, &[0x3D, 0xF0])?)?;
    segments.push(segment(alloc, 0x60000000, &[])?)?;
    segments.push(segment(alloc, 0x3FF40000, &[])?)?;
    segments.push(segment(alloc, 0x400C0000, &[0x1D, 0xF0, 0x36, 0x41])?)?;
    segments.push(segment(alloc, 0x400D0000, &[0x36, 0x41, 0x00, 0x0C])?)?;
    segments.push(segment(alloc, 0x400D0010, &[0x0F, 0x00, 0x00])?)?;
    segments.push(segment(alloc, 0x0FFFFFFC, &[0x1D, 0xF0])?)?;
    segments.push(segment(alloc, 0x10000000, &[])?)?;
    let six = [
        0x36, 0x41, 0x00, 0x1D, 0xF0, 0x00, 0xC5, 0x49, 0xC0, 0x22, 0x11, 0x0C, 0x52, 0x20, 0x20,
        0x74,
    ];
    segments.push(segment(alloc, 0x400D0020, &six)?)?;
    let lines = listing(alloc, &image(segments))?;
    let want = "\
segment 0 40080400 16 IRAM
40080400 0000F4 extui a0, a0, 0, 16
40080403 3F .byte 0x3F
40080404 21FFFF l32r a2, 0x40080400
40080407 32A041 movi a3, 65
4008040A 324200 s8i a3, a2, 0
4008040D F04100 break 1, 15
segment 1 00000000 4 PAD
segment 2 3F400020 4 DROM
segment 3 3FFB0000 2 DRAM
segment 4 3FF80000 2 RTCFD
segment 5 50000000 2 RTCSLOW
segment 6 60000000 0 NONE
segment 7 3FF40000 0 NONE
segment 8 400C0000 4 RTCFC
400C0000 1DF0 retw.n
400C0002 36 .byte 0x36
400C0003 41 .byte 0x41
segment 9 400D0000 4 IROM
400D0000 364100 entry a1, 32
400D0003 0C .byte 0x0C
segment 10 400D0010 3 IROM
400D0010 0F .byte 0x0F
400D0011 00 .byte 0x00
400D0012 00 .byte 0x00
segment 11 0FFFFFFC 2 PAD
segment 12 10000000 0 NONE
segment 13 400D0020 16 IROM
400D0020 364100 entry a1, 32
400D0023 1DF0 retw.n
400D0025 00C549 s32e a0, a5, -16
400D0028 C02211 slli a2, a2, 4
400D002B 0C52 movi.n a2, 5
400D002D 202074 extui a2, a2, 0, 8
";
    assert_eq!(rt; lines.as_slice(), want.as_bytes());
    Ok(())
}
