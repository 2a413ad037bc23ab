//! The memory map's addresses as the ESP32 Technical Reference Manual has them.
use std::alloc::Global;
use std::test::Fail;
use xt_map::regions::Region;
use xt_map::{Access, Bytes, Constants, Kind, Segment, are_placed, mapped, region};

/// The name of an address's region, or nothing.
fn region_name(addr: u32) -> &'static str {
    match region(addr) {
        None => "",
        Some(Region::Drom) => "DROM",
        Some(Region::Uart) => "UART0",
        Some(Region::RtcFastData) => "RTCFD",
        Some(Region::Dram) => "DRAM",
        Some(Region::Iram) => "IRAM",
        Some(Region::RtcFastCode) => "RTCFC",
        Some(Region::Irom) => "IROM",
        Some(Region::RtcSlow) => "RTCSLOW",
    }
}

#[test]
fn regions_of_addresses(rt: HostRuntime) {
    for (addr, want) in [
        (0, ""),
        (0x3F3FFFFF, ""),
        (0x3F400000, "DROM"),
        (0x3F7FFFFF, "DROM"),
        (0x3F800000, ""),
        (0x3FF3FFFF, ""),
        (0x3FF40000, "UART0"),
        (0x3FF40001, ""),
        (0x3FF4001B, ""),
        (0x3FF4001C, "UART0"),
        (0x3FF4001D, ""),
        (0x3FF7FFFF, ""),
        (0x3FF80000, "RTCFD"),
        (0x3FF81FFF, "RTCFD"),
        (0x3FF82000, ""),
        (0x3FFADFFF, ""),
        (0x3FFAE000, "DRAM"),
        (0x3FFFFFFF, "DRAM"),
        (0x40000000, ""),
        (0x4006FFFF, ""),
        (0x40070000, "IRAM"),
        (0x4009FFFF, "IRAM"),
        (0x400A0000, ""),
        (0x400BFFFF, ""),
        (0x400C0000, "RTCFC"),
        (0x400C1FFF, "RTCFC"),
        (0x400C2000, ""),
        (0x400CFFFF, ""),
        (0x400D0000, "IROM"),
        (0x403FFFFF, "IROM"),
        (0x40400000, ""),
        (0x4FFFFFFF, ""),
        (0x50000000, "RTCSLOW"),
        (0x50001FFF, "RTCSLOW"),
        (0x50002000, ""),
        (0xFFFFFFFF, ""),
    ] {
        assert_eq!(rt; region_name(addr), want, "at {addr}");
    }
}

#[test]
fn accesses_that_the_bus_serves(rt: HostRuntime) {
    let rows = [
        (0x3FFAE000, 4, Kind::Load, true),
        (0x3FFAE001, 1, Kind::Load, true),
        (0x3FFAE002, 2, Kind::Load, true),
        (0x3FFAE001, 2, Kind::Load, false),
        (0x3FFAE002, 4, Kind::Load, false),
        (0x3FFAE003, 4, Kind::Load, false),
        (0x3FFFFFFC, 4, Kind::Load, true),
        (0x3FFFFFFE, 4, Kind::Load, false),
        (0x40000000, 4, Kind::Load, false),
        (0x3FF80000, 4, Kind::Store(0xFFFFFFFF), true),
        (0x50001FFC, 4, Kind::Cas(1, 2), true),
        (0x40080000, 4, Kind::Load, false),
        (0x3F400000, 4, Kind::Load, false),
        (0x3FF40000, 1, Kind::Load, true),
        (0x3FF40000, 4, Kind::Store(0x41), true),
        (0x3FF4001C, 4, Kind::Load, true),
        (0x3FF40000, 4, Kind::Cas(0, 1), false),
        (0x3FF40004, 4, Kind::Load, false),
        (0x3FFAE000, 1, Kind::Store(255), true),
        (0x3FFAE000, 1, Kind::Store(256), false),
        (0x3FFAE000, 2, Kind::Store(0xFFFF), true),
        (0x3FFAE000, 2, Kind::Store(0x10000), false),
        (0x3FFAE000, 2, Kind::Cas(0, 1), false),
        (0x3FFAE000, 3, Kind::Load, false),
        (0x3FFAE000, 0, Kind::Load, false),
        (0x3FFAE000, 8, Kind::Load, false),
    ];
    for (addr, size, kind, want) in rows {
        let access = Access { addr, size, kind };
        assert_eq!(rt; mapped(&access), want, "of {size} at {addr}");
    }
}

/// A segment of these bytes.
fn segment(alloc: Global, addr: u32, bytes: &[u8]) -> Result<Segment, Fail> {
    let bytes = Bytes::new(Vec::from_slice(alloc, bytes)?);
    Ok(Segment { addr, bytes })
}

/// The byte at an address of a constant region, and none elsewhere.
fn constant_at(constants: &Constants, addr: u32) -> Option<u8> {
    match region(addr) {
        Some(Region::Drom | Region::Iram | Region::RtcFastCode | Region::Irom) => {
            Some(constants.byte(addr))
        }
        _ => None,
    }
}

#[test]
fn bytes_of_constant_regions(rt: HostRuntime) -> Result<(), Fail> {
    let alloc = rt.alloc();
    let mut segments = Vec::new(alloc);
    segments.push(segment(alloc, 0, &[1, 2, 3, 4])?)?;
    segments.push(segment(alloc, 0x40080400, &[0x36, 0x41, 0x00, 0xF0])?)?;
    segments.push(segment(alloc, 0x3FFB0000, &[5, 6])?)?;
    segments.push(segment(alloc, 0x3F400020, &[7, 8])?)?;
    segments.push(segment(alloc, 0x40080404, &[9, 10, 11])?)?;
    segments.push(segment(alloc, 0x40080402, &[])?)?;
    assert!(rt; are_placed(&segments));
    let constants = Constants::make(alloc, segments.as_slice())?;
    for (addr, want) in [
        (0, None),
        (0x400803FF, Some(0)),
        (0x40080400, Some(0x36)),
        (0x40080401, Some(0x41)),
        (0x40080402, Some(0)),
        (0x40080403, Some(0xF0)),
        (0x40080404, Some(9)),
        (0x40080406, Some(11)),
        (0x40080407, Some(0)),
        (0x400803FE, Some(0)),
        (0x3FFB0000, None),
        (0x3F40001F, Some(0)),
        (0x3F400020, Some(7)),
        (0x3F400021, Some(8)),
        (0x3F400022, Some(0)),
    ] {
        assert_eq!(rt; constant_at(&constants, addr), want, "at {addr}");
    }
    Ok(())
}

#[test]
fn places_of_segments(rt: HostRuntime) -> Result<(), Fail> {
    let alloc = rt.alloc();
    let rows: [(u32, usize, u32, usize, bool); 14] = [
        (0x40080400, 4, 0x40080404, 4, true),
        (0x40080400, 4, 0x40080403, 4, false),
        (0x40080403, 4, 0x40080400, 4, false),
        (0x40080400, 8, 0x40080402, 2, false),
        (0x40080400, 8, 0x40080402, 0, true),
        (0, 4, 2, 4, true),
        (0x0FFFFFFF, 4, 0x40080400, 4, true),
        (0x10000000, 4, 0x40080400, 4, false),
        (0x10000000, 0, 0x40080400, 4, true),
        (0x3FFAE000, 4, 0x3FFFFFFC, 4, true),
        (0x3FFADFFF, 4, 0x40080400, 4, false),
        (0x3FFFFFFE, 4, 0x40080400, 4, false),
        (0x3FF40000, 1, 0x40080400, 4, false),
        (0xFFFFFFFF, 4, 0x40080400, 4, false),
    ];
    for (one, size, other, other_size, want) in rows {
        let mut segments = Vec::new(alloc);
        segments.push(segment(alloc, one, &[1; 8][..size.min(8)])?)?;
        segments.push(segment(alloc, other, &[2; 8][..other_size.min(8)])?)?;
        assert_eq!(rt; are_placed(&segments), want, "at {one} and {other}");
    }
    Ok(())
}
