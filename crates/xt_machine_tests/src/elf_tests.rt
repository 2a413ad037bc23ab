//! ELF files with as many program headers as there can be. The answers come from outside this program.
use std::alloc::Global;
use std::test::Fail;
use xt_elf::{ElfFault, from_elf};

/// The file header of an executable with 65,535 program headers from place 52 on.
const CROWDED: &str = "7F454C4601010100000000000000000002005E0001000000040408403400000000000000\
00000000340020\
00FFFF000000000000";

/// A file with 65,535 program headers that load one byte each, every fourth address; the last one
/// loads its byte to this address.
fn crowded(alloc: Global, last: u32) -> Result<Vec<u8>, Fail> {
    let mut file = hex::decode(alloc, CROWDED)?;
    for i in 0..65_535u32 {
        let addr = if i == 65_534 {
            last
        } else {
            0x3F40_0000 + 4 * i
        };
        for word in [1, 0, addr, addr, 1, 1, 5, 4] {
            file.extend_from_slice(&word.to_le_bytes())?;
        }
    }
    Ok(file)
}

/// The fault of such a file; none too where it is too long.
fn fault_of(alloc: Global, last: u32) -> Result<Option<ElfFault>, Fail> {
    let file = crowded(alloc, last)?;
    if file.len() > 67_108_864 {
        return Ok(None);
    }
    Ok(from_elf(alloc, &file).err())
}

#[test]
fn as_many_headers_as_there_can_be(rt: HostRuntime) -> Result<(), Fail> {
    let alloc = rt.alloc();
    let count = fault_of(alloc, 0x3F40_0000 + 4 * 65_534)?;
    assert!(rt; matches!(count, Some(ElfFault::Count(65_535))));
    let overlap = fault_of(alloc, 0x3F40_0008)?;
    assert!(rt; matches!(overlap, Some(ElfFault::Overlap(2, 65_534))));
    let place = fault_of(alloc, 0x3F80_0000)?;
    assert!(rt; matches!(place, Some(ElfFault::Place(65_534))));
    Ok(())
}
