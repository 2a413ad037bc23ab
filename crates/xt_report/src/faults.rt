//! Faults of images, ELF executables and recordings in words.
ghost use Rattle.std.specs.Prelude.{◌≡◌, ◌++◌, IfOk, codes, string_bytes};
ghost use Rattle.xt_report.specs.Statuses.{elf_fault_name, elf_fault_numbers, elf_fault_text, fault_text, image_fault_name, image_fault_numbers, record_fault_name, record_fault_numbers, record_fault_text};

use crate::numbers::{Numbers, name_and_numbers, name_and_text};
use std::alloc::{AllocError, Global};
use xt_elf::ElfFault;
use xt_image::ImageFault;
use xt_record::RecordFault;

fn image_fault_name(fault: &ImageFault) -> &'static str
    ensures { result.now ≡ image_fault_name fault.now }
{
    match fault {
        ImageFault::Short => "Short",
        ImageFault::Magic(_) => "Magic",
        ImageFault::Count(_) => "Count",
        ImageFault::Chip(_) => "Chip",
        ImageFault::DigestFlag(_) => "DigestFlag",
        ImageFault::SegmentEnd(_) => "SegmentEnd",
        ImageFault::SegmentLength(_) => "SegmentLength",
        ImageFault::SegmentPlace(_) => "SegmentPlace",
        ImageFault::SegmentOverlap(_, _) => "SegmentOverlap",
        ImageFault::NoChecksum => "NoChecksum",
        ImageFault::Checksum(_, _) => "Checksum",
        ImageFault::NoDigest => "NoDigest",
        ImageFault::Digest(_, _) => "Digest",
        ImageFault::Entry(_) => "Entry",
        ImageFault::Memory => "Memory",
    }
}

fn image_fault_numbers(fault: &ImageFault) -> Numbers
    ensures { result ≡ image_fault_numbers fault.now }
{
    match *fault {
        ImageFault::Magic(byte) => Numbers::One(byte as u32),
        ImageFault::Count(count) => Numbers::One(count as u32),
        ImageFault::Chip(id) => Numbers::One(id as u32),
        ImageFault::DigestFlag(flag) => Numbers::One(flag as u32),
        ImageFault::SegmentEnd(index) => Numbers::One(index as u32),
        ImageFault::SegmentLength(index) => Numbers::One(index as u32),
        ImageFault::SegmentPlace(index) => Numbers::One(index as u32),
        ImageFault::SegmentOverlap(first, second) => Numbers::Two(first as u32, second as u32),
        ImageFault::Checksum(kept, computed) => Numbers::Two(kept as u32, computed as u32),
        ImageFault::Entry(address) => Numbers::One(address),
        ImageFault::Short
        | ImageFault::NoChecksum
        | ImageFault::NoDigest
        | ImageFault::Digest(_, _)
        | ImageFault::Memory => Numbers::Zero,
    }
}

// The words of a digest that is not the image's.
fn digest_text(alloc: Global, kept: [u8; 32], computed: [u8; 32]) -> Result<String, AllocError>
    ensures { IfOk result (λ text. string_bytes text ≡ fault_text (ImageFault.Digest kept computed)) }
{
    let kept = hex::encode(alloc, kept)?;
    let computed = hex::encode(alloc, computed)?;
    format!(in alloc; "Digest {kept} {computed}")
}

// A fault of an image: its name and the values that it keeps.
fn image_fault_text(alloc: Global, fault: &ImageFault) -> Result<String, AllocError>
    ensures { IfOk result (λ text. string_bytes text ≡ fault_text fault.now) }
{
    match *fault {
        ImageFault::Digest(kept, computed) => digest_text(alloc, kept, computed),
        _ => name_and_numbers(alloc, image_fault_name(fault), image_fault_numbers(fault)),
    }
}

fn elf_fault_name(fault: &ElfFault) -> &'static str
    ensures { result.now ≡ elf_fault_name fault.now }
{
    match fault {
        ElfFault::Short => "Short",
        ElfFault::Magic => "Magic",
        ElfFault::Class => "Class",
        ElfFault::FileType(_) => "FileType",
        ElfFault::Machine(_) => "Machine",
        ElfFault::HeaderSize(_) => "HeaderSize",
        ElfFault::HeaderEnd => "HeaderEnd",
        ElfFault::SegmentEnd(_) => "SegmentEnd",
        ElfFault::Sizes(_) => "Sizes",
        ElfFault::Place(_) => "Place",
        ElfFault::Overlap(_, _) => "Overlap",
        ElfFault::Count(_) => "Count",
        ElfFault::Entry(_) => "Entry",
        ElfFault::Memory => "Memory",
    }
}

fn elf_fault_numbers(fault: &ElfFault) -> Numbers
    ensures { result ≡ elf_fault_numbers fault.now }
{
    match *fault {
        ElfFault::FileType(kind) => Numbers::One(kind as u32),
        ElfFault::Machine(machine) => Numbers::One(machine as u32),
        ElfFault::HeaderSize(size) => Numbers::One(size as u32),
        ElfFault::SegmentEnd(index) => Numbers::One(index as u32),
        ElfFault::Sizes(index) => Numbers::One(index as u32),
        ElfFault::Place(index) => Numbers::One(index as u32),
        ElfFault::Overlap(first, second) => Numbers::Two(first as u32, second as u32),
        ElfFault::Count(count) => Numbers::One(count as u32),
        ElfFault::Entry(address) => Numbers::One(address),
        ElfFault::Short
        | ElfFault::Magic
        | ElfFault::Class
        | ElfFault::HeaderEnd
        | ElfFault::Memory => Numbers::Zero,
    }
}

/// A fault of an ELF executable: its name and the values that it keeps.
pub fn elf_fault_text(alloc: Global, fault: &ElfFault) -> Result<String, AllocError>
    ensures { IfOk result (λ text. string_bytes text ≡ elf_fault_text fault.now) }
{
    name_and_numbers(alloc, elf_fault_name(fault), elf_fault_numbers(fault))
}

fn record_fault_name(fault: &RecordFault) -> &'static str
    ensures { result.now ≡ record_fault_name fault.now }
{
    match fault {
        RecordFault::Short => "Short",
        RecordFault::Magic => "Magic",
        RecordFault::Version(_) => "Version",
        RecordFault::Image(_) => "Image",
        RecordFault::Options => "Options",
        RecordFault::Entry(_) => "Entry",
        RecordFault::Illegal(_, _, _) => "Illegal",
        RecordFault::Turn(_, _) => "Turn",
        RecordFault::Trailing => "Trailing",
        RecordFault::Checkpoint(_) => "Checkpoint",
        RecordFault::Memory => "Memory",
    }
}

fn record_fault_numbers(fault: &RecordFault) -> Numbers
    ensures { result ≡ record_fault_numbers fault.now }
{
    match *fault {
        RecordFault::Version(version) => Numbers::One(version),
        RecordFault::Entry(entry) => Numbers::One(entry),
        RecordFault::Illegal(entry, kept, right) => Numbers::Three(entry, kept, right),
        RecordFault::Turn(core, step) => Numbers::Two(core as u32, step),
        RecordFault::Checkpoint(index) => Numbers::One(index),
        RecordFault::Short
        | RecordFault::Magic
        | RecordFault::Image(_)
        | RecordFault::Options
        | RecordFault::Trailing
        | RecordFault::Memory => Numbers::Zero,
    }
}

/// The word `Image`, and behind it a fault of an image. The only error is running out of memory.
pub fn image_words(alloc: Global, fault: &ImageFault) -> Result<String, AllocError>
    ensures { IfOk result (λ text. string_bytes text ≡ codes "Image " ++ fault_text fault.now) }
{
    let text = image_fault_text(alloc, fault)?;
    name_and_text(alloc, "Image", &text)
}

/// A fault of a recording: its name and the values that it keeps; of a fault of its image the image's.
pub fn record_fault_text(alloc: Global, fault: &RecordFault) -> Result<String, AllocError>
    ensures { IfOk result (λ text. string_bytes text ≡ record_fault_text fault.now) }
{
    match fault {
        RecordFault::Image(fault) => image_words(alloc, fault),
        _ => name_and_numbers(alloc, record_fault_name(fault), record_fault_numbers(fault)),
    }
}
