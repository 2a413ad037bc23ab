//! How the program ends: the status, its line and its code.
ghost use Rattle.std.specs.Prelude.{◌≡◌, ◌++◌, IfOk, codes, string_bytes};
ghost use Rattle.xt_report.specs.Statuses.{elf_fault_text, record_fault_text, status_after, status_code, status_name, status_numbers, status_text, status_words};

use crate::faults::{elf_fault_text, image_words, record_fault_text};
use crate::numbers::{Numbers, name_and_numbers, name_and_text};
use std::alloc::{AllocError, Global};
use xt_elf::ElfFault;
use xt_image::ImageFault;
use xt_io::Refused;
use xt_lex::AsmPlace;
use xt_map::Text;
use xt_record::RecordFault;

/// How the program ended.
#[derive(Clone, Copy)]
pub enum Status {
    /// The command did all of its work.
    Done,
    /// The words break this rule, and none before it.
    Usage(u8),
    /// The whole input was read, and this is its first fault as an image.
    Image(ImageFault),
    /// The whole text was read, and this is its first fault as an assembly text.
    Asm(AsmPlace),
    /// The whole input was read, and this is its first fault as an ELF executable.
    Elf(ElfFault),
    /// The whole input was read, and this is its first fault as a recording.
    Recording(RecordFault),
    /// The input could not be read to its end.
    ReadFault,
    /// The output could not be written to its end.
    WriteFault,
    /// The input is longer than this many bytes.
    TooLarge(u32),
    /// Memory ran out.
    Memory,
    /// The script led beyond the run, and ended there.
    PastEnd,
}

impl Status {
    /// The code with which the program ends.
    pub fn code(&self) -> u8
        ensures { result ≡ status_code self.now }
    {
        match self {
            Status::Done => 0,
            Status::Usage(_) => 1,
            Status::Image(_) => 2,
            Status::Asm(_) => 3,
            Status::Recording(_) => 4,
            Status::ReadFault => 5,
            Status::WriteFault => 6,
            Status::TooLarge(_) => 7,
            Status::Memory => 8,
            Status::Elf(_) => 10,
            Status::PastEnd => 21,
        }
    }
}

// The name of a status.
fn status_name(status: &Status) -> &'static str
    ensures { result.now ≡ status_name status.now }
{
    match status {
        Status::Done => "Done",
        Status::Usage(_) => "Usage",
        Status::Image(_) => "Image",
        Status::Asm(_) => "Asm",
        Status::Elf(_) => "Elf",
        Status::Recording(_) => "Recording",
        Status::ReadFault => "ReadFault",
        Status::WriteFault => "WriteFault",
        Status::TooLarge(_) => "TooLarge",
        Status::Memory => "Memory",
        Status::PastEnd => "PastEnd",
    }
}

// The numbers that a status keeps itself.
fn status_numbers(status: &Status) -> Numbers
    ensures { result ≡ status_numbers status.now }
{
    match *status {
        Status::Usage(rule) => Numbers::One(rule as u32),
        Status::Asm(place) => Numbers::Three(place.line, place.column, place.kind as u32),
        Status::TooLarge(limit) => Numbers::One(limit),
        Status::Done
        | Status::Image(_)
        | Status::Elf(_)
        | Status::Recording(_)
        | Status::ReadFault
        | Status::WriteFault
        | Status::Memory
        | Status::PastEnd => Numbers::Zero,
    }
}

// The words of a status that holds a fault of an ELF executable.
fn elf_words(alloc: Global, fault: &ElfFault) -> Result<String, AllocError>
    ensures { IfOk result (λ text. string_bytes text ≡ codes "Elf " ++ elf_fault_text fault.now) }
{
    let text = elf_fault_text(alloc, fault)?;
    name_and_text(alloc, "Elf", &text)
}

// The words of a status that holds a fault of a recording.
fn record_words(alloc: Global, fault: &RecordFault) -> Result<String, AllocError>
    ensures { IfOk result (λ text. string_bytes text ≡ codes "Recording " ++ record_fault_text fault.now) }
{
    let text = record_fault_text(alloc, fault)?;
    name_and_text(alloc, "Recording", &text)
}

// The words of a status.
fn status_words(alloc: Global, status: &Status) -> Result<String, AllocError>
    ensures { IfOk result (λ text. string_bytes text ≡ status_words status.now) }
{
    match status {
        Status::Image(fault) => image_words(alloc, fault),
        Status::Elf(fault) => elf_words(alloc, fault),
        Status::Recording(fault) => record_words(alloc, fault),
        _ => name_and_numbers(alloc, status_name(status), status_numbers(status)),
    }
}

/// The line for standard error: `xt:`, the name of the status, the values that it keeps in decimal,
/// of the fault of an image, an ELF executable or a recording its name and its values, digests as 64
/// lower-case hexadecimal digits, of a text's fault its line, column and kind, and a newline. The only
/// error is running out of memory.
#[tactic(auto, unfolding(crate::specs::Statuses::status_text))]
pub fn status_line(alloc: Global, status: &Status) -> Result<Text, AllocError>
    ensures { IfOk result (λ text. text ≡ status_text status.now) }
{
    let words = status_words(alloc, status)?;
    let line = format!(in alloc; "xt: {words}\n")?;
    Ok(Text::new(line.into_bytes()))
}

/// The status that a write comes to.
pub fn status_after(written: Result<(), Refused>) -> Status
    ensures { result ≡ status_after written }
{
    match written {
        Ok(()) => Status::Done,
        Err(Refused::Failed) => Status::WriteFault,
        Err(Refused::Memory) => Status::Memory,
    }
}
