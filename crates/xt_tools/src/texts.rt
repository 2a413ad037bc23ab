//! The commands over assembly texts and ELF executables.
ghost use Rattle.std.specs.Prelude.{◌≡◌, ◌≢◌, ◌≤◌, length, IfOk, IfErr, Some};
ghost use Rattle.xt_asm.specs.Maps.{IsMapOfText};
ghost use Rattle.xt_tools.specs.Commands.{IsAssembled, IsMade, converted_image, elf_refusal, text_refusal};

use std::alloc::Global;
use xt_asm::{assemble, label_map};
use xt_elf::{ElfFault, from_elf};
use xt_image::write;
use xt_lex::AsmFault;
use xt_map::Text;
use xt_report::Status;

/// The most bytes that an assembly text may have.
pub const TEXT_LIMIT: usize = 1_048_576;

/// The most bytes that an ELF executable may have.
pub const ELF_LIMIT: usize = 67_108_864;

/// The image of a text as a file, or the status of the text's first fault.
#[tactic(auto, unfolding(crate::specs::Commands::text_refusal))]
pub fn image_file(alloc: Global, input: &[u8]) -> Result<Text, Status>
    requires { length input.now ≤ 1048576 }
    ensures ok { IfOk result (λ bytes. IsMade (text_refusal input.now) (IsAssembled input.now bytes)) }
    ensures refused { IfErr result (λ status. status ≢ Status.Memory → text_refusal input.now ≡ Some status) }
{
    let image = match assemble(alloc, input) {
        Ok(image) => image,
        Err(AsmFault::Place(place)) => return Err(Status::Asm(place)),
        Err(AsmFault::Memory) => return Err(Status::Memory),
    };
    match write(alloc, &image) {
        Ok(bytes) => Ok(Text::new(bytes.into_vec())),
        Err(_) => Err(Status::Memory),
    }
}

/// The map of a text, or the status of the text's first fault.
#[tactic(auto, unfolding(crate::specs::Commands::text_refusal))]
pub fn map_text(alloc: Global, input: &[u8]) -> Result<Text, Status>
    requires { length input.now ≤ 1048576 }
    ensures ok { IfOk result (λ bytes. IsMade (text_refusal input.now) (IsMapOfText input.now bytes)) }
    ensures refused { IfErr result (λ status. status ≢ Status.Memory → text_refusal input.now ≡ Some status) }
{
    match label_map(alloc, input) {
        Ok(map) => Ok(map),
        Err(AsmFault::Place(place)) => Err(Status::Asm(place)),
        Err(AsmFault::Memory) => Err(Status::Memory),
    }
}

/// The image of an ELF executable as a file, or the status of the executable's first fault.
#[tactic(auto, unfolding(crate::specs::Commands::converted_image, crate::specs::Commands::elf_refusal))]
pub fn converted_file(alloc: Global, input: &[u8]) -> Result<Text, Status>
    requires { length input.now ≤ 67108864 }
    ensures ok { IfOk result (λ bytes. IsMade (elf_refusal input.now) (bytes ≡ converted_image input.now)) }
    ensures refused { IfErr result (λ status. status ≢ Status.Memory → elf_refusal input.now ≡ Some status) }
{
    let image = match from_elf(alloc, input) {
        Ok(image) => image,
        Err(ElfFault::Memory) => return Err(Status::Memory),
        Err(fault) => return Err(Status::Elf(fault)),
    };
    match write(alloc, &image) {
        Ok(bytes) => Ok(Text::new(bytes.into_vec())),
        Err(_) => Err(Status::Memory),
    }
}
