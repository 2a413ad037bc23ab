//! Laws of images. Each is the contract of a function that does nothing.
ghost use Rattle.std.specs.Prelude.{◌≡◌, ℕ, ◌≤◌, ◌+◌, ◌↔◌, [], All, length, if◌then◌else◌, true, None};
ghost use Rattle.xt_map.specs.Memory.{byte_at, is_loaded, loaded_byte, opening_memory};
ghost use Rattle.xt_map.specs.Placing.{IsPlaced};
ghost use Rattle.xt_map.specs.Regions.{is_memory, region_of};
ghost use Rattle.xt_image.specs.declared.image.Image.{Image};
ghost use Rattle.xt_image.specs.Layout.{checksum_place};
ghost use Rattle.xt_image.specs.Rules.{image_fault};
ghost use Rattle.xt_image.specs.Format.{image_of};
ghost use Rattle.xt_image.specs.ImageParts.{FitsImage, IsWellFormed, MeetsRules, image_bytes};

/// What is written of a well-formed image has no fault, and holds the same image.
pub fn round_trip()
    ensures { (i : Image) → IsWellFormed i → (image_fault (image_bytes i) ≡ None) × (image_of (image_bytes i) ≡ i) }
{}

/// The segments of a well-formed image lie in one region each, and no two share a byte.
pub fn well_formed_is_placed()
    ensures { (i : Image) → IsWellFormed i → IsPlaced i.segments }
{}

/// An image is well formed exactly where its numbers are in the ranges of their types, it meets
/// the rules by itself, and its file is at most 8,388,608 bytes long.
pub fn well_formed_by_rules()
    ensures { (i : Image) → IsWellFormed i ↔ (FitsImage i × (MeetsRules i × (length (image_bytes i) ≤ 8388608))) }
{}

/// How long the file of an image is that is written.
pub fn length_of_written()
    ensures { (i : Image) → FitsImage i → length (image_bytes i) ≡ (checksum_place i.segments + 1) + (if i.digest then 32 else 0) }
{}

/// The file of an image whose segments are all loaded, whose numbers are in the ranges of their
/// types and that meets the rules by itself is at most 8,388,608 bytes long: the regions hold no
/// more.
pub fn loaded_image_is_short()
    ensures { (i : Image) → FitsImage i → MeetsRules i → All (λ s. is_loaded s ≡ true) i.segments → length (image_bytes i) ≤ 8388608 }
{}

/// The opening memory of a well-formed image, without the words that the stacks begin with, holds
/// at each address of a memory region the byte that a loaded segment has there, else 0.
pub fn memory_of_image()
    ensures { (i : Image) (a : ℕ) → IsWellFormed i → is_memory (region_of a) ≡ true → byte_at (opening_memory i.segments []) a ≡ loaded_byte i.segments a }
{}
