//! Laws of assembly. Each is the contract of a function that does nothing.
ghost use Rattle.xt_asm.specs.AssemblyLaws.{OpenPoolsServe, TextHasOneImage, TextImageIsWellFormed};

/// The image of a text without a fault is well formed, so that a file can be written of it and
/// read again. It has 1 to 16 segments of whole words, each in one region other than UART0, and
/// no two share a byte; its entry is in an executable region; its file is at most 8,388,608 bytes
/// long.
pub fn image_is_well_formed()
    ensures { TextImageIsWellFormed }
{}

/// A text has one image: any two images that are its own are equal, in the head, the entry, the
/// digest and each byte of each segment.
pub fn text_has_one_image()
    ensures { TextHasOneImage }
{}

/// Where a pool is open, it has the word of each use of it. So of the two ways in which a use can be out of reach, that it has
/// no word is that no `.literal_position` stands before it in its segment.
pub fn open_pools_serve()
    ensures { OpenPoolsServe }
{}
