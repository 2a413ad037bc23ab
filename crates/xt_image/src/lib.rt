//! Application images as files, in esptool's image format: read, checked and written.
#![tactic(auto)]

mod bytes;
mod fault;
mod image;
mod laws;
mod made;
mod reading;
mod rules;
mod writing;

pub use bytes::{half, word};
pub use fault::ImageFault;
pub use image::{Head, Image};
pub use laws::{
    length_of_written, loaded_image_is_short, memory_of_image, round_trip, well_formed_by_rules,
    well_formed_is_placed,
};
pub use made::made_head;
pub use reading::read;
pub use writing::{write, written_length};
