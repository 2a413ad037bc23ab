//! The memory map: regions, segments, bus accesses, and the memory that they act on.
//!
//! The regions and their addresses are those of the ESP32 Technical Reference Manual, chapter
//! 'System and Memory', cut down to the ones that the machine has.
#![tactic(auto)]

mod access;
mod bytes;
mod code;
mod constants;
mod contents;
mod fetch;
pub mod fetch_laws;
mod history;
mod laws;
mod lookup;
mod mapping;
mod placing;
mod region_kinds;
pub mod regions;
mod segment;

pub use access::{Access, Entry, Kind};
pub use bytes::{Bytes, Text};
pub use code::{code_byte, code_number, code_three};
pub use constants::{Constants, Index};
pub use contents::MemoryContents;
pub use fetch::{fetched_length, is_inside, length_of, unfetchable};
pub use history::History;
pub use laws::{
    access_keeps_sizes, access_sends_at_most_one_byte, byte_of_other_address, byte_put_keeps_sizes,
    byte_that_was_put, calls_of_longer_history, legal_test_is_law, memory_of_longer_history,
    one_entry_more_is_legal, one_entry_more_is_of_cores, opening_has_sizes,
    overlap_is_a_shared_byte, ranges_as_regions, regions_as_ranges, stores_keep_other_bytes,
};
pub use lookup::region;
pub use mapping::{is_in_memory, mapped};
pub use placing::{are_placed, is_placed, is_segment_loaded, share_bytes};
pub use region_kinds::{UART_STATUS, UART_TRANSMIT, can_execute_at, is_constant_at};
pub use segment::{Segment, Segments};
