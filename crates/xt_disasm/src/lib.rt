//! Instructions and images as text: the mnemonic and the operands of an instruction, and the listing of an image.
#![tactic(auto)]

pub mod laws;
mod lines;
mod operand;
mod text;

pub use lines::{front, is_code, listing, push_bytes, push_line, push_segment_line};
pub use text::{call_address, insn_text, jump_address, literal_address, push_insn};
