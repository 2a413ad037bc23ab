//! What a core of the machine of uses tells of a record.
#![tactic(auto)]

use std::alloc::AllocError;
use xt_frames::Breach;

/// What a judged step leaves beside its core.
#[derive(Clone, Copy)]
pub struct Used {
    /// The mask of the value that it stores.
    pub stored: u32,
    /// Whether it has written a register or stored bytes of which a bit is not known.
    pub carries: bool,
}

/// Why a record is not taken.
#[derive(Clone, Copy)]
pub enum JudgeError {
    /// It shows a breach.
    Breaks(Breach),
    /// There is too little memory for one frame more.
    NoMemory(AllocError),
}
