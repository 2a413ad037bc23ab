use xt_bus::Memory;
use xt_map::{Bytes, Constants};

/// What both cores of a run work on: the constants and memory; and the checkpoints so far.
#[derive(Drop)]
pub(crate) struct Setting<'a> {
    pub code: Constants<'a>,
    pub memory: Memory,
    pub points: Vec<Bytes>,
}
