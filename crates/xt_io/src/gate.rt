//! What is called before an access to the bus.

/// What two cores pass before their accesses. A gate has no answer, and may wait.
pub trait Gate: Sync {
    /// Is called before the `k`-th access of `core`, from 0, is put on the bus.
    fn before(&self, core: u8, k: u64);
}

/// A gate that does nothing, and so holds nobody up.
#[derive(Clone, Copy, Default)]
pub struct OpenGate;

impl Gate for OpenGate {
    fn before(&self, _core: u8, _k: u64) {}
}
