use xt_map::Access;

/// What a turn that begins does.
#[derive(Clone, Copy)]
pub enum Begin {
    /// Nothing: the core has stopped, or has no turn left.
    Ended,
    /// The turn is done.
    Local,
    /// It makes this access, and waits for the reply.
    Bus(Access),
}
