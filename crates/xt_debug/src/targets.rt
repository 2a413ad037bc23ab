//! What commands look for.
use xt_command_line::Addresses;

/// A core, 0 or 1, and addresses of instructions.
#[derive(Drop)]
pub struct Breakpoint {
    pub core: u8,
    pub addresses: Addresses,
}

/// What a command looks for at the positions of a run.
#[derive(Drop)]
pub enum Target {
    /// The next step is this core's, and its program counter is one of these addresses.
    Execution(Breakpoint),
    /// The next step stores into the word at this address.
    Store(u32),
}
