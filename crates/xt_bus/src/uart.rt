//! The sending side of UART0.
//!
//! The ESP32 Technical Reference Manual's UART is cut down to the bytes that it sends, in order. A byte is sent at once, so
//! the count of bytes that wait is always 0.

ghost use Rattle.std.specs.Prelude.{◌≡◌, ◌+◌, ◌-◌, ◌<◌, ◌≤◌, length, IfOk};
ghost use Rattle.xt_bus.specs.State.{silent_uart, past, uart_state};

use std::alloc::{AllocError, Global};
use std::marker::Model;

/// The bytes that were sent, and room for more. Contracts see the list of sent bytes, and how many more may be sent.
#[derive(Drop)]
pub struct Uart {
    bytes: Vec<u8>,
    spare: usize,
}

impl Model for Uart {
    ghost use Rattle.xt_bus.specs.State.{UartState};

    ghost Value = { UartState };

    ghost use Rattle.std.specs.Prelude.{◌+◌, ◌≤◌, vec_len, vec_capacity};
    ghost use Rattle.xt_bus.specs.State.{uart_state};

    ghost view = { λ u. uart_state u.bytes.items u.spare };

    ghost invariant = { λ u. vec_len u.bytes + u.spare ≤ vec_capacity u.bytes };
}

impl Uart {
    /// A UART that has sent nothing and may send `room` bytes.
    pub fn make(alloc: Global, room: usize) -> Result<Uart, AllocError>
        ensures { IfOk result (λ u. u ≡ silent_uart room) }
    {
        Ok(Uart {
            bytes: Vec::with_capacity(alloc, room)?,
            spare: room,
        })
    }

    /// Sends a byte. Takes no memory.
    pub fn send(&mut self, b: u8)
        requires { 0 < self.old.spare }
        ensures { self.new ≡ past self.old b }
    {
        self.bytes.push_reserved(b);
        self.spare -= 1;
    }

    /// The bytes that were sent, the first one first.
    pub fn sent(&self) -> &[u8]
        ensures { result.now ≡ self.now.sent }
    {
        self.bytes.as_slice()
    }

    /// Makes what was sent that of another UART, where there is room for it, and the rest of the room spare.
    /// Takes no memory.
    pub fn copy_from(&mut self, other: &Uart)
        requires { length other.now.sent ≤ length self.old.sent + self.old.spare }
        ensures { self.new ≡ uart_state other.now.sent (length self.old.sent + self.old.spare - length other.now.sent) }
    {
        let room = self.bytes.len() + self.spare;
        self.bytes.clear();
        match self.bytes.extend_from_slice(other.sent()) {
            Ok(()) => (),
            Err(_) => unreachable!(),
        }
        self.spare = room - other.sent().len();
    }
}
