use std::collections::LinkedList;

/// What the memory regions hold, and the bytes that UART0 has sent, as contracts speak of it.
///
/// No value of it is made at run time: it is the type over which the opening memory, the answers
/// of the bus and legal histories are defined.
pub struct MemoryContents {
    /// The bytes of the region RTC fast memory, data bus, from its first address on.
    pub rtc_fast_data: LinkedList<u8>,
    /// The bytes of the internal data memory, from its first address on.
    pub dram: LinkedList<u8>,
    /// The bytes of the RTC slow memory, from its first address on.
    pub rtc_slow: LinkedList<u8>,
    /// The bytes that were stored to the transmit address of UART0, in order.
    pub sent: LinkedList<u8>,
}
