//! The regions of the memory map.

/// A region of the address space.
#[derive(Clone, Copy)]
pub enum Region {
    /// Flash that is read as data: 0x3F400000 to 0x3F7FFFFF. Constant.
    Drom,
    /// The two addresses of UART0: 0x3FF40000 (transmit) and 0x3FF4001C (status).
    Uart,
    /// RTC fast memory on the data bus: 0x3FF80000 to 0x3FF81FFF. Memory.
    RtcFastData,
    /// Internal data memory: 0x3FFAE000 to 0x3FFFFFFF. Memory.
    Dram,
    /// Internal instruction memory: 0x40070000 to 0x4009FFFF. Constant and executable.
    Iram,
    /// RTC fast memory on the instruction bus: 0x400C0000 to 0x400C1FFF. Constant and executable.
    RtcFastCode,
    /// Flash that is executed: 0x400D0000 to 0x403FFFFF. Constant and executable.
    Irom,
    /// RTC slow memory: 0x50000000 to 0x50001FFF. Memory.
    RtcSlow,
}
