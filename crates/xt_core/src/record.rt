/// What a record keeps of the registers as the turn begins.
#[derive(Clone, Copy)]
pub struct Head {
    /// The program counter.
    pub pc: u32,
    /// CCOUNT.
    pub ccount: u32,
    /// PS.OWB.
    pub owb: u8,
    /// INTERRUPT.
    pub interrupt: u32,
}
