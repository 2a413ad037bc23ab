//! Operands that no line of a text hands on: of another form, or a register that the access does not reach.

use std::test::Fail;
use xt_names::Argument::{Register, Special, Value};
use xt_names::{Argument, OperandFault, instruction, mnemonic_of};

/// A mnemonic, and its operands.
type Fault = (&'static str, &'static [Argument]);

static FAULTS: [Fault; 7] = [
    ("and", &[Register(2), Register(3)]),
    ("ret", &[Register(0)]),
    ("jx", &[Register(16)]),
    ("movi", &[Register(2), Value(-9223372036854775808)]),
    ("rsr", &[Register(2), Special(227)]),
    ("wsr", &[Register(2), Special(235)]),
    ("rur", &[Register(2), Special(232)]),
];

#[test]
fn operands_out_of_range(rt: HostRuntime) -> Result<(), Fail> {
    for (name, arguments) in &FAULTS {
        let mnemonic = mnemonic_of(name.as_bytes()).ok_or("a mnemonic")?;
        let fault = instruction(mnemonic, arguments, 0x400D0002).err();
        assert!(rt; fault == Some(OperandFault::Range), "{name}");
    }
    Ok(())
}
