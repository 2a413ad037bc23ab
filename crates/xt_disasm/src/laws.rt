//! Laws of the texts of instructions. Each is the contract of a function that does nothing.
#![tactic(auto)]

ghost use Rattle.xt_isa.specs.declared.Insn.{Insn};
ghost use Rattle.xt_disasm.specs.Reading.{IsReadBack};

/// The text of an instruction, read back at the same address, is that instruction: its mnemonic and its operands are found
/// by their names, each operand as the kind that the mnemonic asks for there, and make it. The instruction is in range, and
/// stands at least 2^20 bytes from both ends of the address space, where no address of a target wraps.
pub fn texts_are_read_back()
    ensures { (i : Insn) → IsReadBack i }
{}
