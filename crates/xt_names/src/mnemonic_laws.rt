//! Laws of the words of instructions. Each is the contract of a function that does nothing.
#![tactic(auto)]

ghost use Rattle.xt_isa.specs.declared.Insn.{Insn};
ghost use Rattle.xt_names.specs.InsnBytes.{HasOneList};
ghost use Rattle.xt_names.specs.Encodings.{HasOneEncoding};

/// No two words spell one instruction. Of a 16-bit word the third byte is taken as 0.
pub fn instructions_have_one_encoding()
    ensures { (i : Insn) → HasOneEncoding i }
{}

/// No two lists of bytes are one instruction: a decoder answers it, with the length of the list, at one list alone.
pub fn instructions_have_one_list_of_bytes()
    ensures { (i : Insn) → HasOneList i }
{}
