//! Laws of the names. Each is the contract of a function that does nothing.

ghost use Rattle.std.specs.Prelude.{◌≡◌, map};
ghost use Rattle.xt_isa.specs.declared.Insn.{Insn};
ghost use Rattle.xt_isa.specs.Numbers.{exchanged_numbers};
ghost use Rattle.xt_names.specs.declared.forms.Access.{Access};
ghost use Rattle.xt_names.specs.declared.mnemonic.Mnemonic.{Mnemonic};
ghost use Rattle.xt_names.specs.NameLaws.{EndsInN, IsFound, IsItsParts};
ghost use Rattle.xt_names.specs.Specials.{AreNamed, exchanged_names};

/// Each mnemonic is found by its name, so no two have one name. The names of those of 16 bits, and no others, end in `.n`.
pub fn mnemonics_have_names_of_their_own()
    ensures found { (m : Mnemonic) → IsFound m }
    ensures narrow { (m : Mnemonic) → EndsInN m }
{}

/// An instruction in range is that of its mnemonic and its operands.
pub fn instructions_are_their_parts()
    ensures { (i : Insn) → IsItsParts i }
{}

/// The special register that an access reaches is found by its name. Those that RSR, WSR and XSR all reach are named in the
/// order of their numbers.
pub fn special_registers_are_named()
    ensures named { (access : Access) → AreNamed access }
    ensures listed { map (λ row. row.1) exchanged_names ≡ exchanged_numbers }
{}
