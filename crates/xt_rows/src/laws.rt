//! Laws of the rows of all instructions. Each is the contract of a function that does nothing.
#![tactic(auto)]

ghost use Rattle.xt_rows.specs.Kinds.{OutcomesFit, ReadsAreNamed};
ghost use Rattle.xt_rows.specs.RowLaws.{ModesAreKept, OutcomesAreProper, ReadsOnlyItsRegisters, RegistersExist};

/// A row looks at nothing but the registers that it reads, PC, PS and THREADPTR: where these are
/// equal, its outcomes are.
pub fn rows_read_only_their_registers()
    ensures { ReadsOnlyItsRegisters }
{}

/// Given words, a row writes words, to registers that there are; what it asks for is an access that
/// the bus serves; and what it puts into a special register or into PS is what these can hold.
pub fn outcomes_are_proper()
    ensures { OutcomesAreProper }
{}

/// Where its operands are in their ranges, the registers that an instruction reads and names are
/// below 16.
pub fn registers_exist()
    ensures { RegistersExist }
{}

/// What a row writes or awaits is at most the highest register that its instruction names; an access
/// that it asks for is one that the bus serves; and ENTRY, RETW, MOVSP, the five instructions of
/// window handlers and the accesses of WINDOWBASE and WINDOWSTART alone move windows.
pub fn outcomes_fit_their_instructions()
    ensures { OutcomesFit }
{}

/// What an instruction reads is at most the highest register that it names.
pub fn reads_are_named()
    ensures { ReadsAreNamed }
{}

/// No instruction but WSR and XSR of PS, RSIL, WAITI and the returns changes INTLEVEL or EXCM, or
/// waits.
pub fn modes_are_kept()
    ensures { ModesAreKept }
{}
