//! Laws of the meaning of words. Each is the contract of a function that does nothing.
ghost use Rattle.xt_command_line.specs.Meaning.{NeedsNoMemory};
ghost use Rattle.xt_command_line.specs.Options.{AcceptsValid, OptionsNeedNoMemory};

/// The meaning of words is never that memory ran out, so that this answer says nothing of the words.
pub fn meaning_needs_no_memory()
    ensures { NeedsNoMemory }
{}

/// The same of the options of `run` and `record`.
pub fn options_need_no_memory()
    ensures { OptionsNeedNoMemory }
{}

/// Options that are valid for a run, whatever the image's entry, and whose order asks for at most 8,000,000 turns break
/// no rule of usage. That options which break none
/// are valid stands in the contract of `within_limits`.
pub fn valid_options_are_accepted()
    ensures { AcceptsValid }
{}
