//! The same in plain words of memory, from what a relation between windows and frames knows.
#![tactic(auto)]

ghost use Rattle.std.specs.Prelude.{◌≡◌, ◌+◌, ◌*◌, ◌%◌, ◌≤◌, ◌<◌, ℕ, List, slice_index};
ghost use Rattle.xt_handlers.specs.Handling.{handling_verdict};
ghost use Rattle.xt_handlers.specs.Spelled.{lines_of};
ghost use Rattle.xt_handlers.specs.declared.stretch.Side.TheVariants.{Overflow, Underflow};
ghost use Rattle.xt_handlers.specs.declared.stretch.HandlerVerdict.TheVariants.{Yes};
ghost use Rattle.xt_handlers.specs.Running.{machine_after_lines};
ghost use Rattle.xt_handlers.specs.Machines.{Machine, visible};
ghost use Rattle.xt_handlers.specs.HandlerInvariants.{KeepsRegisters, Reaches};
ghost use Rattle.xt_handlers.specs.Joined.{Finds, IsShaped, LoadsWords, StoresWords, own_link, saved_link, saved_sp};

/// What a handler that passes the check moves, in plain words of memory.
pub fn handlers_move_words()
    // An overflow handler that passes the check, run where the stack pointers are a chain.
    ensures overflow { (lo hi n : ℕ) (bytes : List ℕ) (start : Machine) → IsShaped lo hi n start → ((i : ℕ) → slice_index bytes i < 256)
        → handling_verdict Overflow n (lines_of bytes) ≡ Yes
        → Finds lo hi n (visible start (4 * n + 1)) (visible start 1) (own_link start)
        → Reaches (machine_after_lines (lines_of bytes) start) (λ end. KeepsRegisters n start end × StoresWords n start end) }
    // An underflow handler that passes the check, run where the stack pointers are a chain.
    ensures underflow { (lo hi n : ℕ) (bytes : List ℕ) (start : Machine) → IsShaped lo hi n start → ((i : ℕ) → slice_index bytes i < 256)
        → handling_verdict Underflow n (lines_of bytes) ≡ Yes
        → Finds lo hi n (visible start (4 * n + 1)) (saved_sp start n) (saved_link start n)
        → Reaches (machine_after_lines (lines_of bytes) start) (λ end. KeepsRegisters n start end × LoadsWords n start end) }
    // A handler changes no register but the frame's own, by window numbers that are never reduced.
    ensures above { (n at : ℕ) (start end : Machine) (p : ℕ) → KeepsRegisters n start end → start.base ≡ at % 16 → 4 * (at + n) ≤ p → p < 4 * at + 64
        → slice_index end.ring (p % 64) ≡ slice_index start.ring (p % 64) }
{}
