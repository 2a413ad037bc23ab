//! The same, instruction by instruction, beside another core's accesses.
#![tactic(auto)]

ghost use Rattle.std.specs.Prelude.{◌≡◌, ◌≢◌, ◌<◌, ◌*◌, ℕ, Bool, List, length, slice_index, true};
ghost use Rattle.xt_handlers.specs.Symbols.{Effect, Word, opening};
ghost use Rattle.xt_handlers.specs.Needs.{has_effect, is_among, named_words, save_word};
ghost use Rattle.xt_handlers.specs.Machines.{address_of, Machine, place};
ghost use Rattle.xt_handlers.specs.declared.stretch.Side.{Side};
ghost use Rattle.xt_handlers.specs.declared.stretch.Side.TheVariants.{Overflow, Underflow};
ghost use Rattle.xt_handlers.specs.Frames.{HasFrames, HasRoom, IsOwn, IsOwnByte};
ghost use Rattle.xt_handlers.specs.HandlerInvariants.{Done, Handles, KeepsRegisters, Spares, Stands, Turns, opening_flags};

/// What a chain of stack pointers gives.
pub fn frames_give_room()
    // A chain of stack pointers in DRAM gives room.
    ensures room { (side : Side) (n : ℕ) (start : Machine) → HasFrames side n start → HasRoom side n start }
    // Each word that is loaded or stored lies in the frame's areas.
    ensures named { (side : Side) (n : ℕ) (start : Machine) (w : Word) → HasFrames side n start → is_among w (named_words side n) ≡ true → IsOwn side n start (address_of start w) }
    ensures saves { (side : Side) (n k : ℕ) (start : Machine) → HasFrames side n start → k < 4 * n → IsOwn side n start (address_of start (save_word side n k)) }
    // There is a chain of stack pointers.
    ensures exists { (start : Machine) × HasFrames Overflow 3 start × HasFrames Underflow 3 start }
{}

/// The steps of a handler, from the first to the last.
pub fn handler_turns()
    // Before the first instruction.
    ensures begins { (side : Side) (n : ℕ) (start : Machine) → HasRoom side n start → Stands side n start opening (opening_flags side n) start }
    // One instruction of a vector that handles.
    ensures turns { (side : Side) (n : ℕ) (start : Machine) (bytes : List ℕ) (o : ℕ) (e : Effect) (flags : List Bool) (now : Machine)
        → HasRoom side n start → length bytes ≡ 64 → ((i : ℕ) → slice_index bytes i < 256)
        → Stands side n start e flags now → Handles side n bytes o e → Turns side n start bytes o e flags now }
    // At the ending the frame has moved.
    ensures closes { (side : Side) (n : ℕ) (start : Machine) (e : Effect) (flags : List Bool) (now : Machine)
        → n < 4 → Stands side n start e flags now → has_effect side n e ≡ true → Done side n start now }
    // A handler changes no register but the frame's own.
    ensures others { (n : ℕ) (start end : Machine) (p : ℕ) → KeepsRegisters n start end → p < 64
        → ((i : ℕ) → i < 4 * n → p ≢ place start.base i) → slice_index end.ring p ≡ slice_index start.ring p }
{}

/// What another core may do between two instructions.
pub fn another_core_writes()
    // Between two instructions another core may change all words but the handler's own.
    ensures spared { (side : Side) (n : ℕ) (start : Machine) (e : Effect) (flags : List Bool) (now : Machine) (new : ℕ → ℕ)
        → Stands side n start e flags now → Spares side n start now.bytes new
        → Stands side n start e flags (record { ring = now.ring; base = now.base; bytes = new }) }
    // A write to other bytes is such a change.
    ensures elsewhere { (side : Side) (n : ℕ) (start : Machine) (old new : ℕ → ℕ) → HasFrames side n start
        → ((a : ℕ) → IsOwnByte side n start a → new a ≡ old a) → Spares side n start old new }
{}
