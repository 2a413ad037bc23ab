//! What is searched.
ghost use Rattle.std.specs.Prelude.{◌≡◌, ℕ, Bool, ◌<◌, true, false, IfOk, IfSome, IfNone};

use std::alloc::AllocError;

/// Two cores that make turns, each of which leads from one world to one other.
pub trait Machine {
    /// A world: what both cores and what they share hold between two turns.
    type World: Drop;

    /// What a turn needs beside the world.
    type Desk: Drop;

    /// A turn of a core leads from the one world to the other.
    ghost Leads: { Self → ℕ → Self.World → Self.World → Type 0 };

    /// Whether both cores have ended.
    ghost ends: { Self → Self.World → Bool };

    /// The search has to end before this core makes its turn in this world.
    ghost bars: { Self → ℕ → Self.World → Bool };

    /// Two worlds are the same.
    ghost Same: { Self → Self.World → Self.World → Type 0 };

    /// A number is the digest of a world.
    ghost IsMark: { Self → Self.World → ℕ → Type 0 };

    /// Makes a turn of a core; None: the search has to end before it. The only error is running out of
    /// memory.
    fn turned(
        &self,
        desk: &mut Self::Desk,
        world: &Self::World,
        core: u8,
    ) -> Result<Option<Self::World>, AllocError>
        requires { core < 2 }
        ensures leads { IfOk result (λ r. IfSome r (λ w. Leads self.now core world.now w)) }
        ensures barred { IfOk result (λ r. IfNone r (bars self.now core world.now ≡ true)) };

    /// Whether two worlds are the same: then a turn that leads to the second one leads to the first one
    /// too.
    fn is_same(&self, a: &Self::World, b: &Self::World) -> bool
        ensures leads { result ≡ true → (c : ℕ) (w : Self.World) → Leads self.now c w b.now → Leads self.now c w a.now }
        ensures differ { result ≡ false → Same self.now a.now b.now → ⊥ };

    /// Whether both cores have ended.
    fn is_end(&self, world: &Self::World) -> bool
        ensures { result ≡ ends self.now world.now };

    /// The digest of a world.
    fn digest(&self, world: &Self::World) -> u64
        ensures { IsMark self.now world.now result };

    /// Worlds that are the same have one digest.
    ghost marks_agree: { (s : Self) (a b : Self.World) (m n : ℕ) → Same s a b → IsMark s a m → IsMark s b n → m ≡ n };
}
