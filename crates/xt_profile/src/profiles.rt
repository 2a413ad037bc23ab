//! The call profile of a run.
ghost use Rattle.std.specs.Prelude.{◌≡◌};

use std::marker::Model;

/// The last functions that a core is in, by their addresses, the oldest first. Contracts see the
/// list.
#[derive(Drop)]
pub struct Key {
    items: Vec<u32>,
}

impl Model for Key {
    ghost use Rattle.std.specs.Prelude.{ℕ, List};

    ghost Value = { List ℕ };

    ghost view = { λ k. k.items.items };
}

impl Key {
    /// These addresses, without a copy.
    pub fn new(items: Vec<u32>) -> Key
        ensures { result ≡ items.items }
    {
        Key { items }
    }

    /// The addresses.
    pub fn as_slice(&self) -> &[u32]
        ensures { result.now ≡ self.now }
    {
        &self.items
    }
}

/// How many turns have a key.
#[derive(Drop)]
pub struct ProfileLine {
    /// The key.
    pub key: Key,
    /// How many, one at least.
    pub count: u32,
}

/// Each key that a turn has, once, in order. Contracts see the list.
#[derive(Drop)]
pub struct Lines {
    items: Vec<ProfileLine>,
}

impl Model for Lines {
    ghost use Rattle.std.specs.Prelude.{List};
    ghost use Rattle.xt_profile.specs.declared.profiles.ProfileLine.{ProfileLine};

    ghost Value = { List ProfileLine };

    ghost view = { λ l. l.items.items };
}

impl Lines {
    /// These lines, without a copy.
    pub fn new(items: Vec<ProfileLine>) -> Lines
        ensures { result ≡ items.items }
    {
        Lines { items }
    }

    /// The lines.
    pub fn as_slice(&self) -> &[ProfileLine]
        ensures { result.now ≡ self.now }
    {
        &self.items
    }
}

/// The turns of one core.
#[derive(Drop)]
pub struct CoreProfile {
    /// The judged steps before the first breach, by their keys.
    pub lines: Lines,
    /// How many handler steps there are before it.
    pub handlers: u32,
    /// How many steps there are from it on.
    pub after: u32,
}

/// Some turns of one core.
#[derive(Drop)]
pub struct CoreTurns {
    /// Those that are no handler steps, by their keys.
    pub lines: Lines,
    /// How many handler steps there are.
    pub handlers: u32,
}

/// The call profile of a run.
pub enum Profile {
    /// A window handler does not pass the check, so nothing is known of frames.
    Unchecked,
    /// Core 0 and core 1.
    Cores(CoreProfile, CoreProfile),
}

// A `drop` of its own is one call at each place where a value is dropped.
impl Drop for Profile {
    fn drop(self) {
        match self {
            Profile::Unchecked | Profile::Cores(_, _) => {}
        }
    }
}

/// A call profile, with the turns of both cores from the first breach on. If nothing is known of
/// frames, these are all turns.
pub struct WholeProfile {
    /// The profile.
    pub profile: Profile,
    /// Those turns of core 0.
    pub after0: CoreTurns,
    /// Those turns of core 1.
    pub after1: CoreTurns,
}

// A `drop` of its own is one call at each place where a value is dropped.
impl Drop for WholeProfile {
    fn drop(self) {
        let WholeProfile {
            profile: _,
            after0: _,
            after1: _,
        } = self;
    }
}
