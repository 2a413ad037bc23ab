ghost use Rattle.std.specs.Prelude.{◌≡◌, ℕ, ℤ, ◌<◌, true};
ghost use Rattle.xt_isa.specs.Ranges.{natural_within, system_in_range};
ghost use Rattle.xt_isa.specs.declared.system.System.TheVariants as system;
ghost use Rattle.xt_special.specs.Shape.{IsPs};
ghost use Rattle.xt_rows.specs.Outcomes.{system_outcome};

use crate::cause;
use crate::effects::{goes, puts, window_register, write_to};
use crate::numbers::natural;
use crate::outcome::{Effect, Flow, Outcome, WindowStep};
use crate::shift::within;
use xt_isa::system::{
    ExceptionReturnName, LevelName, SpecialName, SyncName, System, TrapName, UserName, WaitName,
};
use xt_special::{Ps, ps_written, value_read, written_by};

#[tactic(auto, unfolding(crate::specs::Outcomes::system_outcome))]
#[inline(always)]
fn synchronizes(name: SyncName, e: Effect) -> Outcome
    ensures { (x u v : ℕ) → result ≡ system_outcome (system.Sync name) x u v e }
{
    match name {
        SyncName::Ill => Outcome::Raises(cause::ILLEGAL_INSTRUCTION, None),
        SyncName::Isync | SyncName::Rsync | SyncName::Esync | SyncName::Dsync => Outcome::Does(e),
    }
}

#[tactic(auto, unfolding(crate::specs::Outcomes::system_outcome))]
#[inline(always)]
fn waits_for(name: WaitName, e: Effect) -> Outcome
    ensures { (x u v : ℕ) → result ≡ system_outcome (system.Wait name) x u v e }
{
    match name {
        WaitName::Excw | WaitName::Memw | WaitName::Extw | WaitName::Nop => Outcome::Does(e),
    }
}

#[tactic(auto, unfolding(crate::specs::Outcomes::system_outcome))]
#[inline(always)]
fn returns_from_exception(name: ExceptionReturnName, u: u32, e: Effect) -> Outcome
    ensures { (x v : ℕ) → result ≡ system_outcome (system.ExceptionReturn name) x u v e }
{
    match name {
        ExceptionReturnName::Rfe => Outcome::Does(Effect {
            ps: Ps {
                excm: false,
                ..e.ps
            },
            flow: Flow::Goes(u),
            ..e
        }),
        ExceptionReturnName::Rfde => goes(u, e),
        ExceptionReturnName::Rfwo => Outcome::Windowed(WindowStep::EndsOverflow(u)),
        ExceptionReturnName::Rfwu => Outcome::Windowed(WindowStep::EndsUnderflow(u)),
    }
}

#[tactic(auto, unfolding(crate::specs::Outcomes::system_outcome))]
#[inline(always)]
fn calls_outside(name: TrapName) -> Outcome
    ensures { (level number : ℤ) (x u v : ℕ) (e : Effect)
        → result ≡ system_outcome (system.Trap name level number) x u v e }
{
    match name {
        TrapName::Break => Outcome::Stops,
        TrapName::Syscall => Outcome::Raises(cause::SYSTEM_CALL, None),
    }
}

#[tactic(auto, unfolding(crate::specs::Outcomes::system_outcome))]
#[inline(always)]
fn sets_level(name: LevelName, t: u8, level: i32, e: Effect) -> Outcome
    requires level { natural_within 0 15 level ≡ true }
    requires ps { IsPs e.ps }
    ensures { (x u v : ℕ) → result ≡ system_outcome (system.Level name t level) x u v e }
{
    let ps = Ps {
        intlevel: within(level, 0, 15),
        ..e.ps
    };
    match name {
        LevelName::Rsil => Outcome::Does(Effect {
            write: write_to(t, e.ps.word()),
            ps,
            ..e
        }),
        LevelName::Waiti => Outcome::Does(Effect {
            ps,
            waits: true,
            ..e
        }),
    }
}

#[tactic(auto, unfolding(crate::specs::Outcomes::system_outcome))]
#[inline(always)]
fn reads_special(t: u8, n: u8, u: u32, e: Effect) -> Outcome
    requires { IsPs e.ps }
    ensures { (x v : ℕ) → result ≡ system_outcome (system.Special SpecialName.Rsr t n) x u v e }
{
    match window_register(n) {
        Some(register) => Outcome::Windowed(WindowStep::Reads(register, t)),
        None => puts(t, value_read(n, u, e.ps), e),
    }
}

#[tactic(auto, unfolding(crate::specs::Outcomes::system_outcome))]
#[inline(always)]
fn writes_special(n: u8, x: u32, v: u32, e: Effect) -> Outcome
    ensures { (t u : ℕ) → result ≡ system_outcome (system.Special SpecialName.Wsr t n) x u v e }
{
    match window_register(n) {
        Some(register) => Outcome::Windowed(WindowStep::Sets(register, x)),
        None => Outcome::Does(Effect {
            sets: written_by(n, x, v),
            ps: ps_written(n, x, e.ps),
            ..e
        }),
    }
}

#[tactic(auto, unfolding(crate::specs::Outcomes::system_outcome))]
#[inline(always)]
fn exchanges_special(t: u8, n: u8, x: u32, u: u32, v: u32, e: Effect) -> Outcome
    requires { IsPs e.ps }
    ensures { result ≡ system_outcome (system.Special SpecialName.Xsr t n) x u v e }
{
    match window_register(n) {
        Some(register) => Outcome::Windowed(WindowStep::Exchanges(register, t, x)),
        None => Outcome::Does(Effect {
            write: write_to(t, value_read(n, u, e.ps)),
            sets: written_by(n, x, v),
            ps: ps_written(n, x, e.ps),
            ..e
        }),
    }
}

#[inline(always)]
fn special_access(name: SpecialName, t: u8, n: u8, x: u32, u: u32, v: u32, e: Effect) -> Outcome
    requires { IsPs e.ps }
    ensures { result ≡ system_outcome (system.Special name t n) x u v e }
{
    match name {
        SpecialName::Rsr => reads_special(t, n, u, e),
        SpecialName::Wsr => writes_special(n, x, v, e),
        SpecialName::Xsr => exchanges_special(t, n, x, u, v, e),
    }
}

#[tactic(auto, unfolding(crate::specs::Outcomes::system_outcome))]
#[inline(always)]
fn user_register(name: UserName, t: u8, x: u32, e: Effect) -> Outcome
    ensures { (n u v : ℕ) → result ≡ system_outcome (system.User name t n) x u v e }
{
    match name {
        UserName::Rur => puts(t, e.threadptr, e),
        UserName::Wur => Outcome::Does(Effect { threadptr: x, ..e }),
    }
}

/// What a system instruction does, where AR[t] is `x`, and the special registers that it reads are
/// `u` and `v`.
#[tactic(auto, unfolding(crate::specs::Outcomes::system_outcome))]
#[inline(always)]
pub fn system_outcome<U>(i: System, x: u32, u: u32, v: u32, e: Effect) -> Outcome
    requires range { system_in_range i ≡ true }
    requires ps { IsPs e.ps }
    ensures { result ≡ system_outcome i x u v e }
{
    match i {
        System::Sync(name) => synchronizes(name, e),
        System::Wait(name) => waits_for(name, e),
        System::ExceptionReturn(name) => returns_from_exception(name, u, e),
        System::Rfi(_) => Outcome::Does(Effect {
            ps: Ps::of_word(v),
            flow: Flow::Goes(u),
            ..e
        }),
        System::Trap(name, _, _) => calls_outside(name),
        System::Level(name, t, level) => sets_level(name, t, level, e),
        System::Rotw(n) => Outcome::Windowed(WindowStep::Rotates(n)),
        System::Special(name, t, n) => special_access(name, t, n, x, u, v, e),
        System::User(name, t, _) => user_register(name, t, x, e),
    }
}
