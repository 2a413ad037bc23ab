//! The options of `run` and `record`, and the rules that they keep.
ghost use Rattle.std.specs.Prelude.{◌≡◌, IfOk, None};
ghost use Rattle.xt_command_line.specs.Options.{AreValid, first_broken, limits, within_limits, is_entry, is_stack, with_entry};

use crate::command::Refusal;
use crate::requirements::Requirements;
use crate::secrets::SecretOptions;
use crate::spans::Spans;
use crate::turn_orders::{TurnOrder, is_short};
use xt_map::can_execute_at;
use xt_trace::{Options, Stack};

/// The most turns that a core may have.
pub const MOST_TURNS: u32 = 4_000_000;

/// The options of `run` and `record`.
pub struct RunOptions {
    /// The turns of core 0 (`--turns0`).
    pub turns0: u32,
    /// The turns of core 1 (`--turns1`).
    pub turns1: u32,
    /// Where core 1 begins (`--entry1`); none stands for the image's entry.
    pub entry1: Option<u32>,
    /// VECBASE as both cores open (`--vecbase`).
    pub vecbase: u32,
    /// The stack of core 0 (`--stack0`).
    pub stack0: Stack,
    /// The stack of core 1 (`--stack1`).
    pub stack1: Stack,
    /// In which order both cores make their turns (`--seed`, `--order`).
    pub order: TurnOrder,
    /// Whether the lines of the trace are wanted (`--trace`, of `run` alone).
    pub trace: bool,
    /// Whether the text of `events` is wanted (`--events`, of `run` alone).
    pub events: bool,
    /// Whether the text of `race` is wanted (`--race`, of `run` alone).
    pub race: bool,
    /// Whether the text of `profile` is wanted (`--profile`, of `run` alone).
    pub profile: bool,
    /// Whether the text of `uses` is wanted (`--uses`, of `run` alone).
    pub uses: bool,
    /// What is required of the run (`--require`), if anything is.
    pub required: Option<Requirements>,
    /// Which words of memory are shown as the run leaves them (`--memory`, of `run` alone), if any are.
    pub memory: Option<Spans>,
    /// What is secret (`--secret` and `--public`, of `run` alone), if anything is.
    pub secrets: Option<SecretOptions>,
}

// A `drop` of its own is one call at each place where options are dropped.
impl Drop for RunOptions {
    fn drop(self) {
        let RunOptions {
            turns0: _,
            turns1: _,
            entry1: _,
            vecbase: _,
            stack0: _,
            stack1: _,
            order: _,
            trace: _,
            events: _,
            race: _,
            profile: _,
            uses: _,
            required: _,
            memory: _,
            secrets: _,
        } = self;
    }
}

impl RunOptions {
    /// The options of a run of an image with this entry.
    pub fn with_entry(&self, entry: u32) -> Options
        ensures { result ≡ with_entry self.now entry }
    {
        Options {
            turns0: self.turns0,
            turns1: self.turns1,
            entry1: self.entry1.unwrap_or(entry),
            vecbase: self.vecbase,
            stack0: self.stack0,
            stack1: self.stack1,
        }
    }
}

/// No address is given, or it lies in an executable region.
pub fn is_good_entry(address: Option<u32>) -> bool
    ensures { result ≡ is_entry address }
{
    match address {
        Some(address) => can_execute_at(address),
        None => true,
    }
}

// A range of at least 256 bytes in the internal data memory, whose ends are multiples of 16.
fn is_good_stack(stack: Stack) -> bool
    ensures { result ≡ is_stack stack }
{
    stack.lo >= 0x3FFAE000
        && stack.hi <= 0x40000000
        && stack.lo % 16 == 0
        && stack.hi % 16 == 0
        && stack.hi.saturating_sub(stack.lo) >= 256
}

// The number of the first rule of usage that the options break.
fn broken_rule(options: &RunOptions) -> Option<u8>
    ensures rule { result ≡ first_broken (limits options.now) }
    ensures valid { result ≡ None → AreValid options.now }
{
    if options.turns0 > MOST_TURNS || options.turns1 > MOST_TURNS || !is_short(&options.order) {
        return Some(5);
    }
    if !is_good_entry(options.entry1) {
        return Some(6);
    }
    if options.vecbase % 1024 != 0 {
        return Some(7);
    }
    if !is_good_stack(options.stack0) || !is_good_stack(options.stack1) {
        return Some(8);
    }
    None
}

/// The options, where they keep the rules of usage 5 to 8, or the first that they break.
///
/// Rule 5: a number of turns is at most 4,000,000, and a listed order asks for at most 8,000,000. Rule 6: the address where core 1 begins, if it is given, lies in an
/// executable region. Rule 7: VECBASE is a multiple of 1024. Rule 8: a stack is a range of at least 256 bytes in the
/// internal data memory whose ends are multiples of 16.
pub fn within_limits(options: RunOptions) -> Result<RunOptions, Refusal>
    ensures means { result ≡ within_limits options }
    ensures valid { IfOk result AreValid }
{
    match broken_rule(&options) {
        Some(rule) => Err(Refusal::Usage(rule)),
        None => Ok(options),
    }
}
