ghost use Rattle.std.specs.Prelude.{◌≡◌};
ghost use Rattle.xt_command_line.specs.declared.command.Refusal.TheVariants.{Memory};

use crate::options::RunOptions;
use crate::outcomes::OutcomeOptions;
use crate::roots::Addresses;
use crate::secrets::SecretOptions;
use std::alloc::AllocError;

/// Which turns of a recorded run `trace` prints: those of some positions of the run's schedule, of which all
/// that is asked for holds.
#[derive(Clone, Copy)]
pub struct Turns {
    /// The first position (`--from`).
    pub from: u32,
    /// The first position after them (`--to`).
    pub to: u32,
    /// A turn of this core (`--core`); none asks for no core.
    pub core: Option<u8>,
    /// A turn with an access (`--accesses`).
    pub accesses: bool,
    /// A turn after which the core goes on elsewhere than behind the instruction (`--jumps`).
    pub jumps: bool,
    /// Whether each line has what the machine with unbounded frames knows after the turn (`--frames`).
    pub frames: bool,
}

/// Where control begins in an image, beside its entry.
#[derive(Drop)]
pub struct Openings {
    /// VECBASE, the address where the vectors of both cores begin (`--vecbase`), a multiple of 1024.
    pub vecbase: u32,
    /// The address where core 1 begins (`--entry1`), in an executable region; none stands for the image's entry.
    pub entry1: Option<u32>,
    /// Further addresses (`--roots`).
    pub roots: Addresses,
}

/// Which bytes of an image a listing takes as instructions.
#[derive(Drop)]
pub enum Way {
    /// Every executable segment from its first byte on.
    Sweep,
    /// What control reaches, from these openings on (`--flow`).
    Flow(Openings),
}

/// What a listing of an image shows.
#[derive(Drop)]
pub struct Listing {
    /// Which bytes are instructions.
    pub way: Way,
    /// Whether the listing is a text in the assembly language, with the bytes of the other segments (`--data`).
    pub as_text: bool,
}

/// How much of what a program did not set itself `uses` takes as known.
#[derive(Clone, Copy)]
pub enum Rigor {
    /// Nothing that the calling convention gives a function no right to.
    Strict,
    /// All but the new registers of an ENTRY and what save areas hold or left behind (`--lenient`).
    Lenient,
}

/// What `profile` counts, and by which keys.
#[derive(Clone, Copy)]
pub struct ProfileOptions {
    /// How many functions a key has at most, but for cut ones (`--depth`).
    pub depth: u32,
    /// Whether the turns from the first breach on are counted too (`--after`).
    pub after: bool,
}

/// A command with its options.
#[derive(Drop)]
pub enum Command {
    /// `asm`: assembles a text.
    Assemble,
    /// `elf`: makes an image of an ELF executable.
    Convert,
    /// `dis`: lists an image, in this way.
    Disassemble(Listing),
    /// `map`: lists the labels of an assembly text.
    Map,
    /// `check`: checks an image, and its window handlers from this VECBASE on.
    Check(u32),
    /// `run`: runs an image, with these options.
    Run(RunOptions),
    /// `record`: runs an image, with these options, and writes the run's recording.
    Record(RunOptions),
    /// `replay`: runs a script over a recording. `script_text` says its text, or that there is none.
    Replay,
    /// `migrate`: writes a recording again, in version 2.
    Migrate,
    /// `events`: says what happened to each core of a recorded run.
    Events,
    /// `counts`: says how often each core of a recorded run executed the instruction at each address.
    Counts,
    /// `trace`: prints these turns of a recorded run.
    Trace(Turns),
    /// `race`: looks for a data race in a recorded run.
    Race,
    /// `profile`: counts the turns of each call stack of a recorded run, with these options.
    Profile(ProfileOptions),
    /// `uses`: looks for the first use of something that is not known in a recorded run, with this rigor.
    Uses(Rigor),
    /// `secrets`: looks for the first turn of a recorded run that lets one of these secret bytes decide something.
    Secrets(SecretOptions),
    /// `outcomes`: looks for all that can come out of an image, with these options.
    Outcomes(OutcomeOptions),
    /// `gen`: runs the image that is made from this number.
    Generate(u32),
}

/// Why words are no command with options.
#[derive(Clone, Copy)]
pub enum Refusal {
    /// The number of the first rule of usage that the words break:
    /// 1 there is no word, 2 the command is unknown, 3 the further words do not match what the command takes, 4 to 8 a
    /// text of theirs is refused (`run_options`, `listing`, `check_vecbase`, `trace_turns` and `generator_number` say
    /// which is which), 10 what they say of secrets is refused (`secret_options`, `run_options`). Further numbers are
    /// those of callers.
    Usage(u8),
    /// Memory ran out while the words were read.
    Memory,
}

impl From<AllocError> for Refusal {
    ghost from_gives = { λ _ refusal. refusal ≡ Memory };

    fn from(_: AllocError) -> Self {
        Refusal::Memory
    }
}

/// The command that the first word names.
#[derive(Clone, Copy)]
pub enum Name {
    /// `asm`
    Assemble,
    /// `elf`
    Convert,
    /// `dis`
    Disassemble,
    /// `map`
    Map,
    /// `check`
    Check,
    /// `run`
    Run,
    /// `record`
    Record,
    /// `replay`
    Replay,
    /// `migrate`
    Migrate,
    /// `events`
    Events,
    /// `counts`
    Counts,
    /// `trace`
    Trace,
    /// `race`
    Race,
    /// `profile`
    Profile,
    /// `uses`
    Uses,
    /// `secrets`
    Secrets,
    /// `outcomes`
    Outcomes,
    /// `gen`
    Generate,
}
