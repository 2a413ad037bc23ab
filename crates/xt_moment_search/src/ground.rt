//! One turn of a core of which not all is known.
ghost use Rattle.std.specs.Prelude.{◌≡◌, ◌<◌, true, IfOk, IfSome, bit_or, slice_index_or};
ghost use Rattle.xt_window.specs.Ring.{place};
ghost use Rattle.xt_uses.specs.Words.{all_bits};
ghost use Rattle.xt_map.specs.Memory.{HasSizes, constant_byte};
ghost use Rattle.xt_map.specs.Code.{AreBytes};
ghost use Rattle.xt_trace.specs.Calls.{is_stop};
ghost use Rattle.xt_trace.specs.Worlds.{answer};
ghost use Rattle.xt_search.specs.Changed.{contents_of};
ghost use Rattle.xt_rows.specs.RowLaws.{IsWord};
ghost use Rattle.xt_exec.specs.States.{file_state};
ghost use Rattle.xt_exec.specs.Turn.{demand, turn};
ghost use Rattle.xt_exec.specs.TurnLaws.{IsServed, IsShaped};
ghost use Rattle.xt_timeless.specs.Time.{without_time};
ghost use Rattle.xt_simulation.specs.Knowledge.{StatesAgree};
ghost use Rattle.xt_moments.specs.Moments.{with_timers};
ghost use Rattle.xt_moment_search.specs.KnownCores.{IsCut, moment_known_of};
ghost use Rattle.xt_moment_search.specs.Turned.{IsTurned};

use crate::bytes::{Bytes, reply_mask, serve};
use crate::forgetting::Saved;
use crate::knowing::{
    armed_in, enter, executed_by, is_known, learned, place, reads_lost, seen_at, stored_in,
};
use crate::sides::{Side, with_register};
use std::alloc::{AllocError, Global};
use xt_bus::Memory;
use xt_core::{StartedTurn, end_turn, stack_links, start_turn};
use xt_exec::Regs;
use xt_image::Image;
use xt_map::Constants;
use xt_moments::interrupt_past;
use xt_search::Changes;
use xt_secret_walk::{CoreMasks, WatchedFile};
use xt_special::number;
use xt_timeless::clear_time;
use xt_trace::{Options, StepKind, StepRecord};
use xt_window::Windows;

/// What does not change in a search: the constant bytes of the image, the memory with which its runs open, and one whose
/// bytes are 0.
#[derive(Drop)]
pub struct Ground<'a> {
    pub code: Constants<'a>,
    pub opening: Memory,
    pub cleared: Memory,
    ghost sizes: { HasSizes opening.contents },
    ghost clear_sizes: { HasSizes cleared.contents },
    ghost bytes: { AreBytes (constant_byte code) },
}

// What is known of a visible register.
fn mask_of(masks: &CoreMasks, base: u8, register: u8) -> u32
    ensures { result ≡ slice_index_or masks.now.regs (place base register) all_bits }
{
    masks.regs[place(base, register)]
}

// Bits of a visible register that are not known become 0.
fn cut_one(regs: &mut Regs<WatchedFile>, masks: &CoreMasks, register: u8)
    requires shaped { IsShaped (file_state regs.old) }
    requires register { register < 16 }
    ensures shaped { IsShaped (file_state regs.new) }
    ensures cut { IsCut masks.now.regs (file_state regs.old) (file_state regs.new) }
{
    let mask = mask_of(masks, regs.win.base(), register);
    let value = regs.win.read(register) & mask;
    regs.win.write(register, value);
}

// Bits that are not known become 0 in each visible register.
fn cut(regs: &mut Regs<WatchedFile>, masks: &CoreMasks)
    requires { IsShaped (file_state regs.old) }
    ensures shaped { IsShaped (file_state regs.new) }
    ensures cut { IsCut masks.now.regs (file_state regs.old) (file_state regs.new) }
{
    for register in 0..16u8 {
        cut_one(regs, masks, register);
    }
}

// The clocks become 0, and so do the bits of the timers in INTERRUPT.
fn clear_clocks(regs: &mut Regs<WatchedFile>)
    requires { IsShaped (file_state regs.old) }
    ensures shaped { IsShaped (file_state regs.new) }
    ensures cleared { file_state regs.new ≡ without_time (file_state regs.old) }
{
    clear_time(&mut regs.sr);
}

// The core after a turn that began with this INTERRUPT, arms these timers and left these registers, of which so much is
// known.
fn past(
    side: &Side,
    before: u32,
    armed: u32,
    regs: Regs<WatchedFile>,
    masks: CoreMasks,
    stopped: bool,
) -> Side
    requires { IsShaped (file_state regs) }
    ensures state { StatesAgree (moment_known_of result.masks) (with_timers before armed (file_state regs)) result.state }
    ensures shaped { IsShaped result.state }
    ensures masks { result.masks ≡ masks }
    ensures armed { result.armed ≡ bit_or side.now.armed armed }
    ensures stopped { result.stopped ≡ stopped }
{
    let interrupt = interrupt_past(before, armed, regs.sr.register(number::INTERRUPT));
    let mut regs = regs;
    cut(&mut regs, &masks);
    clear_clocks(&mut regs);
    Side {
        regs: with_register(regs, number::INTERRUPT, interrupt),
        masks,
        armed: side.armed | armed,
        stopped,
    }
}

// Whether a turn of this kind stops its core.
fn stops(kind: StepKind) -> bool
    ensures { result ≡ is_stop kind }
{
    matches!(kind, StepKind::Stop)
}

// One turn with the reply that its access gets, and its record.
fn begun_turn(
    regs: &mut Regs<WatchedFile>,
    code: &Constants,
    opening: &Memory,
    held: &Changes,
) -> StepRecord
    requires sizes { HasSizes opening.now.contents }
    ensures turn { let code = constant_byte code.now in let s = file_state regs.old in
        (result, file_state regs.new) ≡ turn code s (answer (demand code s) (contents_of opening.now.contents held.now)) }
    ensures word { IsWord (answer (demand (constant_byte code.now) (file_state regs.old)) (contents_of opening.now.contents held.now)) }
{
    match start_turn(regs, code) {
        StartedTurn::Local(record) => record,
        StartedTurn::Asks(pending) => {
            let reply = held.reply(opening, pending.access);
            end_turn(regs, pending, reply)
        }
    }
}

impl<'a> Ground<'a> {
    ghost use Rattle.std.specs.Prelude.{[], None};
    ghost use Rattle.xt_core.specs.Runs.{memory_of};
    ghost use Rattle.xt_map.specs.Memory.{opening_memory};
    ghost use Rattle.xt_map.specs.Placing.{IsPlaced};
    ghost use Rattle.xt_trace.specs.Validity.{IsValid};
    ghost use Rattle.xt_image.specs.ImageParts.{FitsImage};

    /// That of an image. The only error is running out of memory.
    ///
    /// Conditions: the options are valid, and the image's segments lie in one region each and share no byte, as those of
    /// every image that was read.
    #[tactic(auto, using(xt_outcomes::proofs::CodeBytes::code_bytes, xt_map::proofs::Stored::opening_has_sizes))]
    pub fn make(
        alloc: Global,
        image: &'a Image,
        options: &Options,
    ) -> Result<Ground<'a>, AllocError>
        requires valid { IsValid options.now }
        requires fits { FitsImage image.now }
        requires placed { IsPlaced image.now.segments }
        ensures code { IfOk result (λ g. g.code ≡ image.now.segments) }
        ensures opening { IfOk result (λ g. g.opening.contents ≡ memory_of image.now options.now) }
        ensures cleared { IfOk result (λ g. g.cleared.contents ≡ opening_memory [] []) }
    {
        let links = stack_links(options);
        Ok(Ground {
            code: Constants::make(alloc, image.segments.as_slice())?,
            opening: Memory::make(alloc, image.segments.as_slice(), &links, 0)?,
            cleared: Memory::make(alloc, &[], &[], 0)?,
        })
    }

    // One turn with the reply that its access gets, and its record.
    fn make_turn(&self, regs: &mut Regs<WatchedFile>, held: &Changes) -> StepRecord
        requires { IsShaped (file_state regs.old) }
        ensures shaped { IsShaped (file_state regs.new) }
        ensures served { IsServed result.access }
        ensures turn { let code = constant_byte self.now.code in let s = file_state regs.old in
            (result, file_state regs.new) ≡ turn code s (answer (demand code s) (contents_of self.now.opening.contents held.now)) }
    {
        begun_turn(regs, &self.code, &self.opening, held)
    }

    /// A core after its next turn. None: it has stopped, or the turn uses what is not known. The only error is running
    /// out of memory.
    pub fn turned(
        &self,
        side: &Side,
        bytes: &mut Bytes,
        saved: &mut Saved,
    ) -> Result<Option<Side>, AllocError>
        ensures none { IfOk result (λ r. r ≡ None → bytes.new ≡ bytes.old) }
        ensures turned { IfOk result (λ r. IfSome r (λ s. IsTurned (constant_byte self.now.code) self.now.opening.contents self.now.cleared.contents side.now s bytes.old bytes.new)) }
    {
        if side.stopped {
            return Ok(None);
        }
        let begun = with_register(side.regs, number::CCOUNT, 0);
        let found = seen_at(&begun, &side.masks, &self.code);
        if reads_lost(&side.masks, &found) {
            return Ok(None);
        }
        let mut regs = begun;
        let record = self.make_turn(&mut regs, &bytes.held);
        saved.note(&record)?;
        let reply = reply_mask(&bytes.hidden, &self.cleared, record.access);
        let executed = executed_by(record.kind, found);
        if !is_known(&record, &found, &executed, reply) {
            return Ok(None);
        }
        serve(
            bytes,
            &self.opening,
            &self.cleared,
            record.access,
            stored_in(&executed),
        )?;
        let mut masks = learned(&side.masks, &executed, record.write, regs.win.base(), reply);
        enter(&mut masks, record.kind, begun.sr.ps_fields());
        let before = begun.sr.register(number::INTERRUPT);
        let stopped = stops(record.kind);
        Ok(Some(past(side, before, armed_in(&executed), regs, masks, stopped)))
    }
}
