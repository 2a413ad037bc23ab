//! The turns of a run whose entries are known.
ghost use Rattle.std.specs.Prelude.{◌≡◌, ◌≢◌, ◌<◌, ◌≤◌, ◌+◌, ◌^◌, ◌++◌, true, None, length, IfOk, OnOk};
ghost use Rattle.xt_map.specs.Memory.{constant_byte};
ghost use Rattle.xt_record.specs.TurnRules.{same_access, same_kind};
ghost use Rattle.xt_record.specs.Walking.{Arrives, Ends, HasRoom, Takes, due_beside, point_beside};

use crate::fault::RecordFault;
use crate::file::WalkFile;
use crate::points::{POINT_SIZE, put_point};
use crate::setting::Setting;
use std::alloc::{AllocError, Global};
use xt_core::{Begin, Core};
use xt_map::{Access, Bytes, Entry, Kind};

const STRIDE: u32 = 131_072;

pub(crate) type File = Core<WalkFile>;

// The checkpoint of two cores, of which the first has this number, and of memory, after so many
// entries.
fn point(
    alloc: Global,
    number: u8,
    own: &File,
    other: &File,
    setting: &Setting,
    entries: u32,
) -> Result<Bytes, AllocError>
    requires { own.now.count + other.now.count < 2 ^ 32 }
    ensures { IfOk result (λ bytes. bytes ≡ point_beside number entries own.now other.now setting.now.memory.contents) }
{
    let position = own.count() + other.count();
    let mut out = Vec::with_capacity(alloc, POINT_SIZE)?;
    if number == 0 {
        put_point(&mut out, position, entries, own, other, &setting.memory)?;
    } else {
        put_point(&mut out, position, entries, other, own, &setting.memory)?;
    }
    Ok(Bytes::new(out))
}

// Keeps the checkpoint at which two cores stand before a turn, if there is one.
#[inline(always)]
fn keep_due(
    alloc: Global,
    number: u8,
    own: &File,
    other: &File,
    setting: &mut Setting,
    entries: u32,
) -> Result<(), AllocError>
    requires { own.now.count + other.now.count < 2 ^ 32 }
    ensures points { OnOk result (setting.new.points.items ≡ setting.old.points.items ++ due_beside number entries own.now other.now setting.old.memory.contents) }
    ensures memory { setting.new.memory ≡ setting.old.memory }
    ensures code { setting.new.code ≡ setting.old.code }
{
    let position = own.count() + other.count();
    if position != 0 && position % STRIDE == 0 {
        let kept = point(alloc, number, own, other, setting, entries)?;
        setting.points.push(kept)?;
    }
    Ok(())
}

// Makes the local turns of a core up to its next access, which then waits for its reply, or up to
// its end. It alone begins turns, so that they are compiled into it.
fn arrive(
    alloc: Global,
    number: u8,
    own: &mut File,
    other: &File,
    setting: &mut Setting,
    entries: u32,
) -> Result<Option<Access>, AllocError>
    requires free { own.old.waiting ≡ None }
    requires few { own.old.count + own.old.left + other.now.count < 2 ^ 32 }
    ensures arrives { IfOk result (λ next. Arrives (constant_byte setting.old.code) number own.old other.now own.new setting.old.memory.contents entries next setting.old.points.items setting.new.points.items) }
    ensures memory { setting.new.memory ≡ setting.old.memory }
    ensures code { setting.new.code ≡ setting.old.code }
{
    'turns: while own.left() > 0 {
        keep_due(alloc, number, own, other, setting, entries)?;
        match own.turn_begin(&setting.code) {
            Begin::Ended => return Ok(None),
            Begin::Local => (),
            Begin::Bus(access) => return Ok(Some(access)),
        }
    }
    Ok(None)
}

fn same_kind(kind: Kind, other: Kind) -> bool
    ensures { result ≡ same_kind kind other }
{
    match (kind, other) {
        (Kind::Load, Kind::Load) => true,
        (Kind::Store(value), Kind::Store(wanted)) => value == wanted,
        (Kind::Cas(expected, new), Kind::Cas(wanted, other)) => expected == wanted && new == other,
        _ => false,
    }
}

fn same_access(access: Access, other: Access) -> bool
    ensures { result ≡ same_access access other }
{
    access.addr == other.addr && access.size == other.size && same_kind(access.kind, other.kind)
}

/// Makes the turns of a core up to and with the access of its next entry, which has this number.
#[inline(always)]
pub(crate) fn take_entry(
    alloc: Global,
    number: u8,
    own: &mut File,
    other: &File,
    setting: &mut Setting,
    index: u32,
    entry: &Entry,
) -> Result<(), RecordFault>
    requires number { number < 2 }
    requires core { entry.now.core ≡ number }
    requires free { own.old.waiting ≡ None }
    requires few { own.old.count + own.old.left + other.now.count < 2 ^ 32 }
    requires room { HasRoom own.old other.now setting.old.memory }
    ensures { Takes result (constant_byte setting.old.code) number own.old other.now own.new setting.old setting.new index entry.now }
{
    let Some(access) = arrive(alloc, number, own, other, setting, index)? else {
        return Err(RecordFault::Turn(number, own.count()));
    };
    if !same_access(access, entry.access) {
        return Err(RecordFault::Turn(number, own.count()));
    }
    let right = setting.memory.serve(access);
    own.turn_end(right);
    if right != entry.reply {
        return Err(RecordFault::Illegal(index, entry.reply, right));
    }
    Ok(())
}

/// Makes the turns that a core has left, after the last entry.
pub(crate) fn end(
    alloc: Global,
    number: u8,
    own: &mut File,
    other: &File,
    setting: &mut Setting,
    entries: u32,
) -> Result<(), RecordFault>
    requires free { own.old.waiting ≡ None }
    requires few { own.old.count + own.old.left + other.now.count < 2 ^ 32 }
    ensures { Ends result (constant_byte setting.old.code) number own.old other.now own.new setting.old setting.new entries }
{
    match arrive(alloc, number, own, other, setting, entries)? {
        None => Ok(()),
        Some(_) => Err(RecordFault::Turn(number, own.count())),
    }
}
