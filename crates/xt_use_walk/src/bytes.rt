//! What is known of each byte of memory.
#![tactic(auto)]

ghost use Rattle.std.specs.Prelude.{◌≡◌, ◌<◌, ◌+◌, ◌-◌, ◌*◌, ◌==◌, ◌||◌, true, not, IfOk, IfSome};
ghost use Rattle.xt_map.specs.Regions.{is_mapped, is_size};
ghost use Rattle.xt_map.specs.Touching.{touches};
ghost use Rattle.xt_frames.specs.Breaches.{some_byte};
ghost use Rattle.xt_uses.specs.UseBreaches.{swaps_unknown};
ghost use Rattle.xt_uses.specs.UseStep.{reply_mask, unknown_bits};
ghost use Rattle.xt_use_walk.specs.MaskedBytes.{AreBytes, AreMasks, IsFull, KnowsAccess, is_byte, mask_at, place, put_at, without};

use std::alloc::{AllocError, Global};
use xt_map::{Access, Kind, is_in_memory};
use xt_uses::ALL_BITS;

/// How many bytes the three memory regions have.
const BYTES: u32 = 0x5_6000;

/// The masks with which the bytes of memory are read, region by region. A byte in a live save area has the mask 0.
#[derive(Drop)]
pub struct ByteMasks {
    /// 0x56000 of them.
    pub masks: Vec<u8>,
}

/// The place of a byte of memory among them.
#[inline(always)]
fn place(addr: u32) -> usize
    requires { is_byte addr ≡ true }
    ensures { result ≡ place addr }
{
    let place = if 0x5000_0000 <= addr {
        addr - 0x5000_0000 + 0x5_4000
    } else if 0x3FFA_E000 <= addr {
        addr - 0x3FFA_E000 + 0x2000
    } else {
        addr - 0x3FF8_0000
    };
    place as usize
}

impl ByteMasks {
    /// All is known.
    pub fn make(alloc: Global) -> Result<ByteMasks, AllocError>
        ensures full { IfOk result IsFull }
        ensures known { IfOk result (λ m. AreMasks m (λ a. 255)) }
    {
        let mut masks = Vec::with_capacity(alloc, BYTES as usize)?;
        for _byte in 0..BYTES {
            masks.push(0xFF)?;
        }
        Ok(ByteMasks { masks })
    }

    /// The mask of a byte of memory.
    #[inline(always)]
    fn at(&self, addr: u32) -> u8
        requires full { IsFull self.now }
        requires byte { is_byte addr ≡ true }
        ensures { result ≡ mask_at self.now addr }
    {
        self.masks[place(addr)]
    }

    /// The bits that are not known of a byte of memory.
    #[inline(always)]
    fn lacks(&self, addr: u32) -> u32
        requires full { IsFull self.now }
        requires byte { is_byte addr ≡ true }
        ensures value { result ≡ 255 - mask_at self.now addr }
        ensures small { result < 256 }
    {
        u32::from(0xFF - self.at(addr))
    }

    /// The bits that are not known of two bytes of memory.
    #[inline(always)]
    fn lacks_two(&self, addr: u32) -> u32
        requires full { IsFull self.now }
        requires bytes { AreBytes addr 2 }
        ensures value { result ≡ (255 - mask_at self.now addr) + 256 * (255 - mask_at self.now (addr + 1)) }
        ensures small { result < 65536 }
    {
        self.lacks(addr) + 0x100 * self.lacks(addr + 1)
    }

    /// Whether a bit of a byte of memory is not known.
    fn is_unknown(&self, addr: u32) -> bool
        requires full { IsFull self.now }
        requires byte { is_byte addr ≡ true }
        ensures { result ≡ not (mask_at self.now addr == 255) }
    {
        self.at(addr) != 0xFF
    }

    /// Whether a bit of two bytes of memory is not known.
    fn either_unknown(&self, addr: u32) -> bool
        requires full { IsFull self.now }
        requires bytes { AreBytes addr 2 }
        ensures { result ≡ (not (mask_at self.now addr == 255) || not (mask_at self.now (addr + 1) == 255)) }
    {
        self.is_unknown(addr) || self.is_unknown(addr + 1)
    }

    /// Whether a bit of a word of memory is not known.
    fn some_unknown(&self, addr: u32) -> bool
        requires full { IsFull self.now }
        requires bytes { AreBytes addr 4 }
        ensures { result ≡ some_byte (λ a. not (mask_at self.now a == 255)) addr 4 }
    {
        if self.either_unknown(addr) {
            return true;
        }
        self.either_unknown(addr + 2)
    }

    /// Whether each bit is known of so many bytes of memory.
    pub fn are_known(&self, addr: u32, size: u8) -> bool
        requires full { IsFull self.now }
        requires size { is_size size ≡ true }
        requires bytes { AreBytes addr size }
        ensures { result ≡ not (some_byte (λ a. not (mask_at self.now a == 255)) addr size) }
    {
        match size {
            1 => !self.is_unknown(addr),
            2 => !self.either_unknown(addr),
            _ => !self.some_unknown(addr),
        }
    }

    /// Whether an access touches no byte of memory of which a bit is not known.
    pub fn knows(&self, access: Option<Access>) -> bool
        requires full { IsFull self.now }
        requires served { IfSome access (λ a. is_mapped a ≡ true) }
        ensures { result ≡ true → KnowsAccess (mask_at self.now) access }
    {
        let Some(a) = access else {
            return true;
        };
        if !is_in_memory(a.addr) {
            return true;
        }
        self.are_known(a.addr, a.size)
    }

    /// Whether the access is an S32C1I that touches a byte of which a bit is not known.
    pub fn swaps_unknown(&self, access: Option<Access>) -> bool
        requires full { IsFull self.now }
        requires served { IfSome access (λ a. is_mapped a ≡ true) }
        ensures { result ≡ swaps_unknown (mask_at self.now) access }
    {
        match access {
            Some(a) => match a.kind {
                Kind::Cas(_, _) => self.some_unknown(a.addr),
                _ => false,
            },
            None => false,
        }
    }

    /// The bits that are not known of so many bytes of memory.
    #[inline(always)]
    fn lacks_of(&self, addr: u32, size: u8) -> u32
        requires full { IsFull self.now }
        requires size { is_size size ≡ true }
        requires bytes { AreBytes addr size }
        ensures { result ≡ unknown_bits (mask_at self.now) addr size }
    {
        match size {
            1 => self.lacks(addr),
            2 => self.lacks_two(addr),
            _ => self.lacks_two(addr) + 0x1_0000 * self.lacks_two(addr + 2),
        }
    }

    /// The mask of the reply to an access.
    #[inline(always)]
    pub fn reply_mask(&self, access: Option<Access>) -> u32
        requires full { IsFull self.now }
        requires served { IfSome access (λ a. is_mapped a ≡ true) }
        ensures { result ≡ reply_mask (mask_at self.now) access }
    {
        let Some(a) = access else {
            return ALL_BITS;
        };
        let stores = matches!(a.kind, Kind::Store(_));
        if stores || !is_in_memory(a.addr) {
            return ALL_BITS;
        }
        self.lacks_of(a.addr, a.size) ^ ALL_BITS
    }

    /// A byte of memory gets this mask.
    #[inline(always)]
    pub fn put(&mut self, addr: u32, mask: u8)
        requires full { IsFull self.old }
        requires byte { is_byte addr ≡ true }
        ensures full { IsFull self.new }
        ensures put { AreMasks self.new (put_at addr mask (mask_at self.old)) }
    {
        self.masks[place(addr)] = mask;
    }

    /// Nothing is known of so many bytes of memory from an address on.
    pub fn forget(&mut self, from: u32, size: u32)
        requires full { IsFull self.old }
        requires bytes { AreBytes from size }
        ensures full { IsFull self.new }
        ensures forgotten { AreMasks self.new (without (touches from size) (mask_at self.old)) }
    {
        if size == 0 {
            return;
        }
        let first = place(from);
        self.masks[first..first + size as usize].fill(0);
    }
}
