//! Values that are kept once, however often they come.
ghost use Rattle.std.specs.Prelude.{◌≡◌, true, IfOk, IfSome};

use std::alloc::{AllocError, Global};
use std::rc::Rc;

// How many chains there are.
const CHAINS: usize = 262144;

/// What can be kept on a shelf.
pub trait Part {
    /// Whether two values were seen to be equal.
    fn is_like(&self, other: &Self) -> bool
        ensures { result ≡ true → self.now ≡ other.now };

    /// A number that is the same for equal values.
    fn mark(&self) -> u64;
}

// The mark of a value, and the number of the one of the same chain that came before it.
#[derive(Clone, Copy)]
struct Link {
    mark: u64,
    before: u32,
}

/// Values, each of which is kept once, in chains by their marks: of each chain the value that came last,
/// and of each value its mark and the one of the same chain that came before it. Each number is one more than
/// that of a value, and 0 says that there is none. Nothing is claimed of the numbers and marks, since each
/// value that they lead to is compared.
pub struct Shelf<T: Drop> {
    parts: Vec<Rc<T>>,
    links: Vec<Link>,
    last: Vec<u32>,
}

// A `drop` of its own is one call at each place where a value is dropped.
impl<T: Drop> Drop for Shelf<T> {
    fn drop(self) {
        let Shelf {
            parts: _,
            links: _,
            last: _,
        } = self;
    }
}

// The chain of a mark: the high bits of a product, which depend on all bits of the mark.
fn chain_of(mark: u64) -> usize {
    (mark.wrapping_mul(0x9E37_79B9_7F4A_7C15) / 0x4000_0000_0000) as usize
}

// The number at a place of a list, 0 outside it.
fn number_at(numbers: &Vec<u32>, at: usize) -> u32 {
    match numbers.get(at) {
        Some(number) => *number,
        None => 0,
    }
}

impl<T: Part + Drop> Shelf<T> {
    /// No value. The only error is running out of memory.
    pub fn new(alloc: Global) -> Result<Shelf<T>, AllocError> {
        Ok(Shelf {
            parts: Vec::new(alloc),
            links: Vec::new(alloc),
            last: vec![in alloc; 0; CHAINS]?,
        })
    }

    // The kept value that is equal to this one; None: none was found. The only error is that one value has
    // too many owners.
    fn find(&self, part: &T, mark: u64) -> Result<Option<Rc<T>>, AllocError>
        ensures { IfOk result (λ r. IfSome r (λ rc. rc.value ≡ part.now)) }
    {
        let mut number = number_at(&self.last, chain_of(mark));
        for _ in 0..self.links.len() {
            if number == 0 {
                return Ok(None);
            }
            let at = number as usize - 1;
            let Some(link) = self.links.get(at) else {
                return Ok(None);
            };
            if link.mark == mark {
                let Some(kept) = self.parts.get(at) else {
                    return Ok(None);
                };
                if kept.is_like(part) {
                    return Ok(Some(kept.clone()?));
                }
            }
            number = link.before;
        }
        Ok(None)
    }

    // Keeps a value from now on. The only error is running out of memory.
    fn add(&mut self, part: &Rc<T>, mark: u64) -> Result<(), AllocError> {
        let chain = chain_of(mark);
        let count = self.parts.len();
        if count >= 0xFFFF_FFFF {
            return Err(AllocError);
        }
        self.parts.push(part.clone()?)?;
        let before = number_at(&self.last, chain);
        self.links.push(Link { mark, before })?;
        if let Some(last) = self.last.get_mut(chain) {
            *last = count as u32 + 1;
        }
        Ok(())
    }

    /// The kept value that is equal to this one; if there is none, this one is kept from now on. The only
    /// error is running out of memory.
    #[inline(always)]
    pub fn shared(&mut self, alloc: Global, part: T) -> Result<Rc<T>, AllocError>
        ensures { IfOk result (λ rc. rc.value ≡ part) }
    {
        let mark = part.mark();
        if let Some(kept) = self.find(&part, mark)? {
            return Ok(kept);
        }
        let shared = Rc::new(alloc, part)?;
        self.add(&shared, mark)?;
        Ok(shared)
    }

    /// Puts the kept value that is equal to this one in its place; if there is none, this one is kept from now
    /// on. One that has another owner stays as it is. The only error is running out of memory.
    pub fn keep(&mut self, part: &mut Rc<T>) -> Result<(), AllocError>
        ensures { part.new.value ≡ part.old.value }
    {
        if Rc::strong_count(part) > 1 {
            return Ok(());
        }
        let shared: &Rc<T> = part;
        let mark = shared.as_ref().mark();
        self.keep_by(part, mark)
    }

    /// Does what `keep` does, by this mark in place of its own. Equal values may have several marks; each is then
    /// kept by each. The only error is running out of memory.
    pub fn keep_by(&mut self, part: &mut Rc<T>, mark: u64) -> Result<(), AllocError>
        ensures { part.new.value ≡ part.old.value }
    {
        if Rc::strong_count(part) > 1 {
            return Ok(());
        }
        let shared: &Rc<T> = part;
        if let Some(kept) = self.find(shared.as_ref(), mark)? {
            *part = kept;
            return Ok(());
        }
        self.add(part, mark)
    }
}
