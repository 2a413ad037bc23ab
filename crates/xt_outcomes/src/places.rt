//! What a search takes for granted of the words of memory.
ghost use Rattle.std.specs.Prelude.{◌≡◌};
ghost use Rattle.xt_map.specs.Touching.{is_load};
ghost use Rattle.xt_outcomes.specs.Places.{is_own, is_own_access, may_access, may_come, place_of, slot_of};

use std::alloc::{AllocError, Global};
use xt_map::{Access, Kind};

// How many places there are.
const PLACES: usize = 131072;

/// Who comes to a place: neither core was seen there, one core alone, both only to load, or both.
#[derive(Clone, Copy)]
pub enum Place {
    Free,
    Of0,
    Of1,
    Read,
    Met,
}

// Whether an access only loads.
fn is_loading(kind: Kind) -> bool
    ensures { result ≡ is_load kind }
{
    match kind {
        Kind::Load => true,
        Kind::Store(_) => false,
        Kind::Cas(_, _) => false,
    }
}

// The number of the place of an access.
fn slot_of(access: Access) -> usize
    ensures { result ≡ slot_of access }
{
    (access.addr / 4 % 131072) as usize
}

impl Place {
    // Whether an access of a core touches nothing there that the other core touches.
    fn is_own(self, core: u8, kind: Kind) -> bool
        ensures { result ≡ is_own core self kind }
    {
        match self {
            Place::Free => false,
            Place::Of0 => core == 0,
            Place::Of1 => core != 0,
            Place::Read => is_loading(kind),
            Place::Met => false,
        }
    }

    // Whether the place tells of an access of a core.
    fn may_come(self, core: u8, kind: Kind) -> bool
        ensures { result ≡ may_come core self kind }
    {
        match self {
            Place::Free => true,
            Place::Of0 => core == 0,
            Place::Of1 => core != 0,
            Place::Read => is_loading(kind),
            Place::Met => true,
        }
    }
}

/// Of each place who comes there: both cores may come to one that is not in the list. Words far apart may
/// share a place.
#[derive(Drop)]
pub struct Places {
    pub list: Vec<Place>,
}

impl Places {
    ghost use Rattle.std.specs.Prelude.{[]};

    /// Both cores may come to each place.
    pub fn met(alloc: Global) -> Places
        ensures { result.list.items ≡ [] }
    {
        Places {
            list: Vec::new(alloc),
        }
    }

    // Who comes to the place of an access.
    fn place_of(&self, access: Access) -> Place
        ensures { result ≡ place_of self.now.list.items access }
    {
        match self.list.get(slot_of(access)) {
            Some(place) => *place,
            None => Place::Met,
        }
    }

    /// Whether a turn of a core with this access touches nothing that the other core touches.
    pub fn is_own(&self, core: u8, access: Option<Access>) -> bool
        ensures { result ≡ is_own_access self.now.list.items core access }
    {
        match access {
            Some(access) => self.place_of(access).is_own(core, access.kind),
            None => true,
        }
    }

    /// Whether the places tell of a turn of a core with this access.
    pub fn may_access(&self, core: u8, access: Option<Access>) -> bool
        ensures { result ≡ may_access self.now.list.items core access }
    {
        match access {
            Some(access) => self.place_of(access).may_come(core, access.kind),
            None => true,
        }
    }
}

/// Which cores were seen to load and to store at each place: 1 and 2 for core 0, 4 and 8 for core 1.
/// Nothing is claimed of it, since each turn of a search is looked at again.
#[derive(Drop)]
pub struct Seen {
    marks: Vec<u8>,
}

// The mark of an access.
fn mark_of(core: u8, kind: Kind) -> u8 {
    let mark = if is_loading(kind) { 1 } else { 2 };
    if core == 0 { mark } else { mark * 4 }
}

// Who comes to a place with these marks.
fn place_by(marks: u8) -> Place {
    if marks == 0 {
        Place::Free
    } else if marks & 12 == 0 {
        Place::Of0
    } else if marks & 3 == 0 {
        Place::Of1
    } else if marks & 10 == 0 {
        Place::Read
    } else {
        Place::Met
    }
}

impl Seen {
    /// Nothing was seen. The only error is running out of memory.
    pub fn new(alloc: Global) -> Result<Seen, AllocError> {
        Ok(Seen {
            marks: vec![in alloc; 0; PLACES]?,
        })
    }

    /// Marks an access of a core, and answers whether that is new.
    pub fn note(&mut self, core: u8, access: Option<Access>) -> bool {
        match access {
            Some(access) => match self.marks.get_mut(slot_of(access)) {
                Some(marks) => {
                    let before = *marks;
                    *marks = before | mark_of(core, access.kind);
                    *marks != before
                }
                None => false,
            },
            None => false,
        }
    }

    /// Who comes to each place, as far as was seen. The only error is running out of memory.
    pub fn places(&self, alloc: Global) -> Result<Places, AllocError> {
        let mut list = Vec::new(alloc);
        for marks in &self.marks {
            list.push(place_by(*marks))?;
        }
        Ok(Places { list })
    }
}
