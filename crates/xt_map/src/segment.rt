ghost use Rattle.std.specs.Prelude.{◌≡◌, length};

use crate::bytes::Bytes;
use std::marker::Model;

/// Bytes of an image and the address of the first.
///
/// A segment below the address 0x10000000 is padding and is not loaded.
pub struct Segment {
    /// The address of the first byte.
    pub addr: u32,
    /// The bytes.
    pub bytes: Bytes,
}

// A `drop` of its own is one call at each place where a value is dropped.
impl Drop for Segment {
    fn drop(self) {
        let Segment { addr: _, bytes: _ } = self;
    }
}

/// A list of segments, in file order. Contracts see the list.
pub struct Segments {
    items: Vec<Segment>,
}

impl Drop for Segments {
    fn drop(self) {
        let Segments { items: _ } = self;
    }
}

impl Model for Segments {
    ghost use Rattle.std.specs.Prelude.{List};
    ghost use Rattle.xt_map.specs.declared.segment.Segment.{Segment};

    ghost Value = { List Segment };

    ghost view = { λ s. s.items.items };
}

impl Segments {
    /// These segments, without a copy.
    pub fn new(items: Vec<Segment>) -> Segments
        ensures { result ≡ items.items }
    {
        Segments { items }
    }

    /// The segments.
    pub fn as_slice(&self) -> &[Segment]
        ensures { result.now ≡ self.now }
    {
        &self.items
    }

    /// How many segments there are.
    pub fn len(&self) -> usize
        ensures { result ≡ length self.now }
    {
        self.items.len()
    }
}
