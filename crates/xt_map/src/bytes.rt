ghost use Rattle.std.specs.Prelude.{◌≡◌, ◌==◌, length};

use std::marker::Model;

/// A list of bytes. Contracts see the list.
pub struct Bytes {
    items: Vec<u8>,
}

// A `drop` of its own is one call at each place where a value is dropped.
impl Drop for Bytes {
    fn drop(self) {
        let Bytes { items: _ } = self;
    }
}

impl Model for Bytes {
    ghost use Rattle.std.specs.Prelude.{List, ℕ};

    ghost Value = { List ℕ };

    ghost view = { λ b. b.items.items };
}

impl Bytes {
    /// These bytes, without a copy.
    pub fn new(items: Vec<u8>) -> Bytes
        ensures { result ≡ items.items }
    {
        Bytes { items }
    }

    /// The bytes.
    pub fn as_slice(&self) -> &[u8]
        ensures { result.now ≡ self.now }
    {
        &self.items
    }

    /// How many bytes there are.
    pub fn len(&self) -> usize
        ensures { result ≡ length self.now }
    {
        self.as_slice().len()
    }

    /// Whether there is no byte.
    pub fn is_empty(&self) -> bool
        ensures { result ≡ (length self.now == 0) }
    {
        self.items.is_empty()
    }

    /// The bytes as a `Vec`, without a copy.
    pub fn into_vec(self) -> Vec<u8>
        ensures { result.items ≡ self }
    {
        let Bytes { items } = self;
        items
    }
}

/// A text that is printed, as a list of bytes. Contracts see the list.
pub struct Text {
    items: Vec<u8>,
}

impl Drop for Text {
    fn drop(self) {
        let Text { items: _ } = self;
    }
}

impl Model for Text {
    ghost use Rattle.std.specs.Prelude.{List, ℕ};

    ghost Value = { List ℕ };

    ghost view = { λ t. t.items.items };
}

impl Text {
    /// A text of these bytes, without a copy.
    pub fn new(items: Vec<u8>) -> Text
        ensures { result ≡ items.items }
    {
        Text { items }
    }

    /// The bytes of the text.
    pub fn as_slice(&self) -> &[u8]
        ensures { result.now ≡ self.now }
    {
        &self.items
    }

    /// The bytes as a `Vec`, without a copy.
    pub fn into_vec(self) -> Vec<u8>
        ensures { result.items ≡ self }
    {
        let Text { items } = self;
        items
    }
}
