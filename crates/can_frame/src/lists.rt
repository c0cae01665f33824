//! Lists that public types hold: contracts see each as the list of its items.
ghost use Rattle.std.specs.Prelude.{◌≡◌, ◌<◌, ◌↔◌, All, IfSome, IsSome};

use std::marker::Model;

/// A list of bytes.
#[derive(Drop)]
pub struct Bytes {
    items: Vec<u8>,
}

impl Model for Bytes {
    ghost use Rattle.std.specs.Prelude.{List, ℕ};

    ghost Value = { List ℕ };

    ghost view = { λ b. b.items.items };
}

impl Bytes {
    /// The bytes of a vector.
    pub fn of(items: Vec<u8>) -> Bytes
        ensures { result ≡ items.items }
    {
        Bytes { items }
    }

    /// The bytes as a slice.
    pub fn as_slice(&self) -> &[u8]
        ensures { result.now ≡ self.now }
    {
        &self.items
    }

    /// The bytes as a vector.
    pub fn into_vec(self) -> Vec<u8>
        ensures { result.items ≡ self }
    {
        self.items
    }
}

/// A list of numbers, as the nodes of a bus.
#[derive(Drop)]
pub struct Numbers {
    items: Vec<u32>,
}

impl Model for Numbers {
    ghost use Rattle.std.specs.Prelude.{List, ℕ};

    ghost Value = { List ℕ };

    ghost view = { λ n. n.items.items };
}

impl Numbers {
    /// The numbers of a vector.
    pub fn of(items: Vec<u32>) -> Numbers
        ensures { result ≡ items.items }
    {
        Numbers { items }
    }

    /// The numbers as a slice.
    pub fn as_slice(&self) -> &[u32]
        ensures { result.now ≡ self.now }
    {
        &self.items
    }

    /// The numbers as a vector.
    pub fn into_vec(self) -> Vec<u32>
        ensures { result.items ≡ self }
    {
        self.items
    }
}

/// A text of ASCII bytes, as the name of a node.
#[derive(Drop)]
pub struct Name {
    items: Vec<u8>,
}

impl Model for Name {
    ghost use Rattle.std.specs.Prelude.{List, ℕ, ◌<◌, All};

    ghost Value = { List ℕ };

    ghost view = { λ n. n.items.items };

    ghost invariant = { λ n. All (λ b. b < 128) n.items.items };
}

impl Name {
    /// The text of these bytes; None exactly where a byte isn't ASCII.
    pub fn of(items: Vec<u8>) -> Option<Name>
        ensures text { IfSome result (λ n. n ≡ items.items) }
        ensures ascii { IsSome result ↔ All (λ b. b < 128) items.items }
    {
        if items.iter().all(|b| *b < 128) {
            return Some(Name { items });
        }
        None
    }

    /// The text as a slice.
    pub fn as_slice(&self) -> &[u8]
        ensures text { result.now ≡ self.now }
        ensures ascii { All (λ b. b < 128) result.now }
    {
        &self.items
    }

    /// The text as a vector.
    pub fn into_vec(self) -> Vec<u8>
        ensures text { result.items ≡ self }
        ensures ascii { All (λ b. b < 128) result.items }
    {
        self.items
    }
}
