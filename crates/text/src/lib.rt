// A text of at most so many bytes, put together part by part.
#![tactic(auto)]

ghost use Rattle.std.specs.Prelude.{◌≡◌, ◌+◌, ◌<◌, ◌≤◌, List, ℕ, [], ◌∷◌, ◌++◌, length, take, ◌↔◌, IsTrue};
ghost use Rattle.decimal.specs.Write.{field_of};
ghost use Rattle.text.specs.Text.{with_byte};

use std::marker::Model;

// The first `count` bytes; those behind them are 0.
#[derive(Clone, Copy)]
pub struct Text<const N: usize> {
    bytes: [u8; N],
    count: usize,
}

impl<const N: usize> Model for Text<N> {
    ghost use Rattle.std.specs.Prelude.{List, ℕ, length, take};
    ghost use Rattle.text.specs.Text.{IsPadded, padded, padded-length, padded-taken};

    ghost Value = { List ℕ };

    ghost view = { λ t. take t.count t.bytes };

    ghost invariant = { λ t. IsPadded N t.bytes t.count };

    ghost inverse = { λ s. record { bytes = padded N s; count = length s } };

    ghost inverse_ok = { λ t h i. record {
      bytes = padded-taken N t.bytes t.count h i;
      count = padded-length N t.bytes t.count h i;
    } };
}

impl<const N: usize> Text<N> {
    // No byte yet.
    pub fn new() -> Self
        ensures { result ≡ [] }
    {
        Text {
            bytes: [0; N],
            count: 0,
        }
    }

    pub fn is_empty(&self) -> bool
        ensures { IsTrue result ↔ (length self.now ≡ 0) }
    {
        self.count == 0
    }

    // One byte more; a full text stays as it is.
    pub fn push(&mut self, b: u8)
        ensures { self.new ≡ with_byte N self.old b }
    {
        if self.count < N {
            self.bytes[self.count] = b;
            self.count += 1;
        }
    }

    // These bytes more.
    pub fn push_bytes(&mut self, bytes: &[u8])
        requires { length self.old + length bytes.now ≤ N }
        ensures { self.new ≡ self.old ++ bytes.now }
    {
        self.count = decimal::put_bytes(&mut self.bytes, self.count, bytes);
    }

    // A number in decimal and the byte `end` behind it.
    pub fn push_number(&mut self, n: u64, end: u8)
        requires { length self.old + 21 ≤ N }
        ensures value { self.new ≡ self.old ++ field_of n end }
        ensures longer { length self.new ≤ length self.old + 21 }
    {
        self.count = decimal::put(&mut self.bytes, self.count, n, end);
    }

    pub fn as_slice(&self) -> &[u8]
        ensures value { result.now ≡ self.now }
        ensures most { length result.now ≤ N }
    {
        &self.bytes[..self.count]
    }
}
