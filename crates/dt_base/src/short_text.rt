//! A short text that takes no memory.

ghost use Rattle.std.specs.Prelude.{◌≡◌, ◌≤◌, ◌+◌, ◌++◌, [], length};
ghost use Rattle.std.specs.Fmt.{decimal};

use arrayvec::ArrayVec;
use itoa::Buffer;
use std::marker::Model;

/// The bytes of a text of at most 192 bytes, in order.
#[derive(Debug, Drop)]
pub struct ShortText {
    items: ArrayVec<u8, 192>,
}

impl Model for ShortText {
    ghost use Rattle.std.specs.Prelude.{List, ℕ};

    ghost Value = { List ℕ };

    ghost view = { λ t. t.items.items };
}

impl ShortText {
    pub fn new() -> ShortText
        ensures { result ≡ [] }
    {
        ShortText {
            items: ArrayVec::new(),
        }
    }

    pub fn as_slice(&self) -> &[u8]
        ensures { result.now ≡ self.now }
    {
        self.items.as_slice()
    }

    /// Puts more bytes at the end.
    pub fn append(&mut self, more: &[u8])
        requires { length self.old + length more.now ≤ 192 }
        ensures text { self.new ≡ self.old ++ more.now }
        ensures len { length self.new ≡ length self.old + length more.now }
    {
        self.items.try_extend_from_slice(more).unwrap();
    }

    /// Puts a number in decimal at the end.
    pub fn append_number(&mut self, n: u32)
        requires { length self.old ≤ 182 }
        ensures text { self.new ≡ self.old ++ decimal n }
        ensures len { length self.new ≤ length self.old + 10 }
    {
        let mut buffer = Buffer::new();
        self.append(buffer.format(n).as_bytes());
    }
}
