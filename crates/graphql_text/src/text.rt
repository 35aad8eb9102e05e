ghost use Rattle.std.specs.Prelude.{◌≡◌, ℕ, List, [], ◌++◌, length, ◌↔◌, IsTrue, IfOk, OnOk, OnErr};
ghost use Rattle.std.specs.Prelude.{string_bytes};
ghost use Rattle.std.specs.Char.{encode_utf8};
ghost use Rattle.std.specs.Str.{bytes_eq};

mod compares;
mod traits;

use std::alloc::{AllocError, Global};
use std::marker::Model;

/// An owned text: a `String` that contracts see as its bytes alone, so that two texts of the same
/// bytes are the same value. Lengths are in bytes.
#[derive(Drop)]
pub struct Text {
    held: String,
}

impl Model for Text {
    ghost Value = { List ℕ };

    ghost view = { λ text. string_bytes text.held };
}

impl Text {
    /// The empty text. Takes no memory until the first push.
    pub fn new(alloc: Global) -> Text
        ensures { result ≡ [] }
    {
        Text {
            held: String::new(alloc),
        }
    }

    /// A text of its own with the bytes of `text`. An error is want of memory.
    pub fn from_str(alloc: Global, text: &str) -> Result<Text, AllocError>
        ensures { IfOk result (λ copy. copy ≡ text.now) }
    {
        let held = String::from_str(alloc, text)?;
        Ok(Text { held })
    }

    /// The bytes of `held`. Takes no memory.
    pub fn from_string(held: String) -> Text
        ensures { result ≡ string_bytes held }
    {
        Text { held }
    }

    /// The text as a `String`. Takes no memory.
    pub fn into_string(self) -> String
        ensures { string_bytes result ≡ self }
    {
        self.held
    }

    /// The text, borrowed.
    pub fn as_str(&self) -> &str
        ensures { result.now ≡ self.now }
    {
        self.held.as_str()
    }

    /// How many bytes the text has.
    pub fn len(&self) -> usize
        ensures { result ≡ length self.now }
    {
        self.held.as_str().len()
    }

    /// Whether the text has no byte.
    pub fn is_empty(&self) -> bool
        ensures { IsTrue result ↔ (self.now ≡ []) }
    {
        self.held.as_str().is_empty()
    }

    /// Whether this is the text `other`.
    pub fn is(&self, other: &str) -> bool
        ensures value { result ≡ bytes_eq self.now other.now }
        ensures same { IsTrue result ↔ (self.now ≡ other.now) }
    {
        self.held.as_str() == other
    }

    /// Adds `more` at the end. An error is want of memory: the text stays.
    pub fn push_str(&mut self, more: &str) -> Result<(), AllocError>
        ensures ok { OnOk result (self.new ≡ self.old ++ more.now) }
        ensures err { OnErr result (self.new ≡ self.old) }
    {
        self.held.push_str(more)
    }

    /// Adds the bytes of `character` at the end. An error is want of memory: the text stays.
    pub fn push(&mut self, character: char) -> Result<(), AllocError>
        ensures ok { OnOk result (self.new ≡ self.old ++ encode_utf8 character) }
        ensures err { OnErr result (self.new ≡ self.old) }
    {
        self.held.push(character)
    }

    /// Takes every byte away.
    pub fn clear(&mut self)
        ensures { self.new ≡ [] }
    {
        self.held.clear();
    }
}
