//! Texts under keys, of which the oldest go first.

ghost use Rattle.std.specs.Prelude.{IfSome};
ghost use Rattle.graphql_stores.specs.Keeping.{IsKept, KeepsAtMost, KeepsNoMore, KeepsNothing};
ghost use Rattle.graphql_stores.specs.Texts.{AddsAtMost};

use std::alloc::{AllocError, Global};
use std::collections::HashMap;
use std::mem;

/// The texts of some keys.
type Texts = HashMap<String, Vec<u8>>;

/// Texts under keys, of which at most so many bytes are kept. They stand in two generations: where
/// one more text does not fit into half of the bytes, the younger generation becomes the older one,
/// and what was the older one is let go. The bytes of keys and texts count.
#[derive(Drop)]
pub struct KeptTexts {
    younger: Texts,
    older: Texts,
    young_bytes: usize,
    half: usize,
}

impl KeptTexts {
    /// No texts, and room for so many bytes of keys and texts.
    pub fn new(alloc: Global, byte_limit: usize) -> KeptTexts
        ensures { KeepsNothing result }
    {
        KeptTexts {
            younger: HashMap::new(alloc),
            older: HashMap::new(alloc),
            young_bytes: 0,
            half: byte_limit / 2,
        }
    }

    /// The text of a key, if one is kept.
    pub fn get(&self, key: &str) -> Option<&[u8]>
        ensures { IfSome result (λ text. IsKept self.now key.now text.now) }
    {
        if let Some(text) = self.younger.get(key) {
            return Some(text.as_slice());
        }
        match self.older.get(key) {
            Some(text) => Some(text.as_slice()),
            None => None,
        }
    }

    /// Keeps a text under a key, in place of the one that it had; older ones may be let go for it.
    /// A key and a text that are larger than half of the bytes are not kept. An error is want of
    /// memory: then this text is not kept.
    pub fn keep(&mut self, alloc: Global, key: &str, text: &[u8]) -> Result<(), AllocError>
        ensures { KeepsAtMost self.old self.new key.now text.now }
    {
        let size = key.len().saturating_add(text.len());
        if size > self.half {
            return Ok(());
        }
        if self.young_bytes.saturating_add(size) > self.half {
            self.age(alloc);
        }
        self.young_bytes = self.young_bytes.saturating_add(size);
        put(alloc, &mut self.younger, key, text)
    }

    /// Lets the older generation go, and begins a younger one.
    fn age(&mut self, alloc: Global)
        ensures { KeepsNoMore self.old self.new }
    {
        self.older = mem::replace(&mut self.younger, HashMap::new(alloc));
        self.young_bytes = 0;
    }

    /// Lets all texts go.
    pub fn clear(&mut self)
        ensures { KeepsNothing self.new }
    {
        self.younger.clear();
        self.older.clear();
        self.young_bytes = 0;
    }
}

/// Puts copies of a text and its key among others. An error is want of memory.
fn put(alloc: Global, texts: &mut Texts, key: &str, text: &[u8]) -> Result<(), AllocError>
    ensures { AddsAtMost texts.old texts.new key.now text.now }
{
    let key = String::from_str(alloc, key)?;
    let text = Vec::from_slice(alloc, text)?;
    match texts.insert(key, text) {
        Ok(_) => Ok(()),
        Err(refused) => Err(AllocError::from(refused)),
    }
}
