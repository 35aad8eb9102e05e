//! Texts of documents that were found valid.

ghost use Rattle.std.specs.Prelude.{◌≡◌, ◌≤◌, ◌⊎◌, ℕ, List, true, false, string_bytes};
ghost use Rattle.std.specs.HashSet.{contains_text};
ghost use Rattle.graphql_requests.specs.KeptTexts.{keeps};

use std::alloc::Global;
use std::collections::HashSet;

/// Texts of documents that were found valid for one root node, so that no rule need be asked of
/// them again (GraphQL October 2021, 5 Validation). So many texts are kept at most, and so many
/// bytes of them in all; where one more would be too many, all go and it begins anew with that one.
#[derive(Drop)]
pub struct ValidTexts {
    // None until the first text.
    pub(crate) texts: Option<HashSet<String>>,

    text_limit: usize,
    byte_limit: usize,

    // How many bytes more may be kept.
    bytes_left: usize,
}

impl ValidTexts {
    /// No texts. At most `text_limit` texts will be kept, which have at most `byte_limit` bytes in
    /// all; where one of them is zero, none will be. Takes no memory until the first text.
    pub fn new(text_limit: usize, byte_limit: usize) -> ValidTexts
        ensures { (text : List ℕ) → keeps result text ≡ false }
    {
        ValidTexts {
            texts: None,
            text_limit,
            byte_limit,
            bytes_left: byte_limit,
        }
    }

    /// Whether this text is kept.
    pub fn has(&self, text: &str) -> bool
        ensures { result ≡ keeps self.now text.now }
    {
        match &self.texts {
            Some(texts) => texts.contains(text),
            None => false,
        }
    }

    /// Keeps this text beside the others, or in their place where it would be one too many. A text
    /// that is too long for the limits is left out, and so is one for which there is no memory.
    pub fn add(&mut self, alloc: Global, text: &str)
        ensures { (other : List ℕ) → keeps self.new other ≡ true
            → (other ≡ text.now) ⊎ (keeps self.old other ≡ true) }
    {
        let length = text.len();
        if self.text_limit == 0 || length > self.byte_limit {
            return;
        }
        let Ok(copy) = String::from_str(alloc, text) else {
            return;
        };
        let mut texts = self.take_texts(alloc, length);
        if put(&mut texts, copy) {
            self.bytes_left -= length;
        }
        self.texts = Some(texts);
    }

    /// Takes the texts out beside which a text of so many bytes may be kept: those that are kept,
    /// or none where it would be one too many.
    fn take_texts(&mut self, alloc: Global, length: usize) -> HashSet<String>
        requires { length ≤ self.old.byte_limit }
        ensures room { length ≤ self.new.bytes_left }
        ensures kept { (other : List ℕ) → contains_text result other ≡ true
            → keeps self.old other ≡ true }
    {
        if let Some(texts) = self.texts.take() {
            if length <= self.bytes_left && texts.len() < self.text_limit {
                return texts;
            }
        }
        self.bytes_left = self.byte_limit;
        HashSet::new(alloc)
    }
}

/// Puts a text to others, and tells whether there was memory for it.
fn put(texts: &mut HashSet<String>, text: String) -> bool
    ensures { (other : List ℕ) → contains_text texts.new other ≡ true
        → (other ≡ string_bytes text) ⊎ (contains_text texts.old other ≡ true) }
{
    texts.insert(text).is_ok()
}
