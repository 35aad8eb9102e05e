//! A borrowed text that contracts see as its bytes.

ghost use Rattle.std.specs.Prelude.{◌≡◌, ℕ, List, [], length, ◌↔◌, IsTrue, Some, ⊤, refl};
ghost use Rattle.std.specs.Cmp.{partial_equiv_from_equiv};
ghost use Rattle.std.specs.Cmp.Lexicographic.{slice_cmp, nat_list_eq_equiv, nat_list_cmp_total};
ghost use Rattle.std.specs.Cmp.Lexicographic.{texts_po, texts_ties};
ghost use Rattle.std.specs.Cmp.Rules.{hashing};
ghost use Rattle.std.specs.Hash as fed;
ghost use Rattle.std.specs.Ordering.{nat_cmp};
ghost use Rattle.std.specs.Str.{bytes_eq};
ghost use Rattle.std.proofs.Common.{rules};

use std::alloc::AllocError;
use std::cmp::Ordering;
use std::convert::AsStr;
use std::fmt;
use std::hash::{Hash, Hasher};
use std::marker::Model;

/// A `&str` that contracts see as its bytes alone: two of one text are equal, wherever they stand.
#[derive(Drop)]
pub struct TextRef<'a> {
    held: &'a str,
}

impl<'a> Model for TextRef<'a> {
    ghost Value = { List ℕ };

    ghost view = { λ a. a.held.now };
}

impl<'a> TextRef<'a> {
    /// The text, borrowed.
    pub fn new(text: &'a str) -> TextRef<'a>
        ensures { result ≡ text.now }
    {
        TextRef { held: text }
    }

    /// The text itself.
    pub fn as_str(&self) -> &'a str
        ensures { result.now ≡ self.now }
    {
        self.held
    }

    /// The same text again, borrowed once more.
    pub fn copied(&self) -> TextRef<'a>
        ensures { result ≡ self.now }
    {
        TextRef { held: self.held }
    }

    /// How many bytes the text has.
    pub fn len(&self) -> usize
        ensures { result ≡ length self.now }
    {
        self.held.len()
    }

    /// Whether the text has no byte.
    pub fn is_empty(&self) -> bool
        ensures { IsTrue result ↔ (self.now ≡ []) }
    {
        self.held.is_empty()
    }

    /// Whether the text is this one.
    pub fn is(&self, text: &str) -> bool
        ensures { IsTrue result ↔ (self.now ≡ text.now) }
    {
        self.held == text
    }
}

/// Borrows the text.
impl<'a> From<&'a str> for TextRef<'a> {
    ghost from_gives = { λ s t. t ≡ s.now };

    fn from(text: &'a str) -> TextRef<'a> {
        TextRef { held: text }
    }
}

impl<'a> AsStr for TextRef<'a> {
    ghost text = { λ t. t };

    fn as_str(&self) -> &str {
        self.held
    }
}

/// Borrows the text once more, which takes no memory and can't fail.
impl<'a> Clone for TextRef<'a> {
    ghost is_clone = { λ x y. y ≡ x };

    ghost is_infallible = { λ _. ⊤ };

    fn clone(&self) -> Result<TextRef<'a>, AllocError> {
        Ok(TextRef { held: self.held })
    }
}

/// Compares the bytes.
impl<'a> PartialEq for TextRef<'a> {
    ghost eq = { bytes_eq };

    ghost laws = { partial_equiv_from_equiv nat_list_eq_equiv };

    fn eq(&self, other: &TextRef<'a>) -> bool {
        self.held == other.held
    }
}

impl<'a> Eq for TextRef<'a> {
    ghost laws = { nat_list_eq_equiv };
}

/// By the first bytes that differ, which is also the order of the characters; a text that
/// another begins with comes before it.
impl<'a> PartialOrd for TextRef<'a> {
    ghost partial_cmp = { λ a b. Some (slice_cmp nat_cmp a b) };

    ghost laws = { texts_po };

    fn partial_cmp(&self, other: &TextRef<'a>) -> Option<Ordering> {
        Some(self.cmp(other))
    }
}

impl<'a> Ord for TextRef<'a> {
    ghost cmp = { slice_cmp nat_cmp };

    ghost total = { nat_list_cmp_total };

    ghost matches_partial_cmp = { λ a b. refl };

    ghost matches_eq = { texts_ties };

    fn cmp(&self, other: &TextRef<'a>) -> Ordering {
        self.held.cmp(other.held)
    }
}

/// Feeds the bytes, as a `&str` does.
impl<'a> Hash for TextRef<'a> {
    ghost hash_input = { fed.str };

    ghost respects_eq = { Prim.search (hashing, rules) };

    fn hash<H: Hasher>(&self, state: &mut H) {
        self.held.hash(state);
    }
}

/// Writes the text.
impl<'a> fmt::Display for TextRef<'a> {
    ghost output = { λ t. Some t };

    fn fmt<W: fmt::Write>(&self, f: &mut fmt::Formatter<W>) -> fmt::Result {
        let held = self.held;
        write!(f, "{held}")
    }
}

/// Writes the text between quotes, as a `&str` does.
impl<'a> fmt::Debug for TextRef<'a> {
    fn fmt<W: fmt::Write>(&self, f: &mut fmt::Formatter<W>) -> fmt::Result {
        let held = self.held;
        write!(f, "{held:?}")
    }
}
