//! Sets of numbers, a bit for each.

ghost use Rattle.std.specs.Prelude.{◌≡◌, ◌↔◌, ℕ, List, ◌+◌, ◌-◌, ◌/◌, ◌^◌, ◌<◌, ◌≤◌, ◌||◌, ◌&&◌};
ghost use Rattle.std.specs.Prelude.{not, eqb, true, false, [], length, get_or, IsTrue, OnOk, OnErr};
ghost use Rattle.std.specs.Prelude.{MatchOption};
ghost use Rattle.graphql_rules_merging.specs.Numbers.{has_number};

use graphql_text::Items;
use std::alloc::{AllocError, Global};
use std::marker::Model;

/// A set of numbers. It takes a bit of memory for each number up to the greatest that was put into
/// it.
#[derive(Drop)]
pub(crate) struct Numbers {
    // Each has the bits of 64 numbers, the lowest that of the smallest number.
    words: Items<u64>,
}

/// A contract sees the words: no more than for all numbers.
impl Model for Numbers {
    ghost Value = { List ℕ };

    ghost view = { λ numbers. numbers.words };

    ghost invariant = { λ numbers. length numbers.words ≤ 2 ^ 58 };
}

/// Lengthens a list of words with zeros, so that it has a word at this place. An error is want of
/// memory.
fn lengthen(words: &mut Items<u64>, place: usize) -> Result<(), AllocError>
    requires place { place < 2 ^ 58 }
    requires bound { length words.old ≤ 2 ^ 58 }
    ensures bound { length words.new ≤ 2 ^ 58 }
    ensures long { OnOk result (place < length words.new) }
    ensures same { (k : ℕ) → get_or words.new k 0 ≡ get_or words.old k 0 }
{
    'words: while words.len() <= place {
        words.push(0)?;
    }
    Ok(())
}

/// The last word that is not zero, if there is one. Those that stand behind it are taken away.
fn last_word(words: &mut Items<u64>) -> Option<u64>
    ensures bound { length words.new ≤ length words.old }
    ensures same { (k : ℕ) → get_or words.new k 0 ≡ get_or words.old k 0 }
    ensures last { MatchOption result (words.new ≡ []) (λ word. (0 < word)
        × (0 < length words.new)
        × (get_or words.new (length words.new - 1) 0 ≡ word)) }
{
    'words: while let Some(word) = words.last().copied() {
        if word != 0 {
            return Some(word);
        }
        words.pop();
    }
    None
}

impl Numbers {
    /// No number. Takes no memory.
    pub(crate) fn new(alloc: Global) -> Numbers
        ensures { result ≡ [] }
    {
        Numbers {
            words: Items::new(alloc),
        }
    }

    /// Whether nothing was put into the set, or all that was is known to be taken out.
    pub(crate) fn is_empty(&self) -> bool
        ensures { IsTrue result ↔ (self.now ≡ []) }
    {
        self.words.is_empty()
    }

    /// Whether a number is in the set.
    pub(crate) fn has(&self, number: usize) -> bool
        ensures { result ≡ has_number self.now number }
    {
        match self.words.get(number / 64) {
            Some(word) => (*word >> (number % 64)) & 1 == 1,
            None => false,
        }
    }

    /// Puts a number into the set. An error is want of memory.
    pub(crate) fn add(&mut self, number: usize) -> Result<(), AllocError>
        ensures ok { OnOk result
            ((n : ℕ) → has_number self.new n ≡ (eqb n number || has_number self.old n)) }
        ensures err { OnErr result ((n : ℕ) → has_number self.new n ≡ has_number self.old n) }
    {
        let place = number / 64;
        lengthen(&mut self.words, place)?;
        self.words[place] |= 1u64 << (number % 64);
        Ok(())
    }

    /// Takes a number out of the set and gives it, if there is one. It is in the last word that has
    /// one, and the words behind go.
    pub(crate) fn take(&mut self) -> Option<usize>
        ensures { MatchOption result ((self.new ≡ []) × ((n : ℕ) → has_number self.old n ≡ false))
            (λ number. (has_number self.old number ≡ true)
            × ((n : ℕ) → has_number self.new n ≡ (not (eqb n number) && has_number self.old n))) }
    {
        let Some(last) = last_word(&mut self.words) else {
            return None;
        };
        let place = self.words.len() - 1;
        let bit = last.trailing_zeros();
        self.words[place] = last & !(1u64 << bit);
        Some(place * 64 + bit as usize)
    }
}
