//! Pairs of numbers that wait, each to be given out once.

ghost use Rattle.std.specs.Prelude.{◌≡◌, ◌↔◌, ℕ, ◌<◌, eqb, true, false, [], length, IsTrue, IfOk};
ghost use Rattle.std.specs.Prelude.{OnOk, OnErr, MatchOption};
ghost use Rattle.std.specs.List.{list_any};
ghost use Rattle.graphql_rules_merging.specs.PairTables.{has_pair, words_at, SamePairs, PutsPair};
ghost use Rattle.graphql_rules_merging.specs.PairTables.{TakesPair, HasNone, AreListed, AreOnce};
ghost use Rattle.graphql_rules_merging.specs.PairTables.{HasBegun, GivesPair};

use crate::numbers::Numbers;
use graphql_text::Items;
use std::alloc::{AllocError, Global};

/// Pairs of numbers that wait, and those that were given out. For each second number that was put
/// in it takes two bits of memory for each first number up to the greatest: no more for pairs that
/// wait, however many they are.
#[derive(Drop)]
pub(crate) struct PairQueue {
    // Those that wait: in the row of the second number the first.
    waiting: Items<Numbers>,

    // Those that were given out.
    given: Items<Numbers>,

    // The rows in which pairs may wait.
    rows: Items<usize>,

    ghost listed: { AreListed waiting rows },

    ghost once: { AreOnce given waiting },
}

/// Whether a table has a pair.
fn has_pair(table: &Items<Numbers>, left: usize, right: usize) -> bool
    ensures { result ≡ has_pair table.now left right }
{
    match table.get(right) {
        Some(row) => row.has(left),
        None => false,
    }
}

/// Lengthens a table, so that it has a row of this number. An error is want of memory.
fn lengthen(table: &mut Items<Numbers>, right: usize) -> Result<(), AllocError>
    ensures long { OnOk result (right < length table.new) }
    ensures same { (k : ℕ) → words_at table.new k ≡ words_at table.old k }
{
    let alloc = *table.allocator();
    'rows: while table.len() <= right {
        table.push(Numbers::new(alloc))?;
    }
    Ok(())
}

/// Puts a pair into a table. An error is want of memory.
fn put_pair(table: &mut Items<Numbers>, left: usize, right: usize) -> Result<(), AllocError>
    ensures put { OnOk result (PutsPair left right table.old table.new) }
    ensures err { OnErr result (SamePairs table.old table.new) }
    ensures others { (k : ℕ) → (k ≡ right → ⊥) → words_at table.new k ≡ words_at table.old k }
{
    lengthen(table, right)?;
    table[right].add(left)
}

/// Whether the row of a second number is empty: then no pair is in it.
fn is_empty_row(table: &Items<Numbers>, right: usize) -> bool
    ensures { IsTrue result ↔ (words_at table.now right ≡ []) }
{
    match table.get(right) {
        Some(row) => row.is_empty(),
        None => true,
    }
}

/// Puts a row among those in which pairs may wait, unless it is there. An error is want of memory.
fn list_row(table: &Items<Numbers>, rows: &mut Items<usize>, right: usize) -> Result<(), AllocError>
    requires { AreListed table.now rows.old }
    ensures listed { AreListed table.now rows.new }
    ensures there { OnOk result (list_any (eqb right) rows.new ≡ true) }
{
    if is_empty_row(table, right) {
        rows.push(right)?;
    }
    Ok(())
}

/// Takes a pair of this second number out of a table and gives its first, if there is one.
fn take_of_row(table: &mut Items<Numbers>, right: usize) -> Option<usize>
    ensures others { (k : ℕ) → (k ≡ right → ⊥) → words_at table.new k ≡ words_at table.old k }
    ensures taken { MatchOption result
        ((words_at table.new right ≡ []) × ((p : ℕ) → has_pair table.old p right ≡ false))
        (λ left. TakesPair left right table.old table.new) }
{
    if right < table.len() {
        return table[right].take();
    }
    None
}

/// Takes a pair out of a table and gives it, if there is one: in the last of these rows in which
/// there is one. Those that stand behind it are taken away.
fn take_pair(table: &mut Items<Numbers>, rows: &mut Items<usize>) -> Option<(usize, usize)>
    requires { AreListed table.old rows.old }
    ensures listed { AreListed table.new rows.new }
    ensures taken { MatchOption result (HasNone table.old table.new)
        (λ pair. TakesPair pair.0 pair.1 table.old table.new) }
{
    'rows: while let Some(right) = rows.last().copied() {
        if let Some(left) = take_of_row(table, right) {
            return Some((left, right));
        }
        rows.pop();
    }
    None
}

impl PairQueue {
    /// No pairs. Takes no memory.
    pub(crate) fn new(alloc: Global) -> PairQueue
        ensures waiting { result.waiting ≡ [] }
        ensures given { result.given ≡ [] }
    {
        PairQueue {
            waiting: Items::new(alloc),
            given: Items::new(alloc),
            rows: Items::new(alloc),
        }
    }

    /// Puts a pair in, unless it waits or was given out. An error is want of memory.
    pub(crate) fn begin(&mut self, left: usize, right: usize) -> Result<(), AllocError>
        ensures given { self.new.given ≡ self.old.given }
        ensures begun { OnOk result
            (HasBegun left right self.old.given self.old.waiting self.new.waiting) }
    {
        if has_pair(&self.given, left, right) || has_pair(&self.waiting, left, right) {
            return Ok(());
        }
        list_row(&self.waiting, &mut self.rows, right)?;
        put_pair(&mut self.waiting, left, right)
    }

    /// Gives out one of the pairs that wait, if there is one. An error is want of memory.
    pub(crate) fn next(&mut self) -> Result<Option<(usize, usize)>, AllocError>
        ensures { IfOk result (λ next. MatchOption next (HasNone self.old.waiting self.new.waiting
            × (self.new.given ≡ self.old.given)) (λ pair. GivesPair pair.0 pair.1 self.old.given
            self.new.given self.old.waiting self.new.waiting)) }
    {
        let Some((left, right)) = take_pair(&mut self.waiting, &mut self.rows) else {
            return Ok(None);
        };
        put_pair(&mut self.given, left, right)?;
        Ok(Some((left, right)))
    }
}
