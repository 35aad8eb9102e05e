//! Values that are asked for by a name and a kind, and have to be there.

ghost use Rattle.std.specs.Prelude.{map};
ghost use Rattle.graphql_resolvers.specs.Asked as spec;
ghost use Rattle.graphql_resolvers.specs.Refusals.{TellsBy};
ghost use Rattle.graphql_resolvers.specs.Told.{given_to};

use crate::asks::Asked;
use crate::given::Given;
use crate::refusals::refused;
use graphql_text::Text;

impl<'a> Given<'a> {
    /// The text that stands under this name, or the name of the enum value. `null`, or nothing, is
    /// an error too.
    pub fn word(&self, name: &str) -> Asked<&'a str>
        ensures { TellsBy (λ word. word.now) result (spec.word (given_to self.now) name.now) }
    {
        match self.word_or_null(name) {
            Ok(Some(found)) => Ok(found),
            Ok(None) => Err(refused(self.alloc, name, "not given")),
            Err(fault) => Err(fault),
        }
    }

    /// The integer that stands under this name.
    pub fn int(&self, name: &str) -> Asked<i32>
        ensures { TellsBy (λ value. value) result (spec.int (given_to self.now) name.now) }
    {
        match self.int_or_null(name) {
            Ok(Some(found)) => Ok(found),
            Ok(None) => Err(refused(self.alloc, name, "not given")),
            Err(fault) => Err(fault),
        }
    }

    /// What of `true` and `false` stands under this name.
    pub fn boolean(&self, name: &str) -> Asked<bool>
        ensures { TellsBy (λ value. value) result (spec.boolean (given_to self.now) name.now) }
    {
        match self.boolean_or_null(name) {
            Ok(Some(found)) => Ok(found),
            Ok(None) => Err(refused(self.alloc, name, "not given")),
            Err(fault) => Err(fault),
        }
    }

    /// The integer that stands under this name and is not negative, as a count.
    pub fn count(&self, name: &str) -> Asked<usize>
        ensures { TellsBy (λ value. value) result (spec.count (given_to self.now) name.now) }
    {
        match self.count_or_null(name) {
            Ok(Some(found)) => Ok(found),
            Ok(None) => Err(refused(self.alloc, name, "not given")),
            Err(fault) => Err(fault),
        }
    }

    /// The id that stands under this name, a text or an integer, as a text. It takes memory.
    pub fn id(&self, name: &str) -> Asked<Text>
        ensures { TellsBy (λ id. id) result (spec.id (given_to self.now) name.now) }
    {
        match self.id_or_null(name) {
            Ok(Some(found)) => Ok(found),
            Ok(None) => Err(refused(self.alloc, name, "not given")),
            Err(fault) => Err(fault),
        }
    }

    /// The texts, or the names of enum values, that stand under this name, in order.
    pub fn words(&self, name: &str) -> Asked<Vec<&'a str>>
        ensures { TellsBy (λ words. map (λ word. word.now) words.items) result
            (spec.words (given_to self.now) name.now) }
    {
        match self.words_or_null(name) {
            Ok(Some(found)) => Ok(found),
            Ok(None) => Err(refused(self.alloc, name, "not given")),
            Err(fault) => Err(fault),
        }
    }

    /// The integers that stand under this name, in order.
    pub fn integers(&self, name: &str) -> Asked<Vec<i32>>
        ensures { TellsBy (λ integers. integers.items) result
            (spec.integers (given_to self.now) name.now) }
    {
        match self.integers_or_null(name) {
            Ok(Some(found)) => Ok(found),
            Ok(None) => Err(refused(self.alloc, name, "not given")),
            Err(fault) => Err(fault),
        }
    }

    /// The ids that stand under this name, as texts, in order.
    pub fn ids(&self, name: &str) -> Asked<Vec<Text>>
        ensures { TellsBy (λ ids. ids.items) result (spec.ids (given_to self.now) name.now) }
    {
        match self.ids_or_null(name) {
            Ok(Some(found)) => Ok(found),
            Ok(None) => Err(refused(self.alloc, name, "not given")),
            Err(fault) => Err(fault),
        }
    }

    /// The fields of the input object that stands under this name.
    pub fn part(&self, name: &str) -> Asked<Given<'a>>
        ensures { TellsBy (given_to) result (spec.part (given_to self.now) name.now) }
    {
        match self.part_or_null(name) {
            Ok(Some(found)) => Ok(found),
            Ok(None) => Err(refused(self.alloc, name, "not given")),
            Err(fault) => Err(fault),
        }
    }
}
