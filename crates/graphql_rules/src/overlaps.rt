//! Which types of a schema have a possible type in common, each two asked once.

ghost use Rattle.std.specs.Prelude.{◌≡◌, Bool, Some, None, IfOk, MatchOption};
ghost use Rattle.std.specs.Borrow.{Bor};
ghost use Rattle.std.specs.HashMap.{get};
ghost use Rattle.graphql_names.specs.Names.{Bytes};
ghost use Rattle.graphql_rules.specs.Overlaps as spec;
ghost use Rattle.graphql_schema.specs.Declarations.{declarations_of};
ghost use Rattle.graphql_schema.specs.Lookups.{type_named};

use graphql_names::Named;
use graphql_schema::SchemaType;
use std::alloc::{AllocError, Global};
use std::collections::HashMap;

/// A schema, and which of its types have been found apart: two that have no possible type in
/// common.
#[derive(Drop)]
pub(crate) struct Overlaps<'a, S, C> {
    schema: &'a SchemaType<S, C>,

    // Of the names of two types, whether they are apart.
    answers: HashMap<(&'a str, &'a str), bool>,

    ghost right: { (names : Bor Bytes × Bor Bytes) → (answer : Bool)
        → get spec.are_same answers names ≡ Some answer
        → answer ≡ spec.are_apart (declarations_of schema.now) names.0.now names.1.now },
}

impl<'a, S, C> Overlaps<'a, S, C> {
    /// The types of this schema, of which none have been asked. Answers will stand in memory of
    /// `alloc`.
    pub(crate) fn new(alloc: Global, schema: &'a SchemaType<S, C>) -> Overlaps<'a, S, C>
        ensures { result.schema ≡ schema.entry }
    {
        Overlaps {
            schema,
            answers: HashMap::new(alloc),
        }
    }

    /// Whether both names are those of types, which have no possible type in common. Takes two
    /// look-ups by binary search and one in a map, and at the first time of a pair what
    /// `type_overlap` takes. An error is want of memory for the answer.
    pub(crate) fn are_apart(&mut self, parent: &str, condition: &str) -> Result<bool, AllocError>
        ensures schema { self.new.schema ≡ self.old.schema }
        ensures answer { IfOk result (λ answer. answer
            ≡ spec.are_apart (declarations_of self.old.schema.now) parent.now condition.now) }
    {
        match (
            known_name(self.schema, parent),
            known_name(self.schema, condition),
        ) {
            (Some(parent), Some(condition)) => self.are_known_apart(parent, condition),
            _ => Ok(false),
        }
    }

    /// The same of names that the schema lends.
    fn are_known_apart(&mut self, parent: &'a str, condition: &'a str) -> Result<bool, AllocError>
        ensures schema { self.new.schema ≡ self.old.schema }
        ensures answer { IfOk result (λ answer. answer
            ≡ spec.are_apart (declarations_of self.old.schema.now) parent.now condition.now) }
    {
        match self.answers.get(&(parent, condition)) {
            Some(answer) => Ok(*answer),
            None => self.ask(parent, condition),
        }
    }

    /// The same of two names that have not been asked, which is kept.
    fn ask(&mut self, parent: &'a str, condition: &'a str) -> Result<bool, AllocError>
        ensures schema { self.new.schema ≡ self.old.schema }
        ensures answer { IfOk result (λ answer. answer
            ≡ spec.are_apart (declarations_of self.old.schema.now) parent.now condition.now) }
    {
        let answer = are_apart(self.schema, parent, condition);
        self.answers.insert((parent, condition), answer)?;
        Ok(answer)
    }
}

/// The name, as the schema lends it, where it is that of a type.
fn known_name<'a, S, C>(schema: &'a SchemaType<S, C>, name: &str) -> Option<&'a str>
    ensures { MatchOption result (type_named schema.now.types name.now ≡ None)
        (λ known. known.now ≡ name.now) }
{
    match schema.concrete_type_by_name(name) {
        Some(meta) => Some(Named::name(meta)),
        None => None,
    }
}

/// Whether both names are those of types, which have no possible type in common.
fn are_apart<S, C>(schema: &SchemaType<S, C>, parent: &str, condition: &str) -> bool
    ensures { result ≡ spec.are_apart (declarations_of schema.now) parent.now condition.now }
{
    match (
        schema.concrete_type_by_name(parent),
        schema.concrete_type_by_name(condition),
    ) {
        (Some(parent), Some(condition)) => !schema.type_overlap(parent, condition),
        _ => false,
    }
}
