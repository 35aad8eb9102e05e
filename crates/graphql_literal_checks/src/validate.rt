//! Why values do not conform to types, in words.

ghost use Rattle.std.specs.Prelude.{IfOk, MatchOption};
ghost use Rattle.graphql_literal_checks.specs.Conforms.{Conforms};
ghost use Rattle.graphql_literal_checks.specs.Judged.{asked_for};
ghost use Rattle.graphql_literal_checks.specs.declared.source.Source.TheVariants.{Literal};

use crate::conforming::Judge;
use crate::misfit::Misfit;
use crate::source::Source;
use graphql_names::{Type, TypeModifier};
use graphql_schema::{Meaning, SchemaScalar, SchemaType};
use graphql_text::Text;
use graphql_values::InputValue;
use std::alloc::{AllocError, Global};
use std::convert::{AsSlice, AsStr};

/// Why a literal does not conform to a type of the schema (GraphQL October 2021, 5.6.1 Values of
/// Correct Type), in words: the first fault in the order of the text. `None` where it conforms.
/// What is yet to be judged stands on the heap, so a deep value takes no more stack. Takes time in
/// proportion to the value, to the look-ups of types and fields by name, and for each object in it
/// to the fields that its type declares. An error is want of memory.
pub fn validate_literal_value<S: SchemaScalar, N: AsStr, M: AsSlice<TypeModifier>>(
    alloc: Global,
    schema: &SchemaType<S>,
    asked: &Type<N, M>,
    value: &InputValue<S>,
) -> Result<Option<Text>, AllocError>
    ensures { IfOk result
        (λ reason. MatchOption reason (Conforms ⟦<S as Meaning>⟧.meaning schema.now.types Literal
        (asked_for N.text M.items asked.now) value.now) (λ _. Conforms ⟦<S as Meaning>⟧.meaning
        schema.now.types Literal (asked_for N.text M.items asked.now) value.now → ⊥)) }
{
    validate_value(alloc, schema, Source::Literal, asked, value)
}

/// The same of a value from this source.
pub fn validate_value<S: SchemaScalar, N: AsStr, M: AsSlice<TypeModifier>>(
    alloc: Global,
    schema: &SchemaType<S>,
    source: Source,
    asked: &Type<N, M>,
    value: &InputValue<S>,
) -> Result<Option<Text>, AllocError>
    ensures { IfOk result
        (λ reason. MatchOption reason (Conforms ⟦<S as Meaning>⟧.meaning schema.now.types source
        (asked_for N.text M.items asked.now) value.now) (λ _. Conforms ⟦<S as Meaning>⟧.meaning
        schema.now.types source (asked_for N.text M.items asked.now) value.now → ⊥)) }
{
    let judge = Judge {
        alloc,
        schema,
        source,
    };
    match judge.judge(&asked.borrowed(), value) {
        Ok(()) => Ok(None),
        Err(Misfit::Reason(reason)) => Ok(Some(reason)),
        Err(Misfit::Memory) => Err(AllocError),
    }
}
