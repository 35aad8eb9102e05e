//! Laws of merging in plain documents: each function's contract is a law, and its body does
//! nothing.

ghost use Rattle.graphql_schema.specs.Declarations.{Declarations};
ghost use Rattle.graphql_plain_validity.specs.MergingLaws.{FieldsStayMerging, MergesWithoutPlaces};

use graphql_values::ScalarValue;

/// Whether the fields of a selection set merge does not depend on places.
pub fn merging_without_places<S: ScalarValue, C>()
    ensures { MergesWithoutPlaces S C S.eq }
{}

/// Where the fields of each selection set of a document merge, those of each selection set of its
/// plain document do (5.3.2 Field Selection Merging).
pub fn fields_stay_merging<S: ScalarValue, C>()
    ensures { (schema : Declarations S C) → FieldsStayMerging S.eq schema S.answer S.of_bool }
{}
