//! Laws of the definitions: each function's contract is a law, and its body does nothing.

ghost use Rattle.graphql_literal_checks.specs.Laws.{ConformsWithoutPlaces};

use graphql_schema::{Meaning, SchemaScalar};

/// Whether a value conforms to a type does not depend on places: it does exactly where the value
/// without its places does, since checks accept all or none of values that are the same wherever
/// they stand.
pub fn conforming_without_places<S: SchemaScalar>()
    ensures { ConformsWithoutPlaces ⟦<S as Meaning>⟧.meaning }
{}
