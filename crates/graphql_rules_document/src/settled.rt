//! Laws of what is written out for spreads: each function's contract is a law, and its body does
//! nothing.

ghost use Rattle.graphql_schema.specs.Declarations.{declarations_of};
ghost use Rattle.graphql_rules_document.specs.Counted.{FieldTypesAreKnown};
ghost use Rattle.graphql_rules_document.specs.SettledLaws.{EndingFragmentsAreSettled};

use graphql_schema::SchemaType;

/// The types of all fields of a schema are types of the schema, that of `__typename` too.
pub fn field_types_are_known<S, C>(schema: &SchemaType<S, C>)
    ensures { FieldTypesAreKnown (declarations_of schema.now) }
{}

/// Where the fields of a document are declared and its conditions known, fragments whose spreads
/// end are written out by as many levels as there are fragments.
pub fn ending_fragments_are_settled<S, C>(schema: &SchemaType<S, C>)
    ensures { EndingFragmentsAreSettled (declarations_of schema.now) }
{}
