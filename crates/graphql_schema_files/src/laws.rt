//! Laws of the definitions: each function's contract is a law, and its body does nothing.

ghost use Rattle.graphql_schema_files.specs.Laws.{FaultsHavePlaces, ToldFaultsHavePlaces};
ghost use Rattle.graphql_schema_files.specs.Laws.{ShapeFaultsStand, ToldShapesHaveFaults};
ghost use Rattle.graphql_schema_files.specs.Laws.{UnfitDefaultsDoNotConform};

use graphql_schema::Check;
use graphql_values::DefaultScalarValue;

/// [`place_of_fault`](crate::place_of_fault) tells a place of a name, of a type or of a default
/// exactly where a file has a name that is none, a type that is no type reference or a default that
/// is no constant literal.
pub fn faults_have_places()
    ensures { FaultsHavePlaces }
{}

/// Where [`SchemaFile::read`](crate::SchemaFile::read) tells that a file has a name that is none, a
/// type that is no type reference, or a default that is no constant literal or does not conform,
/// [`place_of_fault`](crate::place_of_fault) tells where.
pub fn told_faults_have_places<C: Check<DefaultScalarValue>>()
    ensures { ToldFaultsHavePlaces C.accepts }
{}

/// [`shape_fault`](crate::shape_fault) tells a member of JSON exactly where it has not the shape of
/// a schema's file.
pub fn shape_faults_stand()
    ensures { ShapeFaultsStand }
{}

/// Where [`SchemaFile::read`](crate::SchemaFile::read) tells that a file has not the shape of one,
/// [`shape_fault`](crate::shape_fault) tells a member.
pub fn told_shapes_have_faults<C: Check<DefaultScalarValue>>()
    ensures { ToldShapesHaveFaults C.accepts }
{}

/// Where [`SchemaFile::read`](crate::SchemaFile::read) tells of a default that it is the first that
/// does not conform in the schema, not each default conforms in it.
pub fn unfit_defaults_do_not_conform<C: Check<DefaultScalarValue>>()
    ensures { UnfitDefaultsDoNotConform C.accepts }
{}
