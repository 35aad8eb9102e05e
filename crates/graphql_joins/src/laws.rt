//! Laws of joined answers: each function's contract is a law, and its body does nothing.
//!
//! The first are laws of any engine that is sound, the last those of requests: their engines are
//! sound, and of a valid document each selection set is one for which the first hold.

ghost use Rattle.graphql_joins.specs.Laws.{JoinsAreOne, OwnSetsFitTogether, SetsJoin};
ghost use Rattle.graphql_joins.specs.Laws.{SameArgumentsGiveTheSame, SelectionsJoin};
ghost use Rattle.graphql_joins.specs.Laws.{TypesAreCovariant};
ghost use Rattle.graphql_joins.specs.RequestLaws.{DocumentSetsFit, EqualsAnswerAlike, PartsJoin};
ghost use Rattle.graphql_joins.specs.RequestLaws.{QueriesStand, RequestsAreSound};
ghost use Rattle.graphql_schema.specs.Schemas.{roots_of};

use graphql_scalars::{DefaultScalarValue, ScalarValue};
use graphql_schema::{Meaning, SchemaScalar, SchemaType};

/// Two values have one join at most.
pub fn joins_are_one<S>()
    ensures { JoinsAreOne S }
{}

/// Selection sets that merge together give on a node, together, the join of what each part gives
/// there.
pub fn sets_join<S: PartialEq, C, N>()
    ensures { SetsJoin S C N S.eq }
{}

/// The own selection sets of all fields of a response key are such sets again, on each object that
/// the fields can give (6.4.3 Value Completion, MergeSelectionSets).
pub fn own_sets_fit_together<S: PartialEq, C, N>()
    ensures { OwnSetsFitTogether S C N S.eq }
{}

/// Selections that stand one behind the other in a set that merges give on a node the join of what
/// each part gives there.
pub fn selections_join<S: PartialEq, C, N>()
    ensures { SelectionsJoin S C N S.eq }
{}

/// Of a schema that can be executed: an object that can stand at what an object type's field
/// declares is below the type that each type above that object type declares for the field (3.6
/// Objects, IsValidImplementationFieldType).
pub fn types_are_covariant<S, C>(schema: &SchemaType<S, C>)
    ensures { TypesAreCovariant schema.now.types (roots_of schema.now) }
{}

/// Written arguments that are the same, in whichever order, are the same values under each name,
/// whatever values variables have (6.4.1 Coercing Field Arguments).
pub fn same_arguments_give_the_same<S: Eq>()
    ensures { SameArgumentsGiveTheSame S S.eq }
{}

/// Over a schema that can be executed, what a request asks of a resolver that goes by what
/// arguments are is sound, where scalars that are the same answer the same.
pub fn requests_are_sound<S: SchemaScalar, N>()
    ensures { RequestsAreSound S.of_text S.of_bool S.answer S.eq S.Check N }
{}

/// The selection set of a query stands in its document, and selects from a type at which the root
/// of queries can stand: itself (3.3.1 Root Operation Types).
pub fn queries_stand<S, C>()
    ensures { QueriesStand S C }
{}

/// Over a schema that can be executed each selection set of a valid document can be selected from
/// for each object type that is possible there: so by [`sets_join`] it gives the join of what its
/// parts give, and by [`own_sets_fit_together`] so do, however deep, the own selection sets of all
/// fields of a response key in it.
pub fn document_sets_fit<S: SchemaScalar>()
    ensures { DocumentSetsFit ⟦<S as Meaning>⟧.meaning }
{}

/// In a valid document, over a schema that can be executed and scalars of which those that are the
/// same answer the same: on a node, for an object type that is possible where they stand, and by
/// any values of variables, selections one behind the other give the join of what each part gives.
pub fn parts_join<S: SchemaScalar, N>()
    ensures { PartsJoin ⟦<S as Meaning>⟧.meaning N }
{}

/// Scalars of the default type that are the same answer the same.
pub fn default_scalars_answer_alike()
    ensures { EqualsAnswerAlike ⟦<DefaultScalarValue as PartialEq>⟧.eq
        ⟦<DefaultScalarValue as ScalarValue>⟧.answer }
{}
