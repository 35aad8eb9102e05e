//! Laws of answers to alike selection sets: each function's contract is a law, and its body does
//! nothing.

ghost use Rattle.graphql_plain_answers.specs.Lawful.{IsLawful};
ghost use Rattle.graphql_plain_answers.specs.Laws.{AlikeChangeTheSame, AlikeGiveTheSame};
ghost use Rattle.graphql_plain_answers.specs.Laws.{OutcomesSucceedAlike, PlacesDoNotCount};
ghost use Rattle.graphql_plain_answers.specs.Laws.{PlainChangeTheSame, PlainDocumentIsPlain};
ghost use Rattle.graphql_plain_answers.specs.Laws.{PlainDocumentsAnswerAlike};
ghost use Rattle.graphql_plain_answers.specs.Laws.{SameDocumentsAnswerAlike};
ghost use Rattle.graphql_plain_answers.specs.Laws.{UnusedVariablesDoNotCount};
ghost use Rattle.graphql_plain_answers.specs.Laws.{UsedDefinitionsSuffice};

use graphql_mutation::GraphQLMutationValue;
pub use graphql_plain_laws::laws::plain_gives_the_same;
pub use graphql_plain_tree::laws::fields_of_plain;
use graphql_plain_tree::laws::stand_in_leaves_out;
use graphql_schema::SchemaScalar;
use graphql_values::ScalarValue;

/// Selection sets that are alike for two engines over one schema give the same value, and the same
/// failures but for their places: the fields have the same keys and names and are answered the
/// same, and the same selections are left out (GraphQL October 2021, 6.3 Executing Selection Sets).
pub fn alike_give_the_same<S, N>()
    ensures { AlikeGiveTheSame S N }
{}

/// Where selection sets are so on each context, and the fields of a mutation's root are answered
/// and change it the same, they leave the same context too (GraphQL October 2021, 6.2.2 Mutation).
pub fn alike_change_the_same<S, N, X>()
    ensures { AlikeChangeTheSame S N X }
{}

/// Plain selection sets of a mutation give the same value and the same failures as the sets, and
/// leave the same context, where the directives of a stand-in leave out and no directives do not.
pub fn plain_change_the_same<S, N, X>()
    ensures { PlainChangeTheSame S N X }
{}

/// What a resolver answers, and what it changes at a mutation's root, depends on what a field's
/// argument values are, and not on where they stand in a text. Each resolver of queries and
/// mutations keeps these laws.
pub fn resolvers_are_lawful<S: SchemaScalar, R: GraphQLMutationValue<S>>(resolver: &R)
    ensures { IsLawful S.eq (R.answer resolver.now) (R.changes resolver.now) }
{}

/// Selection sets that are the same but for their places in a text are alike, over each schema and
/// each such resolver: no place of an argument's value counts, nor one in a condition.
pub fn places_do_not_count<S: ScalarValue, C, N, X>()
    ensures { PlacesDoNotCount S.of_text S.of_bool S.answer S.eq C N X }
{}

/// Plain selection sets that are the same but for their places are alike also where variables have
/// other values that no field of the set uses.
pub fn unused_variables_do_not_count<S: ScalarValue, C, N, X>()
    ensures { UnusedVariablesDoNotCount S.of_text S.of_bool S.answer S.eq C N X }
{
    stand_in_leaves_out::<S>();
}

/// The definitions of variables that are still used, without their directives, give each name that
/// is used the final value that all definitions give it (GraphQL October 2021, 6.1.2 Coercing
/// Variable Values).
pub fn used_definitions_suffice<S>()
    ensures { UsedDefinitionsSuffice S }
{}

/// The operation of a document that is a plain operation's but for places is the plain operation
/// but for places: it is of its kind, has its selection set, and gives each variable that the set
/// uses its final value. This holds where no inline fragment of the first operation has an empty
/// set, and a field a set exactly where one was written.
pub fn plain_document_is_plain<S: ScalarValue>()
    ensures { PlainDocumentIsPlain S.answer S.of_bool }
{}

/// Outcomes that are the same but for places have the same value, and failures in both or in
/// neither.
pub fn outcomes_succeed_alike<S, A>()
    ensures { OutcomesSucceedAlike S A }
{}

/// An operation and the operation of its plain document give the same value, and the same failures
/// but for their places, and leave the same context: as a query and as a mutation, over each schema
/// and each resolver that keeps its laws. The plain document is one that is the plain operation's
/// but for places; variables that none of its fields uses may have other values there. This holds
/// where no inline fragment of the first operation has an empty set, and a field a set exactly
/// where one was written.
pub fn plain_documents_answer_alike<S: ScalarValue, C, N, X>()
    ensures { PlainDocumentsAnswerAlike S.of_text S.of_bool S.answer S.eq C N X }
{
    stand_in_leaves_out::<S>();
}

/// Operations of documents that differ in places alone give the same value, and the same failures
/// but for their places, and leave the same context: as queries and as mutations, over each schema
/// and each resolver that keeps its laws.
pub fn same_documents_answer_alike<S: ScalarValue, C, N, X>()
    ensures { SameDocumentsAnswerAlike S.of_text S.of_bool S.answer S.eq C N X }
{}
