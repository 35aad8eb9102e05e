//! Laws of plain texts: of requests that are asked for one, of plain texts that are read again, and
//! of requests whose texts have the same tokens. Each function's contract is a law, and its body
//! asks for the laws below it.

ghost use Rattle.graphql_plain_requests.specs.Laws.{AreValidAlike, PlainAreNotRefused};
ghost use Rattle.graphql_plain_requests.specs.Laws.{PlainRequestsStay};
ghost use Rattle.graphql_plain_requests.specs.Laws.{PlainTextStays, PlainTextsAreAccepted};
ghost use Rattle.graphql_plain_requests.specs.Laws.{PlainTextsAreDocuments, PlainTextsAreOne};
ghost use Rattle.graphql_plain_requests.specs.Laws.{SameTokensAreAskedAlike};
ghost use Rattle.graphql_plain_requests.specs.Laws.{UnusedValuesAreNotAsked};
ghost use Rattle.graphql_schema.specs.Declarations.{Declarations};

use graphql_lexer::laws::one_list;
use graphql_plain_text::laws::plain_text_is_document;
use graphql_plain_validity::laws::{
    plain_texts_are_valid, spelled_sets_are_whole, written_sets_are_filled,
};
pub use graphql_plain_validity::merging::fields_stay_merging;
pub use graphql_plain_validity::rules::{
    arguments_stay_conforming, arguments_stay_declared, arguments_stay_distinct,
    arguments_stay_provided, conditions_stay_composite, defaults_stay_conforming,
    directives_are_placed, fields_stay_declared, input_fields_stay_distinct,
    leaves_stay_without_sets, named_types_stay_known, no_spread_is_left,
    nothing_is_introspected_still, one_operation_is_left, spreads_stay_possible,
    variables_stay_of_input_types,
};
pub use graphql_plain_validity::variables::{
    uses_stay_allowed, uses_stay_defined, variable_names_stay_distinct, variables_stay_used,
};
use graphql_requests::laws::{executable_requests_are_not_refused, one_operation_is_executed};
use graphql_schema::{Meaning, RootNode, SchemaScalar};
use graphql_validation::laws::documents_without_a_fault_are_well_formed;
use graphql_values::ScalarValue;

/// A request has one plain text: it depends on the request's text, on the name of the operation, on
/// the values that are given for variables, and on the root node.
pub fn plain_texts_are_one<S: SchemaScalar>()
    ensures { PlainTextsAreOne ⟦<S as Meaning>⟧.meaning }
{
    one_list();
    one_operation_is_executed::<S>();
}

/// A request that has a plain text within a limit is refused by nothing but want of memory, so that
/// `TooLarge` comes exactly where it is larger, and `Refused` exactly where the request is refused.
pub fn plain_requests_are_not_refused<S: SchemaScalar>()
    ensures { PlainAreNotRefused ⟦<S as Meaning>⟧.meaning }
{
    executable_requests_are_not_refused::<S>();
    one_operation_is_executed::<S>();
}

/// The plain text of a request over this root node is UTF-8, and cut and parsed anew it is a
/// document of the grammar: its only tree is that of the plain operation, places aside (GraphQL
/// October 2021, 2 Language).
pub fn plain_texts_are_documents<S: SchemaScalar>(root_node: &RootNode<S>)
    ensures { PlainTextsAreDocuments ⟦<S as Meaning>⟧.meaning root_node.now }
{
    spelled_sets_are_whole::<S>();
    written_sets_are_filled(root_node.schema());
    documents_without_a_fault_are_well_formed::<S>();
    plain_text_is_document::<S>();
}

/// The plain text of a request over this root node is executed in the request's place, with the
/// same operation name and the same values for variables: it is a valid document, whose one
/// operation is the plain one but for places, has the name that is asked for, and takes the values.
/// For this the schema takes the stand-in `@skip(if: true)`: its `skip` and `include` are the
/// standard's, and its `Boolean` takes `true` (GraphQL October 2021, 6.1 Executing Requests).
pub fn plain_texts_are_accepted<S: SchemaScalar>(root_node: &RootNode<S>)
    ensures { PlainTextsAreAccepted ⟦<S as Meaning>⟧.meaning root_node.now }
{
    plain_texts_are_valid(root_node.schema());
    plain_text_is_document::<S>();
}

/// Where the plain document of a request is executed, so it is with other values for variables:
/// those that none of its fields uses it does not define, and which operation is executed does not
/// depend on them (GraphQL October 2021, 6.1.2 Coercing Variable Values).
pub fn unused_values_are_not_asked<S: SchemaScalar>()
    ensures { UnusedValuesAreNotAsked ⟦<S as Meaning>⟧.meaning }
{}

/// The plain text of an operation, cut and parsed anew, has itself as its plain text, byte for
/// byte, and as many fields and inline fragments, whatever values variables have then.
pub fn plain_text_stays<S: ScalarValue>()
    ensures { PlainTextStays S S.reads S.of_bool S.answer }
{}

/// Of documents that differ in places alone the one is valid where the other is: each rule finds no
/// fault in the one where it finds none in the other.
pub fn valid_alike<S: SchemaScalar>()
    ensures { (schema : Declarations S S.Check)
        → AreValidAlike ⟦<S as Meaning>⟧.meaning schema }
{}

/// A plain text within a limit, asked again with the same operation name, the same values for
/// variables and the same limit, has itself as its plain text, byte for byte, and no other, and is
/// refused by nothing but want of memory. For this the schema takes the stand-in.
pub fn plain_requests_stay<S: SchemaScalar>(root_node: &RootNode<S>)
    ensures { PlainRequestsStay ⟦<S as Meaning>⟧.meaning root_node.now }
{
    plain_texts_are_accepted(root_node);
    plain_texts_are_one::<S>();
    plain_requests_are_not_refused::<S>();
    plain_text_stays::<S>();
}

/// Requests with one operation name and the same values for variables, whose texts have the same
/// tokens, are refused at the same step, or else executed both, and have the same plain text within
/// each limit (GraphQL October 2021, 2.1.7 Ignored Tokens).
pub fn same_tokens_are_asked_alike<S: SchemaScalar>(root_node: &RootNode<S>)
    ensures { SameTokensAreAskedAlike ⟦<S as Meaning>⟧.meaning root_node.now }
{
    valid_alike::<S>();
}
