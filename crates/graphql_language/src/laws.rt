//! Laws of documents, and those of what stands next and of lists: each function's contract is a
//! law, and its body does nothing.

ghost use Rattle.graphql_language.specs.Alike.{DifferInPlaces, RefusedAlike};
ghost use Rattle.graphql_language.specs.Texts.{OneDocument, DocumentOrRefused, NotBoth, OneFault};

pub use crate::parser_laws::{
    Production, lists_are_spelled, lists_leave_the_rest, type_or_refused, value_or_refused,
};
use graphql_values::ScalarValue;

/// A text is one document at most.
pub fn one_document<S: ScalarValue>()
    ensures { OneDocument S S.reads S.of_bool }
{}

/// Each text is a document or refused.
pub fn document_or_refused<S: ScalarValue>()
    ensures { DocumentOrRefused S S.reads S.of_bool }
{}

/// No text is both a document and refused.
pub fn not_both<S: ScalarValue>()
    ensures { NotBoth S S.reads S.of_bool }
{}

/// A text is refused by one fault at most, whatever scalars mean.
pub fn one_fault<S: ScalarValue>()
    ensures { OneFault S S.reads S.of_bool }
{}

/// Two texts whose tokens have the same kinds and texts, one by one, are both documents, which
/// differ in places alone, or both refused, with the same fault at the token of the same index
/// (GraphQL October 2021, 2.1.7 Ignored Tokens).
pub fn differ_in_places<S: ScalarValue>()
    ensures documents { DifferInPlaces S S.reads S.of_bool }
    ensures faults { RefusedAlike S S.reads S.of_bool }
{}
