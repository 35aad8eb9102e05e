//! Laws of the validity of plain documents, and of the selection sets of documents: each function's
//! contract is a law, and its body does nothing.

ghost use Rattle.graphql_schema.specs.Declarations.{declarations_of};
ghost use Rattle.graphql_plain_validity.specs.Laws.{PlainDocumentsStayValid, PlainTextsAreValid};
ghost use Rattle.graphql_plain_validity.specs.Laws.{SpelledSetsAreWhole, WrittenSetsAreFilled};

use graphql_schema::{Meaning, SchemaScalar, SchemaType};
use graphql_values::ScalarValue;

/// The plain document of a valid document is valid. For this the schema has the standard's `skip`
/// and a `Boolean` that takes `true`, the operation's root type is there, and no variable stands in
/// a default.
pub fn plain_documents_stay_valid<S: SchemaScalar>(schema: &SchemaType<S>)
    ensures { PlainDocumentsStayValid ⟦<S as Meaning>⟧.meaning (declarations_of schema.now) }
{}

/// The plain text of an operation of a text that is a valid document is a valid document itself,
/// cut and parsed anew, and that document alone, over the same schemas.
pub fn plain_texts_are_valid<S: SchemaScalar>(schema: &SchemaType<S>)
    ensures { PlainTextsAreValid ⟦<S as Meaning>⟧.meaning (declarations_of schema.now) }
{}

/// In a document that tokens spell each selection set that is written has a selection.
pub fn spelled_sets_are_whole<S: ScalarValue>()
    ensures { SpelledSetsAreWhole S S.reads S.of_bool }
{}

/// Where each set of a document has a selection, so has the set of an operation once its fragments
/// are written out: in it no inline fragment has an empty set, and a field has a set exactly where
/// one was written. For this the operation's root type is there, fields are declared, conditions
/// known, each spread means a fragment, and fragments end.
pub fn written_sets_are_filled<S, C>(schema: &SchemaType<S, C>)
    ensures { WrittenSetsAreFilled (declarations_of schema.now) }
{}
