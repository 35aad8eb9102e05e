//! Texts of the same tokens, over a service.

ghost use Rattle.std.specs.Prelude.{Option};
ghost use Rattle.std.specs.Str.{chars};
ghost use Rattle.graphql_names.specs.Names.{Bytes};
ghost use Rattle.graphql_values.specs.declared.input_value.InputValue.{InputValue};
ghost use Rattle.graphql_service.specs.PlainRequests.{asked_at};
ghost use Rattle.graphql_law_rows.specs.SampleTokens.{one_line, two_lines};
ghost use Rattle.graphql_service.specs.TokenLaws.{AreAnsweredAlike};

use graphql_executor::{GraphQLMutationValue, Meaning, Resolving};
use graphql_lexer::laws::reading_is_division;
use graphql_schema::SchemaScalar;
use graphql_service::Service;
use graphql_service::laws::same_tokens_same_answer;

/// A query of one field in two lines and in one line is refused at the same step by a service, or
/// else executed in both spellings: answered alike on each context, with one plain text within each
/// limit.
pub fn two_lines_are_answered_as_one<S: SchemaScalar, R: GraphQLMutationValue<S>>(
    service: &Service<S, R, R::Context>,
)
    ensures { (name : Option Bytes) (given : Bytes → Option (InputValue S))
        → let root = service.now.root_node in
        AreAnsweredAlike ⟦<S as Meaning>⟧.meaning (asked_at root (chars two_lines) name given)
        (asked_at root (chars one_line) name given)
        (⟦<R as Resolving<S>>⟧.resolving service.now.resolver) }
{
    reading_is_division();
    same_tokens_same_answer(service);
}
