//! What stands next, as a call has answered.

ghost use Rattle.std.specs.Prelude.{◌≡◌, None};
ghost use Rattle.graphql_law_rows.specs.OnlyAnswers.{AnsweredAlone};
ghost use Rattle.graphql_language.specs.Literals.{NextType, NextValue};

use graphql_language::laws::{type_or_refused, value_or_refused};
use graphql_language::{Parser, parse_type, parse_value_literal};
use graphql_text::{ParseResult, TextRef};
use graphql_values::{InputValue, ScalarValue, Type};

/// The value that stands next, as `parse_value_literal` gives it. Of a parser that has not failed,
/// what is answered is all that may be: where a value is read nothing is refused there, and where
/// it is refused no value is read, and there is no other fault. Errors are those of
/// `parse_value_literal`.
pub fn value_alone<S: ScalarValue>(
    parser: &mut Parser<'_>,
    is_const: bool,
) -> ParseResult<InputValue<S>>
    ensures { let rule = NextValue S S.reads S.of_bool is_const in
        parser.old.refused ≡ None → AnsweredAlone rule parser.old.input result parser.new }
{
    value_or_refused::<S>();
    parse_value_literal(parser, is_const)
}

/// The same of the type reference that stands next, as `parse_type` gives it.
pub fn type_alone<'a>(parser: &mut Parser<'a>) -> ParseResult<Type<TextRef<'a>>>
    ensures { parser.old.refused ≡ None
        → AnsweredAlone NextType parser.old.input result parser.new }
{
    type_or_refused();
    parse_type(parser)
}
