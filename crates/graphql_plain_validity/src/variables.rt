//! What the validation rules on variables say of plain documents: each function's contract is a
//! law, and its body does nothing.

ghost use Rattle.graphql_schema.specs.Declarations.{Declarations, declarations_of};
ghost use Rattle.graphql_plain_validity.specs.VariableLaws.{
  SpelledDefaultsAreConstant,
  UsesStayAllowed,
  UsesStayDefined,
  VariableNamesStayDistinct,
  VariablesStayUsed,
};

use graphql_schema::SchemaType;
use graphql_values::ScalarValue;

/// `UniqueVariableNames` finds no fault in a plain document where it finds none in the request's
/// document (5.8.1 Variable Uniqueness).
pub fn variable_names_stay_distinct<S: ScalarValue, C>()
    ensures { (schema : Declarations S C) → VariableNamesStayDistinct S.answer S.of_bool schema }
{}

/// `VariablesInAllowedPosition` likewise (5.8.5 All Variable Usages Are Allowed).
pub fn uses_stay_allowed<S: ScalarValue, C>()
    ensures { (schema : Declarations S C) → UsesStayAllowed S.answer S.of_bool schema }
{}

/// In a document that tokens spell no variable stands in a default (2.10 Variables).
pub fn spelled_defaults_are_constant<S: ScalarValue>()
    ensures { SpelledDefaultsAreConstant S S.reads S.of_bool }
{}

/// `NoUndefinedVariables` likewise, where no variable stands in a default (5.8.3 All Variable Uses
/// Defined).
pub fn uses_stay_defined<S: ScalarValue, C>()
    ensures { (schema : Declarations S C) → UsesStayDefined S.answer S.of_bool schema }
{}

/// `NoUnusedVariables` finds no fault in a plain document, where the operation's root type is
/// there, and where `FieldsOnCorrectType` and `KnownTypeNames` find none in the request's document:
/// of variables those are left that the plain set uses (5.8.4 All Variables Used).
pub fn variables_stay_used<S: ScalarValue, C>(schema: &SchemaType<S, C>)
    ensures { VariablesStayUsed S.answer S.of_bool (declarations_of schema.now) }
{}
