//! Why an operation does not accept the values of a request's variables, in words.

ghost use Rattle.std.specs.Prelude.{◌≡◌, ◌↔◌, [], IfOk, MatchOption, true};
ghost use Rattle.std.specs.HashMap.{get_by_text};
ghost use Rattle.std.specs.List.Sorted.{IsSorted};
ghost use Rattle.graphql_literal_checks.specs.Conforms.{Conforms};
ghost use Rattle.graphql_literal_checks.specs.declared.source.Source.TheVariants.{Sent};
ghost use Rattle.graphql_rule_errors.specs.Places.{places};
ghost use Rattle.graphql_tree.specs.Documents.{variables_in};
ghost use Rattle.graphql_variable_checks.specs.Accepted as spec;

use graphql_literal_checks::{Source, validate_value};
use graphql_rule_errors::{RuleError, report};
use graphql_schema::{Meaning, SchemaScalar, SchemaType};
use graphql_text::{Items, Spanning, TextRef};
use graphql_tree::Operation;
use graphql_values::{InputValue, Type, Variables};
use graphql_written_out::{Variable, definitions_of};
use std::alloc::{AllocError, Global};

/// The errors of the values that a request gives for the variables of an operation (GraphQL October
/// 2021, 6.1.2 Coercing Variable Values): one for each definition that does not accept what is
/// given for its name, at the start of the definition. There is none exactly where each definition
/// accepts what is given. They stand in order: by their places, then by their messages.
///
/// A value that is given is accepted where it conforms to the variable's type; a text names an
/// enum's value there. A `null` is a value that is given, so a type without `null` refuses it, also
/// where a default stands. An absent value is accepted where the type is nullable or a default
/// stands. Values of names that the operation does not define are passed over. A variable in a
/// value conforms to each type; the values of a request have none.
///
/// A definition of a type that the schema has not is passed over too, whatever is given: it is left
/// to `KnownTypeNames`. `validate_value` would refuse each scalar, enum value and object at such a
/// type.
///
/// The texts are `Variable "$v" of type "T" was not provided` and `Variable "$v" got an invalid
/// value, reason: r`, with the type as it is written, and the reason that `validate_value` gives.
///
/// Takes time in proportion to the definitions, to the look-ups of their types by name and to what
/// `validate_value` takes for the values, and sorts the errors. An error of the call is want of
/// memory.
pub fn validate_input_values<'t, S: SchemaScalar>(
    alloc: Global,
    variables: &Variables<S>,
    operation: &Spanning<Operation<'t, S>>,
    schema: &SchemaType<S>,
) -> Result<Items<RuleError>, AllocError>
    ensures told { IfOk result
        (λ errors. spec.ValuesTold ⟦<S as Meaning>⟧.meaning schema.now.types (get_by_text
        variables.now) (variables_in operation.now.item.variable_definitions) (places errors)) }
    ensures none { IfOk result
        (λ errors. (errors ≡ [])
        ↔ spec.AreAccepted ⟦<S as Meaning>⟧.meaning schema.now.types
        (get_by_text variables.now) (variables_in operation.now.item.variable_definitions)) }
    ensures sorted { IfOk result (IsSorted ⟦<RuleError as Ord>⟧.cmp) }
{
    let found = errors_of_definitions(alloc, variables, operation, schema)?;
    let mut errors = found.into_vec();
    errors.sort_unstable();
    Ok(Items::from_vec(errors))
}

/// The same errors in the order of the definitions.
fn errors_of_definitions<'t, S: SchemaScalar>(
    alloc: Global,
    variables: &Variables<S>,
    operation: &Spanning<Operation<'t, S>>,
    schema: &SchemaType<S>,
) -> Result<Items<RuleError>, AllocError>
    ensures told { IfOk result
        (λ errors. spec.Refusals ⟦<S as Meaning>⟧.meaning schema.now.types (get_by_text
        variables.now) (variables_in operation.now.item.variable_definitions) (places errors)) }
    ensures none { IfOk result
        (λ errors. (errors ≡ [])
        ↔ spec.AreAccepted ⟦<S as Meaning>⟧.meaning schema.now.types
        (get_by_text variables.now) (variables_in operation.now.item.variable_definitions)) }
{
    let mut errors = Items::new(alloc);
    let definitions = definitions_of(&operation.item);
    'definitions: for variable in definitions {
        if let Some(message) = refusal(alloc, variables, schema, variable)? {
            report(alloc, &mut errors, message, &[variable.0.span.start])?;
        }
    }
    Ok(errors)
}

/// Why a definition does not accept what is given for its name; `None` where it does. An error is
/// want of memory.
fn refusal<'t, S: SchemaScalar>(
    alloc: Global,
    variables: &Variables<S>,
    schema: &SchemaType<S>,
    variable: &Variable<'t, S>,
) -> Result<Option<String>, AllocError>
    ensures { IfOk result (λ reason. MatchOption reason
        (spec.IsAccepted ⟦<S as Meaning>⟧.meaning schema.now.types (get_by_text variables.now)
        variable.now)
        (λ _. spec.IsAccepted ⟦<S as Meaning>⟧.meaning schema.now.types
        (get_by_text variables.now) variable.now → ⊥)) }
{
    let name = variable.0.item.as_str();
    let asked = &variable.1.var_type.item;
    if schema.concrete_type_by_name(asked.name.as_str()).is_none() {
        return Ok(None);
    }
    match variables.get(name) {
        Some(value) => refusal_of_value(alloc, schema, name, asked, value),
        None => refusal_of_absence(alloc, variable),
    }
}

/// Why a value that is given does not conform to the type of its variable; `None` where it does. An
/// error is want of memory.
fn refusal_of_value<S: SchemaScalar>(
    alloc: Global,
    schema: &SchemaType<S>,
    name: &str,
    asked: &Type<TextRef<'_>>,
    value: &InputValue<S>,
) -> Result<Option<String>, AllocError>
    ensures { IfOk result (λ reason. MatchOption reason
        (Conforms ⟦<S as Meaning>⟧.meaning schema.now.types Sent asked.now value.now)
        (λ _. Conforms ⟦<S as Meaning>⟧.meaning schema.now.types Sent asked.now value.now → ⊥)) }
{
    match validate_value(alloc, schema, Source::Sent, asked, value)? {
        Some(reason) => {
            let message = format!(in alloc;
                "Variable \"${name}\" got an invalid value, reason: {reason}"
            )?;
            Ok(Some(message))
        }
        None => Ok(None),
    }
}

/// Why a variable needs a value; `None` where it may be absent. An error is want of memory.
fn refusal_of_absence<'t, S>(
    alloc: Global,
    variable: &Variable<'t, S>,
) -> Result<Option<String>, AllocError>
    ensures { IfOk result (λ reason. MatchOption reason (spec.may_be_absent variable.now ≡ true)
        (λ _. spec.may_be_absent variable.now ≡ true → ⊥)) }
{
    let (name, definition) = variable;
    let asked = &definition.var_type.item;
    if !asked.is_non_null() || definition.default_value.is_some() {
        return Ok(None);
    }
    let name = name.item.as_str();
    let message = format!(in alloc; "Variable \"${name}\" of type \"{asked}\" was not provided")?;
    Ok(Some(message))
}
