//! Variables where they are not allowed (GraphQL October 2021, 5.8.5 All Variable Usages Are
//! Allowed).

ghost use Rattle.std.specs.Prelude.{◌≡◌, ◌∷◌, [], OnOk, map, not, false};
ghost use Rattle.std.specs.List.{flat_map};
ghost use Rattle.std.specs.Option.{option_map};
ghost use Rattle.graphql_text.specs.Memory.{Gives};
ghost use Rattle.graphql_schema.specs.Subtypes.{is_subtype};
ghost use Rattle.graphql_schema.specs.Types.{refuses_null};
ghost use Rattle.graphql_occurrences.specs.Lent.{lent_input, literal_of};
ghost use Rattle.graphql_occurrences.specs.Occurrences.{variable_part};
ghost use Rattle.graphql_rules_document.specs.Lent.{fragment_of, operation_of, use_of};
ghost use Rattle.graphql_rules_document.specs.FirstVariables.{variable_at};
ghost use Rattle.graphql_rule_errors.specs.Places.{Reports, error_if};
ghost use Rattle.graphql_rules_document.specs.VariablesInAllowedPosition as spec;

use crate::document_rule::DocumentRule;
use crate::first_variables::{Variable, first_variables};
use crate::once::Once;
use crate::{FragmentIndex, OperationScope, ReachedFragments, Use};
use graphql_names::{BorrowedType, Type, TypeModifier};
use graphql_occurrences::{InputPlace, TypeLiteral};
use graphql_rule_errors::{RuleError, report};
use graphql_schema::{SchemaScalar, SchemaType};
use graphql_text::{Items, Spanning, TextRef};
use graphql_values::InputValue;
use std::alloc::{AllocError, Global};
use std::collections::HashMap;

/// Each variable stands where values of its type are allowed (GraphQL October 2021, 5.8.5 All
/// Variable Usages Are Allowed).
///
/// An error names where the variable is defined, and where it is used.
#[derive(Drop)]
pub struct VariablesInAllowedPosition;

/// The rule, as a visitor.
pub fn factory() -> Once<VariablesInAllowedPosition>
    ensures { result.is_asked ≡ false }
{
    Once::new(VariablesInAllowedPosition)
}

/// Adds an error for each operation and each use of one of its variables that it reaches, where a
/// value of the variable's type need not be one of the type that is asked for: where the variable
/// is defined, and where it is used. Where the type that is asked for has no `null` and the
/// variable's has, a default of the variable that is not `null`, or one of the place, stands in for
/// it; but at the one field that is given of an input object no default helps, and its type is
/// asked for without `null`. Nothing is said where it is not known which type is asked for. Takes
/// time in proportion to the operations times the fragments, and to what each operation reaches. An
/// error of the call is want of memory.
pub fn variables_in_allowed_position<'a, 't, S, C>(
    alloc: Global,
    schema: &SchemaType<S, C>,
    operations: &[OperationScope<'a, 't, S>],
    index: &FragmentIndex<'_, 'a>,
    errors: &mut Items<RuleError>,
) -> Result<(), AllocError>
    ensures { OnOk result
        (Reports (spec.variables_in_allowed_position_faults schema.now.types (map operation_of
        operations.now) (map fragment_of index.now.fragments.now)) errors.old errors.new) }
{
    let mut reached = ReachedFragments::new(alloc);
    'operations: for operation in operations {
        report_operation(alloc, schema, &mut reached, index, operation, errors)?;
    }
    Ok(())
}

/// The errors of one operation.
fn report_operation<'a, 't, S, C>(
    alloc: Global,
    schema: &SchemaType<S, C>,
    reached: &mut ReachedFragments,
    index: &FragmentIndex<'_, 'a>,
    operation: &OperationScope<'a, 't, S>,
    errors: &mut Items<RuleError>,
) -> Result<(), AllocError>
    ensures { OnOk result (Reports (spec.disallowed_in schema.now.types (map fragment_of
        index.now.fragments.now) (operation_of operation.now)) errors.old errors.new) }
{
    let uses = reached.uses(alloc, index, operation)?;
    let first = first_variables(alloc, operation.defined)?;
    report_uses(alloc, schema, &first, uses.as_slice(), errors)
}

/// The errors for these uses, by the variables that are defined.
fn report_uses<'t, S, C>(
    alloc: Global,
    schema: &SchemaType<S, C>,
    first: &HashMap<&str, &Variable<'t, S>>,
    uses: &[Use<'_>],
    errors: &mut Items<RuleError>,
) -> Result<(), AllocError>
    ensures { OnOk result (Reports (flat_map (λ u. spec.disallowed_by schema.now.types
        (variable_at first.now u.name) u) (map use_of uses.now)) errors.old errors.new) }
{
    'uses: for used in uses {
        let variable = first.get(used.name).copied();
        report_use(alloc, schema, variable, used, errors)?;
    }
    Ok(())
}

/// The error for a use of a variable, if it is defined and the use is not allowed.
fn report_use<'t, S, C>(
    alloc: Global,
    schema: &SchemaType<S, C>,
    variable: Option<&Variable<'t, S>>,
    used: &Use<'_>,
    errors: &mut Items<RuleError>,
) -> Result<(), AllocError>
    ensures { OnOk result (Reports (spec.disallowed_by schema.now.types (option_map
        (λ v. variable_part v.now) variable.entry) (use_of used.now)) errors.old errors.new) }
{
    match variable {
        Some(variable) => match used.at {
            Some(place) => report_at(alloc, schema, variable, used, place, errors),
            None => Ok(()),
        },
        None => Ok(()),
    }
}

/// The error for a use of a variable at this place, if it is not allowed.
fn report_at<'t, S, C>(
    alloc: Global,
    schema: &SchemaType<S, C>,
    variable: &Variable<'t, S>,
    used: &Use<'_>,
    place: InputPlace<'_>,
    errors: &mut Items<RuleError>,
) -> Result<(), AllocError>
    ensures { OnOk result (Reports (error_if
        (not (spec.is_allowed schema.now.types (variable_part variable.now)
        (lent_input place.entry)))
        (variable.now.0.span.start ∷ used.now.place ∷ [])) errors.old errors.new) }
{
    if is_allowed(schema, variable, place) {
        return Ok(());
    }
    let message = message_of(alloc, variable, place)?;
    report(alloc, errors, message, &[variable.0.span.start, used.place])
}

/// Whether a variable may stand at a place.
fn is_allowed<'t, S, C>(
    schema: &SchemaType<S, C>,
    variable: &Variable<'t, S>,
    place: InputPlace<'_>,
) -> bool
    ensures { result
        ≡ spec.is_allowed schema.now.types (variable_part variable.now) (lent_input place.entry) }
{
    let defined = TypeLiteral::of_document(&variable.1.var_type.item);
    if place.is_only_field {
        return is_below_without_null(schema, defined, place.asked);
    }
    if refuses_null(place.asked) && !refuses_null(defined) {
        (has_value(&variable.1.default_value) || place.has_default)
            && is_below(schema, defined, with_null(place.asked))
    } else {
        is_below(schema, defined, place.asked)
    }
}

/// Whether there is a default that is not `null`.
fn has_value<S>(default: &Option<Spanning<InputValue<S>>>) -> bool
    ensures { result ≡ spec.has_value default.now }
{
    match default {
        Some(default) => match &default.item {
            InputValue::Null => false,
            _ => true,
        },
        None => false,
    }
}

/// Whether each value of a variable's type is one of the type that is asked for.
fn is_below<S, C>(
    schema: &SchemaType<S, C>,
    defined: TypeLiteral<'_>,
    asked: TypeLiteral<'_>,
) -> bool
    ensures { result
        ≡ is_subtype schema.now.types (literal_of defined.entry) (literal_of asked.entry) }
{
    schema.is_subtype(&borrowed(defined), &borrowed(asked))
}

/// The same where the type is asked for without `null`: the variable's type has no `null` either,
/// and with `null` it is below the other with `null`.
fn is_below_without_null<S, C>(
    schema: &SchemaType<S, C>,
    defined: TypeLiteral<'_>,
    asked: TypeLiteral<'_>,
) -> bool
    ensures { result
        ≡ is_subtype schema.now.types (literal_of defined.entry)
        (spec.without_null (literal_of asked.entry)) }
{
    refuses_null(defined) && is_below(schema, with_null(defined), with_null(asked))
}

/// Whether `null` is no value of the type.
fn refuses_null(literal: TypeLiteral<'_>) -> bool
    ensures { result ≡ refuses_null (literal_of literal.entry) }
{
    borrowed(literal).is_non_null()
}

/// The same type with `null` among its values.
fn with_null<'a>(literal: TypeLiteral<'a>) -> TypeLiteral<'a>
    ensures { literal_of result ≡ spec.with_null (literal_of literal.entry) }
{
    match literal.modifiers.split_last() {
        Some((TypeModifier::NonNull, within)) => TypeLiteral {
            name: literal.name,
            modifiers: within,
        },
        Some((TypeModifier::List(_), _)) => literal,
        None => literal,
    }
}

/// The type, as one that is lent.
fn borrowed<'a>(literal: TypeLiteral<'a>) -> BorrowedType<'a>
    ensures name { result.name ≡ literal.entry.name.now }
    ensures modifiers { result.modifiers.now ≡ literal.entry.modifiers.now }
{
    Type {
        name: TextRef::new(literal.name),
        modifiers: literal.modifiers,
    }
}

/// The type that is asked for at a place: without `null` at the one field of an input object. An
/// error is want of memory.
fn expected_at<'a>(alloc: Global, place: InputPlace<'a>) -> Result<Type<TextRef<'a>>, AllocError>
    ensures { Gives result (spec.expected_at (lent_input place.entry)) }
{
    let mut modifiers = Items::new(alloc);
    modifiers.extend_from_slice(place.asked.modifiers)?;
    let asked = Type {
        name: TextRef::new(place.asked.name),
        modifiers,
    };
    if place.is_only_field {
        asked.nullable().wrap_non_null()
    } else {
        Ok(asked)
    }
}

/// What is said of a variable at this place. An error is want of memory.
fn message_of<S>(
    alloc: Global,
    variable: &Variable<'_, S>,
    place: InputPlace<'_>,
) -> Result<String, AllocError> {
    let name = variable.0.item.as_str();
    let defined = &variable.1.var_type.item;
    let expected = expected_at(alloc, place)?;
    format!(in alloc;
        "Variable \"${name}\" of type \"{defined}\" used in position expecting type \"{expected}\""
    )
}

impl<S: SchemaScalar> DocumentRule<S> for VariablesInAllowedPosition {
    ghost use Rattle.std.specs.Prelude.{OnOk, map};
    ghost use Rattle.graphql_rule_errors.specs.Places.{Reports};
    ghost use Rattle.graphql_rules_document.specs.VariablesInAllowedPosition.{variables_in_allowed_position_faults};
    ghost use Rattle.graphql_rules_document.specs.Lent.{fragment_of, operation_of};

    ghost says = { λ types operations fragments.
        variables_in_allowed_position_faults types operations fragments };

    fn add_errors<'a, 't>(
        &self,
        alloc: Global,
        schema: &SchemaType<S>,
        operations: &[OperationScope<'a, 't, S>],
        index: &FragmentIndex<'_, 'a>,
        errors: &mut Items<RuleError>,
    ) -> Result<(), AllocError>
        ensures { let held = map operation_of operations.now in
            let fragments = map fragment_of index.now.fragments.now in
            OnOk result (Reports (variables_in_allowed_position_faults schema.now.types held
            fragments) errors.old errors.new) }
    {
        variables_in_allowed_position(alloc, schema, operations, index, errors)
    }
}
