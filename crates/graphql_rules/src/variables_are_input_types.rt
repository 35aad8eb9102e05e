//! Variables of types of which no value can be given.

ghost use Rattle.std.specs.Prelude.{◌≡◌};
ghost use Rattle.graphql_names.specs.Names.{passes};
ghost use Rattle.graphql_occurrences.specs.Lookups.{known};
ghost use Rattle.graphql_schema.specs.Declarations.{declarations_of};
ghost use Rattle.graphql_schema.specs.Faults as faults;

use crate::kinds::is_composite;
use graphql_names::Type;
use graphql_occurrences::{Event, Node};
use graphql_schema::{SchemaScalar, SchemaType};
use graphql_text::{Text, TextRef};
use graphql_visitors::{Local, LocalRule, ValidatorContext};
use std::alloc::{AllocError, Global};

/// The type of each variable is a scalar, an enum or an input object, or lists of such (GraphQL
/// October 2021, 5.8.2 Variables Are Input Types). A type that the schema has not is left to
/// `KnownTypeNames`.
///
/// An error names the start of the type.
#[derive(Drop)]
pub struct VariablesAreInputTypes;

/// The rule, as a visitor.
pub fn factory() -> Local<VariablesAreInputTypes> {
    Local(VariablesAreInputTypes)
}

/// What is said of a variable. An error is want of memory.
fn message(alloc: Global, variable: &str, of: &Type<TextRef<'_>>) -> Result<Text, AllocError> {
    let text = format!(in alloc; "Variable \"${variable}\" cannot be of non-input type \"{of}\"")?;
    Ok(Text::from_string(text))
}

/// Whether the type of this name is known, and is an object, an interface or a union.
fn is_known_composite<S, C>(schema: &SchemaType<S, C>, name: &str) -> bool
    ensures { result ≡ passes faults.is_composite (known (declarations_of schema.now) name.now) }
{
    match schema.concrete_type_by_name(name) {
        Some(meta) => is_composite(meta),
        None => false,
    }
}

impl<S: SchemaScalar> LocalRule<S> for VariablesAreInputTypes {
    ghost use Rattle.graphql_rules.specs.VariablesAreInputTypes.{variables_are_input_types_faults};

    ghost says = { variables_are_input_types_faults };

    fn tell<'a, 't>(&self, context: &mut ValidatorContext<'a, 't, S>, event: &Event<'a, 't, S>) {
        if let Event::Enter(Node::VariableDefinition((variable, definition))) = event {
            let of = &definition.var_type;
            if is_known_composite(context.schema(), of.item.name.as_str()) {
                let text = message(context.alloc(), variable.item.as_str(), &of.item);
                context.report_error(text, &[of.span.start]);
            }
        }
    }
}
