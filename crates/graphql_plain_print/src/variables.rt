//! The variables that an operation still uses, and their definitions.

ghost use Rattle.std.specs.Prelude.{◌≡◌, [], ◌∷◌, ◌++◌, OnOk, not};
ghost use Rattle.std.specs.List.{flat_map};
ghost use Rattle.std.specs.String.{string_bytes};
ghost use Rattle.graphql_names.specs.Names.{is_one_of};
ghost use Rattle.graphql_values.specs.Variables.{names_of_variables as variables_of};
ghost use Rattle.graphql_plain_tree.specs.PlainOperations.{definitions_used, variables_given};
ghost use Rattle.graphql_plain_tree.specs.PlainOperations.{without_directives};
ghost use Rattle.graphql_plain_text.specs.TreeTokens.{default_tokens, in_parentheses};
ghost use Rattle.graphql_plain_text.specs.TreeTokens.{variable_tokens};
ghost use Rattle.graphql_plain_print.specs.Adding.{AddsTokens};
ghost use Rattle.graphql_plain_text.specs.SpanTokens.{tokens_within};
ghost use Rattle.graphql_plain_print.specs.NameSets.{AreSame, is_nothing};

use crate::words::{push_within, push_word};
use graphql_lexer::TokenRecords;
use graphql_text::{Spanning, TextRef};
use graphql_tree::VariableDefinition;
use graphql_values::InputValue;
use std::alloc::{AllocError, Global};
use std::collections::HashSet;

/// Adds a name.
fn add<'d>(used: &mut HashSet<TextRef<'d>>, name: TextRef<'d>) -> Result<(), AllocError>
    ensures { OnOk result (AreSame used.new.keys (used.old.keys ++ name.entry ∷ [])) }
{
    used.insert(name)?;
    Ok(())
}

/// Adds the names of the variables in a value.
fn add_of_value<'d, S>(
    alloc: Global,
    used: &mut HashSet<TextRef<'d>>,
    value: &'d InputValue<S>,
) -> Result<(), AllocError>
    ensures { OnOk result (AreSame used.new.keys (used.old.keys ++ variables_of value.now)) }
{
    let names = value.referenced_variables(alloc)?;
    for name in names.as_slice() {
        add(used, name.copied())?;
    }
    Ok(())
}

/// Adds the names of the variables in the values of arguments.
pub(crate) fn add_used<'d, S>(
    alloc: Global,
    used: &mut HashSet<TextRef<'d>>,
    arguments: &'d [(Spanning<TextRef<'_>>, Spanning<InputValue<S>>)],
) -> Result<(), AllocError>
    ensures { OnOk result (AreSame used.new.keys (used.old.keys ++ variables_given arguments.now)) }
{
    for argument in arguments {
        add_of_value(alloc, used, &argument.1.item)?;
    }
    Ok(())
}

/// The default value of a variable, if it has one.
fn push_default<S>(
    text: &mut String,
    tokens: &TokenRecords<'_>,
    value: &Option<Spanning<InputValue<S>>>,
) -> Result<(), AllocError>
    ensures { OnOk result (AddsTokens (string_bytes text.old) (string_bytes text.new)
        (default_tokens (tokens_within tokens.now.tokens) value.now)) }
{
    match value {
        Some(value) => {
            push_word(text, "=")?;
            push_within(text, tokens, value.span)?;
            Ok(())
        }
        None => Ok(()),
    }
}

/// The definition of a variable, without its directives.
fn push_definition<S>(
    text: &mut String,
    tokens: &TokenRecords<'_>,
    definition: &(Spanning<TextRef<'_>>, VariableDefinition<'_, S>),
) -> Result<(), AllocError>
    ensures { OnOk result (AddsTokens (string_bytes text.old) (string_bytes text.new)
        (variable_tokens (tokens_within tokens.now.tokens) (without_directives definition.now))) }
{
    push_word(text, "$")?;
    push_word(text, definition.0.item.as_str())?;
    push_word(text, ":")?;
    push_within(text, tokens, definition.1.var_type.span)?;
    push_default(text, tokens, &definition.1.default_value)?;
    Ok(())
}

/// Whether the variable of this name is used.
pub(crate) fn is_used(used: &HashSet<TextRef<'_>>, name: &str) -> bool
    ensures { result ≡ is_one_of used.now.keys name.now }
{
    (&*used).contains(&TextRef::new(name))
}

/// Whether one of the variables is used.
fn is_one_used<S>(
    definitions: &[(Spanning<TextRef<'_>>, VariableDefinition<'_, S>)],
    used: &HashSet<TextRef<'_>>,
) -> bool
    ensures { is_nothing (definitions_used used.now.keys definitions.now) ≡ not result }
{
    for definition in definitions {
        if is_used(used, definition.0.item.as_str()) {
            return true;
        }
    }
    false
}

/// The definition of a variable, if it is used.
fn push_if_used<S>(
    text: &mut String,
    tokens: &TokenRecords<'_>,
    definition: &(Spanning<TextRef<'_>>, VariableDefinition<'_, S>),
    used: &HashSet<TextRef<'_>>,
) -> Result<(), AllocError>
    ensures { OnOk result (AddsTokens (string_bytes text.old) (string_bytes text.new)
        (flat_map (variable_tokens (tokens_within tokens.now.tokens))
        (definitions_used used.now.keys (definition.now ∷ [])))) }
{
    if !is_used(used, definition.0.item.as_str()) {
        return Ok(());
    }
    push_definition(text, tokens, definition)
}

/// The definitions of the variables that are used, in order, in their parentheses; nothing where
/// none is.
pub(crate) fn push_definitions<S>(
    text: &mut String,
    tokens: &TokenRecords<'_>,
    definitions: &[(Spanning<TextRef<'_>>, VariableDefinition<'_, S>)],
    used: &HashSet<TextRef<'_>>,
) -> Result<(), AllocError>
    ensures { OnOk result (AddsTokens (string_bytes text.old) (string_bytes text.new)
        (in_parentheses (variable_tokens (tokens_within tokens.now.tokens))
        (definitions_used used.now.keys definitions.now))) }
{
    if !is_one_used(definitions, used) {
        return Ok(());
    }
    push_word(text, "(")?;
    for definition in definitions {
        push_if_used(text, tokens, definition, used)?;
    }
    push_word(text, ")")?;
    Ok(())
}
