//! Words of a plain text.

ghost use Rattle.std.specs.Prelude.{◌≡◌, [], ◌∷◌, ◌++◌, OnOk, if◌then◌else◌};
ghost use Rattle.std.specs.Option.{is_some, option_map};
ghost use Rattle.std.specs.String.{string_bytes};
ghost use Rattle.graphql_text.specs.declared.token.Token.TheVariants.{Ellipsis};
ghost use Rattle.graphql_tree.specs.Documents.{arguments_in as arguments_given};
ghost use Rattle.graphql_written_out.specs.Written.{response_key};
ghost use Rattle.graphql_plain_text.specs.TreeTokens.{argument_tokens, condition_tokens};
ghost use Rattle.graphql_plain_text.specs.TreeTokens.{name_tokens, in_parentheses, skip_tokens};
ghost use Rattle.graphql_plain_print.specs.Adding.{AddsTokens};
ghost use Rattle.graphql_plain_text.specs.SpanTokens.{tokens_within};

use graphql_lexer::TokenRecords;
use graphql_text::{Span, Spanning, TextRef};
use graphql_tree::{Arguments, Field, arguments_in};
use graphql_values::InputValue;
use std::alloc::AllocError;

/// A word behind a space.
pub(crate) fn push_word(text: &mut String, word: &str) -> Result<(), AllocError>
    ensures { OnOk result (string_bytes text.new ≡ string_bytes text.old ++ (32 ∷ word.now)) }
{
    text.push_str(" ")?;
    text.push_str(word)?;
    Ok(())
}

/// The source's tokens within a span, in the source's spelling.
pub(crate) fn push_within(
    text: &mut String,
    tokens: &TokenRecords<'_>,
    span: Span,
) -> Result<(), AllocError>
    ensures { OnOk result (AddsTokens (string_bytes text.old) (string_bytes text.new)
        (tokens_within tokens.now.tokens span)) }
{
    for found in tokens.texts(span) {
        push_word(text, found.text.as_str())?;
    }
    Ok(())
}

/// The names of a field: its alias, if it has one, and its own.
fn push_names<S>(text: &mut String, field: &Field<'_, S>) -> Result<(), AllocError>
    ensures { OnOk result (AddsTokens (string_bytes text.old) (string_bytes text.new)
        (name_tokens (is_some field.now.alias) (response_key field.now.alias field.now.name)
        field.now.name.item)) }
{
    match &field.alias {
        Some(alias) => {
            push_word(text, alias.item.as_str())?;
            push_word(text, ":")?;
            push_word(text, field.name.item.as_str())?;
            Ok(())
        }
        None => {
            push_word(text, field.name.item.as_str())?;
            Ok(())
        }
    }
}

/// One argument.
fn push_argument<S>(
    text: &mut String,
    tokens: &TokenRecords<'_>,
    argument: &(Spanning<TextRef<'_>>, Spanning<InputValue<S>>),
) -> Result<(), AllocError>
    ensures { OnOk result (AddsTokens (string_bytes text.old) (string_bytes text.new)
        (argument_tokens (tokens_within tokens.now.tokens) argument.now)) }
{
    push_word(text, argument.0.item.as_str())?;
    push_word(text, ":")?;
    push_within(text, tokens, argument.1.span)?;
    Ok(())
}

/// Arguments in their parentheses, or nothing where there are none.
fn push_arguments<S>(
    text: &mut String,
    tokens: &TokenRecords<'_>,
    arguments: &[(Spanning<TextRef<'_>>, Spanning<InputValue<S>>)],
) -> Result<(), AllocError>
    ensures { OnOk result (AddsTokens (string_bytes text.old) (string_bytes text.new)
        (in_parentheses (argument_tokens (tokens_within tokens.now.tokens)) arguments.now)) }
{
    if arguments.is_empty() {
        return Ok(());
    }
    push_word(text, "(")?;
    for argument in arguments {
        push_argument(text, tokens, argument)?;
    }
    push_word(text, ")")?;
    Ok(())
}

/// What is written of a field, its directives and its set aside.
pub(crate) fn push_head<S>(
    text: &mut String,
    tokens: &TokenRecords<'_>,
    field: &Field<'_, S>,
) -> Result<(), AllocError>
    ensures { OnOk result (AddsTokens (string_bytes text.old) (string_bytes text.new)
        (name_tokens (is_some field.now.alias) (response_key field.now.alias field.now.name)
        field.now.name.item ++ in_parentheses (argument_tokens (tokens_within tokens.now.tokens))
        (arguments_given field.now.arguments))) }
{
    push_names(text, field)?;
    push_arguments(text, tokens, arguments_in(&field.arguments))?;
    Ok(())
}

/// `...`, and the condition of an inline fragment, if it has one.
pub(crate) fn push_condition(text: &mut String, on: Option<&str>) -> Result<(), AllocError>
    ensures { OnOk result
        (AddsTokens (string_bytes text.old) (string_bytes text.new) ((Ellipsis ∷ [])
        ++ condition_tokens (option_map (λ n. n.now) on.entry))) }
{
    push_word(text, "...")?;
    match on {
        Some(on) => {
            push_word(text, "on")?;
            push_word(text, on)?;
            Ok(())
        }
        None => Ok(()),
    }
}

/// `@skip(if: true)`, where a selection stands for a set of which all are left out.
pub(crate) fn push_stand_in(text: &mut String, stands_in: bool) -> Result<(), AllocError>
    ensures { OnOk result (AddsTokens (string_bytes text.old) (string_bytes text.new)
        (if stands_in then skip_tokens else [])) }
{
    if stands_in {
        text.push_str(" @ skip ( if : true )")?;
    }
    Ok(())
}
