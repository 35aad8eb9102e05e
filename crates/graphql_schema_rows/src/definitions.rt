//! The productions of definitions.

ghost use Rattle.std.specs.Prelude.{◌≡◌, ◌≤◌, Ok};
ghost use Rattle.graphql_text.specs.Memory.{Gives};
ghost use Rattle.graphql_grammar.specs.declared.kind.Kind.TheVariants as k;
ghost use Rattle.graphql_grammar.specs.Kinds.{enum_names, only};
ghost use Rattle.graphql_grammar.specs.Input.{Reads, left};
ghost use Rattle.graphql_grammar.specs.Steps.{name_in, optional, some_between};
ghost use Rattle.graphql_value_syntax.specs.ReadDirectives.{default_value};
ghost use Rattle.graphql_schema_rows.specs.ReadDefinitions as spec;

use crate::written::{ArgumentDefinition, FieldDefinition, HeadDefinition, ValueDefinition};
use graphql_grammar::{Cursor, Fault, Kind, keep};
use graphql_names::Type;
use graphql_scalars::ScalarValue;
use graphql_text::{Items, Spanning, Text, TextRef, Token};
use graphql_tree::Directive;
use graphql_value_syntax::directive::directives;
use graphql_value_syntax::type_reference::type_reference;
use graphql_value_syntax::value::value;
use graphql_values::InputValue;
use std::alloc::{AllocError, Global};

/// The same type reference, with a name of its own. An error is want of memory.
fn owned(alloc: Global, found: Type<TextRef<'_>>) -> Result<Type<Text>, AllocError>
    ensures { Gives result found.entry }
{
    let name = Text::from_str(alloc, found.name.as_str())?;
    Ok(Type {
        name,
        modifiers: found.modifiers,
    })
}

/// The definition of an argument, of these parts. An error is want of memory.
fn made_argument<'a, S: Drop>(
    alloc: Global,
    description: Option<Spanning<Token<'a>>>,
    name: TextRef<'_>,
    arg_type: Spanning<Type<TextRef<'_>>>,
    default_value: Option<Spanning<InputValue<S>>>,
) -> Result<ArgumentDefinition<'a, S>, AllocError>
    ensures { Gives result
        (spec.argument_definition description.entry name.entry arg_type.entry default_value) }
{
    let name = Text::from_str(alloc, name.as_str())?;
    let arg_type = owned(alloc, arg_type.item)?;
    let default_value = match default_value {
        Some(value) => Some(value.item),
        None => None,
    };
    Ok(ArgumentDefinition {
        description,
        name,
        arg_type,
        default_value,
    })
}

/// The definition of a field, of these parts. An error is want of memory.
fn made_field<'a, S: Drop>(
    alloc: Global,
    description: Option<Spanning<Token<'a>>>,
    name: TextRef<'_>,
    arguments: Option<Items<ArgumentDefinition<'a, S>>>,
    field_type: Spanning<Type<TextRef<'_>>>,
    directives: Option<Items<Spanning<Directive<'a, S>>>>,
) -> Result<FieldDefinition<'a, S>, AllocError>
    ensures { Gives result
        (spec.field_definition description.entry name.entry arguments.entry field_type.entry
        directives.entry) }
{
    let name = Text::from_str(alloc, name.as_str())?;
    let field_type = owned(alloc, field_type.item)?;
    Ok(FieldDefinition {
        description,
        name,
        arguments,
        field_type,
        directives,
    })
}

/// The definition of a value of an enum, of these parts. An error is want of memory.
fn made_value<'a, S: Drop>(
    alloc: Global,
    description: Option<Spanning<Token<'a>>>,
    name: TextRef<'_>,
    directives: Option<Items<Spanning<Directive<'a, S>>>>,
) -> Result<ValueDefinition<'a, S>, AllocError>
    ensures { Gives result (spec.value_definition description.entry name.entry directives.entry) }
{
    let name = Text::from_str(alloc, name.as_str())?;
    Ok(ValueDefinition {
        description,
        name,
        directives,
    })
}

/// The string or the number that stands next; none where neither does.
fn description<'a>(cursor: &mut Cursor<'a>) -> Option<Spanning<Token<'a>>>
    ensures reads { spec.description cursor.old ≡ Ok (result, cursor.new) }
    ensures no_more { left cursor.new ≤ left cursor.old }
{
    if cursor.kind() != Kind::Scalar {
        return None;
    }
    let literal = cursor.peek();
    cursor.advance();
    Some(literal)
}

/// A name, but for `true`, `false` and `null` (GraphQL October 2021, 2.9.6 Enum Value).
fn value_name<'a>(alloc: Global, cursor: &mut Cursor<'a>) -> Result<TextRef<'a>, Fault>
    ensures reads { Reads (name_in enum_names cursor.old) result cursor.new }
    ensures no_more { left cursor.new ≤ left cursor.old }
{
    match cursor.kind() {
        Kind::True => Err(cursor.refuse(alloc)),
        Kind::False => Err(cursor.refuse(alloc)),
        Kind::Null => Err(cursor.refuse(alloc)),
        _ => cursor.name(alloc),
    }
}

/// The default value, behind `=`; none where there is none.
fn default_of<S: ScalarValue>(
    alloc: Global,
    cursor: &mut Cursor<'_>,
) -> Result<Option<Spanning<InputValue<S>>>, Fault>
    ensures reads { Reads (optional (only k.Equals) (default_value S.reads S.of_bool) cursor.old)
        result cursor.new }
    ensures no_more { left cursor.new ≤ left cursor.old }
{
    if cursor.kind() != Kind::Equals {
        return Ok(None);
    }
    cursor.expect(alloc, Kind::Equals)?;
    let default_value = value(alloc, cursor, true)?;
    Ok(Some(default_value))
}

/// An argument, or a field of an input object.
#[tactic(auto, unfolding(crate::specs::ReadDefinitions::argument))]
fn argument<'a, S: ScalarValue + Drop>(
    alloc: Global,
    cursor: &mut Cursor<'a>,
) -> Result<ArgumentDefinition<'a, S>, Fault>
    ensures reads { Reads (spec.argument S.reads S.of_bool cursor.old) result cursor.new }
    ensures no_more { left cursor.new ≤ left cursor.old }
{
    let described = description(cursor);
    let name = cursor.name(alloc)?;
    cursor.expect(alloc, Kind::Colon)?;
    let arg_type = type_reference(alloc, cursor)?;
    let default_value = default_of(alloc, cursor)?;
    Ok(made_argument(alloc, described, name, arg_type, default_value)?)
}

/// Arguments in parentheses, one at least.
fn argument_list<'a, S: ScalarValue + Drop>(
    alloc: Global,
    cursor: &mut Cursor<'a>,
) -> Result<Items<ArgumentDefinition<'a, S>>, Fault>
    ensures reads { Reads
        (some_between k.ParenOpen k.ParenClose (spec.argument S.reads S.of_bool) cursor.old)
        result cursor.new }
    ensures no_more { left cursor.new ≤ left cursor.old }
{
    cursor.expect(alloc, Kind::ParenOpen)?;
    let mut found = Items::new(alloc);
    keep(&mut found, argument(alloc, cursor)?)?;
    'arguments: for _turn in 0..cursor.left() {
        if cursor.eat(Kind::ParenClose) {
            return Ok(found);
        }
        keep(&mut found, argument(alloc, cursor)?)?;
    }
    Err(cursor.refuse(alloc))
}

/// The arguments of a field, where a parenthesis opens; none where there are none.
fn arguments<'a, S: ScalarValue + Drop>(
    alloc: Global,
    cursor: &mut Cursor<'a>,
) -> Result<Option<Items<ArgumentDefinition<'a, S>>>, Fault>
    ensures reads { Reads
        (optional (only k.ParenOpen) (spec.arguments S.reads S.of_bool) cursor.old)
        result cursor.new }
    ensures no_more { left cursor.new ≤ left cursor.old }
{
    if cursor.kind() != Kind::ParenOpen {
        return Ok(None);
    }
    let items = argument_list(alloc, cursor)?;
    Ok(Some(items))
}

/// A field.
#[tactic(auto, unfolding(crate::specs::ReadDefinitions::field))]
fn field<'a, S: ScalarValue + Drop>(
    alloc: Global,
    cursor: &mut Cursor<'a>,
) -> Result<FieldDefinition<'a, S>, Fault>
    ensures reads { Reads (spec.field S.reads S.of_bool cursor.old) result cursor.new }
    ensures no_more { left cursor.new ≤ left cursor.old }
{
    let described = description(cursor);
    let name = cursor.name(alloc)?;
    let arguments = arguments(alloc, cursor)?;
    cursor.expect(alloc, Kind::Colon)?;
    let field_type = type_reference(alloc, cursor)?;
    let directives = directives(alloc, cursor, true)?;
    Ok(made_field(alloc, described, name, arguments, field_type, directives)?)
}

/// A value of an enum.
#[tactic(auto, unfolding(crate::specs::ReadDefinitions::enum_value))]
fn enum_value<'a, S: ScalarValue + Drop>(
    alloc: Global,
    cursor: &mut Cursor<'a>,
) -> Result<ValueDefinition<'a, S>, Fault>
    ensures reads { Reads (spec.enum_value S.reads S.of_bool cursor.old) result cursor.new }
    ensures no_more { left cursor.new ≤ left cursor.old }
{
    let described = description(cursor);
    let name = value_name(alloc, cursor)?;
    let directives = directives(alloc, cursor, true)?;
    Ok(made_value(alloc, described, name, directives)?)
}

/// What a type's definition begins with.
#[tactic(auto, unfolding(crate::specs::ReadDefinitions::head))]
fn head<'a>(alloc: Global, cursor: &mut Cursor<'a>) -> Result<HeadDefinition<'a>, Fault>
    ensures reads { Reads (spec.head cursor.old) result cursor.new }
    ensures no_more { left cursor.new ≤ left cursor.old }
{
    let described = description(cursor);
    let name = cursor.name(alloc)?;
    let name = Text::from_str(alloc, name.as_str())?;
    Ok(HeadDefinition {
        description: described,
        name,
    })
}

/// An argument, or a field of an input object, and then the end of the text.
pub(crate) fn whole_argument<'a, S: ScalarValue + Drop>(
    alloc: Global,
    cursor: &mut Cursor<'a>,
) -> Result<ArgumentDefinition<'a, S>, Fault>
    ensures { Reads (spec.whole (spec.argument S.reads S.of_bool) cursor.old) result cursor.new }
{
    let found = argument(alloc, cursor)?;
    if cursor.kind() == Kind::EndOfFile {
        Ok(found)
    } else {
        Err(cursor.refuse(alloc))
    }
}

/// A field, and then the end of the text.
pub(crate) fn whole_field<'a, S: ScalarValue + Drop>(
    alloc: Global,
    cursor: &mut Cursor<'a>,
) -> Result<FieldDefinition<'a, S>, Fault>
    ensures { Reads (spec.whole (spec.field S.reads S.of_bool) cursor.old) result cursor.new }
{
    let found = field(alloc, cursor)?;
    if cursor.kind() == Kind::EndOfFile {
        Ok(found)
    } else {
        Err(cursor.refuse(alloc))
    }
}

/// A value of an enum, and then the end of the text.
pub(crate) fn whole_enum_value<'a, S: ScalarValue + Drop>(
    alloc: Global,
    cursor: &mut Cursor<'a>,
) -> Result<ValueDefinition<'a, S>, Fault>
    ensures { Reads (spec.whole (spec.enum_value S.reads S.of_bool) cursor.old) result cursor.new }
{
    let found = enum_value(alloc, cursor)?;
    if cursor.kind() == Kind::EndOfFile {
        Ok(found)
    } else {
        Err(cursor.refuse(alloc))
    }
}

/// What a type's definition begins with, and then the end of the text.
pub(crate) fn whole_head<'a>(
    alloc: Global,
    cursor: &mut Cursor<'a>,
) -> Result<HeadDefinition<'a>, Fault>
    ensures { Reads (spec.whole spec.head cursor.old) result cursor.new }
{
    let found = head(alloc, cursor)?;
    if cursor.kind() == Kind::EndOfFile {
        Ok(found)
    } else {
        Err(cursor.refuse(alloc))
    }
}
