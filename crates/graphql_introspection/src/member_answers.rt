//! What fields, arguments and values of enums answer (GraphQL October 2021, 4.2.3 to 4.2.5).

ghost use Rattle.std.specs.Prelude.{◌≡◌};
ghost use Rattle.graphql_text.specs.Memory.{Gives};
ghost use Rattle.graphql_introspection.specs.MemberAnswers as spec;

use crate::leaves::{default_text, description, text, text_or_null, truth};
use crate::nodes::{SchemaAnswer, arguments, referred};
use crate::told::is_deprecated;
use graphql_field_results::Resolved;
use graphql_schema::{Argument, EnumValue, Field, SchemaScalar, SchemaType};
use std::alloc::{AllocError, Global};

/// What a field of an object or an interface answers. An error is want of memory.
pub fn of_field<'s, S: SchemaScalar + Drop>(
    alloc: Global,
    schema: &'s SchemaType<S>,
    of: &'s Field<S>,
    field: &str,
) -> Result<SchemaAnswer<'s, S>, AllocError>
    ensures { Gives result (spec.of_field S.of_text S.of_bool schema.now.types of.now field.now) }
{
    match field {
        "name" => text(alloc, of.name.as_str()),
        "description" => description(alloc, &of.description),
        "args" => arguments(alloc, of.arguments()),
        "type" => Ok(referred(schema, &of.field_type)),
        "isDeprecated" => Ok(truth(is_deprecated(&of.deprecation_status))),
        "deprecationReason" => text_or_null(alloc, of.deprecation_status.reason()),
        _ => Ok(Resolved::Null),
    }
}

/// What an argument, or a field of an input object, answers. An error is want of memory.
pub fn of_input_value<'s, S: SchemaScalar + Drop>(
    alloc: Global,
    schema: &'s SchemaType<S>,
    of: &'s Argument<S>,
    field: &str,
) -> Result<SchemaAnswer<'s, S>, AllocError>
    ensures { Gives result
        (spec.of_input_value S.of_text S.answer schema.now.types of.now field.now) }
{
    match field {
        "name" => text(alloc, of.name.as_str()),
        "description" => description(alloc, &of.description),
        "type" => Ok(referred(schema, &of.arg_type)),
        "defaultValue" => default_text(alloc, &of.default_value),
        _ => Ok(Resolved::Null),
    }
}

/// What a value of an enum answers. An error is want of memory.
pub fn of_enum_value<'s, S: SchemaScalar + Drop>(
    alloc: Global,
    of: &'s EnumValue,
    field: &str,
) -> Result<SchemaAnswer<'s, S>, AllocError>
    ensures { Gives result (spec.of_enum_value S.of_text S.of_bool of.now field.now) }
{
    match field {
        "name" => text(alloc, of.name.as_str()),
        "description" => description(alloc, &of.description),
        "isDeprecated" => Ok(truth(is_deprecated(&of.deprecation_status))),
        "deprecationReason" => text_or_null(alloc, of.deprecation_status.reason()),
        _ => Ok(Resolved::Null),
    }
}
