//! What parts of a schema answer, and what is answered to `__type`.

ghost use Rattle.std.specs.Prelude.{◌≡◌};
ghost use Rattle.graphql_text.specs.Memory.{Gives};
ghost use Rattle.graphql_arguments.specs.GivenValues.{arguments_told};
ghost use Rattle.graphql_introspection.specs.Answers as spec;
ghost use Rattle.graphql_introspection.specs.Parts.{part_type_name};

use crate::directive_answers::of_directive;
use crate::given::text_of;
use crate::member_answers::{of_enum_value, of_field, of_input_value};
use crate::nodes::{SchemaAnswer, bare_or_null};
use crate::part::SchemaPart;
use crate::schema_answers::of_schema;
use crate::type_answers::of_type;
use graphql_arguments::Arguments;
use graphql_field_results::Resolved;
use graphql_schema::{SchemaScalar, SchemaType};
use std::alloc::{AllocError, Global};

/// The name of the type of a part (GraphQL October 2021, 4.2 Schema Introspection).
pub fn part_type_name<S: SchemaScalar>(part: &SchemaPart<'_, S>) -> &'static str
    ensures { result.now ≡ part_type_name part.now }
{
    part.kind().name()
}

/// What a part of the schema answers for a field of its type, with these argument values; `null`
/// for a field that its type lacks. What is answered lends its parts of the schema, and takes
/// memory for texts and lists alone. An error is want of memory.
pub fn answer_of<'s, S: SchemaScalar + Drop>(
    alloc: Global,
    schema: &'s SchemaType<S>,
    part: &SchemaPart<'s, S>,
    field: &str,
    arguments: &Arguments<'_, S>,
) -> Result<SchemaAnswer<'s, S>, AllocError>
    ensures { Gives result (spec.part_answer S.of_text S.of_bool S.answer schema.now part.now
        field.now (arguments_told arguments.now)) }
{
    match part {
        SchemaPart::Schema => of_schema(alloc, schema, field),
        SchemaPart::Type(meta, wraps) => {
            of_type(alloc, schema, meta.get(), wraps.get(), field, arguments)
        }
        SchemaPart::Field(of) => of_field(alloc, schema, of.get(), field),
        SchemaPart::InputValue(of) => of_input_value(alloc, schema, of.get(), field),
        SchemaPart::EnumValue(of) => of_enum_value(alloc, of.get(), field),
        SchemaPart::Directive(of) => of_directive(alloc, of.get(), field),
    }
}

/// What is answered to `__type` with these argument values (GraphQL October 2021, 4.2 Schema
/// Introspection): the type of the text that is given as `name`; `null` where the schema has no
/// type of that name, and where no text is given.
pub fn type_asked<'s, S: SchemaScalar>(
    schema: &'s SchemaType<S>,
    arguments: &Arguments<'_, S>,
) -> SchemaAnswer<'s, S>
    ensures { result ≡ spec.type_asked S.answer schema.now.types (arguments_told arguments.now) }
{
    let Some(value) = arguments.get_input_value("name") else {
        return Resolved::Null;
    };
    let Some(name) = text_of(value) else {
        return Resolved::Null;
    };
    bare_or_null(schema.concrete_type_by_name(name))
}
